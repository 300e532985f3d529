//! A monitor before any snapshot.

ghost use Rattle.std.specs.Prelude.{◌≡◌, ◌+◌, ◌≤◌, if◌then◌else◌, not, false, length};
ghost use Rattle.std.specs.Prelude.{Err, IfOk, OnOk};
ghost use Rattle.dl_syntax.specs.Ontology.{IsOntology};
ghost use Rattle.tcq_syntax.specs.Histories.{empty_history};
ghost use Rattle.tcq_syntax.specs.Within.{AreWithin};
ghost use Rattle.monitor_core.specs.Planning.{SeesLeaves, SeesClashes, IsPlan};
ghost use Rattle.saturate.specs.Sight.{KeepsSight};
ghost use Rattle.monitor_core.specs.Opening.{HasMoreRewritings};
ghost use Rattle.monitor_core.specs.Keeping.{AllFresh, IsState};
ghost use Rattle.monitor_core.specs.Standing.{Stands, setting_of, no_history};

use crate::gathering::{Rewritten, rewrite_all};
use crate::monitor::Monitor;
use crate::plan::{Leaf, Plan};
use crate::state::{State, state_of};
use consistency::Clashes;
use dl_syntax::{Kind, Memory, Ontology};
use perfect_ref::RewriteFault;
use progression::{Kept, start};
use saturate::{Saturator, Sight, see};
use std::alloc::Global;
use tcq_syntax::Query;

/// What is kept of each query before any snapshot.
fn all_started(alloc: Global, queries: &[Query]) -> Result<Vec<Kept>, Memory>
    ensures { IfOk result (λ kept. AllFresh queries.now kept.items) }
{
    let mut kept = Vec::with_capacity(alloc, queries.len())?;
    for _query in queries {
        kept.push(start(alloc))?;
    }
    Ok(kept)
}

/// Looks at the predicates of the leaves' cores too.
fn see_leaves(sight: &mut Sight, leaves: &[Leaf]) -> Result<(), Memory>
    ensures { OnOk result (SeesLeaves sight.new leaves.now) }
{
    for leaf in leaves {
        see(sight, leaf.core.as_slice())?;
    }
    Ok(())
}

/// Looks at the predicates of the clashes' cores too.
fn see_clashes(sight: &mut Sight, clashes: &Clashes) -> Result<(), Memory>
    ensures seen { OnOk result (SeesClashes sight.new clashes.now) }
    ensures kept { OnOk result (KeepsSight sight.old sight.new) }
{
    for place in 0..clashes.count() {
        see(sight, clashes.core(place))?;
    }
    Ok(())
}

/// The predicates of the leaves' and of the clashes' cores.
fn sight_of(alloc: Global, leaves: &[Leaf], clashes: &Clashes) -> Result<Sight, Memory>
    ensures leaves { IfOk result (λ sight. SeesLeaves sight leaves.now) }
    ensures clashes { IfOk result (λ sight. SeesClashes sight clashes.now) }
{
    let mut sight = Sight::none(alloc);
    see_leaves(&mut sight, leaves)?;
    see_clashes(&mut sight, clashes)?;
    Ok(sight)
}

/// The individuals, and where names may come the stranger.
fn slots_for(ontology: &Ontology, strangers: bool) -> u32
    ensures slots { result ≡ length ontology.now.individuals + (if strangers then 1 else 0) }
    ensures least { length ontology.now.individuals ≤ result }
    ensures most { result ≤ length ontology.now.individuals + 1 }
    ensures sound { IsOntology ontology.now }
{
    let count = ontology.count(Kind::Individual);
    if strangers { count + 1 } else { count }
}

/// The plan for the queries under the ontology, with a slot for the stranger where names may come.
fn plan_of(
    alloc: Global,
    ontology: Ontology,
    queries: Vec<Query>,
    room: u32,
    strangers: bool,
) -> Result<Plan, RewriteFault>
    requires { AreWithin ontology queries.items }
    ensures plan { IfOk result IsPlan }
    ensures ontology { IfOk result (λ plan. plan.ontology ≡ ontology) }
    ensures queries { IfOk result (λ plan. plan.queries ≡ queries) }
    ensures slots { IfOk result (λ plan.
        plan.slots ≡ length ontology.individuals + (if strangers then 1 else 0)) }
    ensures within { IfOk result (λ _. HasMoreRewritings ontology queries.items room → ⊥) }
    ensures many { result ≡ Err RewriteFault.TooManyRewritings →
        HasMoreRewritings ontology queries.items room }
{
    let rewritten = match rewrite_all(alloc, &ontology, queries.as_slice(), room) {
        Ok(rewritten) => rewritten,
        Err(fault) => return Err(fault),
    };
    let Rewritten {
        leaves,
        places,
        clashes,
    } = rewritten;
    let saturator = match Saturator::new(alloc, &ontology) {
        Ok(saturator) => saturator,
        Err(_) => return Err(RewriteFault::Memory),
    };
    let sight = match sight_of(alloc, leaves.as_slice(), &clashes) {
        Ok(sight) => sight,
        Err(_) => return Err(RewriteFault::Memory),
    };
    let slots = slots_for(&ontology, strangers);
    Ok(Plan {
        ontology,
        queries,
        slots,
        leaves,
        places,
        clashes,
        saturator,
        sight,
    })
}

/// The state before any snapshot.
pub(crate) fn first_state(alloc: Global, queries: &[Query]) -> Result<State, Memory>
    ensures state { IfOk result IsState }
    ensures count { IfOk result (λ state. state.count ≡ 0) }
    ensures kept { IfOk result (λ state. AllFresh queries.now state.kept.items) }
{
    let kept = all_started(alloc, queries)?;
    state_of(alloc, 0, kept)
}

/// Whether the leaves of the queries and the clashes reach at most `room` queries in all, each leaf
/// and each clash counted by itself: `TooManyRewritings` comes exactly where they reach more.
pub fn check_reach(
    alloc: Global,
    ontology: &Ontology,
    queries: &[Query],
    room: u32,
) -> Result<(), RewriteFault>
    requires { AreWithin ontology.now queries.now }
    ensures within { OnOk result (HasMoreRewritings ontology.now queries.now room → ⊥) }
    ensures many { result ≡ Err RewriteFault.TooManyRewritings →
        HasMoreRewritings ontology.now queries.now room }
{
    match rewrite_all(alloc, ontology, queries, room) {
        Ok(_) => Ok(()),
        Err(fault) => Err(fault),
    }
}

/// The monitor of these queries under the ontology, before any snapshot and any name.
fn opened(
    alloc: Global,
    ontology: Ontology,
    queries: Vec<Query>,
    room: u32,
    strangers: bool,
) -> Result<Monitor, RewriteFault>
    requires { AreWithin ontology queries.items }
    ensures stands { IfOk result (λ monitor. Stands monitor (empty_history (not strangers))) }
    ensures setting { IfOk result (λ monitor.
        setting_of monitor ≡ record { ontology = ontology; queries = queries.items }) }
    ensures within { IfOk result (λ _. HasMoreRewritings ontology queries.items room → ⊥) }
    ensures many { result ≡ Err RewriteFault.TooManyRewritings →
        HasMoreRewritings ontology queries.items room }
{
    let plan = match plan_of(alloc, ontology, queries, room, strangers) {
        Ok(plan) => plan,
        Err(fault) => return Err(fault),
    };
    let made = Vec::new(alloc);
    match first_state(alloc, plan.queries.as_slice()) {
        Ok(state) => Ok(Monitor {
            plan,
            state,
            strangers,
            declared: 0,
            made,
        }),
        Err(_) => Err(RewriteFault::Memory),
    }
}

/// The monitor of these queries under the ontology, before any snapshot and any name, where names
/// may come. The refusals are those of `check_reach`.
pub fn open(
    alloc: Global,
    ontology: Ontology,
    queries: Vec<Query>,
    room: u32,
) -> Result<Monitor, RewriteFault>
    requires { AreWithin ontology queries.items }
    ensures stands { IfOk result (λ monitor. Stands monitor (empty_history false)) }
    ensures setting { IfOk result (λ monitor.
        setting_of monitor ≡ record { ontology = ontology; queries = queries.items }) }
    ensures within { IfOk result (λ _. HasMoreRewritings ontology queries.items room → ⊥) }
    ensures many { result ≡ Err RewriteFault.TooManyRewritings →
        HasMoreRewritings ontology queries.items room }
{
    opened(alloc, ontology, queries, room, true)
}

/// The same where no name may come.
pub fn open_closed(
    alloc: Global,
    ontology: Ontology,
    queries: Vec<Query>,
    room: u32,
) -> Result<Monitor, RewriteFault>
    requires { AreWithin ontology queries.items }
    ensures stands { IfOk result (λ monitor. Stands monitor no_history) }
    ensures setting { IfOk result (λ monitor.
        setting_of monitor ≡ record { ontology = ontology; queries = queries.items }) }
    ensures within { IfOk result (λ _. HasMoreRewritings ontology queries.items room → ⊥) }
    ensures many { result ≡ Err RewriteFault.TooManyRewritings →
        HasMoreRewritings ontology queries.items room }
{
    opened(alloc, ontology, queries, room, false)
}
