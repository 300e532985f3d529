//! What is written of a monitor.

ghost use Rattle.std.specs.Prelude.{◌≡◌, ◌+◌, ◌-◌, ◌<◌, ◌≤◌, IfOk, OnOk, drop, length, take};
ghost use Rattle.std.specs.Option.{option_map};
ghost use Rattle.tcq_syntax.specs.Histories.{History};
ghost use Rattle.monitor_core.specs.Keeping.{IsMonitored};
ghost use Rattle.monitor_core.specs.Standing.{Stands};
ghost use Rattle.checkpoint_text.specs.Suspended.{IsSuspended};
ghost use Rattle.checkpoint_state.specs.Suspending.{frame_of, names_of_monitor, suspended};
ghost use Rattle.checkpoint_state.specs.Telling.{IsCheckpointOf};

use crate::lists::lists_of;
use crate::nodes::all_nodes;
use checkpoint_text::Checkpoint;
use dl_syntax::{Kind, Memory, Name, Ontology};
use formula_store::Link;
use monitor_core::Monitor;
use std::alloc::Global;

/// Copies of the links.
fn copies(alloc: Global, links: &[Link]) -> Result<Vec<Link>, Memory>
    ensures { IfOk result (λ copies. copies.items ≡ links.now) }
{
    let mut copies = Vec::with_capacity(alloc, links.len())?;
    for link in links {
        copies.push(link.copy()?)?;
    }
    Ok(copies)
}

/// Puts the name of the individual last.
fn push_name(
    alloc: Global,
    ontology: &Ontology,
    first: u32,
    number: u32,
    names: &mut Vec<Name>,
) -> Result<(), Memory>
    requires later { first ≤ number }
    requires within { number < length ontology.now.individuals }
    requires before { names.old.items
        ≡ take (number - first) (drop first ontology.now.individuals) }
    ensures { OnOk result
        (names.new.items ≡ take (number + 1 - first) (drop first ontology.now.individuals)) }
{
    let name = Name::new(alloc, ontology.name(Kind::Individual, number))?;
    names.push(name)?;
    Ok(())
}

/// The names of the individuals from this number on.
fn last_names(alloc: Global, ontology: &Ontology, first: u32) -> Result<Vec<Name>, Memory>
    requires { first ≤ length ontology.now.individuals }
    ensures { IfOk result (λ names. names.items ≡ drop first ontology.now.individuals) }
{
    let mut names = Vec::new(alloc);
    for number in first..ontology.count(Kind::Individual) {
        push_name(alloc, ontology, first, number, &mut names)?;
    }
    Ok(names)
}

/// The names that came with the stream, where further ones may come.
fn names_of(alloc: Global, monitor: &Monitor) -> Result<Option<Vec<Name>>, Memory>
    requires { IsMonitored monitor.now }
    ensures { IfOk result (λ names. option_map (λ names. names.items) names
        ≡ names_of_monitor monitor.now) }
{
    if !monitor.has_strangers() {
        return Ok(None);
    }
    let ontology = monitor.ontology();
    let first = ontology.count(Kind::Individual) - monitor.declared();
    let names = last_names(alloc, ontology, first)?;
    Ok(Some(names))
}

/// What is written of the monitor: its lists are those of the kept tables, in order of first
/// occurrence. It fits the ontology before names came, and the queries. It is the checkpoint of
/// whatever history the monitor stands for.
pub fn suspend(alloc: Global, monitor: &Monitor) -> Result<Checkpoint, Memory>
    ensures value { IfOk result (λ checkpoint. checkpoint ≡ suspended monitor.now) }
    ensures fits { IfOk result (IsSuspended (frame_of monitor.now)) }
    ensures tells { IfOk result (λ checkpoint. (history : History) → Stands monitor.now history
        → IsCheckpointOf (frame_of monitor.now) history checkpoint) }
{
    let kept = monitor.kept();
    let store = lists_of(alloc, kept)?;
    let queries = all_nodes(alloc, &store, kept)?;
    let lists = copies(alloc, store.links())?;
    let names = names_of(alloc, monitor)?;
    Ok(Checkpoint {
        names,
        accepted: monitor.count(),
        lists,
        queries,
    })
}
