//! The search for a run that gives a query a row.

ghost use Rattle.std.specs.Prelude.{◌≡◌, ◌≤◌, ◌<◌, ◌+◌, ◌*◌, ◌-◌, ◌^◌, List, Some, map, length};
ghost use Rattle.std.specs.Prelude.{slice_get, IfOk, OnOk, MatchOption, IfSome};
ghost use Rattle.std.specs.List.{Contains};
ghost use Rattle.dl_syntax.specs.declared.names.IndId.{IndId as IndIdValue};
ghost use Rattle.dl_syntax.specs.declared.facts.Element.TheVariants.{Ind as ind_element};
ghost use Rattle.dl_syntax.specs.declared.facts.Fact.{Fact as FactValue};
ghost use Rattle.dl_syntax.specs.declared.queries.Cq.{Cq as CqValue};
ghost use Rattle.dl_syntax.specs.Encode.{IsOverOntology, IsQueryOver};
ghost use Rattle.dl_syntax.specs.Match.{Certain};
ghost use Rattle.dl_syntax.specs.Queries.{IsQuery};
ghost use Rattle.query_unify.specs.Laws.{Gives};
ghost use Rattle.perfect_ref.specs.Plain.{encoded, Reachable, HoldsOfMore};
ghost use Rattle.proof_search.specs.Explaining.{HaveSame};
ghost use Rattle.proof_search.specs.Matching.{IsMatchedBy};
ghost use Rattle.proof_search.specs.Reached.{LeadsBy, AreLinked};
ghost use Rattle.proof_search.specs.Search.{IsRewriting, IsWalk};
ghost use Rattle.proof_search.specs.Walk.{HasSteps, AreKept};

use crate::bindings::Binding;
use crate::closure::closure;
use crate::fault::ProofFault;
use crate::known::Known;
use crate::matching::{facts_of, find_match};
use crate::reached::Reached;
use crate::walk::{Walk, go_back};
use dl_syntax::{Cq, Fact, Inclusion, IndId, Kind, Memory, Ontology, encode};
use fact_index::Index;
use query_unify::normalise;
use std::alloc::Global;

/// All that the query reaches, with how it was reached.
pub(crate) fn rewriting(
    alloc: Global,
    ontology: &Ontology,
    cq: &Cq,
    room: u32,
) -> Result<Reached, ProofFault>
    requires { IsQuery cq.now }
    ensures rewriting { IfOk result (IsRewriting ontology.now cq.now) }
    ensures few { IfOk result (λ reached. length reached.found.keys ≤ room) }
    ensures within { IfOk result (λ _.
        HoldsOfMore (Reachable (encoded ontology.now) cq.now) room → ⊥) }
    ensures many { result ≡ Err ProofFault.TooManyRewritings
        → HoldsOfMore (Reachable (encoded ontology.now) cq.now) room }
{
    let _roles = ontology.count(Kind::Role);
    let inclusions = encode(alloc, ontology)?;
    let start = normalise(alloc, cq)?;
    match closure(alloc, inclusions.as_slice(), start, room) {
        Ok(reached) => Ok(reached),
        Err(fault) => Err(fault),
    }
}

/// The place of the first query that has a match among the facts that makes its head the row, and
/// that match.
fn matching_member(
    alloc: Global,
    members: &[Cq],
    index: &Index,
    row: &[IndId],
) -> Result<Option<(u32, Vec<Binding>)>, Memory>
    requires { length members.now < 2 ^ 32 }
    ensures { IfOk result (λ found. MatchOption found
        ((q : CqValue) → Contains members.now q
        → Gives q index.now (map ind_element row.now) → ⊥)
        (λ p. (q : CqValue) × (slice_get members.now p.0 ≡ Some q)
        × IsMatchedBy q index.now row.now p.1.items)) }
{
    for (place, cq) in members.iter().enumerate() {
        match find_match(alloc, cq, &Known::Indexed(index), row)? {
            Some(bindings) => return Ok(Some((place as u32, bindings))),
            None => {}
        }
    }
    Ok(None)
}

/// The walk that begins at the query at the place: the facts are its run, and what the atoms become
/// is known.
fn begin(alloc: Global, facts: &[Fact], member: &Cq, bindings: &[Binding]) -> Result<Walk, Memory>
    ensures run { IfOk result (λ walk. walk.run.items ≡ facts.now) }
    ensures steps { IfOk result (λ walk. length walk.steps.items ≡ 0) }
    ensures known { IfOk result (λ walk. (row : List IndIdValue)
        → IsMatchedBy member.now facts.now row bindings.now
        → Gives member.now walk.known.items (map ind_element row)) }
    ensures within { IfOk result (λ walk. (row : List IndIdValue)
        → IsMatchedBy member.now facts.now row bindings.now
        → (f : FactValue) → Contains walk.known.items f → Contains facts.now f) }
{
    let mut run = Vec::with_capacity(alloc, facts.len().saturating_add(16))?;
    run.extend_from_slice(facts)?;
    let known = facts_of(alloc, bindings, member.body.as_slice())?;
    Ok(Walk {
        run,
        steps: Vec::new(alloc),
        known,
    })
}

/// Goes back from a query to the one before it, from which a step leads there.
fn go_by_link(
    alloc: Global,
    ontology: &Ontology,
    walk: &mut Walk,
    via: Option<Inclusion>,
    cq: &Cq,
    row: &[IndId],
) -> Result<(), Memory>
    requires leads { (after : CqValue)
        × LeadsBy (encoded ontology.now).inclusions via cq.now after
        × Gives after walk.old.known.items (map ind_element row.now) }
    requires kept { AreKept ontology.now walk.old.run.items walk.old.known.items }
    requires room { length walk.old.run.items < 2 ^ 32 - 2 }
    ensures gives { OnOk result (Gives cq.now walk.new.known.items (map ind_element row.now)) }
    ensures steps { OnOk result ((facts : List FactValue)
        → HasSteps ontology.now facts walk.old.steps.items walk.old.run.items
        → HasSteps ontology.now facts walk.new.steps.items walk.new.run.items) }
    ensures few { OnOk result
        (length walk.new.steps.items ≤ length walk.old.steps.items + 1) }
    ensures kept { OnOk result (AreKept ontology.now walk.new.run.items walk.new.known.items) }
{
    let _roles = ontology.count(Kind::Role);
    match via {
        Some(inclusion) => go_back(alloc, ontology, walk, &inclusion, cq, row),
        None => Ok(()),
    }
}

/// Goes back from the query at the place to the one that its link names, whose place it gives.
fn go_once(
    ontology: &Ontology,
    reached: &Reached,
    walk: &mut Walk,
    place: u32,
    row: &[IndId],
) -> Result<u32, Memory>
    requires linked { AreLinked (encoded ontology.now).inclusions reached.now.found.keys
        reached.now.links.items }
    requires positive { 0 < place }
    requires within { place < length reached.now.found.keys }
    requires gives { (q : CqValue) → slice_get reached.now.found.keys place ≡ Some q
        → Gives q walk.old.known.items (map ind_element row.now) }
    requires kept { AreKept ontology.now walk.old.run.items walk.old.known.items }
    requires room { length walk.old.run.items < 2 ^ 32 - 2 }
    ensures earlier { IfOk result (λ before. before < place) }
    ensures gives { IfOk result (λ before. (q : CqValue)
        → slice_get reached.now.found.keys before ≡ Some q
        → Gives q walk.new.known.items (map ind_element row.now)) }
    ensures steps { OnOk result ((facts : List FactValue)
        → HasSteps ontology.now facts walk.old.steps.items walk.old.run.items
        → HasSteps ontology.now facts walk.new.steps.items walk.new.run.items) }
    ensures few { OnOk result
        (length walk.new.steps.items ≤ length walk.old.steps.items + 1) }
    ensures kept { OnOk result (AreKept ontology.now walk.new.run.items walk.new.known.items) }
{
    let links = reached.links.as_slice();
    let queries = reached.found.as_slice();
    let link = links[place as usize];
    let cq = &queries[link.from as usize];
    go_by_link(reached.alloc, ontology, walk, link.via, cq, row)?;
    Ok(link.from)
}

/// Goes back from the query at the place to the first one.
fn go_all(
    ontology: &Ontology,
    reached: &Reached,
    walk: &mut Walk,
    place: u32,
    row: &[IndId],
) -> Result<(), Memory>
    requires linked { AreLinked (encoded ontology.now).inclusions reached.now.found.keys
        reached.now.links.items }
    requires within { place < length reached.now.found.keys }
    requires few { length reached.now.found.keys ≤ 2 ^ 30 }
    requires gives { (q : CqValue) → slice_get reached.now.found.keys place ≡ Some q
        → Gives q walk.old.known.items (map ind_element row.now) }
    requires kept { AreKept ontology.now walk.old.run.items walk.old.known.items }
    requires none { length walk.old.steps.items ≡ 0 }
    requires run { HasSteps ontology.now walk.old.run.items walk.old.steps.items
        walk.old.run.items }
    requires room { length walk.old.run.items < 2 ^ 31 }
    ensures gives { OnOk result ((q : CqValue) → slice_get reached.now.found.keys 0 ≡ Some q
        → Gives q walk.new.known.items (map ind_element row.now)) }
    ensures steps { OnOk result
        (HasSteps ontology.now walk.old.run.items walk.new.steps.items walk.new.run.items) }
    ensures few { OnOk result (length walk.new.steps.items ≤ place) }
    ensures kept { OnOk result (AreKept ontology.now walk.new.run.items walk.new.known.items) }
{
    let mut at = place;
    while at > 0 {
        at = go_once(ontology, reached, walk, at, row)?;
    }
    Ok(())
}

/// A run of the facts, with its steps and known facts that give the query the row, where the row is
/// a certain answer.
pub(crate) fn find_walk(
    ontology: &Ontology,
    cq: &Cq,
    reached: &Reached,
    facts: &[Fact],
    index: &Index,
    row: &[IndId],
) -> Result<Option<Walk>, Memory>
    requires declared { IsQueryOver ontology.now cq.now }
    requires rewriting { IsRewriting ontology.now cq.now reached.now }
    requires over { IsOverOntology ontology.now facts.now }
    requires same { HaveSame index.now facts.now }
    requires room { length facts.now < 2 ^ 31 }
    requires few { length reached.now.found.keys ≤ 2 ^ 30 }
    ensures exact { IfOk result (λ found. MatchOption found
        (Certain ontology.now.inclusions cq.now facts.now row.now → ⊥)
        (IsWalk ontology.now cq.now facts.now row.now)) }
    ensures short { IfOk result (λ found. IfSome found
        (λ walk. length walk.steps.items < length reached.now.found.keys)) }
{
    let alloc = reached.alloc;
    let members = reached.found.as_slice();
    let Some((place, bindings)) = matching_member(alloc, members, index, row)? else {
        return Ok(None);
    };
    let mut walk = begin(alloc, facts, &members[place as usize], bindings.as_slice())?;
    go_all(ontology, reached, &mut walk, place, row)?;
    Ok(Some(walk))
}
