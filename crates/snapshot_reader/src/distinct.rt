//! Facts without their repeats.

ghost use Rattle.std.specs.Prelude.{◌≡◌, ◌↔◌, IsTrue, IfOk};
ghost use Rattle.std.specs.List.{Contains};
ghost use Rattle.snapshot_reader.specs.Said.{distinct};

use dl_syntax::{Fact, Memory};
use indexmap::IndexSet;
use std::alloc::Global;

/// So few facts are compared one by one.
const FEW: usize = 16;

/// Whether the list has the fact.
fn has_fact(facts: &[Fact], fact: &Fact) -> bool
    ensures { IsTrue result ↔ Contains facts.now fact.now }
{
    facts.iter().any(|other| other == fact)
}

/// The facts without repeats, each compared with those before it.
fn few_distinct(alloc: Global, facts: &[Fact]) -> Result<Vec<Fact>, Memory>
    ensures { IfOk result (λ kept. kept.items ≡ distinct facts.now) }
{
    let mut kept = Vec::with_capacity(alloc, facts.len())?;
    for fact in facts {
        if !has_fact(kept.as_slice(), fact) {
            kept.push(*fact)?;
        }
    }
    Ok(kept)
}

/// The set of the facts, in the order of their first places.
fn fact_set(alloc: Global, facts: &[Fact]) -> Result<IndexSet<Fact>, Memory>
    ensures { IfOk result (λ set. set.keys ≡ distinct facts.now) }
{
    let mut set = IndexSet::with_capacity(alloc, facts.len())?;
    for fact in facts {
        set.insert(*fact)?;
    }
    Ok(set)
}

/// The facts without repeats. A repeated fact keeps its first place.
#[tactic(auto, unfolding(crate::specs::Said::distinct))]
pub(crate) fn distinct(alloc: Global, facts: Vec<Fact>) -> Result<Vec<Fact>, Memory>
    ensures { IfOk result (λ kept. kept.items ≡ distinct facts.items) }
{
    if facts.len() <= 1 {
        return Ok(facts);
    }
    if facts.len() <= FEW {
        return few_distinct(alloc, facts.as_slice());
    }
    let set = fact_set(alloc, facts.as_slice())?;
    Vec::from_slice(alloc, set.as_slice())
}
