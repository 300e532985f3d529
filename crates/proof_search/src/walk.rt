//! The way back from a query of a rewriting to the one before it.

ghost use Rattle.std.specs.Prelude.{◌≡◌, ◌≢◌, ◌+◌, ◌<◌, ◌≤◌, ◌^◌, ◌-◌, ◌++◌, [], ◌∷◌, List, map};
ghost use Rattle.std.specs.Prelude.{length};
ghost use Rattle.std.specs.Prelude.{Some, slice_get, IfOk, OnOk, IsTrue, MatchOption, ◌↔◌};
ghost use Rattle.std.specs.List.{Contains};
ghost use Rattle.dl_syntax.specs.declared.facts.Element.TheVariants.{Ind as ind_element};
ghost use Rattle.dl_syntax.specs.declared.facts.Fact.{Fact as FactValue};
ghost use Rattle.dl_syntax.specs.Chase.{made_by as made_of_fact};
ghost use Rattle.dl_syntax.specs.Encode.{IsUnqualified, encode};
ghost use Rattle.dl_syntax.specs.Growing.{inclusion_of, made_of_both};
ghost use Rattle.query_unify.specs.Laws.{Gives};
ghost use Rattle.proof_search.specs.Serving.{ServesBy, Serves};
ghost use Rattle.proof_search.specs.Walk.{HasSteps, AreKept};

use crate::made::{made_by, origin};
use crate::matching::has_match;
use dl_syntax::{Cq, Fact, Inclusion, IndId, Kind, Memory, Ontology, extend_run};
use run_proofs::ProofStep;
use std::alloc::Global;

/// A run, the steps that lead to it, and the facts that are known: facts of the run, and facts of
/// hidden roles for which the run has what they stand for.
#[derive(Drop)]
pub(crate) struct Walk {
    pub run: Vec<Fact>,
    pub steps: Vec<ProofStep>,
    pub known: Vec<Fact>,
}

/// The place of the fact in the run.
pub(crate) fn place_of(run: &[Fact], fact: &Fact) -> u32
    requires there { Contains run.now fact.now }
    requires few { length run.now < 2 ^ 32 }
    ensures { slice_get run.now result ≡ Some fact.now }
{
    for (place, known) in run.iter().enumerate() {
        if is_same(known, fact) {
            return place as u32;
        }
    }
    0
}

fn is_same(one: &Fact, other: &Fact) -> bool
    ensures { IsTrue result ↔ (one.now ≡ other.now) }
{
    one == other
}

/// Takes the step by the inclusion of the number from the fact.
fn take_step(ontology: &Ontology, walk: &mut Walk, from: &Fact, number: u32) -> Result<(), Memory>
    requires there { Contains walk.old.run.items from.now }
    requires numbered { 1 ≤ number }
    requires listed { number ≤ length ontology.now.inclusions }
    requires room { length walk.old.run.items < 2 ^ 32 - 2 }
    ensures run { OnOk result (walk.new.run.items ≡ walk.old.run.items
        ++ made_of_both (inclusion_of ontology.now.inclusions number) (Some from.now)
        (length walk.old.run.items)) }
    ensures steps { OnOk result ((facts : List FactValue)
        → made_of_both (inclusion_of ontology.now.inclusions number) (Some from.now)
        (length walk.old.run.items) ≢ []
        → HasSteps ontology.now facts walk.old.steps.items walk.old.run.items
        → HasSteps ontology.now facts walk.new.steps.items walk.new.run.items) }
    ensures one { OnOk result
        (length walk.new.steps.items ≡ length walk.old.steps.items + 1) }
    ensures known { OnOk result (walk.new.known.items ≡ walk.old.known.items) }
{
    let from = place_of(walk.run.as_slice(), from);
    extend_run(ontology, &mut walk.run, from, number)?;
    walk.steps.push(ProofStep {
        from,
        inclusion: number,
    })?;
    Ok(())
}

/// Continues the run so that it has what the inclusion of the encoding makes of the known fact.
fn apply(
    ontology: &Ontology,
    walk: &mut Walk,
    inclusion: &Inclusion,
    from: &Fact,
) -> Result<(), Memory>
    requires told { Contains (encode (length ontology.now.roles) ontology.now.inclusions)
        inclusion.now }
    requires there { Contains walk.old.known.items from.now }
    requires makes { (g : FactValue)
        × (made_of_fact inclusion.now from.now (length walk.old.run.items) ≡ g ∷ []) }
    requires kept { AreKept ontology.now walk.old.run.items walk.old.known.items }
    requires room { length walk.old.run.items < 2 ^ 32 - 2 }
    ensures steps { OnOk result ((facts : List FactValue)
        → HasSteps ontology.now facts walk.old.steps.items walk.old.run.items
        → HasSteps ontology.now facts walk.new.steps.items walk.new.run.items) }
    ensures few { OnOk result
        (length walk.new.steps.items ≤ length walk.old.steps.items + 1) }
    ensures kept { OnOk result ((g : FactValue)
        → made_of_fact inclusion.now from.now (length walk.old.run.items) ≡ g ∷ []
        → AreKept ontology.now walk.new.run.items (walk.old.known.items ++ g ∷ [])) }
    ensures known { OnOk result (walk.new.known.items ≡ walk.old.known.items) }
{
    let _roles = ontology.count(Kind::Role);
    match origin(ontology, inclusion) {
        Some(number) => take_step(ontology, walk, from, number),
        None => Ok(()),
    }
}

/// Continues the run so that it has what the inclusion of the encoding makes of the known fact, and
/// knows that too.
fn settle(
    ontology: &Ontology,
    walk: &mut Walk,
    inclusion: &Inclusion,
    from: &Fact,
    made: Fact,
) -> Result<(), Memory>
    requires told { Contains (encode (length ontology.now.roles) ontology.now.inclusions)
        inclusion.now }
    requires there { Contains walk.old.known.items from.now }
    requires makes { made_of_fact inclusion.now from.now (length walk.old.run.items) ≡ made ∷ [] }
    requires kept { AreKept ontology.now walk.old.run.items walk.old.known.items }
    requires room { length walk.old.run.items < 2 ^ 32 - 2 }
    ensures steps { OnOk result ((facts : List FactValue)
        → HasSteps ontology.now facts walk.old.steps.items walk.old.run.items
        → HasSteps ontology.now facts walk.new.steps.items walk.new.run.items) }
    ensures few { OnOk result
        (length walk.new.steps.items ≤ length walk.old.steps.items + 1) }
    ensures kept { OnOk result (AreKept ontology.now walk.new.run.items walk.new.known.items) }
    ensures known { OnOk result (walk.new.known.items ≡ walk.old.known.items ++ made ∷ []) }
{
    apply(ontology, walk, inclusion, from)?;
    walk.known.push(made)?;
    Ok(())
}

/// Whether the query has a match among the known facts and one more that makes its head the row.
fn serves(
    alloc: Global,
    cq: &Cq,
    known: &[Fact],
    made: Option<Fact>,
    row: &[IndId],
) -> Result<bool, Memory>
    ensures { IfOk result (λ yes. IsTrue yes
        ↔ MatchOption made ⊥ (λ g. Gives cq.now (known.now ++ g ∷ [])
        (map ind_element row.now))) }
{
    let Some(made) = made else {
        return Ok(false);
    };
    let mut facts = Vec::from_slice(alloc, known)?;
    facts.push(made)?;
    has_match(alloc, cq, facts.as_slice(), row)
}

/// A known fact of which the inclusion makes one with which the query has a match that makes its
/// head the row.
fn serving(
    alloc: Global,
    inclusion: &Inclusion,
    cq: &Cq,
    known: &[Fact],
    row: &[IndId],
    null: u32,
) -> Result<Option<Fact>, Memory>
    requires { IsUnqualified inclusion.now }
    ensures { IfOk result (λ found. MatchOption found
        (Serves known.now null (map ind_element row.now) inclusion.now cq.now → ⊥)
        (λ f. (g : FactValue) × ServesBy known.now null (map ind_element row.now) inclusion.now
        cq.now f g)) }
{
    for from in known {
        let made = made_by(inclusion, from, null);
        if serves(alloc, cq, known, made, row)? {
            return Ok(Some(*from));
        }
    }
    Ok(None)
}

/// Continues the run by what the inclusion of the encoding makes of the known fact, with which the
/// query has a match.
fn go_by(
    ontology: &Ontology,
    walk: &mut Walk,
    inclusion: &Inclusion,
    from: &Fact,
) -> Result<(), Memory>
    requires told { Contains (encode (length ontology.now.roles) ontology.now.inclusions)
        inclusion.now }
    requires unqualified { IsUnqualified inclusion.now }
    requires there { Contains walk.old.known.items from.now }
    requires kept { AreKept ontology.now walk.old.run.items walk.old.known.items }
    requires room { length walk.old.run.items < 2 ^ 32 - 2 }
    ensures steps { OnOk result ((facts : List FactValue)
        → HasSteps ontology.now facts walk.old.steps.items walk.old.run.items
        → HasSteps ontology.now facts walk.new.steps.items walk.new.run.items) }
    ensures few { OnOk result
        (length walk.new.steps.items ≤ length walk.old.steps.items + 1) }
    ensures kept { OnOk result (AreKept ontology.now walk.new.run.items walk.new.known.items) }
    ensures known { OnOk result ((g : FactValue)
        → made_of_fact inclusion.now from.now (length walk.old.run.items) ≡ g ∷ []
        → walk.new.known.items ≡ walk.old.known.items ++ g ∷ []) }
{
    match made_by(inclusion, from, walk.run.len() as u32) {
        Some(made) => settle(ontology, walk, inclusion, from, made),
        None => Ok(()),
    }
}

/// Continues the run by what the inclusion of the encoding makes, so that the query has a match
/// among the known facts that makes its head the row.
pub(crate) fn go_back(
    alloc: Global,
    ontology: &Ontology,
    walk: &mut Walk,
    inclusion: &Inclusion,
    cq: &Cq,
    row: &[IndId],
) -> Result<(), Memory>
    requires told { Contains (encode (length ontology.now.roles) ontology.now.inclusions)
        inclusion.now }
    requires unqualified { IsUnqualified inclusion.now }
    requires serves { Serves walk.old.known.items (length walk.old.run.items)
        (map ind_element row.now) inclusion.now cq.now }
    requires kept { AreKept ontology.now walk.old.run.items walk.old.known.items }
    requires room { length walk.old.run.items < 2 ^ 32 - 2 }
    ensures steps { OnOk result ((facts : List FactValue)
        → HasSteps ontology.now facts walk.old.steps.items walk.old.run.items
        → HasSteps ontology.now facts walk.new.steps.items walk.new.run.items) }
    ensures few { OnOk result
        (length walk.new.steps.items ≤ length walk.old.steps.items + 1) }
    ensures kept { OnOk result (AreKept ontology.now walk.new.run.items walk.new.known.items) }
    ensures gives { OnOk result (Gives cq.now walk.new.known.items (map ind_element row.now)) }
{
    let null = walk.run.len() as u32;
    match serving(alloc, inclusion, cq, walk.known.as_slice(), row, null)? {
        Some(from) => go_by(ontology, walk, inclusion, &from),
        None => Ok(()),
    }
}
