//! What a finite list of facts lacks of a finite model.
ghost use Rattle.std.specs.Prelude.{◌≡◌, ◌≤◌, ◌<◌, ◌^◌, ◌↔◌, length, Contains, IfOk, MatchOption};
ghost use Rattle.std.specs.List.{All};
ghost use Rattle.dl_syntax.specs.declared.facts.Fact.{Fact as FactValue};
ghost use Rattle.dl_syntax.specs.Facts.{HasNoNull};
ghost use Rattle.dl_syntax.specs.Chase.{IsConsistent};
ghost use Rattle.model_audit.specs.FiniteModels.{Satisfies, IsFiniteModel};
ghost use Rattle.model_audit.specs.Examining.{IsBroken, IsFoundIn, IsFound};

use crate::first::{first_met, first_missing, first_unkept, first_unsatisfied};
use dl_syntax::{Fact, Inclusion, Memory, Ontology, Snapshot};
use fact_index::Index;
use fact_index::build::index;
use std::alloc::Global;

/// The first that applies, in this order.
#[derive(Clone, Copy, PartialEq, Eq, Debug)]
pub enum Finding {
    /// The least place of a fact of the snapshot that the list lacks.
    Missing(u32),
    /// The least inclusion, counted from 1, and the least place of a fact whose right side is
    /// missing.
    Broken { inclusion: u32, fact: u32 },
    /// The least clash that the list meets, counted from 1.
    Clash(u32),
    /// The list is a finite model.
    Model,
}

/// An inclusion, counted from 1, and the place of a fact.
#[derive(Clone, Copy, Debug)]
struct Breach {
    inclusion: u32,
    fact: u32,
}

/// The first inclusion that the facts don't satisfy, and the first fact whose right side is
/// missing.
fn first_broken(
    alloc: Global,
    index: &Index,
    inclusions: &[Inclusion],
    facts: &[Fact],
) -> Result<Option<Breach>, Memory>
    requires few { length inclusions.now ≤ 16384 }
    requires small { length facts.now < 2 ^ 32 }
    requires same { (f : FactValue) → Contains index.now f ↔ Contains facts.now f }
    ensures { IfOk result (λ found. MatchOption found (All (Satisfies index.now) inclusions.now)
        (λ b. IsBroken inclusions.now index.now facts.now b.inclusion b.fact)) }
{
    match first_unsatisfied(alloc, index, inclusions)? {
        Some(before) => match first_unkept(index, &inclusions[before], facts) {
            Some(fact) => Ok(Some(Breach {
                inclusion: before as u32 + 1,
                fact,
            })),
            None => Ok(None),
        },
        None => Ok(None),
    }
}

/// What is found of the facts, which are those of the index.
fn found(
    alloc: Global,
    index: &Index,
    ontology: &Ontology,
    snapshot: &[Fact],
    facts: &[Fact],
) -> Result<Finding, Memory>
    requires few { length snapshot.now < 2 ^ 32 }
    requires small { length facts.now < 2 ^ 32 }
    requires same { (f : FactValue) → Contains index.now f ↔ Contains facts.now f }
    ensures { IfOk result (IsFoundIn ontology.now snapshot.now index.now facts.now) }
{
    if let Some(place) = first_missing(index, snapshot) {
        return Ok(Finding::Missing(place));
    }
    if let Some(breach) = first_broken(alloc, index, ontology.inclusions(), facts)? {
        return Ok(Finding::Broken {
            inclusion: breach.inclusion,
            fact: breach.fact,
        });
    }
    if let Some(place) = first_met(alloc, index, ontology.clashes())? {
        return Ok(Finding::Clash(place as u32 + 1));
    }
    Ok(Finding::Model)
}

/// What a list of facts lacks of a finite model of the snapshot, and `Model` exactly where it is
/// one, which shows that the snapshot is consistent.
pub fn examine(
    alloc: Global,
    ontology: &Ontology,
    snapshot: &Snapshot,
    model: &Snapshot,
) -> Result<Finding, Memory>
    requires few { length snapshot.now < 2 ^ 32 }
    requires small { length model.now < 2 ^ 32 }
    ensures found { IfOk result (IsFound ontology.now snapshot.now model.now) }
    ensures model { IfOk result
        (λ f. (f ≡ Finding.Model)
        ↔ IsFiniteModel ontology.now.inclusions ontology.now.clashes snapshot.now model.now) }
    ensures plain { IfOk result (λ _. All HasNoNull snapshot.now) }
    ensures consistent { IfOk result
        (λ f. f ≡ Finding.Model
        → IsConsistent ontology.now.inclusions ontology.now.clashes snapshot.now) }
{
    let index = index(alloc, model)?;
    let finding = found(alloc, &index, ontology, snapshot.facts(), model.facts())?;
    Ok(finding)
}
