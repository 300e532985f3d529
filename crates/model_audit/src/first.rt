//! The first fact, inclusion or clash that lacks what a finite model has.
ghost use Rattle.std.specs.Prelude.{◌<◌, ◌^◌, ◌↔◌, length, Contains, IfOk, IsTrue};
ghost use Rattle.std.specs.List.{All};
ghost use Rattle.model_audit.specs.FiniteModels.{Keeps, Satisfies, Avoids};
ghost use Rattle.model_audit.specs.First.{IsFirstLack};

use crate::clashes::is_avoided;
use crate::inclusions::{is_satisfied, keeps};
use dl_syntax::{Clash, Fact, Inclusion, Memory};
use fact_index::Index;
use indexmap::IndexSet;
use std::alloc::Global;

/// The place of the first fact that the index lacks.
pub fn first_missing(index: &Index, facts: &[Fact]) -> Option<u32>
    requires { length facts.now < 2 ^ 32 }
    ensures { IsFirstLack (Contains index.now) facts.now result }
{
    for (place, fact) in facts.iter().enumerate() {
        if !index.has(fact) {
            return Some(place as u32);
        }
    }
    None
}

/// Whether the facts of the index satisfy the inclusion, as they do those of the set, which it
/// joins. One that is in the set is not looked at again.
fn joins_satisfied(
    index: &Index,
    satisfied: &mut IndexSet<Inclusion>,
    inclusion: &Inclusion,
) -> Result<bool, Memory>
    requires { All (Satisfies index.now) satisfied.old.keys }
    ensures tells { IfOk result (λ yes. IsTrue yes ↔ Satisfies index.now inclusion.now) }
    ensures kept { IfOk result (λ yes. IsTrue yes → All (Satisfies index.now) satisfied.new.keys) }
{
    let is_new = satisfied.insert(*inclusion)?;
    if !is_new {
        return Ok(true);
    }
    Ok(is_satisfied(index, inclusion))
}

/// The place of the first inclusion that the facts of the index don't satisfy.
pub fn first_unsatisfied(
    alloc: Global,
    index: &Index,
    inclusions: &[Inclusion],
) -> Result<Option<usize>, Memory>
    ensures { IfOk result (IsFirstLack (Satisfies index.now) inclusions.now) }
{
    let mut satisfied = IndexSet::new(alloc);
    for (place, inclusion) in inclusions.iter().enumerate() {
        if !joins_satisfied(index, &mut satisfied, inclusion)? {
            return Ok(Some(place));
        }
    }
    Ok(None)
}

/// The place of the first fact whose right side is missing.
pub fn first_unkept(index: &Index, inclusion: &Inclusion, facts: &[Fact]) -> Option<u32>
    requires { length facts.now < 2 ^ 32 }
    ensures { IsFirstLack (Keeps index.now inclusion.now) facts.now result }
{
    for (place, fact) in facts.iter().enumerate() {
        if !keeps(index, inclusion, fact) {
            return Some(place as u32);
        }
    }
    None
}

/// Whether the facts of the index avoid the clash, as they do those of the set, which it joins. One
/// that is in the set is not looked at again.
fn joins_avoided(
    index: &Index,
    avoided: &mut IndexSet<Clash>,
    clash: &Clash,
) -> Result<bool, Memory>
    requires { All (Avoids index.now) avoided.old.keys }
    ensures tells { IfOk result (λ yes. IsTrue yes ↔ Avoids index.now clash.now) }
    ensures kept { IfOk result (λ yes. IsTrue yes → All (Avoids index.now) avoided.new.keys) }
{
    let is_new = avoided.insert(*clash)?;
    if !is_new {
        return Ok(true);
    }
    Ok(is_avoided(index, clash))
}

/// The place of the first clash that the facts of the index meet.
pub fn first_met(alloc: Global, index: &Index, clashes: &[Clash]) -> Result<Option<usize>, Memory>
    ensures { IfOk result (IsFirstLack (Avoids index.now) clashes.now) }
{
    let mut avoided = IndexSet::new(alloc);
    for (place, clash) in clashes.iter().enumerate() {
        if !joins_avoided(index, &mut avoided, clash)? {
            return Ok(Some(place));
        }
    }
    Ok(None)
}
