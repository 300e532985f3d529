//! The answers of leaves at one snapshot.

ghost use Rattle.std.specs.Prelude.{◌<◌, IfOk, length};
ghost use Rattle.std.specs.List.{All, AllZip};
ghost use Rattle.monitor_core.specs.Leaves.{AsksWell, AreUnionAnswers, StandsAt};

use crate::plan::Leaf;
use dl_syntax::{Memory, Tuples};
use fact_index::Index;
use std::alloc::Global;
use ucq_join::answers;

/// The answers of the leaves in the facts, in their order.
pub(crate) fn leaf_answers(
    alloc: Global,
    index: &Index,
    leaves: &[Leaf],
) -> Result<Vec<Tuples>, Memory>
    requires { All AsksWell leaves.now }
    ensures { IfOk result (λ rows. AllZip (AreUnionAnswers index.now) leaves.now rows.items) }
{
    let mut rows = Vec::with_capacity(alloc, leaves.len())?;
    for leaf in leaves {
        rows.push(answers(alloc, index, leaf.arity, leaf.core.as_slice())?)?;
    }
    Ok(rows)
}

/// The relations at the places.
pub(crate) fn relations_at(
    alloc: Global,
    relations: &[Tuples],
    places: &[usize],
) -> Result<Vec<Tuples>, Memory>
    requires { All (λ place. place < length relations.now) places.now }
    ensures { IfOk result (λ found. AllZip (StandsAt relations.now) places.now found.items) }
{
    let mut found = Vec::with_capacity(alloc, places.len())?;
    for place in places {
        found.push(relations[*place].clone()?)?;
    }
    Ok(found)
}
