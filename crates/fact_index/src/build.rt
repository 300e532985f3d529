//! The index of a snapshot.
ghost use Rattle.std.specs.Prelude.{◌↔◌, IfOk, Contains};
ghost use Rattle.std.specs.List.Sorted.{IsStrictlySortedBy};
ghost use Rattle.dl_syntax.specs.declared.facts.Fact.{Fact};
ghost use Rattle.fact_index.specs.Order.{fact_cmp};

use crate::{Index, runs};
use dl_syntax::{Memory, Snapshot};
use std::alloc::Global;

/// The index of the snapshot's facts, seen as these facts in rising order.
pub fn index(alloc: Global, snapshot: &Snapshot) -> Result<Index, Memory>
    ensures members { IfOk result (λ index. (f : Fact)
        → Contains index f ↔ Contains snapshot.now f) }
    ensures rising { IfOk result (IsStrictlySortedBy fact_cmp) }
{
    let mut sorted = Vec::from_slice(alloc, snapshot.facts())?;
    sorted.sort_unstable();
    sorted.dedup();
    let mut by_last = Vec::from_slice(alloc, runs::roles(sorted.as_slice()))?;
    by_last.sort_unstable_by_key(|fact| runs::turned(fact));
    by_last.dedup();
    Ok(Index {
        facts: sorted,
        by_last,
    })
}
