//! A table from runs: how many tuples in a row have each chain.

ghost use Rattle.std.specs.Prelude.{◌≡◌, ◌≤◌, ◌^◌, List, IfOk};
ghost use Rattle.std.specs.List.{All};
ghost use Rattle.dl_syntax.specs.declared.names.IndId.{IndId};
ghost use Rattle.answer_tables.specs.Tuples.{IsTuple, number};
ghost use Rattle.answer_tables.specs.Table.{at};
ghost use Rattle.answer_tables.specs.Counts.{counted_antichain, count_of};

use crate::Memory;
use crate::run::Run;
use crate::table::Table;
use formula_store::Link;
use std::alloc::Global;

/// The table in which each run gives its antichain to the next tuples, so many of them, in rising
/// order.
pub fn from_runs(
    alloc: Global,
    slots: u32,
    arity: u8,
    runs: &[(u64, Link)],
) -> Result<Table, Memory>
    requires some { All (λ r. 1 ≤ r.0) runs.now }
    requires whole { count_of runs.now ≡ slots ^ arity }
    requires few { slots ^ arity ≤ 2 ^ 60 }
    ensures slots { IfOk result (λ t. t.slots ≡ slots) }
    ensures arity { IfOk result (λ t. t.arity ≡ arity) }
    ensures each { IfOk result (λ t. (tuple : List IndId) → IsTuple slots arity tuple
        → at t tuple ≡ counted_antichain runs.now (number slots tuple)) }
{
    let mut links = Vec::new(alloc);
    let mut ends = Vec::new(alloc);
    let mut end = 0;
    for run in runs {
        end += run.0;
        let link = links.len();
        links.push(run.1.copy()?)?;
        ends.push(Run { end, link })?;
    }
    Table::from_parts(alloc, slots, arity, links.as_slice(), ends.as_slice())
}
