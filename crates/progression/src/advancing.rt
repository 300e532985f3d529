//! What is kept of a query after one more snapshot, and its answers.

ghost use Rattle.std.specs.Prelude.{◌≡◌, ◌+◌, ◌-◌, ◌≤◌, ◌^◌, min, nat_eq, length, IfOk, List, ℕ};
ghost use Rattle.std.specs.List.{All};
ghost use Rattle.dl_syntax.specs.declared.facts.Fact.{Fact};
ghost use Rattle.dl_syntax.specs.declared.ontology.Inclusion.{Inclusion};
ghost use Rattle.formula_store.specs.Interned.{Extends};
ghost use Rattle.answer_tables.specs.Combining.{LinksAreIn};
ghost use Rattle.tcq_syntax.specs.Tcq.{IsTcq};
ghost use Rattle.tcq_syntax.specs.Histories.{History, with_snapshot};
ghost use Rattle.progression.specs.Kept.{Fits, StandsFor, AreOverLeaves, AreLeafAnswers, AreRows};
ghost use Rattle.progression.specs.Kept.{AreRootRows, Advances};
ghost use Rattle.progression.specs.Tables.{AreTables};
ghost use Rattle.answer_tables.specs.Substituting.{HaveShape};

use crate::Memory;
use crate::keep::kept_tables;
use crate::kept::{Kept, Slots};
use crate::step::node_tables;
use crate::weak::weak_set;
use answer_tables::{Made, Table};
use dl_syntax::Tuples;
use formula_store::Store;
use std::alloc::Global;
use tcq_syntax::Query;

/// The table of each node of a query after one more snapshot.
fn query_tables(
    alloc: Global,
    query: &Query,
    slots: u32,
    kept: &Kept,
    leaves: &[Tuples],
    made: &mut Made,
    store: &mut Store,
) -> Result<Vec<Table>, Memory>
    requires fits { Fits query.now slots kept.now }
    requires few { slots ^ query.now.vars ≤ 2 ^ 60 }
    requires leaves { AreOverLeaves query.now leaves.now }
    ensures tables { IfOk result (λ tables.
        AreTables query.now.nodes slots query.now.vars (nat_eq kept.now.count 0)
        kept.now.tables.items leaves.now store.new (length query.now.nodes) tables.items) }
    ensures valid { IsTcq query.now.vars query.now.nodes }
    ensures grown { Extends store.old store.new }
{
    node_tables(
        alloc,
        query.nodes(),
        slots,
        query.vars(),
        kept.count == 0,
        kept.tables.as_slice(),
        leaves,
        made,
        store,
    )
}

/// The rows of numbers below those answered at which the root holds, if nothing more comes.
fn root_rows(alloc: Global, query: &Query, slots: Slots, tables: &[Table]) -> Result<Tuples, Memory>
    requires long { length tables.now ≡ length query.now.nodes }
    requires shape { HaveShape slots.kept query.now.vars tables.now }
    requires within { slots.answered ≤ slots.kept }
    ensures { IfOk result (AreRootRows query.now slots.answered tables.now) }
{
    let nodes = query.nodes();
    let weak = weak_set(nodes);
    tables[nodes.len() - 1].tuples_holding(alloc, weak, slots.answered)
}

/// What is kept of a query after one more snapshot, and the query's answers then. `leaves` are the
/// certain answers of the query's leaves at the snapshot, in the order of the table. What is kept
/// is kept of the tuples of numbers below the slots kept, and those answered are the tuples of
/// numbers below the slots answered: rows with others are never made. `made` is what was made of
/// the query before: tables made of the same again are shared.
pub fn advance(
    alloc: Global,
    query: &Query,
    slots: Slots,
    kept: &Kept,
    leaves: &[Tuples],
    made: &mut Made,
    store: &mut Store,
) -> Result<(Kept, Tuples), Memory>
    requires fits { Fits query.now slots.kept kept.now }
    requires few { slots.kept ^ query.now.vars ≤ 2 ^ 60 }
    requires within { slots.answered ≤ slots.kept }
    requires leaves { AreOverLeaves query.now leaves.now }
    ensures fits { IfOk result (λ r. Fits query.now slots.kept r.0) }
    ensures count { IfOk result (λ r. r.0.count ≡ min (kept.now.count + 1) (2 ^ 64 - 1)) }
    ensures rows { IfOk result (λ r. AreRows query.now slots.answered r.1) }
    ensures advances { IfOk result (λ r.
        (inclusions : List Inclusion) (history : History) (snapshot : List Fact)
        → StandsFor inclusions slots.kept history query.now kept.now
        → AreLeafAnswers inclusions snapshot query.now leaves.now
        → Advances inclusions slots (with_snapshot snapshot history) query.now r.0 r.1.rows) }
    ensures stored { IfOk result (λ r.
        All (λ entry. LinksAreIn entry.1 store.new) r.0.tables.items) }
    ensures grown { Extends store.old store.new }
{
    let tables = query_tables(alloc, query, slots.kept, kept, leaves, made, store)?;
    let rows = root_rows(alloc, query, slots, tables.as_slice())?;
    let tables = kept_tables(alloc, query, tables)?;
    let count = kept.count.saturating_add(1);
    Ok((Kept { count, tables }, rows))
}
