//! Kept tables, made of stretches of lists.

ghost use Rattle.std.specs.Prelude.{◌≡◌, ◌+◌, ◌<◌, ◌≤◌, ◌^◌, ◌↔◌, IfOk, IsTrue, OnOk, length, map};
ghost use Rattle.std.specs.List.{All, AllZip, sum_by};
ghost use Rattle.formula_store.specs.Interned.{AreDistinct};
ghost use Rattle.answer_tables.specs.Lengths.{antichains_in};
ghost use Rattle.tcq_syntax.specs.Tcq.{IsTcq};
ghost use Rattle.checkpoint_state.specs.Resuming.{AreKeptNodes, AreNodesOf, AreTablesBelow};
ghost use Rattle.checkpoint_state.specs.Resuming.{IsResumed, IsTableOf, run_of};
ghost use Rattle.checkpoint_state.specs.Telling.{drawn_out, list_at};

use answer_tables::{Table, from_runs};
use checkpoint_text::{Node, Stretch};
use dl_syntax::Memory;
use formula_store::Link;
use progression::Kept;
use std::alloc::Global;
use tcq_syntax::{Query, is_kept};

/// The runs of the lists that the stretches number.
fn runs_of(alloc: Global, lists: &[Link], stretches: &[Stretch]) -> Result<Vec<(u64, Link)>, Memory>
    requires { All (λ s. s.list < length lists.now) stretches.now }
    ensures { IfOk result (λ runs. runs.items ≡ map (run_of lists.now) stretches.now) }
{
    let mut runs = Vec::with_capacity(alloc, stretches.len())?;
    for stretch in stretches {
        let link = lists[stretch.list as usize].copy()?;
        runs.push((stretch.count, link))?;
    }
    Ok(runs)
}

/// The table of the stretches.
pub fn table_of(
    alloc: Global,
    slots: u32,
    arity: u8,
    lists: &[Link],
    stretches: &[Stretch],
) -> Result<Table, Memory>
    requires some { All (λ s. 0 < s.count) stretches.now }
    requires whole { sum_by (λ s. s.count) stretches.now ≡ slots ^ arity }
    requires few { slots ^ arity ≤ 2 ^ 60 }
    requires known { All (λ s. s.list < length lists.now) stretches.now }
    ensures slots { IfOk result (λ t. t.slots ≡ slots) }
    ensures arity { IfOk result (λ t. t.arity ≡ arity) }
    ensures antichains { IfOk result (λ t.
        antichains_in t ≡ map (list_at lists.now) (drawn_out stretches.now)) }
{
    let runs = runs_of(alloc, lists, stretches)?;
    from_runs(alloc, slots, arity, runs.as_slice())
}

/// The tables of the nodes.
fn tables_of(
    alloc: Global,
    query: &Query,
    slots: u32,
    lists: &[Link],
    nodes: &[Node],
) -> Result<Vec<(u16, Table)>, Memory>
    requires few { slots ^ query.now.vars ≤ 2 ^ 60 }
    requires each { AreNodesOf lists.now query.now slots nodes.now }
    ensures { IfOk result (λ tables.
        AllZip (IsTableOf lists.now query.now slots) nodes.now tables.items) }
{
    let mut tables = Vec::with_capacity(alloc, nodes.len())?;
    for node in nodes {
        let stretches = node.stretches.as_slice();
        let table = table_of(alloc, slots, query.vars(), lists, stretches)?;
        tables.push((node.place, table))?;
    }
    Ok(tables)
}

/// Puts a table without tuples last, if the node at the place is kept.
fn push_empty(
    alloc: Global,
    query: &Query,
    slots: u32,
    place: u16,
    tables: &mut Vec<(u16, Table)>,
) -> Result<(), Memory>
    requires none { slots ^ query.now.vars ≡ 0 }
    requires within { place < length query.now.nodes }
    requires before { AreTablesBelow query.now slots place tables.old.items }
    ensures { OnOk result (AreTablesBelow query.now slots (place + 1) tables.new.items) }
{
    if !is_kept(query, place) {
        return Ok(());
    }
    let table = from_runs(alloc, slots, query.vars(), &[])?;
    tables.push((place, table))?;
    Ok(())
}

/// A table without tuples for each kept node.
fn empty_tables(alloc: Global, query: &Query, slots: u32) -> Result<Vec<(u16, Table)>, Memory>
    requires { slots ^ query.now.vars ≡ 0 }
    ensures table { IfOk result (λ _. IsTcq query.now.vars query.now.nodes) }
    ensures each { IfOk result (λ tables.
        AreTablesBelow query.now slots (length query.now.nodes) tables.items) }
{
    let mut tables = Vec::new(alloc);
    let count = query.nodes().len() as u16;
    for place in 0..count {
        push_empty(alloc, query, slots, place, &mut tables)?;
    }
    Ok(tables)
}

/// Whether a query over so many slots has no tuple.
fn has_no_tuple(query: &Query, slots: u32) -> bool
    ensures { IsTrue result ↔ (slots ^ query.now.vars ≡ 0) }
{
    slots == 0 && query.vars() > 0
}

/// What is kept of a query after so many snapshots.
pub fn kept_of(
    alloc: Global,
    query: &Query,
    slots: u32,
    accepted: u64,
    lists: &[Link],
    nodes: &[Node],
) -> Result<Kept, Memory>
    requires few { slots ^ query.now.vars ≤ 2 ^ 60 }
    requires distinct { AreDistinct lists.now }
    requires kept { AreKeptNodes lists.now slots accepted query.now nodes.now }
    ensures { IfOk result (IsResumed lists.now slots accepted query.now nodes.now) }
{
    let tables = if accepted > 0 && has_no_tuple(query, slots) {
        empty_tables(alloc, query, slots)?
    } else {
        tables_of(alloc, query, slots, lists, nodes)?
    };
    Ok(Kept {
        count: accepted,
        tables,
    })
}
