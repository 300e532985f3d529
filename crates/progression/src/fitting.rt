//! Whether what is kept fits a query.

ghost use Rattle.std.specs.Prelude.{◌≡◌, ◌<◌, ◌≤◌, ◌↔◌, IsTrue, List, ℕ, true, length, map};
ghost use Rattle.std.specs.Prelude.{slice_index_or};
ghost use Rattle.std.specs.List.{All, AllPairs, Contains, count_by};
ghost use Rattle.dl_syntax.specs.declared.names.IndId.{IndId};
ghost use Rattle.answer_tables.specs.Tuples.{IsTuple};
ghost use Rattle.answer_tables.specs.Table.{at};
ghost use Rattle.tcq_syntax.specs.Formula.{is_future, HasChildrenBelow, IsTable};
ghost use Rattle.tcq_syntax.specs.Tcq.{IsTcq};
ghost use Rattle.tcq_syntax.specs.End.{Inside};
ghost use Rattle.tcq_syntax.specs.Kept.{IsKept};
ghost use Rattle.progression.specs.Kept.{Fits, FitsNode, AreFutureSets, HasSetsWithin, AreComplete};
ghost use Rattle.progression.specs.Step.{joined_set};

use crate::kept::Kept;
use crate::weak::next_number;
use answer_tables::Table;
use formula_store::Link;
use tcq_syntax::{Node, Query, is_kept};

/// The set of the future nodes of a node's part of the formula, from those of its children.
fn joined_set(node: &Node, number: u8, sets: &[u8]) -> u8
    requires children { HasChildrenBelow (length sets.now) node.now }
    requires number { is_future node.now ≡ true → number < 8 }
    ensures { result ≡ joined_set number (λ c. slice_index_or sets.now c 0) node.now }
{
    match node {
        Node::True | Node::False | Node::Leaf(_) => 0,
        Node::And(f, g) | Node::Or(f, g) | Node::Since(f, g) => {
            sets[*f as usize] | sets[*g as usize]
        }
        Node::Prev(f) | Node::WeakPrev(f) | Node::Once(f) | Node::Historically(f) => {
            sets[*f as usize]
        }
        Node::Next(f) | Node::WeakNext(f) | Node::Eventually(f) | Node::Always(f) => {
            1 << number | sets[*f as usize]
        }
        Node::Until(f, g) => 1 << number | (sets[*f as usize] | sets[*g as usize]),
    }
}

/// The set of the future nodes of each node's part of the formula.
fn future_sets(nodes: &[Node]) -> [u8; 64]
    requires table { IsTable nodes.now }
    requires small { length nodes.now ≤ 64 }
    requires futures { count_by is_future nodes.now ≤ 8 }
    ensures { AreFutureSets nodes.now (length nodes.now) result }
{
    let mut sets = [0; 64];
    let mut number = 0;
    for place in 0..nodes.len() {
        sets[place] = joined_set(&nodes[place], number, &sets);
        number = next_number(number, &nodes[place]);
    }
    sets
}

/// Whether each set of the antichain lies inside.
fn is_within(link: &Link, own: u8) -> bool
    ensures { IsTrue result ↔ All (λ set. Inside set own) link.now }
{
    link.antichain().sets().iter().all(|set| set & own == *set)
}

/// Whether each set of each antichain lies inside.
fn are_within(links: &[Link], own: u8) -> bool
    ensures { IsTrue result ↔ All (λ antichain. All (λ set. Inside set own) antichain) links.now }
{
    links.iter().all(|link| is_within(link, own))
}

/// Whether each antichain of the table has only sets that lie inside.
fn has_sets_within(table: &Table, own: u8) -> bool
    ensures { IsTrue result ↔ HasSetsWithin own table.now }
{
    are_within(table.distinct_links(), own)
}

/// Whether the place is that of a kept node.
fn is_kept_place(query: &Query, place: u16) -> bool
    ensures kept { IsTrue result ↔ IsKept query.now.nodes place }
    ensures within { IsTrue result → place < length query.now.nodes }
{
    if place as usize >= query.nodes().len() {
        return false;
    }
    is_kept(query, place)
}

/// Whether the table is over so many slots and answer variables.
fn has_shape(table: &Table, slots: u32, vars: u8) -> bool
    ensures { IsTrue result ↔ (table.now.slots ≡ slots) × (table.now.arity ≡ vars) }
{
    table.slots() == slots && table.arity() == vars
}

/// Whether the table is one for the node at the place, which is kept.
fn fits_node(query: &Query, slots: u32, sets: &[u8], place: u16, table: &Table) -> bool
    requires many { length query.now.nodes ≤ length sets.now }
    requires sets { AreFutureSets query.now.nodes (length query.now.nodes) sets.now }
    ensures { IsTrue result ↔ FitsNode query.now slots place table.now }
{
    if !is_kept_place(query, place) || !has_shape(table, slots, query.vars()) {
        return false;
    }
    has_sets_within(table, sets[place as usize])
}

/// Whether each table is one for its kept node.
fn all_fit(query: &Query, slots: u32, sets: &[u8], tables: &[(u16, Table)]) -> bool
    requires many { length query.now.nodes ≤ length sets.now }
    requires sets { AreFutureSets query.now.nodes (length query.now.nodes) sets.now }
    ensures { IsTrue result ↔ All (λ entry. FitsNode query.now slots entry.0 entry.1) tables.now }
{
    tables
        .iter()
        .all(|entry| fits_node(query, slots, sets, entry.0, &entry.1))
}

/// Whether there is a table with the place.
fn has_place(tables: &[(u16, Table)], place: u16) -> bool
    ensures { IsTrue result ↔ Contains (map (λ entry. entry.0) tables.now) place }
{
    for entry in tables {
        if entry.0 == place {
            return true;
        }
    }
    false
}

/// Whether there is a table for the node at the place, if it is kept.
fn is_complete_at(query: &Query, tables: &[(u16, Table)], place: u16) -> bool
    requires { place < length query.now.nodes }
    ensures { IsTrue result ↔ (IsKept query.now.nodes place
        → Contains (map (λ entry. entry.0) tables.now) place) }
{
    !is_kept(query, place) || has_place(tables, place)
}

/// Whether there is a table for each kept node.
fn are_complete(query: &Query, tables: &[(u16, Table)]) -> bool
    ensures { IsTrue result ↔ AreComplete query.now.nodes tables.now }
{
    for place in 0..query.nodes().len() {
        if !is_complete_at(query, tables, place as u16) {
            return false;
        }
    }
    true
}

/// Whether the places rise.
fn are_rising(tables: &[(u16, Table)]) -> bool
    ensures { IsTrue result ↔ AllPairs (λ entry later. entry.0 < later.0) tables.now }
{
    for place in 1..tables.len() {
        if tables[place - 1].0 >= tables[place].0 {
            return false;
        }
    }
    true
}

/// Whether what is kept has the form of what is kept of the query: without snapshots no table, and
/// else one for each kept node, in rising order, over the slots and the query's answer variables,
/// whose sets have only future nodes of the node's own part of the formula.
pub fn fits(query: &Query, slots: u32, kept: &Kept) -> bool
    ensures { IsTrue result ↔ Fits query.now slots kept.now }
{
    if kept.count == 0 {
        return kept.tables.is_empty();
    }
    if !are_complete(query, kept.tables.as_slice()) {
        return false;
    }
    if !are_rising(kept.tables.as_slice()) {
        return false;
    }
    let sets = future_sets(query.nodes());
    all_fit(query, slots, &sets, kept.tables.as_slice())
}
