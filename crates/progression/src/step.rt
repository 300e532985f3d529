//! The tables of a query's nodes after one more snapshot.

ghost use Rattle.std.specs.Prelude.{◌≡◌, ◌<◌, ◌≤◌, ◌^◌, ◌++◌, ◌∷◌, [], true, IfOk, length, take};
ghost use Rattle.std.specs.List.{count_by};
ghost use Rattle.formula_store.specs.Interned.{Extends};
ghost use Rattle.answer_tables.specs.Substituting.{HaveShape};
ghost use Rattle.tcq_syntax.specs.Formula.{is_future, number_at, HasChildrenBelow, IsTable};
ghost use Rattle.tcq_syntax.specs.Laws.{granted_place};
ghost use Rattle.progression.specs.Tables.{Tabulates, AreTables, table_at, step_test, is_leaf};
ghost use Rattle.progression.specs.Tables.{leaf_number, HasLeaf, HaveLeaves, KeptShape};
ghost use Rattle.progression.specs.Tables.{values_after};

use crate::Memory;
use crate::joined::join;
use crate::own::own;
use answer_tables::{Made, Table};
use dl_syntax::Tuples;
use formula_store::Store;
use std::alloc::Global;
use tcq_syntax::Node;

fn is_leaf(node: &Node) -> bool
    ensures { result ≡ is_leaf node.now }
{
    matches!(node, Node::Leaf(_))
}

/// How many leaves stand before the place.
fn leaf_number(nodes: &[Node], place: usize) -> usize
    requires { place ≤ length nodes.now }
    ensures { result ≡ leaf_number nodes.now place }
{
    nodes[..place].iter().filter(|node| is_leaf(node)).count()
}

/// The table of the next node, behind the tables of those before it.
fn node_table(
    alloc: Global,
    nodes: &[Node],
    node: &Node,
    slots: u32,
    arity: u8,
    first: bool,
    kept: &[(u16, Table)],
    leaves: &[Tuples],
    tables: &[Table],
    values: &[Table],
    made: &mut Made,
    store: &mut Store,
) -> Result<Table, Memory>
    requires few { slots ^ arity ≤ 2 ^ 60 }
    requires within { length tables.now < length nodes.now }
    requires small { length nodes.now ≤ 64 }
    requires children { HasChildrenBelow (length tables.now) node.now }
    requires number { is_future node.now ≡ true → length values.now < 8 }
    requires kept { KeptShape slots arity kept.now }
    requires leaf { HasLeaf arity leaves.now (leaf_number nodes.now (length tables.now)) node.now }
    requires tables { HaveShape slots arity tables.now }
    requires values { HaveShape slots arity values.now }
    ensures table { IfOk result (Tabulates slots arity
        (step_test first kept.now leaves.now (leaf_number nodes.now (length tables.now))
        (length tables.now) tables.now values.now node.now) store.new) }
    ensures grown { Extends store.old store.new }
{
    let place = tables.len();
    let leaf = leaf_number(nodes, place);
    let own = own(
        alloc,
        slots,
        arity,
        node,
        place as u16,
        first,
        kept,
        leaves,
        leaf,
        values,
        made,
        store,
    )?;
    join(alloc, node, place as u16, tables, own, made, store)
}

/// The table of what is granted with a future node.
fn granted(node: &Node, tables: &[Table], own: &Table) -> Result<Table, Memory>
    requires { HasChildrenBelow (length tables.now) node.now }
    ensures { IfOk result (λ t. t
        ≡ table_at (tables.now ++ own.now ∷ []) (granted_place (length tables.now) node.now)) }
{
    match node {
        Node::Next(f) | Node::WeakNext(f) => tables[*f as usize].copy(),
        _ => own.copy(),
    }
}

/// The values after one more node.
fn values_after(
    values: Vec<Table>,
    node: &Node,
    tables: &[Table],
    own: &Table,
) -> Result<Vec<Table>, Memory>
    requires { HasChildrenBelow (length tables.now) node.now }
    ensures { IfOk result (λ new. new.items
        ≡ values_after tables.now values.items node.now own.now) }
{
    let mut values = values;
    if node.is_future() {
        let value = granted(node, tables, own)?;
        values.push(value)?;
    }
    Ok(values)
}

/// The table of each node.
pub fn node_tables(
    alloc: Global,
    nodes: &[Node],
    slots: u32,
    arity: u8,
    first: bool,
    kept: &[(u16, Table)],
    leaves: &[Tuples],
    made: &mut Made,
    store: &mut Store,
) -> Result<Vec<Table>, Memory>
    requires few { slots ^ arity ≤ 2 ^ 60 }
    requires table { IsTable nodes.now }
    requires small { length nodes.now ≤ 64 }
    requires futures { count_by is_future nodes.now ≤ 8 }
    requires kept { KeptShape slots arity kept.now }
    requires leaves { HaveLeaves arity nodes.now leaves.now }
    ensures tables { IfOk result (λ tables.
        AreTables nodes.now slots arity first kept.now leaves.now store.new (length nodes.now)
        tables.items) }
    ensures grown { Extends store.old store.new }
{
    let mut tables = Vec::new(alloc);
    let mut values = Vec::new(alloc);
    for node in nodes {
        let table = node_table(
            alloc,
            nodes,
            node,
            slots,
            arity,
            first,
            kept,
            leaves,
            tables.as_slice(),
            values.as_slice(),
            made,
            store,
        )?;
        values = values_after(values, node, tables.as_slice(), &table)?;
        tables.push(table)?;
    }
    Ok(tables)
}
