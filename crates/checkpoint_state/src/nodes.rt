//! What is kept of nodes, with the antichains by number.

ghost use Rattle.std.specs.Prelude.{◌≡◌, ◌^◌, ◌++◌, ◌∷◌, [], IfOk, OnOk, map, nat_eq};
ghost use Rattle.std.specs.List.{All, Contains};
ghost use Rattle.formula_store.specs.Interned.{AreDistinct};
ghost use Rattle.answer_tables.specs.Lengths.{antichains_in};
ghost use Rattle.checkpoint_state.specs.Suspending.{all_nodes, antichains_in_all, antichains_of};
ghost use Rattle.checkpoint_state.specs.Suspending.{node_of, nodes_of, number_in, stretch_of};
ghost use Rattle.checkpoint_state.specs.Suspending.{stretches_of};

use answer_tables::Table;
use checkpoint_text::{Node, Nodes, Stretch};
use dl_syntax::Memory;
use formula_store::{Link, Store};
use progression::Kept;
use std::alloc::Global;

/// The stretch of a run, whose antichain is in the store.
fn stretch_of(store: &Store, run: &(u64, Link)) -> Stretch
    requires distinct { AreDistinct store.now }
    requires known { Contains store.now run.now.1 }
    ensures { result ≡ stretch_of store.now run.now }
{
    let Some(list) = store.place(&run.1) else {
        unreachable!();
    };
    Stretch {
        count: run.0,
        list: list as u64,
    }
}

/// The stretches of runs, whose antichains are in the store.
fn numbered(alloc: Global, store: &Store, runs: &[(u64, Link)]) -> Result<Vec<Stretch>, Memory>
    requires distinct { AreDistinct store.now }
    requires known { All (λ r. Contains store.now r.1) runs.now }
    ensures { IfOk result (λ stretches. stretches.items ≡ map (stretch_of store.now) runs.now) }
{
    let mut stretches = Vec::with_capacity(alloc, runs.len())?;
    for run in runs {
        stretches.push(stretch_of(store, run))?;
    }
    Ok(stretches)
}

/// The stretches of a table, whose antichains are in the store.
fn stretches_of(alloc: Global, store: &Store, table: &Table) -> Result<Vec<Stretch>, Memory>
    requires distinct { AreDistinct store.now }
    requires known { All (Contains store.now) (antichains_in table.now) }
    ensures { IfOk result (λ stretches. stretches.items
        ≡ stretches_of (map (number_in store.now) (antichains_in table.now))) }
{
    let runs = table.runs(alloc)?;
    numbered(alloc, store, runs.as_slice())
}

/// Whether a table has no tuple.
fn has_no_tuple(table: &Table) -> bool
    ensures { result ≡ nat_eq (table.now.slots ^ table.now.arity) 0 }
{
    table.slots() == 0 && table.arity() > 0
}

/// What is kept of a node.
fn node_of(alloc: Global, store: &Store, entry: &(u16, Table)) -> Result<Node, Memory>
    requires distinct { AreDistinct store.now }
    requires known { All (Contains store.now) (antichains_in entry.now.1) }
    ensures { IfOk result (λ node. node ≡ node_of store.now entry.now) }
{
    let stretches = stretches_of(alloc, store, &entry.1)?;
    Ok(Node {
        place: entry.0,
        stretches,
    })
}

/// Puts what is kept of a node last, unless there is no tuple.
fn push_node(
    alloc: Global,
    store: &Store,
    entry: &(u16, Table),
    nodes: &mut Vec<Node>,
) -> Result<(), Memory>
    requires distinct { AreDistinct store.now }
    requires known { All (Contains store.now) (antichains_in entry.now.1) }
    ensures { OnOk result (nodes.new.items
        ≡ nodes.old.items ++ nodes_of store.now (entry.now ∷ [])) }
{
    if has_no_tuple(&entry.1) {
        return Ok(());
    }
    nodes.push(node_of(alloc, store, entry)?)?;
    Ok(())
}

/// What is kept of the nodes of a query.
fn nodes_of(alloc: Global, store: &Store, entries: &[(u16, Table)]) -> Result<Nodes, Memory>
    requires distinct { AreDistinct store.now }
    requires known { All (Contains store.now) (antichains_in_all entries.now) }
    ensures { IfOk result (λ nodes. nodes ≡ nodes_of store.now entries.now) }
{
    let mut nodes = Vec::new(alloc);
    for entry in entries {
        push_node(alloc, store, entry, &mut nodes)?;
    }
    Ok(Nodes { nodes })
}

/// What is kept of the nodes of all queries.
pub fn all_nodes(alloc: Global, store: &Store, kept: &[Kept]) -> Result<Vec<Nodes>, Memory>
    requires distinct { AreDistinct store.now }
    requires known { All (Contains store.now) (antichains_of kept.now) }
    ensures { IfOk result (λ queries. queries.items ≡ all_nodes store.now kept.now) }
{
    let mut queries = Vec::with_capacity(alloc, kept.len())?;
    for k in kept {
        let nodes = nodes_of(alloc, store, k.tables.as_slice())?;
        queries.push(nodes)?;
    }
    Ok(queries)
}
