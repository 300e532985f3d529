//! The rows of declared individuals with a match in the facts of an index.
ghost use Rattle.std.specs.Prelude.{
  ◌≡◌,
  ◌≤◌,
  ◌⊎◌,
  ◌↔◌,
  ◌++◌,
  ◌∷◌,
  [],
  length,
  Contains,
  IsTrue,
  IfOk,
  OnOk,
  List,
};
ghost use Rattle.std.specs.List.{All, AllZip};
ghost use Rattle.dl_syntax.specs.declared.names.IndId.{IndId as IndValue};
ghost use Rattle.dl_syntax.specs.declared.queries.Cq.{Cq as CqValue};
ghost use Rattle.dl_syntax.specs.Queries.{IsQuery};
ghost use Rattle.dl_syntax.specs.Rows.{IsRising, IsAboveLast};
ghost use Rattle.tcq_syntax.specs.declared.nodes.Node.TheVariants as node_kinds;
ghost use Rattle.model_audit.specs.Rows.{
  IsDeclared,
  AreRowsOf,
  AreRowsOfQuery,
  AreRowsOfQueries,
  leaf_queries,
};

use dl_syntax::{Cq, IndId, Memory, Tuples};
use fact_index::Index;
use std::alloc::Global;
use std::slice;
use tcq_syntax::{Node, Query};
use ucq_join::answers;

fn is_declared_row(count: u32, row: &[IndId]) -> bool
    ensures { IsTrue result ↔ All (IsDeclared count) row.now }
{
    row.iter().all(|id| id.0 < count)
}

/// Puts the row last, if its individuals are declared.
fn keep_row(count: u32, row: &[IndId], kept: &mut Tuples) -> Result<(), Memory>
    requires long { length row.now ≡ kept.old.arity }
    requires above { IsAboveLast row.now kept.old.rows }
    requires rising { IsRising kept.old.rows }
    ensures wide { OnOk result (kept.new.arity ≡ kept.old.arity) }
    ensures rising { OnOk result (IsRising kept.new.rows) }
    ensures rows { OnOk result
        ((other : List IndValue) → Contains kept.new.rows other
        ↔ (Contains kept.old.rows other ⊎ ((other ≡ row.now) × All (IsDeclared count) other))) }
{
    if !is_declared_row(count, row) {
        return Ok(());
    }
    kept.push(row)?;
    Ok(())
}

/// Those of the rows whose individuals are declared.
fn declared_rows(alloc: Global, count: u32, rows: &Tuples) -> Result<Tuples, Memory>
    requires rising { IsRising rows.now.rows }
    requires long { All (λ row. length row ≡ rows.now.arity) rows.now.rows }
    ensures wide { IfOk result (λ kept. kept.arity ≡ rows.now.arity) }
    ensures rising { IfOk result (λ kept. IsRising kept.rows) }
    ensures rows { IfOk result
        (λ kept. (row : List IndValue) → Contains kept.rows row
        ↔ (Contains rows.now.rows row × All (IsDeclared count) row)) }
{
    let mut kept = Tuples::new(alloc, rows.arity());
    for place in 0..rows.len() {
        keep_row(count, rows.row(place), &mut kept)?;
    }
    Ok(kept)
}

/// The rows of the query.
fn rows_of(alloc: Global, index: &Index, count: u32, query: &Cq) -> Result<Tuples, Memory>
    requires query { IsQuery query.now }
    requires short { length query.now.head ≤ 4 }
    ensures { IfOk result (AreRowsOf index.now count query.now) }
{
    let arity = query.head.as_slice().len() as u8;
    let rows = answers(alloc, index, arity, slice::from_ref(query))?;
    let kept = declared_rows(alloc, count, &rows)?;
    Ok(kept)
}

/// Puts the rows of the node last, if it is a leaf.
fn add_rows(
    alloc: Global,
    index: &Index,
    count: u32,
    node: &Node,
    rows: &mut Vec<Tuples>,
) -> Result<(), Memory>
    requires leaf { (q : CqValue) → node.now ≡ node_kinds.Leaf q → IsQuery q × (length q.head ≤ 4) }
    ensures { OnOk result
        ((front : List CqValue) → AllZip (AreRowsOf index.now count) front rows.old.items
        → AllZip (AreRowsOf index.now count) (front ++ leaf_queries (node.now ∷ []))
        rows.new.items) }
{
    match node {
        Node::Leaf(query) => {
            let found = rows_of(alloc, index, count, query)?;
            rows.push(found)?;
            Ok(())
        }
        _ => Ok(()),
    }
}

/// The rows of each leaf of the query, in order.
fn rows_of_query(
    alloc: Global,
    index: &Index,
    count: u32,
    query: &Query,
) -> Result<Vec<Tuples>, Memory>
    ensures { IfOk result (λ rows. AreRowsOfQuery index.now count query.now rows.items) }
{
    let mut rows = Vec::new(alloc);
    let nodes = query.nodes();
    for node in nodes {
        add_rows(alloc, index, count, node, &mut rows)?;
    }
    Ok(rows)
}

/// The rows of each leaf of each query.
pub fn rows_of_queries(
    alloc: Global,
    index: &Index,
    count: u32,
    queries: &[Query],
) -> Result<Vec<Vec<Tuples>>, Memory>
    ensures { IfOk result (λ rows. AreRowsOfQueries index.now count queries.now rows.items) }
{
    let mut rows = Vec::with_capacity(alloc, queries.len())?;
    for query in queries {
        let each = rows_of_query(alloc, index, count, query)?;
        rows.push(each)?;
    }
    Ok(rows)
}
