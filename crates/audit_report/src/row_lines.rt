//! The lines of the rows of leaves.

ghost use Rattle.std.specs.Prelude.{◌≡◌, ◌≤◌, ◌+◌, ◌++◌, List, Vec, OnOk, length};
ghost use Rattle.std.specs.Global.{Global as GlobalValue};
ghost use Rattle.std.specs.List.{All, AllZip};
ghost use Rattle.dl_syntax.specs.declared.facts.Fact.{Fact as FactValue};
ghost use Rattle.dl_syntax.specs.Rows.{Relation};
ghost use Rattle.report_text.specs.Names.{IsNamed, AreNamed};
ghost use Rattle.model_audit.specs.Rows.{AreRowsOf, AreRowsOfQueries, leaf_queries};
ghost use Rattle.audit_report.specs.Lines.{leaf_row_text, leaf_text};
ghost use Rattle.audit_report.specs.Rows.{is_leaf, TellsMoreNodes, TellsMoreQueries, AreAllNamed};

use crate::texts::{append_number, append_row};
use dl_syntax::{IndId, Memory, Ontology, Tuples};
use tcq_syntax::{Node, Query};

/// Appends a row of the leaf at this place of the query with this name.
fn append_leaf_row(
    out: &mut Vec<u8>,
    ontology: &Ontology,
    name: &[u8],
    place: u64,
    row: &[IndId],
) -> Result<(), Memory>
    requires { IsNamed ontology.now row.now }
    ensures { OnOk result (out.new.items ≡ out.old.items
        ++ leaf_row_text ontology.now.individuals name.now place row.now) }
{
    out.extend_from_slice(b"answer ")?;
    out.extend_from_slice(name)?;
    out.extend_from_slice(b" ")?;
    append_number(out, place)?;
    append_row(out, ontology, row)?;
    out.extend_from_slice(b"\n")
}

/// Appends all of its rows.
fn append_leaf(
    out: &mut Vec<u8>,
    ontology: &Ontology,
    name: &[u8],
    place: u64,
    rows: &Tuples,
) -> Result<(), Memory>
    requires { AreNamed ontology.now rows.now.rows }
    ensures { OnOk result (out.new.items ≡ out.old.items
        ++ leaf_text ontology.now.individuals name.now place rows.now.rows) }
{
    for at in 0..rows.len() {
        append_leaf_row(out, ontology, name, place, rows.row(at))?;
    }
    Ok(())
}

fn is_leaf(node: &Node) -> bool
    ensures { result ≡ is_leaf node.now }
{
    matches!(node, Node::Leaf(_))
}

/// Appends the rows of each leaf among nodes, of which the first has this place in the query of
/// this name.
fn append_nodes(
    out: &mut Vec<u8>,
    ontology: &Ontology,
    name: &[u8],
    place: u64,
    nodes: &[Node],
    rows: &[Tuples],
) -> Result<(), Memory>
    requires small { place + length nodes.now ≤ 64 }
    requires named { All (λ relation. AreNamed ontology.now relation.rows) rows.now }
    ensures { OnOk result ((facts : List FactValue) →
        AllZip (AreRowsOf facts (length ontology.now.individuals)) (leaf_queries nodes.now)
        rows.now →
        TellsMoreNodes ontology.now facts name.now place nodes.now out.old.items out.new.items) }
{
    let Some((node, later)) = nodes.split_first() else {
        return Ok(());
    };
    if !is_leaf(node) {
        return append_nodes(out, ontology, name, place + 1, later, rows);
    }
    let Some((first, others)) = rows.split_first() else {
        return Ok(());
    };
    append_leaf(out, ontology, name, place, first)?;
    append_nodes(out, ontology, name, place + 1, later, others)
}

/// Appends the rows of each leaf of each query.
pub fn append_queries(
    out: &mut Vec<u8>,
    ontology: &Ontology,
    queries: &[Query],
    rows: &[Vec<Tuples>],
) -> Result<(), Memory>
    requires { All (λ each. AreAllNamed ontology.now each) rows.now }
    ensures { OnOk result ((facts : List FactValue) →
        AreRowsOfQueries facts (length ontology.now.individuals) queries.now rows.now →
        TellsMoreQueries ontology.now facts queries.now out.old.items out.new.items) }
{
    match queries {
        [] => Ok(()),
        [query, later @ ..] => match rows {
            [] => Ok(()),
            [first, others @ ..] => {
                let nodes = query.nodes();
                append_nodes(
                    out,
                    ontology,
                    query.name().bytes(),
                    0,
                    nodes,
                    first.as_slice(),
                )?;
                append_queries(out, ontology, later, others)
            }
        },
    }
}
