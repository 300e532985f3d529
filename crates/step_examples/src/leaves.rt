//! The answers of leaves at a snapshot of one individual.

ghost use Rattle.std.specs.Prelude.{◌≡◌, IfOk, IfSome, length};
ghost use Rattle.dl_syntax.specs.declared.queries.Cq.{Cq};
ghost use Rattle.progression.specs.Tables.{IsOverLeaf};
ghost use Rattle.std.specs.List.{All};
ghost use Rattle.step_examples.specs.Over.{AnswersOn, AreAnswers, AreOver, GoesOn};
ghost use Rattle.step_examples.specs.Plain.{LeafAsksForMembers, rows_if};

use crate::plain::{Fact, leaf_holds};
use dl_syntax::{IndId, Memory, Tuples};
use std::alloc::Global;
use tcq_syntax::Node;

// The individual alone, or no row.
fn column(alloc: Global, there: bool) -> Result<Tuples, Memory>
    ensures over { IfOk result (λ rows. (q : Cq) → length q.head ≡ 1 → IsOverLeaf q rows) }
    ensures rows { IfOk result (λ rows. rows.rows ≡ rows_if there) }
{
    let mut rows = Tuples::new(alloc, 1);
    if there {
        rows.push(&[IndId(0)])?;
    }
    Ok(rows)
}

// The relations and that of a further node, if it is a leaf of one answer variable.
fn with_leaf(alloc: Global, leaves: Vec<Tuples>, node: &Node, fact: Fact) -> Option<Vec<Tuples>>
    ensures over { IfSome result (λ new. GoesOn leaves.items node.now new.items) }
    ensures answers { IfSome result (λ new. LeafAsksForMembers node.now
        → AnswersOn fact leaves.items node.now new.items) }
{
    let mut leaves = leaves;
    if let Node::Leaf(q) = node {
        if q.head.as_slice().len() != 1 {
            return None;
        }
        let rows = column(alloc, leaf_holds(q, fact)).ok()?;
        leaves.push(rows).ok()?;
        return Some(leaves);
    }
    Some(leaves)
}

/// The relation of each leaf at the position, if each has one answer variable.
pub fn leaves_at(alloc: Global, nodes: &[Node], fact: Fact) -> Option<Vec<Tuples>>
    ensures over { IfSome result (λ leaves. AreOver nodes.now leaves.items) }
    ensures answers { IfSome result (λ leaves. All LeafAsksForMembers nodes.now
        → AreAnswers fact nodes.now leaves.items) }
{
    let mut leaves = Vec::new(alloc);
    for node in nodes {
        leaves = with_leaf(alloc, leaves, node, fact)?;
    }
    Some(leaves)
}
