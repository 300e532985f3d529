//! What a goal asks.

ghost use Rattle.std.specs.Prelude.{◌≡◌, IfSome};
ghost use Rattle.std.specs.Option.{option_map};
ghost use Rattle.dl_syntax.specs.Queries.{IsQuery};
ghost use Rattle.dl_syntax.specs.Declaring.{IsDeclaredClash};
ghost use Rattle.run_proofs.specs.Shows.{leaf_of_node, leaf_at, clash_of as clash_with};
ghost use Rattle.std.specs.Prelude.{Some, length};

use dl_syntax::{Clash, Cq, Ontology};
use tcq_syntax::{Node, Query};

/// The query of the node, where that is a leaf.
pub(crate) fn leaf_in(node: &Node) -> Option<&Cq>
    ensures { option_map (λ q. q.now) result ≡ leaf_of_node (Some node.now) }
{
    match node {
        Node::Leaf(cq) => Some(cq),
        _ => None,
    }
}

/// The query of the leaf at the place among the nodes of the query of the number, both counted from
/// 0, where there is one.
pub(crate) fn leaf_of(queries: &[Query], query: u16, leaf: u16) -> Option<&Cq>
    ensures same { option_map (λ q. q.now) result ≡ leaf_at queries.now query leaf }
    ensures query { IfSome result (λ q. IsQuery q.now) }
{
    let Some(known) = queries.get(query as usize) else {
        return None;
    };
    let Some(node) = known.nodes().get(leaf as usize) else {
        return None;
    };
    leaf_in(node)
}

/// The clash of the number, counted from 1, where there is one.
pub(crate) fn clash_of(ontology: &Ontology, number: u32) -> Option<&Clash>
    ensures same { option_map (λ m. m.now) result ≡ clash_with ontology.now.clashes number }
    ensures declared { IfSome result (λ m. IsDeclaredClash (length ontology.now.concepts)
        (length ontology.now.roles) m.now) }
{
    if number == 0 {
        None
    } else {
        ontology.clashes().get((number - 1) as usize)
    }
}
