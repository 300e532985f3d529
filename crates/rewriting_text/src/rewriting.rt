//! The text of the rewritings of all leaves.

ghost use Rattle.std.specs.Prelude.{◌≡◌, ◌∷◌, [], Err, IfOk, OnOk, ℕ};
ghost use Rattle.dl_syntax.specs.declared.queries.Cq.{Cq as CqValue};
ghost use Rattle.dl_syntax.specs.Queries.{IsQuery};
ghost use Rattle.tcq_syntax.specs.Within.{AreWithin};
ghost use Rattle.tcq_syntax.specs.declared.nodes.Node.TheVariants as node_value;
ghost use Rattle.perfect_ref.specs.Plain.{encoded, Lists, PlainReachable};
ghost use Rattle.rewriting_text.specs.Leaves.{TellsMore, TellsMoreLeaves, HasLargeLeaf};
ghost use Rattle.rewriting_text.specs.Leaves.{IsRewriting, leaf_of, leaves_of};
ghost use Rattle.rewriting_text.specs.Leaves.{leaves as leaves_in};
ghost use Rattle.job_sources.specs.Sources.{AreTooMany};

use crate::leaf_texts::{append_texts, sorted_texts};
use dl_syntax::{Cq, Memory, Ontology};
use job_sources::REWRITING_LIMIT;
use monitor_core::check_reach;
use perfect_ref::{RewriteFault, Rewriter};
use report_text::append_leaf;
use std::alloc::Global;
use tcq_syntax::{Node, Query};

/// An ontology, and what rewriting needs of it.
#[derive(Clone, Copy)]
struct Source<'a> {
    alloc: Global,
    ontology: &'a Ontology,
    rewriter: &'a Rewriter,
}

/// Appends what is told of a leaf whose rewriting has these members.
fn append_rewriting(
    source: &Source<'_>,
    name: &[u8],
    place: usize,
    members: &[Cq],
    text: &mut Vec<u8>,
) -> Result<(), Memory>
    ensures { OnOk result ((asks : CqValue) →
        Lists (PlainReachable (encoded source.now.ontology.now) asks) members.now →
        TellsMore source.now.ontology.now (record { name = name.now; place = place; asks = asks })
        text.old.items text.new.items) }
{
    let texts = sorted_texts(source.alloc, source.ontology, members)?;
    append_leaf(text, name, place as u64, texts.len() as u64)?;
    append_texts(text, &texts)
}

/// Appends what is told of a leaf.
fn gather_leaf(
    source: &Source<'_>,
    name: &[u8],
    place: usize,
    cq: &Cq,
    text: &mut Vec<u8>,
) -> Result<(), RewriteFault>
    requires same { source.now.rewriter.now ≡ encoded source.now.ontology.now }
    requires query { IsQuery cq.now }
    ensures gathers { OnOk result (TellsMoreLeaves source.now.ontology.now
        (record { name = name.now; place = place; asks = cq.now } ∷ [])
        text.old.items text.new.items) }
    ensures many { result ≡ Err RewriteFault.TooManyRewritings →
        HasLargeLeaf (encoded source.now.ontology.now)
        (record { name = name.now; place = place; asks = cq.now } ∷ []) }
{
    match source.rewriter.rewrite(cq, REWRITING_LIMIT) {
        Ok(members) => match append_rewriting(source, name, place, &members, text) {
            Ok(()) => Ok(()),
            Err(_) => Err(RewriteFault::Memory),
        },
        Err(fault) => Err(fault),
    }
}

/// Appends what is told of a node if it is a leaf.
fn gather_node(
    source: &Source<'_>,
    name: &[u8],
    place: usize,
    node: &Node,
    text: &mut Vec<u8>,
) -> Result<(), RewriteFault>
    requires same { source.now.rewriter.now ≡ encoded source.now.ontology.now }
    requires query { (q : CqValue) → node.now ≡ node_value.Leaf q → IsQuery q }
    ensures gathers { OnOk result (TellsMoreLeaves source.now.ontology.now
        (leaf_of name.now place node.now) text.old.items text.new.items) }
    ensures many { result ≡ Err RewriteFault.TooManyRewritings →
        HasLargeLeaf (encoded source.now.ontology.now) (leaf_of name.now place node.now) }
{
    match node {
        Node::Leaf(cq) => gather_leaf(source, name, place, cq, text),
        _ => Ok(()),
    }
}

/// Appends what is told of the leaves of a query.
fn gather_query(source: &Source<'_>, query: &Query, text: &mut Vec<u8>) -> Result<(), RewriteFault>
    requires { source.now.rewriter.now ≡ encoded source.now.ontology.now }
    ensures gathers { OnOk result (TellsMoreLeaves source.now.ontology.now
        (leaves_of query.now) text.old.items text.new.items) }
    ensures many { result ≡ Err RewriteFault.TooManyRewritings →
        HasLargeLeaf (encoded source.now.ontology.now) (leaves_of query.now) }
{
    let name = query.name().bytes();
    let nodes = query.nodes();
    for place in 0..nodes.len() {
        gather_node(source, name, place, &nodes[place], text)?;
    }
    Ok(())
}

/// Appends what is told of the leaves of the queries.
fn gather_queries(
    source: &Source<'_>,
    queries: &[Query],
    text: &mut Vec<u8>,
) -> Result<(), RewriteFault>
    requires { source.now.rewriter.now ≡ encoded source.now.ontology.now }
    ensures gathers { OnOk result (TellsMoreLeaves source.now.ontology.now
        (leaves_in queries.now) text.old.items text.new.items) }
    ensures many { result ≡ Err RewriteFault.TooManyRewritings →
        HasLargeLeaf (encoded source.now.ontology.now) (leaves_in queries.now) }
{
    for query in queries {
        gather_query(source, query, text)?;
    }
    Ok(())
}

/// The text of the rewritings of all leaves. `TooManyRewritings` comes exactly where the leaves and
/// the clashes reach more than 1,048,576 queries, each leaf's and each clash's counted by
/// themselves.
pub fn rewriting_text(
    alloc: Global,
    ontology: &Ontology,
    queries: &[Query],
) -> Result<Vec<u8>, RewriteFault>
    requires { AreWithin ontology.now queries.now }
    ensures text { IfOk result (λ text.
        IsRewriting (record { ontology = ontology.now; queries = queries.now }) text.items) }
    ensures within { IfOk result (λ _.
        AreTooMany (record { ontology = ontology.now; queries = queries.now }) → ⊥) }
    ensures many { result ≡ Err RewriteFault.TooManyRewritings →
        AreTooMany (record { ontology = ontology.now; queries = queries.now }) }
{
    check_reach(alloc, ontology, queries, REWRITING_LIMIT)?;
    let mut text = Vec::new(alloc);
    let rewriter = match Rewriter::new(alloc, ontology) {
        Ok(rewriter) => rewriter,
        Err(_) => return Err(RewriteFault::Memory),
    };
    let source = Source {
        alloc,
        ontology,
        rewriter: &rewriter,
    };
    gather_queries(&source, queries, &mut text)?;
    Ok(text)
}
