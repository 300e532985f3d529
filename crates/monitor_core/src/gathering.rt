//! The rewritings of what is watched: of the leaves, where those that ask the same are kept once,
//! and of the clashes.

ghost use Rattle.std.specs.Prelude.{◌≡◌, ◌≤◌, ◌↔◌, ◌++◌, [], ◌∷◌, List};
ghost use Rattle.std.specs.Prelude.{IsTrue, IfOk, OnOk, MatchOption, Err};
ghost use Rattle.dl_syntax.specs.declared.queries.Cq.{Cq};
ghost use Rattle.std.specs.List.{All};
ghost use Rattle.tcq_syntax.specs.declared.nodes.Node.TheVariants as node_kinds;
ghost use Rattle.tcq_syntax.specs.Tcq.{IsTcq};
ghost use Rattle.tcq_syntax.specs.Within.{AreWithin};
ghost use Rattle.perfect_ref.specs.Plain.{encoded, Reachable, HoldsOf, HoldsOfMore};
ghost use Rattle.perfect_ref.specs.Counting.{ReachAll, ReachMore};
ghost use Rattle.consistency.specs.Prepared.{IsPreparedFor};
ghost use Rattle.progression.specs.Tables.{leaves_of};
ghost use Rattle.monitor_core.specs.Planning.{IsAskable, HasPlainLeaves, IsLeafOf, AreLeaves};
ghost use Rattle.monitor_core.specs.Planning.{IsAskedAt, AreAllPlaces, AreTables};
ghost use Rattle.monitor_core.specs.Opening.{all_leaves, AsksSame, KeepsLeaves, Gathers};
ghost use Rattle.monitor_core.specs.Opening.{HasMoreRewritings};

use crate::plan::Leaf;
use consistency::{Clashes, prepare};
use dl_syntax::{Cq, Ontology};
use perfect_ref::{RewriteFault, Rewriter};
use std::alloc::Global;
use tcq_syntax::{Node, Query};

/// The places of a query's leaves, and how many queries they reach in all.
#[derive(Drop)]
struct Places {
    each: Vec<usize>,
    reached: u32,
}

/// The leaves of several queries: what they ask, once each, and the places of each query's.
#[derive(Drop)]
struct AllLeaves {
    leaves: Vec<Leaf>,
    places: Vec<Vec<usize>>,
    reached: u32,
}

/// The leaf that asks the query.
fn leaf_of(rewriter: &Rewriter, query: &Cq, room: u32) -> Result<Leaf, RewriteFault>
    requires { IsAskable rewriter.now query.now }
    ensures leaf { IfOk result (λ leaf. IsLeafOf rewriter.now query.now leaf) }
    ensures few { IfOk result (λ leaf. leaf.reached ≤ room) }
    ensures many { result ≡ Err RewriteFault.TooManyRewritings →
        HoldsOfMore (Reachable rewriter.now query.now) room }
{
    let core = match rewriter.counted_core(query, room) {
        Ok(core) => core,
        Err(fault) => return Err(fault),
    };
    let asked = match query.clone() {
        Ok(asked) => asked,
        Err(_) => return Err(RewriteFault::Memory),
    };
    Ok(Leaf {
        query: asked,
        arity: query.head.as_slice().len() as u8,
        reached: core.reached,
        core: core.members,
    })
}

/// Whether the leaf asks the query.
fn asks(leaf: &Leaf, query: &Cq) -> bool
    ensures { IsTrue result ↔ (leaf.now.query ≡ query.now) }
{
    leaf.query == *query
}

/// The place of a leaf that asks the query.
fn place_of(leaves: &[Leaf], query: &Cq) -> Option<usize>
    ensures { MatchOption result (Unit {0}) (λ place. AsksSame leaves.now query.now place) }
{
    for (place, leaf) in leaves.iter().enumerate() {
        if asks(leaf, query) {
            return Some(place);
        }
    }
    None
}

/// The place of the leaf that asks the query, and how many queries it reaches. It is put with the
/// others where none asks the same.
fn leaf_at(
    rewriter: &Rewriter,
    query: &Cq,
    room: u32,
    leaves: &mut Vec<Leaf>,
) -> Result<(usize, u32), RewriteFault>
    requires askable { IsAskable rewriter.now query.now }
    requires leaves { AreLeaves rewriter.now leaves.old.items }
    ensures leaves { OnOk result (AreLeaves rewriter.now leaves.new.items) }
    ensures kept { OnOk result (KeepsLeaves leaves.old.items leaves.new.items) }
    ensures at { IfOk result (λ r. IsAskedAt rewriter.now leaves.new.items query.now r.0) }
    ensures count { IfOk result (λ r. HoldsOf (Reachable rewriter.now query.now) r.1) }
    ensures few { IfOk result (λ r. r.1 ≤ room) }
    ensures many { result ≡ Err RewriteFault.TooManyRewritings →
        HoldsOfMore (Reachable rewriter.now query.now) room }
{
    if let Some(place) = place_of(leaves.as_slice(), query) {
        let reached = leaves[place].reached;
        if reached > room {
            return Err(RewriteFault::TooManyRewritings);
        }
        return Ok((place, reached));
    }
    let leaf = match leaf_of(rewriter, query, room) {
        Ok(leaf) => leaf,
        Err(fault) => return Err(fault),
    };
    let found = (leaves.len(), leaf.reached);
    match leaves.push(leaf) {
        Ok(()) => {}
        Err(_) => return Err(RewriteFault::Memory),
    }
    Ok(found)
}

/// The places with that of one more leaf.
fn add_leaf(
    rewriter: &Rewriter,
    query: &Cq,
    room: u32,
    leaves: &mut Vec<Leaf>,
    places: &mut Places,
) -> Result<(), RewriteFault>
    requires askable { IsAskable rewriter.now query.now }
    requires leaves { AreLeaves rewriter.now leaves.old.items }
    requires few { places.old.reached ≤ room }
    ensures leaves { OnOk result (AreLeaves rewriter.now leaves.new.items) }
    ensures kept { OnOk result (KeepsLeaves leaves.old.items leaves.new.items) }
    ensures few { OnOk result (places.new.reached ≤ room) }
    ensures ok { OnOk result ((front : List Cq) →
        Gathers rewriter.now front leaves.old.items places.old.each.items places.old.reached →
        Gathers rewriter.now (front ++ query.now ∷ []) leaves.new.items places.new.each.items
        places.new.reached) }
    ensures many { result ≡ Err RewriteFault.TooManyRewritings → (front : List Cq) →
        Gathers rewriter.now front leaves.old.items places.old.each.items places.old.reached →
        ReachMore rewriter.now (front ++ query.now ∷ []) room }
{
    let (place, count) = match leaf_at(rewriter, query, room - places.reached, leaves) {
        Ok(found) => found,
        Err(fault) => return Err(fault),
    };
    match places.each.push(place) {
        Ok(()) => {}
        Err(_) => return Err(RewriteFault::Memory),
    }
    places.reached += count;
    Ok(())
}

/// The places with that of the node, if it is a leaf.
fn add_node(
    rewriter: &Rewriter,
    node: &Node,
    room: u32,
    leaves: &mut Vec<Leaf>,
    places: &mut Places,
) -> Result<(), RewriteFault>
    requires askable { (q : Cq) → node.now ≡ node_kinds.Leaf q → IsAskable rewriter.now q }
    requires leaves { AreLeaves rewriter.now leaves.old.items }
    requires few { places.old.reached ≤ room }
    ensures leaves { OnOk result (AreLeaves rewriter.now leaves.new.items) }
    ensures kept { OnOk result (KeepsLeaves leaves.old.items leaves.new.items) }
    ensures few { OnOk result (places.new.reached ≤ room) }
    ensures ok { OnOk result ((front : List Cq) →
        Gathers rewriter.now front leaves.old.items places.old.each.items places.old.reached →
        Gathers rewriter.now (front ++ leaves_of (node.now ∷ [])) leaves.new.items
        places.new.each.items places.new.reached) }
    ensures many { result ≡ Err RewriteFault.TooManyRewritings → (front : List Cq) →
        Gathers rewriter.now front leaves.old.items places.old.each.items places.old.reached →
        ReachMore rewriter.now (front ++ leaves_of (node.now ∷ [])) room }
{
    match node {
        Node::Leaf(query) => add_leaf(rewriter, query, room, leaves, places),
        _ => Ok(()),
    }
}

/// The places of a query's leaves, which are put with the others where none asks the same.
fn places_of_query(
    alloc: Global,
    rewriter: &Rewriter,
    query: &Query,
    room: u32,
    leaves: &mut Vec<Leaf>,
) -> Result<Places, RewriteFault>
    requires plain { HasPlainLeaves rewriter.now.roles query.now }
    requires leaves { AreLeaves rewriter.now leaves.old.items }
    ensures table { IfOk result (λ _. IsTcq query.now.vars query.now.nodes) }
    ensures leaves { OnOk result (AreLeaves rewriter.now leaves.new.items) }
    ensures kept { OnOk result (KeepsLeaves leaves.old.items leaves.new.items) }
    ensures few { IfOk result (λ places. places.reached ≤ room) }
    ensures ok { IfOk result (λ places.
        Gathers rewriter.now (leaves_of query.now.nodes) leaves.new.items places.each.items
        places.reached) }
    ensures many { result ≡ Err RewriteFault.TooManyRewritings →
        ReachMore rewriter.now (leaves_of query.now.nodes) room }
{
    let mut places = Places {
        each: Vec::new(alloc),
        reached: 0,
    };
    let nodes = query.nodes();
    for node in nodes {
        match add_node(rewriter, node, room, leaves, &mut places) {
            Ok(()) => {}
            Err(fault) => return Err(fault),
        }
    }
    Ok(places)
}

/// The leaves of the queries.
fn all_leaves_of(
    alloc: Global,
    rewriter: &Rewriter,
    queries: &[Query],
    room: u32,
) -> Result<AllLeaves, RewriteFault>
    requires { All (HasPlainLeaves rewriter.now.roles) queries.now }
    ensures tables { IfOk result (λ _. AreTables queries.now) }
    ensures few { IfOk result (λ all. all.reached ≤ room) }
    ensures leaves { IfOk result (λ all. AreLeaves rewriter.now all.leaves.items) }
    ensures places { IfOk result (λ all.
        AreAllPlaces rewriter.now all.leaves.items queries.now all.places.items) }
    ensures all { IfOk result (λ all. ReachAll rewriter.now (all_leaves queries.now) all.reached) }
    ensures many { result ≡ Err RewriteFault.TooManyRewritings →
        ReachMore rewriter.now (all_leaves queries.now) room }
{
    let mut all = AllLeaves {
        leaves: Vec::new(alloc),
        places: Vec::new(alloc),
        reached: 0,
    };
    for query in queries {
        let left = room - all.reached;
        let places = match places_of_query(alloc, rewriter, query, left, &mut all.leaves) {
            Ok(places) => places,
            Err(fault) => return Err(fault),
        };
        all.reached += places.reached;
        match all.places.push(places.each) {
            Ok(()) => {}
            Err(_) => return Err(RewriteFault::Memory),
        }
    }
    Ok(all)
}

/// The leaves of several queries with their cores, and the clashes with theirs.
#[derive(Drop)]
pub(crate) struct Rewritten {
    pub leaves: Vec<Leaf>,
    pub places: Vec<Vec<usize>>,
    pub clashes: Clashes,
}

/// The rewritings of the leaves and the clashes, which reach at most `room` queries in all.
pub(crate) fn rewrite_all(
    alloc: Global,
    ontology: &Ontology,
    queries: &[Query],
    room: u32,
) -> Result<Rewritten, RewriteFault>
    requires { AreWithin ontology.now queries.now }
    ensures tables { IfOk result (λ _. AreTables queries.now) }
    ensures leaves { IfOk result (λ r. AreLeaves (encoded ontology.now) r.leaves.items) }
    ensures places { IfOk result (λ r.
        AreAllPlaces (encoded ontology.now) r.leaves.items queries.now r.places.items) }
    ensures clashes { IfOk result (λ r. IsPreparedFor r.clashes ontology.now) }
    ensures within { IfOk result (λ _. HasMoreRewritings ontology.now queries.now room → ⊥) }
    ensures many { result ≡ Err RewriteFault.TooManyRewritings →
        HasMoreRewritings ontology.now queries.now room }
{
    let rewriter = match Rewriter::new(alloc, ontology) {
        Ok(rewriter) => rewriter,
        Err(_) => return Err(RewriteFault::Memory),
    };
    let all = match all_leaves_of(alloc, &rewriter, queries, room) {
        Ok(all) => all,
        Err(fault) => return Err(fault),
    };
    let clashes = match prepare(alloc, ontology, room - all.reached) {
        Ok(clashes) => clashes,
        Err(fault) => return Err(fault),
    };
    Ok(Rewritten {
        leaves: all.leaves,
        places: all.places,
        clashes,
    })
}
