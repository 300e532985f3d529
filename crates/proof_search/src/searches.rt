//! The searches for the proofs of leaves and clashes.

ghost use Rattle.std.specs.Prelude.{◌≡◌, ◌≤◌, ◌^◌, Some, Vec, Option, Err, IfOk, slice_get};
ghost use Rattle.std.specs.Option.{option_map};
ghost use Rattle.std.specs.Global.{Global as GlobalValue};
ghost use Rattle.std.specs.List.{AllZip};
ghost use Rattle.dl_syntax.specs.declared.queries.Cq.{Cq as CqValue};
ghost use Rattle.dl_syntax.specs.Queries.{IsQuery};
ghost use Rattle.tcq_syntax.specs.Tcq.{IsTcq};
ghost use Rattle.run_proofs.specs.Shows.{leaf_of_node};
ghost use Rattle.proof_search.specs.declared.answer.Search.{Search as SearchValue};
ghost use Rattle.proof_search.specs.Explainer.{IsSearchOf, AreSearchesOf, AreTables};
ghost use Rattle.proof_search.specs.Explainer.{counted_from_one};
ghost use Rattle.proof_search.specs.Explainer.{IsSearchOfClash, SomeNodeReachesMore};
ghost use Rattle.proof_search.specs.Explainer.{SomeLeafReachesMore, SomeClashReachesMore};
ghost use Rattle.proof_search.specs.Goals.{ReachesMore};

use crate::answer::Search;
use crate::fault::ProofFault;
use dl_syntax::Ontology;
use std::alloc::Global;
use tcq_syntax::{Node, Query};

/// The search of the node, where that is a leaf.
fn search_of(
    alloc: Global,
    ontology: &Ontology,
    node: &Node,
    room: u32,
) -> Result<Option<Search>, ProofFault>
    requires { (q : CqValue) → leaf_of_node (Some node.now) ≡ Some q → IsQuery q }
    ensures search { IfOk result (IsSearchOf ontology.now room node.now) }
    ensures many { result ≡ Err ProofFault.TooManyRewritings
        → ReachesMore ontology.now (leaf_of_node (Some node.now)) room }
{
    match node {
        Node::Leaf(cq) => match Search::new(alloc, ontology, cq, room) {
            Ok(search) => Ok(Some(search)),
            Err(fault) => Err(fault),
        },
        _ => Ok(None),
    }
}

/// The searches of the query's nodes.
fn searches_of(
    alloc: Global,
    ontology: &Ontology,
    query: &Query,
    room: u32,
) -> Result<Vec<Option<Search>>, ProofFault>
    ensures table { IfOk result (λ _. IsTcq query.now.vars query.now.nodes) }
    ensures searches { IfOk result (AreSearchesOf ontology.now room query.now) }
    ensures many { result ≡ Err ProofFault.TooManyRewritings
        → SomeNodeReachesMore ontology.now query.now room }
{
    let nodes = query.nodes();
    let mut searches = Vec::with_capacity(alloc, nodes.len())?;
    for node in nodes {
        let search = search_of(alloc, ontology, node, room)?;
        searches.push(search)?;
    }
    Ok(searches)
}

/// The searches of the nodes of all queries.
pub(crate) fn all_searches(
    alloc: Global,
    ontology: &Ontology,
    queries: &[Query],
    room: u32,
) -> Result<Vec<Vec<Option<Search>>>, ProofFault>
    ensures tables { IfOk result (λ _. AreTables queries.now) }
    ensures searches { IfOk result (λ all.
        AllZip (AreSearchesOf ontology.now room) queries.now all.items) }
    ensures many { result ≡ Err ProofFault.TooManyRewritings
        → SomeLeafReachesMore ontology.now queries.now room }
{
    let mut all = Vec::with_capacity(alloc, queries.len())?;
    for query in queries {
        let searches = searches_of(alloc, ontology, query, room)?;
        all.push(searches)?;
    }
    Ok(all)
}

/// The searches of the clashes.
pub(crate) fn clash_searches(
    alloc: Global,
    ontology: &Ontology,
    room: u32,
) -> Result<Vec<Search>, ProofFault>
    ensures searches { IfOk result (λ all.
        AllZip (IsSearchOfClash ontology.now room) ontology.now.clashes all.items) }
    ensures many { result ≡ Err ProofFault.TooManyRewritings
        → SomeClashReachesMore ontology.now room }
{
    let clashes = ontology.clashes();
    let mut all = Vec::with_capacity(alloc, clashes.len())?;
    for clash in clashes {
        let search = Search::of_clash(alloc, ontology, clash, room)?;
        all.push(search)?;
    }
    Ok(all)
}

/// The search, where there is one.
fn in_option(search: &Option<Search>) -> Option<&Search>
    ensures { option_map (λ s. s.now) result ≡ search.now }
{
    match search {
        Some(search) => Some(search),
        None => None,
    }
}

/// The search at the place of the leaf.
fn search_at(searches: &[Option<Search>], leaf: u16) -> Option<&Search>
    ensures { (search : Option SearchValue) → slice_get searches.now leaf ≡ Some search
        → option_map (λ s. s.now) result ≡ search }
{
    match searches.get(leaf as usize) {
        Some(search) => in_option(search),
        None => None,
    }
}

/// The search of the leaf at the place in the query of the number.
pub(crate) fn leaf_search(leaves: &[Vec<Option<Search>>], query: u16, leaf: u16) -> Option<&Search>
    ensures { (searches : Vec (Option SearchValue) GlobalValue) (search : Option SearchValue)
        → slice_get leaves.now query ≡ Some searches
        → slice_get searches.items leaf ≡ Some search
        → option_map (λ s. s.now) result ≡ search }
{
    match leaves.get(query as usize) {
        Some(searches) => search_at(searches.as_slice(), leaf),
        None => None,
    }
}

/// The search of the clash of the number, counted from 1.
pub(crate) fn clash_search(meetings: &[Search], number: u32) -> Option<&Search>
    ensures { option_map (λ s. s.now) result ≡ counted_from_one meetings.now number }
{
    if number == 0 {
        None
    } else {
        meetings.get((number - 1) as usize)
    }
}
