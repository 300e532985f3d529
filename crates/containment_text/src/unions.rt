//! The rewritings of queries that are leaves, each made once, and the clashes with theirs.

ghost use Rattle.std.specs.Prelude.{◌≡◌, ◌≤◌, Err, IfOk};
ghost use Rattle.std.specs.List.{All};
ghost use Rattle.perfect_ref.specs.Plain.{encoded};
ghost use Rattle.progression.specs.Tables.{leaves_of};
ghost use Rattle.consistency.specs.Prepared.{IsPreparedFor};
ghost use Rattle.perfect_ref.specs.Counting.{ReachAll, ReachMore};
ghost use Rattle.monitor_core.specs.Opening.{all_leaves};
ghost use Rattle.containment_text.specs.Containments.{IsLeafQuery, IsUnionOf, AreUnionsOf};
ghost use Rattle.job_sources.specs.Sources.{AreTooMany};

use crate::leaf_queries::leaf_query;
use consistency::{Clashes, prepare};
use dl_syntax::{Cq, Ontology};
use job_sources::REWRITING_LIMIT;
use perfect_ref::{CountedRewriting, RewriteFault, Rewriter};
use std::alloc::Global;
use tcq_syntax::Query;

/// The rewritings of queries, one for each, and the clashes of the ontology.
#[derive(Drop)]
pub struct Unions {
    pub each: Vec<Vec<Cq>>,
    pub clashes: Clashes,
}

/// The rewritings of queries, one for each, and how many queries they reach.
#[derive(Drop)]
struct CountedUnions {
    each: Vec<Vec<Cq>>,
    reached: u32,
}

/// The rewriting of what the query asks, and how many queries that reaches, at most `room`.
fn union_of(
    alloc: Global,
    rewriter: &Rewriter,
    query: &Query,
    room: u32,
) -> Result<CountedRewriting, RewriteFault>
    requires { IsLeafQuery query.now }
    ensures few { IfOk result (λ counted. counted.reached ≤ room) }
    ensures union { IfOk result (λ counted. IsUnionOf rewriter.now query.now counted.members) }
    ensures all { IfOk result (λ counted.
        ReachAll rewriter.now (leaves_of query.now.nodes) counted.reached) }
    ensures many { result ≡ Err RewriteFault.TooManyRewritings →
        ReachMore rewriter.now (leaves_of query.now.nodes) room }
{
    match leaf_query(query) {
        Some(cq) => rewriter.rewrite_counted(cq, room),
        None => Ok(CountedRewriting {
            members: Vec::new(alloc),
            reached: 0,
        }),
    }
}

/// The rewritings of what the queries ask, and how many queries they reach, at most `room`.
fn unions_of(
    alloc: Global,
    rewriter: &Rewriter,
    queries: &[Query],
    room: u32,
) -> Result<CountedUnions, RewriteFault>
    requires { All IsLeafQuery queries.now }
    ensures few { IfOk result (λ unions. unions.reached ≤ room) }
    ensures each { IfOk result (λ unions.
        AreUnionsOf rewriter.now queries.now unions.each.items) }
    ensures all { IfOk result (λ unions.
        ReachAll rewriter.now (all_leaves queries.now) unions.reached) }
    ensures many { result ≡ Err RewriteFault.TooManyRewritings →
        ReachMore rewriter.now (all_leaves queries.now) room }
{
    let mut unions = CountedUnions {
        each: Vec::new(alloc),
        reached: 0,
    };
    for query in queries {
        let left = room - unions.reached;
        let counted = match union_of(alloc, rewriter, query, left) {
            Ok(counted) => counted,
            Err(fault) => return Err(fault),
        };
        unions.reached += counted.reached;
        match unions.each.push(counted.members) {
            Ok(()) => {}
            Err(_) => return Err(RewriteFault::Memory),
        }
    }
    Ok(unions)
}

/// The rewritings of what the queries ask, and the clashes. `TooManyRewritings` comes exactly where
/// the leaves and the clashes reach more than 1,048,576 queries, each counted by itself.
pub fn rewrite_all(
    alloc: Global,
    ontology: &Ontology,
    queries: &[Query],
) -> Result<Unions, RewriteFault>
    requires { All IsLeafQuery queries.now }
    ensures each { IfOk result (λ unions.
        AreUnionsOf (encoded ontology.now) queries.now unions.each.items) }
    ensures clashes { IfOk result (λ unions. IsPreparedFor unions.clashes ontology.now) }
    ensures within { IfOk result (λ _.
        AreTooMany (record { ontology = ontology.now; queries = queries.now }) → ⊥) }
    ensures many { result ≡ Err RewriteFault.TooManyRewritings →
        AreTooMany (record { ontology = ontology.now; queries = queries.now }) }
{
    let rewriter = match Rewriter::new(alloc, ontology) {
        Ok(rewriter) => rewriter,
        Err(_) => return Err(RewriteFault::Memory),
    };
    let unions = match unions_of(alloc, &rewriter, queries, REWRITING_LIMIT) {
        Ok(unions) => unions,
        Err(fault) => return Err(fault),
    };
    match prepare(alloc, ontology, REWRITING_LIMIT - unions.reached) {
        Ok(clashes) => Ok(Unions {
            each: unions.each,
            clashes,
        }),
        Err(fault) => Err(fault),
    }
}
