//! What is asked of a frozen query: the rewriting of the second query, and the ontology's clashes.
ghost use Rattle.std.specs.Prelude.{◌≡◌, ◌≤◌, IfOk};
ghost use Rattle.dl_syntax.specs.Queries.{IsQuery};
ghost use Rattle.perfect_ref.specs.Plain.{encoded, PlainReachable, Lists};
ghost use Rattle.consistency.specs.Prepared.{IsPreparedFor};
ghost use Rattle.contain_test.specs.Rewritings.{ReachMoreTogether};

use consistency::{Clashes, prepare};
use dl_syntax::{Cq, Ontology};
use perfect_ref::{RewriteFault, Rewriter};
use std::alloc::Global;

/// The rewriting of a query, and the clashes of the ontology.
#[derive(Drop)]
pub struct Asked {
    pub union: Vec<Cq>,
    pub clashes: Clashes,
}

/// What is asked for the query. `TooManyRewritings` comes exactly where the query and the clashes
/// reach more than `room` queries in all.
pub fn asked_for(
    alloc: Global,
    ontology: &Ontology,
    query: &Cq,
    room: u32,
) -> Result<Asked, RewriteFault>
    requires { IsQuery query.now }
    ensures union { IfOk result
        (λ asked. Lists (PlainReachable (encoded ontology.now) query.now) asked.union.items) }
    ensures clashes { IfOk result (λ asked. IsPreparedFor asked.clashes ontology.now) }
    ensures within { IfOk result (λ _. ReachMoreTogether ontology.now query.now room → ⊥) }
    ensures many { result ≡ Err RewriteFault.TooManyRewritings
        → ReachMoreTogether ontology.now query.now room }
{
    let rewriter = match Rewriter::new(alloc, ontology) {
        Ok(rewriter) => rewriter,
        Err(_) => return Err(RewriteFault::Memory),
    };
    let rewriting = match rewriter.rewrite_counted(query, room) {
        Ok(rewriting) => rewriting,
        Err(fault) => return Err(fault),
    };
    match prepare(alloc, ontology, room - rewriting.reached) {
        Ok(clashes) => Ok(Asked {
            union: rewriting.members,
            clashes,
        }),
        Err(fault) => Err(fault),
    }
}
