//! The rewritings of the clashes' queries.

ghost use Rattle.std.specs.Prelude.{◌≡◌, ◌≤◌, IfOk};
ghost use Rattle.std.specs.List.{All, AllZip};
ghost use Rattle.dl_syntax.specs.Queries.{IsQuery};
ghost use Rattle.perfect_ref.specs.Plain.{Reachable, HoldsOfMore, IsPlain};
ghost use Rattle.consistency.specs.Asking.{query_of, queries_of};
ghost use Rattle.perfect_ref.specs.Counting.{ReachAll, ReachMore};
ghost use Rattle.consistency.specs.Matching.{part_of};
ghost use Rattle.consistency.specs.Prepared.{IsRewritingOf, IsRewriting, IsPlainClash};

use crate::query::query;
use dl_syntax::{Clash, Cq};
use perfect_ref::{RewriteFault, Rewriter};
use std::alloc::Global;

/// The rewriting of a clash's query, what answers it over a saturated snapshot, and how many
/// queries are reachable.
#[derive(Drop)]
pub(crate) struct Rewriting {
    pub whole: Vec<Cq>,
    pub core: Vec<Cq>,
    pub count: u32,
}

/// Which queries of a rewriting: all, or its core.
#[derive(Clone, Copy)]
pub(crate) enum Part {
    Whole,
    Core,
}

impl Rewriting {
    /// The queries of the part.
    pub fn part(&self, part: Part) -> &[Cq]
        ensures { result.now ≡ part_of part self.now }
    {
        match part {
            Part::Whole => self.whole.as_slice(),
            Part::Core => self.core.as_slice(),
        }
    }
}

/// The rewritings of the clashes, and how many queries they reach in all.
#[derive(Drop)]
pub(crate) struct Rewritings {
    pub each: Vec<Rewriting>,
    pub reached: u32,
}

// The rewriting of a query that reaches at most so many.
fn rewriting_of(rewriter: &Rewriter, query: &Cq, room: u32) -> Result<Rewriting, RewriteFault>
    requires query { IsQuery query.now }
    requires plain { IsPlain rewriter.now.roles query.now }
    ensures rewriting { IfOk result (IsRewritingOf rewriter.now query.now) }
    ensures few { IfOk result (λ rewriting. rewriting.count ≤ room) }
    ensures many { result ≡ Err RewriteFault.TooManyRewritings →
        HoldsOfMore (Reachable rewriter.now query.now) room }
{
    let both = rewriter.whole_and_core(query, room)?;
    Ok(Rewriting {
        whole: both.whole,
        core: both.core,
        count: both.reached,
    })
}

// The rewriting of a clash's query.
fn rewrite_clash(
    alloc: Global,
    rewriter: &Rewriter,
    clash: &Clash,
    room: u32,
) -> Result<Rewriting, RewriteFault>
    requires { IsPlainClash rewriter.now.roles clash.now }
    ensures rewriting { IfOk result (IsRewriting rewriter.now clash.now) }
    ensures few { IfOk result (λ rewriting. rewriting.count ≤ room) }
    ensures many { result ≡ Err RewriteFault.TooManyRewritings →
        HoldsOfMore (Reachable rewriter.now (query_of clash.now)) room }
{
    match query(alloc, clash) {
        Ok(query) => rewriting_of(rewriter, &query, room),
        Err(_) => Err(RewriteFault::Memory),
    }
}

/// The rewritings of the clashes' queries, which reach at most so many in all.
pub(crate) fn rewrite_clashes(
    alloc: Global,
    rewriter: &Rewriter,
    clashes: &[Clash],
    room: u32,
) -> Result<Rewritings, RewriteFault>
    requires { All (IsPlainClash rewriter.now.roles) clashes.now }
    ensures each { IfOk result (λ r. AllZip (IsRewriting rewriter.now) clashes.now r.each.items) }
    ensures counted { IfOk result (λ r.
        ReachAll rewriter.now (queries_of clashes.now) r.reached) }
    ensures few { IfOk result (λ r. r.reached ≤ room) }
    ensures many { result ≡ Err RewriteFault.TooManyRewritings →
        ReachMore rewriter.now (queries_of clashes.now) room }
{
    let mut each = Vec::new(alloc);
    let mut reached = 0;
    for clash in clashes {
        match rewrite_clash(alloc, rewriter, clash, room - reached) {
            Ok(rewriting) => {
                reached += rewriting.count;
                match each.push(rewriting) {
                    Ok(()) => {}
                    Err(_) => return Err(RewriteFault::Memory),
                }
            }
            Err(fault) => return Err(fault),
        }
    }
    Ok(Rewritings { each, reached })
}
