//! All that rewriting reaches.

ghost use Rattle.std.specs.Prelude.{◌≡◌, ◌≤◌, ◌∷◌, [], Some, length, slice_get, IfOk};
ghost use Rattle.std.specs.List.{All};
ghost use Rattle.dl_syntax.specs.Encode.{IsUnqualified};
ghost use Rattle.dl_syntax.specs.Queries.{IsQuery};
ghost use Rattle.query_unify.specs.Reach.{Step};
ghost use Rattle.worklist.specs.Reach.{IsClosure, ReachesMore};
ghost use Rattle.proof_search.specs.Reached.{AreLinked};

use crate::fault::ProofFault;
use crate::reached::{Link, Reached, expand};
use dl_syntax::{Cq, Inclusion, Memory};
use indexmap::IndexSet;
use std::alloc::Global;

/// The first query alone.
fn begin(alloc: Global, start: Cq) -> Result<Reached, Memory>
    ensures keys { IfOk result (λ reached. reached.found.keys ≡ start ∷ []) }
    ensures links { IfOk result (λ reached. length reached.links.items ≡ 1) }
{
    let mut found = IndexSet::new(alloc);
    found.insert(start)?;
    let mut links = Vec::new(alloc);
    links.push(Link { from: 0, via: None })?;
    Ok(Reached {
        alloc,
        found,
        links,
    })
}

/// Exactly the queries that steps lead to from the first one, each once and after the one that led
/// to it. `TooManyRewritings` comes exactly where they are more than `room`.
pub(crate) fn closure(
    alloc: Global,
    inclusions: &[Inclusion],
    start: Cq,
    room: u32,
) -> Result<Reached, ProofFault>
    requires unqualified { All IsUnqualified inclusions.now }
    requires query { IsQuery start }
    ensures found { IfOk result (λ reached.
        IsClosure (Step inclusions.now) start reached.found.keys) }
    ensures linked { IfOk result (λ reached.
        AreLinked inclusions.now reached.found.keys reached.links.items) }
    ensures first { IfOk result (λ reached. slice_get reached.found.keys 0 ≡ Some start) }
    ensures few { IfOk result (λ reached. length reached.found.keys ≤ room) }
    ensures not_more { IfOk result (λ _. ReachesMore (Step inclusions.now) start room → ⊥) }
    ensures many { result ≡ Err ProofFault.TooManyRewritings
        → ReachesMore (Step inclusions.now) start room }
{
    if room == 0 {
        return Err(ProofFault::TooManyRewritings);
    }
    let mut reached = begin(alloc, start)?;
    for place in 0..room {
        if place as usize >= reached.found.len() {
            return Ok(reached);
        }
        expand(&mut reached, inclusions, place)?;
        if reached.found.len() > room as usize {
            return Err(ProofFault::TooManyRewritings);
        }
    }
    Ok(reached)
}
