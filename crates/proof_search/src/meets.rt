//! The steps and the places that show that a clash is met.

ghost use Rattle.std.specs.Prelude.{◌≡◌, ◌≤◌, ◌<◌, ◌^◌, [], length, IfOk, IfSome, MatchOption};
ghost use Rattle.consistency.specs.Asking.{sides as sides_of, query_of};
ghost use Rattle.dl_syntax.specs.Declaring.{IsDeclaredClash};
ghost use Rattle.dl_syntax.specs.Encode.{IsOverOntology, IsMet};
ghost use Rattle.dl_syntax.specs.Match.{Assignment, Match};
ghost use Rattle.query_unify.specs.Laws.{Gives};
ghost use Rattle.run_proofs.specs.Matching.{MeetsAt};
ghost use Rattle.proof_search.specs.Bindings.{assigned_by};
ghost use Rattle.proof_search.specs.Explaining.{HaveSame, MeetsBy};
ghost use Rattle.proof_search.specs.Search.{IsRewriting};

use crate::bindings::Binding;
use crate::known::Known;
use crate::matching::{fact_of, find_match};
use crate::reached::Reached;
use crate::search::find_walk;
use crate::showing::Shown;
use crate::sides::{query, sides};
use crate::walk::{Walk, place_of};
use dl_syntax::{Clash, Cq, Fact, Memory, Ontology};
use fact_index::Index;
use run_proofs::Ending;
use std::alloc::Global;

/// The places of the facts that both sides of the clash become.
fn places_of(clash: &Clash, run: &[Fact], bindings: &[Binding]) -> (u32, u32)
    requires matches { Match (sides_of clash.now) run.now (assigned_by bindings.now) }
    requires few { length run.now < 2 ^ 32 }
    ensures { MeetsAt clash.now run.now result.0 result.1 }
{
    let (left, right) = sides(clash);
    let first = place_of(run, &fact_of(bindings, &left));
    let second = place_of(run, &fact_of(bindings, &right));
    (first, second)
}

/// The places in the walk's run of two facts that are both sides of the clash.
fn places_in(alloc: Global, clash: &Clash, query: &Cq, walk: &Walk) -> Result<(u32, u32), Memory>
    requires query { query.now ≡ query_of clash.now }
    requires gives { Gives query.now walk.now.known.items [] }
    requires kept { (t : Assignment) → Match query.now.body walk.now.known.items t
        → Match query.now.body walk.now.run.items t }
    requires few { length walk.now.run.items < 2 ^ 32 }
    ensures { IfOk result (λ places. MeetsAt clash.now walk.now.run.items places.0 places.1) }
{
    match find_match(alloc, query, &Known::Listed(walk.known.as_slice()), &[])? {
        Some(bindings) => Ok(places_of(clash, walk.run.as_slice(), bindings.as_slice())),
        None => Ok((0, 0)),
    }
}

/// The steps and the places of two facts that show that the clash is met, where some run meets it.
pub(crate) fn meeting_shown(
    ontology: &Ontology,
    clash: &Clash,
    reached: &Reached,
    facts: &[Fact],
    index: &Index,
) -> Result<Option<Shown>, Memory>
    requires declared { IsDeclaredClash (length ontology.now.concepts)
        (length ontology.now.roles) clash.now }
    requires rewriting { IsRewriting ontology.now (query_of clash.now) reached.now }
    requires over { IsOverOntology ontology.now facts.now }
    requires same { HaveSame index.now facts.now }
    requires room { length facts.now < 2 ^ 31 }
    requires few { length reached.now.found.keys ≤ 2 ^ 30 }
    ensures exact { IfOk result (λ shown. MatchOption shown
        (IsMet ontology.now.inclusions facts.now clash.now → ⊥)
        (MeetsBy ontology.now clash.now facts.now)) }
    ensures short { IfOk result (λ shown. IfSome shown
        (λ s. length s.steps.items < length reached.now.found.keys)) }
{
    let query = query(reached.alloc, clash)?;
    let Some(walk) = find_walk(ontology, &query, reached, facts, index, &[])? else {
        return Ok(None);
    };
    let (first, second) = places_in(reached.alloc, clash, &query, &walk)?;
    let Walk {
        run: _,
        steps,
        known: _,
    } = walk;
    Ok(Some(Shown {
        steps,
        ending: Ending::Places(first, second),
    }))
}
