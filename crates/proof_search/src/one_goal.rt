//! The proof of one goal.

ghost use Rattle.std.specs.Prelude.{◌≡◌, ◌≤◌, ◌<◌, ◌^◌, Some, length, IfOk, IfSome, MatchOption};
ghost use Rattle.std.specs.Prelude.{Err};
ghost use Rattle.std.specs.List.{All};
ghost use Rattle.dl_syntax.specs.Declaring.{IsDeclaredClash};
ghost use Rattle.dl_syntax.specs.Encode.{IsOverOntology, IsQueryOver, IsMet};
ghost use Rattle.dl_syntax.specs.Match.{Certain};
ghost use Rattle.dl_syntax.specs.Queries.{IsQuery};
ghost use Rattle.tcq_syntax.specs.Within.{HasDeclaredLeaves};
ghost use Rattle.consistency.specs.Asking.{query_of};
ghost use Rattle.run_proofs.specs.Shows.{Holds};
ghost use Rattle.proof_search.specs.Explaining.{AnswersBy, MeetsBy};
ghost use Rattle.proof_search.specs.Goals.{asked, ReachesMore, ShowsGoal, IsProofOf, IsShort};

use crate::answer::Search;
use crate::fault::ProofFault;
use crate::naming::{clash_of, leaf_of};
use crate::showing::Shown;
use crate::sides::query;
use dl_syntax::{Clash, Cq, IndId, Items, Memory, Ontology, Snapshot};
use fact_index::build::index;
use run_proofs::{Goal, Proof};
use std::alloc::Global;
use tcq_syntax::Query;

/// What shows that the row is an answer, where it is one.
fn shown_answer(
    alloc: Global,
    ontology: &Ontology,
    cq: &Cq,
    facts: &Snapshot,
    row: &[IndId],
    room: u32,
) -> Result<Option<Shown>, ProofFault>
    requires query { IsQuery cq.now }
    requires declared { IsQueryOver ontology.now cq.now }
    requires over { IsOverOntology ontology.now facts.now }
    requires few { length facts.now < 2 ^ 31 }
    requires room { room ≤ 2 ^ 30 }
    ensures exact { IfOk result (λ shown. MatchOption shown
        (Certain ontology.now.inclusions cq.now facts.now row.now → ⊥)
        (AnswersBy ontology.now cq.now facts.now row.now)) }
    ensures short { IfOk result (λ shown. IfSome shown (λ s. IsShort room s.steps.items)) }
    ensures within { IfOk result (λ _. ReachesMore ontology.now (Some cq.now) room → ⊥) }
    ensures many { result ≡ Err ProofFault.TooManyRewritings
        → ReachesMore ontology.now (Some cq.now) room }
{
    let search = Search::new(alloc, ontology, cq, room)?;
    let index = index(alloc, facts)?;
    match search.answer(ontology, cq, facts.facts(), &index, row) {
        Ok(shown) => Ok(shown),
        Err(_) => Err(ProofFault::Memory),
    }
}

/// What shows that the clash is met, where some run meets it.
fn shown_meeting(
    alloc: Global,
    ontology: &Ontology,
    clash: &Clash,
    facts: &Snapshot,
    room: u32,
) -> Result<Option<Shown>, ProofFault>
    requires declared { IsDeclaredClash (length ontology.now.concepts)
        (length ontology.now.roles) clash.now }
    requires over { IsOverOntology ontology.now facts.now }
    requires few { length facts.now < 2 ^ 31 }
    requires room { room ≤ 2 ^ 30 }
    ensures exact { IfOk result (λ shown. MatchOption shown
        (IsMet ontology.now.inclusions facts.now clash.now → ⊥)
        (MeetsBy ontology.now clash.now facts.now)) }
    ensures short { IfOk result (λ shown. IfSome shown (λ s. IsShort room s.steps.items)) }
    ensures within { IfOk result (λ _.
        ReachesMore ontology.now (Some (query_of clash.now)) room → ⊥) }
    ensures many { result ≡ Err ProofFault.TooManyRewritings
        → ReachesMore ontology.now (Some (query_of clash.now)) room }
{
    let search = Search::of_clash(alloc, ontology, clash, room)?;
    let index = index(alloc, facts)?;
    match search.meeting(ontology, clash, facts.facts(), &index) {
        Ok(shown) => Ok(shown),
        Err(_) => Err(ProofFault::Memory),
    }
}

/// What shows the goal, where some run of the facts shows it.
fn shown_goal(
    alloc: Global,
    ontology: &Ontology,
    queries: &[Query],
    facts: &Snapshot,
    goal: &Goal,
    room: u32,
) -> Result<Option<Shown>, ProofFault>
    requires declared { All (HasDeclaredLeaves ontology.now) queries.now }
    requires over { IsOverOntology ontology.now facts.now }
    requires few { length facts.now < 2 ^ 31 }
    requires room { room ≤ 2 ^ 30 }
    ensures exact { IfOk result (λ shown. MatchOption shown
        (Holds ontology.now queries.now facts.now goal.now → ⊥)
        (ShowsGoal ontology.now queries.now facts.now goal.now)) }
    ensures short { IfOk result (λ shown. IfSome shown (λ s. IsShort room s.steps.items)) }
    ensures within { IfOk result (λ _.
        ReachesMore ontology.now (asked ontology.now queries.now goal.now) room → ⊥) }
    ensures many { result ≡ Err ProofFault.TooManyRewritings
        → ReachesMore ontology.now (asked ontology.now queries.now goal.now) room }
{
    match goal {
        Goal::Answer { query, leaf, row } => match leaf_of(queries, *query, *leaf) {
            Some(cq) => shown_answer(alloc, ontology, cq, facts, row.places(), room),
            None => Ok(None),
        },
        Goal::Clash(number) => match clash_of(ontology, *number) {
            Some(clash) => shown_meeting(alloc, ontology, clash, facts, room),
            None => Ok(None),
        },
    }
}

/// The proof of the goal by the steps and the ending.
fn proof_by(facts: &Snapshot, goal: Goal, shown: Shown) -> Result<Proof, Memory>
    ensures facts { IfOk result (λ proof. proof.facts ≡ facts.now) }
    ensures goal { IfOk result (λ proof. proof.goal ≡ goal) }
    ensures steps { IfOk result (λ proof. proof.steps ≡ shown.steps.items) }
    ensures ending { IfOk result (λ proof. proof.ending ≡ shown.ending) }
{
    let Shown { steps, ending } = shown;
    Ok(Proof {
        facts: facts.clone()?,
        goal,
        steps: Items::from_vec(steps),
        ending,
    })
}

/// A proof of the goal from the facts, which has fewer steps than there is room for queries, and
/// none exactly where no run of the facts shows the goal. `TooManyRewritings` comes exactly where
/// the leaf or the clash that the goal names reaches more than `room` queries.
pub fn explain(
    alloc: Global,
    ontology: &Ontology,
    queries: &[Query],
    facts: &Snapshot,
    goal: Goal,
    room: u32,
) -> Result<Option<Proof>, ProofFault>
    requires declared { All (HasDeclaredLeaves ontology.now) queries.now }
    requires over { IsOverOntology ontology.now facts.now }
    requires few { length facts.now < 2 ^ 31 }
    requires room { room ≤ 2 ^ 30 }
    ensures exact { IfOk result (λ found. MatchOption found
        (Holds ontology.now queries.now facts.now goal → ⊥)
        (IsProofOf ontology.now queries.now facts.now goal)) }
    ensures short { IfOk result (λ found. IfSome found
        (λ proof. IsShort room proof.steps)) }
    ensures within { IfOk result (λ _.
        ReachesMore ontology.now (asked ontology.now queries.now goal) room → ⊥) }
    ensures many { result ≡ Err ProofFault.TooManyRewritings
        → ReachesMore ontology.now (asked ontology.now queries.now goal) room }
{
    match shown_goal(alloc, ontology, queries, facts, &goal, room) {
        Ok(Some(shown)) => match proof_by(facts, goal, shown) {
            Ok(proof) => Ok(Some(proof)),
            Err(_) => Err(ProofFault::Memory),
        },
        Ok(None) => Ok(None),
        Err(fault) => Err(fault),
    }
}
