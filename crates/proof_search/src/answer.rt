//! The steps and the match that show a certain answer, and those that show a contradiction.

ghost use Rattle.std.specs.Prelude.{◌≡◌, ◌≤◌, ◌<◌, ◌^◌, map, length, IfOk, IfSome, MatchOption};
ghost use Rattle.std.specs.Prelude.{List};
ghost use Rattle.dl_syntax.specs.declared.facts.Fact.{Fact as FactValue};
ghost use Rattle.dl_syntax.specs.Declaring.{IsDeclaredClash};
ghost use Rattle.dl_syntax.specs.Queries.{IsQuery};
ghost use Rattle.perfect_ref.specs.Plain.{encoded, Reachable, HoldsOfMore};
ghost use Rattle.dl_syntax.specs.declared.facts.Element.TheVariants.{Ind as ind_element};
ghost use Rattle.dl_syntax.specs.Encode.{IsOverOntology, IsQueryOver, IsMet};
ghost use Rattle.dl_syntax.specs.Match.{Certain};
ghost use Rattle.query_unify.specs.Laws.{Gives};
ghost use Rattle.consistency.specs.Asking.{query_of};
ghost use Rattle.run_proofs.specs.Matching.{IsMatch};
ghost use Rattle.proof_search.specs.Bindings.{assigned_by};
ghost use Rattle.proof_search.specs.Explaining.{AnswersBy, MeetsBy, AreCertainRows, HaveSame};
ghost use Rattle.proof_search.specs.Search.{IsRewriting};

use crate::bindings::Binding;
use crate::fault::ProofFault;
use crate::known::Known;
use crate::matching::{element_of, find_match};
use crate::meets::meeting_shown;
use crate::reached::Reached;
use crate::search::{find_walk, rewriting};
use crate::showing::Shown;
use crate::sides::query;
use crate::walk::Walk;
use dl_syntax::{Clash, Cq, Element, Fact, IndId, Items, Memory, Ontology, Tuples};
use fact_index::Index;
use run_proofs::{Ending, variables_of};
use std::alloc::Global;
use ucq_join::answers;

/// The elements of the variables.
fn elements_of(
    alloc: Global,
    bindings: &[Binding],
    variables: &[u16],
) -> Result<Vec<Element>, Memory>
    ensures { IfOk result (λ elements. elements.items
        ≡ map (assigned_by bindings.now) variables.now) }
{
    let mut elements = Vec::with_capacity(alloc, variables.len())?;
    for variable in variables {
        elements.push(element_of(bindings, *variable))?;
    }
    Ok(elements)
}

/// An element for each variable of the query, by which it has a match among the facts that makes
/// its head the row.
fn match_of(alloc: Global, cq: &Cq, facts: &[Fact], row: &[IndId]) -> Result<Vec<Element>, Memory>
    requires { Gives cq.now facts.now (map ind_element row.now) }
    ensures { IfOk result (λ elements. IsMatch cq.now facts.now row.now elements.items) }
{
    let variables = variables_of(alloc, cq.body.as_slice())?;
    match find_match(alloc, cq, &Known::Listed(facts), row)? {
        Some(bindings) => elements_of(alloc, bindings.as_slice(), variables.as_slice()),
        None => Ok(Vec::new(alloc)),
    }
}

/// The steps and the match that show the row, where it is a certain answer of the query.
fn answer_shown(
    ontology: &Ontology,
    cq: &Cq,
    reached: &Reached,
    facts: &[Fact],
    index: &Index,
    row: &[IndId],
) -> Result<Option<Shown>, Memory>
    requires declared { IsQueryOver ontology.now cq.now }
    requires rewriting { IsRewriting ontology.now cq.now reached.now }
    requires over { IsOverOntology ontology.now facts.now }
    requires same { HaveSame index.now facts.now }
    requires room { length facts.now < 2 ^ 31 }
    requires few { length reached.now.found.keys ≤ 2 ^ 30 }
    ensures exact { IfOk result (λ shown. MatchOption shown
        (Certain ontology.now.inclusions cq.now facts.now row.now → ⊥)
        (AnswersBy ontology.now cq.now facts.now row.now)) }
    ensures short { IfOk result (λ shown. IfSome shown
        (λ s. length s.steps.items < length reached.now.found.keys)) }
{
    let Some(walk) = find_walk(ontology, cq, reached, facts, index, row)? else {
        return Ok(None);
    };
    let elements = match_of(reached.alloc, cq, walk.known.as_slice(), row)?;
    let Walk {
        run: _,
        steps,
        known: _,
    } = walk;
    Ok(Some(Shown {
        steps,
        ending: Ending::Match(Items::from_vec(elements)),
    }))
}

/// A search for what shows a query's answers, made once for many facts and rows: all that the query
/// reaches by rewriting.
#[derive(Drop)]
pub struct Search {
    reached: Reached,
}

impl Search {
    /// The search for the answers of the query. `TooManyRewritings` comes exactly where it reaches
    /// more than `room` queries, those with hidden roles counted too.
    pub fn new(alloc: Global, ontology: &Ontology, cq: &Cq, room: u32) -> Result<Search, ProofFault>
        requires { IsQuery cq.now }
        ensures rewriting { IfOk result (λ search. IsRewriting ontology.now cq.now search.reached) }
        ensures few { IfOk result (λ search. length search.reached.found.keys ≤ room) }
        ensures within { IfOk result (λ _.
            HoldsOfMore (Reachable (encoded ontology.now) cq.now) room → ⊥) }
        ensures many { result ≡ Err ProofFault.TooManyRewritings
            → HoldsOfMore (Reachable (encoded ontology.now) cq.now) room }
    {
        match rewriting(alloc, ontology, cq, room) {
            Ok(reached) => Ok(Search { reached }),
            Err(fault) => Err(fault),
        }
    }

    /// The search for what shows that the clash is met, which is that of the clash's query.
    pub fn of_clash(
        alloc: Global,
        ontology: &Ontology,
        clash: &Clash,
        room: u32,
    ) -> Result<Search, ProofFault>
        ensures rewriting { IfOk result (λ search.
            IsRewriting ontology.now (query_of clash.now) search.reached) }
        ensures few { IfOk result (λ search. length search.reached.found.keys ≤ room) }
        ensures within { IfOk result (λ _.
            HoldsOfMore (Reachable (encoded ontology.now) (query_of clash.now)) room → ⊥) }
        ensures many { result ≡ Err ProofFault.TooManyRewritings
            → HoldsOfMore (Reachable (encoded ontology.now) (query_of clash.now)) room }
    {
        match query(alloc, clash) {
            Ok(query) => Search::new(alloc, ontology, &query, room),
            Err(_) => Err(ProofFault::Memory),
        }
    }

    /// The steps of the chase and the match, an element for each variable in rising order, that
    /// show the row. They are fewer than the queries that are reached. There are none exactly where
    /// the row is no certain answer of the query over the facts.
    pub fn answer(
        &self,
        ontology: &Ontology,
        cq: &Cq,
        facts: &[Fact],
        index: &Index,
        row: &[IndId],
    ) -> Result<Option<Shown>, Memory>
        requires declared { IsQueryOver ontology.now cq.now }
        requires rewriting { IsRewriting ontology.now cq.now self.now.reached }
        requires over { IsOverOntology ontology.now facts.now }
        requires same { HaveSame index.now facts.now }
        requires room { length facts.now < 2 ^ 31 }
        requires few { length self.now.reached.found.keys ≤ 2 ^ 30 }
        ensures exact { IfOk result (λ shown. MatchOption shown
            (Certain ontology.now.inclusions cq.now facts.now row.now → ⊥)
            (AnswersBy ontology.now cq.now facts.now row.now)) }
        ensures short { IfOk result (λ shown. IfSome shown
            (λ s. length s.steps.items < length self.now.reached.found.keys)) }
    {
        answer_shown(ontology, cq, &self.reached, facts, index, row)
    }

    /// The steps of the chase and the places of two facts that show that the clash is met. They are
    /// fewer than the queries that are reached. There are none exactly where no run of the facts
    /// meets it.
    pub fn meeting(
        &self,
        ontology: &Ontology,
        clash: &Clash,
        facts: &[Fact],
        index: &Index,
    ) -> Result<Option<Shown>, Memory>
        requires declared { IsDeclaredClash (length ontology.now.concepts)
            (length ontology.now.roles) clash.now }
        requires rewriting { IsRewriting ontology.now (query_of clash.now) self.now.reached }
        requires over { IsOverOntology ontology.now facts.now }
        requires same { HaveSame index.now facts.now }
        requires room { length facts.now < 2 ^ 31 }
        requires few { length self.now.reached.found.keys ≤ 2 ^ 30 }
        ensures exact { IfOk result (λ shown. MatchOption shown
            (IsMet ontology.now.inclusions facts.now clash.now → ⊥)
            (MeetsBy ontology.now clash.now facts.now)) }
        ensures short { IfOk result (λ shown. IfSome shown
            (λ s. length s.steps.items < length self.now.reached.found.keys)) }
    {
        meeting_shown(ontology, clash, &self.reached, facts, index)
    }

    /// The certain answers of the query over the facts of the index, in rising order.
    pub fn rows(&self, ontology: &Ontology, cq: &Cq, index: &Index) -> Result<Tuples, Memory>
        requires query { IsQuery cq.now }
        requires short { length cq.now.head ≤ 255 }
        requires declared { IsQueryOver ontology.now cq.now }
        requires rewriting { IsRewriting ontology.now cq.now self.now.reached }
        ensures { IfOk result (λ rows. (facts : List FactValue) → IsOverOntology ontology.now facts
            → HaveSame index.now facts → AreCertainRows ontology.now cq.now facts rows.rows) }
    {
        let arity = cq.head.as_slice().len() as u8;
        answers(
            self.reached.alloc,
            index,
            arity,
            self.reached.found.as_slice(),
        )
    }
}
