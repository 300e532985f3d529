//! The proofs of the answers and contradictions of many snapshots.

ghost use Rattle.std.specs.Prelude.{◌≡◌, ◌<◌, ◌≤◌, ◌^◌, List, Err, length, IfOk, IfSome};
ghost use Rattle.std.specs.Prelude.{MatchOption};
ghost use Rattle.dl_syntax.specs.declared.facts.Fact.{Fact as FactValue};
ghost use Rattle.dl_syntax.specs.Encode.{IsOverOntology};
ghost use Rattle.dl_syntax.specs.Ontology.{IsOntology};
ghost use Rattle.tcq_syntax.specs.Within.{AreWithin};
ghost use Rattle.perfect_ref.specs.Counting.{ReachMore};
ghost use Rattle.perfect_ref.specs.Plain.{encoded};
ghost use Rattle.consistency.specs.Asking.{queries_of};
ghost use Rattle.consistency.specs.Least.{IsFirstClash};
ghost use Rattle.consistency.specs.Prepared.{IsPreparedFor};
ghost use Rattle.run_proofs.specs.declared.proof.Goal.TheVariants as goals;
ghost use Rattle.run_proofs.specs.Shows.{Holds};
ghost use Rattle.proof_search.specs.Explaining.{HaveSame};
ghost use Rattle.proof_search.specs.Explainer.{AreTables, AreLeafRows, ReachTooMany};
ghost use Rattle.proof_search.specs.Goals.{ShowsGoal};

use crate::answer::Search;
use crate::fault::ProofFault;
use crate::naming::{clash_of, leaf_of};
use crate::searches::{all_searches, clash_search, clash_searches, leaf_search};
use crate::showing::Shown;
use consistency::{Clashes, RewriteFault, first_clash, prepare};
use dl_syntax::{Fact, IndId, Memory, Ontology, Tuples};
use fact_index::Index;
use run_proofs::Goal;
use std::alloc::Global;
use std::marker::Model;
use tcq_syntax::Query;

/// An ontology and queries, and all that is needed to prove answers and contradictions of many
/// snapshots: each leaf and each clash is rewritten once.
#[derive(Drop)]
pub struct Explainer {
    alloc: Global,
    ontology: Ontology,
    queries: Vec<Query>,
    room: u32,
    clashes: Clashes,
    /// For each query and each node of it a search, where that is a leaf.
    leaves: Vec<Vec<Option<Search>>>,
    /// A search for each clash.
    meetings: Vec<Search>,
}

impl Model for Explainer {
    ghost use Rattle.proof_search.specs.Explainer.{Explained, IsExplained};

    ghost Value = { Explained };

    ghost view = { λ e. record {
      ontology = e.ontology;
      queries = e.queries.items;
      room = e.room;
    } };

    ghost invariant = { λ e. IsExplained (record {
      ontology = e.ontology;
      queries = e.queries.items;
      room = e.room;
    }) e.clashes e.leaves.items e.meetings.items };
}

/// The clashes, prepared.
fn prepared(alloc: Global, ontology: &Ontology, room: u32) -> Result<Clashes, ProofFault>
    ensures prepared { IfOk result (λ clashes. IsPreparedFor clashes ontology.now) }
    ensures many { result ≡ Err ProofFault.TooManyRewritings →
        ReachMore (encoded ontology.now) (queries_of ontology.now.clashes) room }
{
    match prepare(alloc, ontology, room) {
        Ok(clashes) => Ok(clashes),
        Err(RewriteFault::TooManyRewritings) => Err(ProofFault::TooManyRewritings),
        Err(RewriteFault::Memory) => Err(ProofFault::Memory),
    }
}

impl Explainer {
    /// The explainer of the queries under the ontology, which rewrites each leaf and each clash.
    /// `TooManyRewritings` comes only where a leaf, a clash, or the clashes together reach more
    /// than `room` queries.
    pub fn new(
        alloc: Global,
        ontology: Ontology,
        queries: Vec<Query>,
        room: u32,
    ) -> Result<Explainer, ProofFault>
        requires within { AreWithin ontology queries.items }
        requires room { room ≤ 2 ^ 30 }
        ensures ontology { IfOk result (λ e. e.ontology ≡ ontology) }
        ensures queries { IfOk result (λ e. e.queries ≡ queries.items) }
        ensures room { IfOk result (λ e. e.room ≡ room) }
        ensures many { result ≡ Err ProofFault.TooManyRewritings
            → ReachTooMany ontology queries.items room }
    {
        let clashes = prepared(alloc, &ontology, room)?;
        let leaves = all_searches(alloc, &ontology, queries.as_slice(), room)?;
        let meetings = clash_searches(alloc, &ontology, room)?;
        Ok(Explainer {
            alloc,
            ontology,
            queries,
            room,
            clashes,
            leaves,
            meetings,
        })
    }

    /// The ontology.
    pub fn ontology(&self) -> &Ontology
        ensures same { result.now ≡ self.now.ontology }
        ensures sound { IsOntology self.now.ontology }
    {
        let _clashes = self.ontology.clashes();
        &self.ontology
    }

    /// The queries in their order.
    pub fn queries(&self) -> &[Query]
        ensures same { result.now ≡ self.now.queries }
        ensures within { AreWithin self.now.ontology self.now.queries }
        ensures tables { AreTables self.now.queries }
        ensures small { self.now.room ≤ 2 ^ 30 }
    {
        self.queries.as_slice()
    }

    /// The least number, counted from 1, of a clash that some run of the index's facts meets, and
    /// none exactly where they are consistent.
    pub fn first_clash(&self, index: &Index) -> Result<Option<u32>, Memory>
        ensures { IfOk result (λ first. (facts : List FactValue)
            → IsOverOntology self.now.ontology facts → HaveSame index.now facts
            → IsFirstClash self.now.ontology facts first) }
    {
        let _clashes = self.ontology.clashes();
        first_clash(self.alloc, &self.clashes, index)
    }

    /// The answers, over the facts of the index, of the leaf at the place in the query of the
    /// number, both counted from 0. They stand in rising order, and there are none where there is
    /// no such leaf.
    pub fn rows(&self, index: &Index, query: u16, leaf: u16) -> Result<Tuples, Memory>
        ensures { IfOk result (λ rows. (facts : List FactValue)
            → IsOverOntology self.now.ontology facts → HaveSame index.now facts
            → AreLeafRows self.now.ontology self.now.queries facts query leaf rows.rows) }
    {
        let Some(cq) = leaf_of(&self.queries, query, leaf) else {
            return Ok(Tuples::new(self.alloc, 0));
        };
        let Some(search) = leaf_search(&self.leaves, query, leaf) else {
            return Ok(Tuples::new(self.alloc, 0));
        };
        search.rows(&self.ontology, cq, index)
    }

    /// What shows that the row is an answer of the leaf, where it is one.
    fn shown_answer(
        &self,
        facts: &[Fact],
        index: &Index,
        query: u16,
        leaf: u16,
        row: &[IndId],
    ) -> Result<Option<Shown>, Memory>
        requires over { IsOverOntology self.now.ontology facts.now }
        requires same { HaveSame index.now facts.now }
        requires few { length facts.now < 2 ^ 31 }
        ensures exact { IfOk result (λ shown. MatchOption shown
            (Holds self.now.ontology self.now.queries facts.now (goals.Answer query leaf row.now)
            → ⊥)
            (ShowsGoal self.now.ontology self.now.queries facts.now
            (goals.Answer query leaf row.now))) }
        ensures short { IfOk result (λ shown. IfSome shown
            (λ s. length s.steps.items < self.now.room)) }
    {
        let Some(cq) = leaf_of(&self.queries, query, leaf) else {
            return Ok(None);
        };
        let Some(search) = leaf_search(&self.leaves, query, leaf) else {
            return Ok(None);
        };
        search.answer(&self.ontology, cq, facts, index, row)
    }

    /// What shows that the clash of the number is met, where some run meets it.
    fn shown_meeting(
        &self,
        facts: &[Fact],
        index: &Index,
        number: u32,
    ) -> Result<Option<Shown>, Memory>
        requires over { IsOverOntology self.now.ontology facts.now }
        requires same { HaveSame index.now facts.now }
        requires few { length facts.now < 2 ^ 31 }
        ensures exact { IfOk result (λ shown. MatchOption shown
            (Holds self.now.ontology self.now.queries facts.now (goals.Clash number) → ⊥)
            (ShowsGoal self.now.ontology self.now.queries facts.now (goals.Clash number))) }
        ensures short { IfOk result (λ shown. IfSome shown
            (λ s. length s.steps.items < self.now.room)) }
    {
        let Some(clash) = clash_of(&self.ontology, number) else {
            return Ok(None);
        };
        let Some(search) = clash_search(&self.meetings, number) else {
            return Ok(None);
        };
        search.meeting(&self.ontology, clash, facts, index)
    }

    /// The steps of the chase from the facts and the ending that show the goal. The steps are fewer
    /// than the explainer's room. There are none exactly where no run of the facts shows the goal.
    /// The index has the same facts.
    pub fn show(&self, facts: &[Fact], index: &Index, goal: &Goal) -> Result<Option<Shown>, Memory>
        requires over { IsOverOntology self.now.ontology facts.now }
        requires same { HaveSame index.now facts.now }
        requires few { length facts.now < 2 ^ 31 }
        ensures exact { IfOk result (λ shown. MatchOption shown
            (Holds self.now.ontology self.now.queries facts.now goal.now → ⊥)
            (ShowsGoal self.now.ontology self.now.queries facts.now goal.now)) }
        ensures short { IfOk result (λ shown. IfSome shown
            (λ s. length s.steps.items < self.now.room)) }
    {
        match goal {
            Goal::Answer { query, leaf, row } => {
                self.shown_answer(facts, index, *query, *leaf, row.places())
            }
            Goal::Clash(number) => self.shown_meeting(facts, index, *number),
        }
    }
}
