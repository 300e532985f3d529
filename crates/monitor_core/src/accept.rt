//! The next snapshot.

ghost use Rattle.std.specs.Prelude.{◌≡◌, ◌<◌, ℕ, List, Some, length, slice_get};
ghost use Rattle.std.specs.Prelude.{Err, IfOk, OnOk, OnErr};
ghost use Rattle.std.specs.List.{AllZip};
ghost use Rattle.dl_syntax.specs.declared.facts.Fact.{Fact};
ghost use Rattle.tcq_syntax.specs.Tcq.{Tcq};
ghost use Rattle.progression.specs.Kept.{Fits};
ghost use Rattle.monitor_core.specs.Answering.{AreOver};
ghost use Rattle.monitor_core.specs.Planning.{IsPlan};
ghost use Rattle.monitor_core.specs.Leaves.{AreUnionAnswers, AreLeafRelations};
ghost use Rattle.monitor_core.specs.Keeping.{AllFit, AreCounted, IsState};
ghost use Rattle.monitor_core.specs.Advancing.{one_more, AreSeen, Advances, AllAdvance};
ghost use Rattle.monitor_core.specs.Standing.{IsNext, Takes, AreRowsIn, IsConsistentIn};
ghost use Rattle.monitor_core.specs.Standing.{IsLeastIn, setting_of};

use crate::accept_fault::AcceptFault;
use crate::leaves::{leaf_answers, relations_at};
use crate::monitor::Monitor;
use crate::plan::Plan;
use crate::state::{State, state_of};
use answer_tables::Made;
use consistency::first_clash_closed;
use dl_syntax::{Kind, Memory, Snapshot, Tuples};
use fact_index::{Index, build};
use formula_store::Store;
use progression::{Kept, Slots, advance};
use std::alloc::Global;
use std::mem::replace;

/// What is kept of each query, and its answers.
#[derive(Drop)]
struct Advanced {
    kept: Vec<Kept>,
    answers: Vec<Tuples>,
}

/// The answers of the leaves at a snapshot, and where memory is taken for what comes of them.
#[derive(Clone, Copy)]
struct Moment<'a> {
    alloc: Global,
    relations: &'a [Tuples],
}

/// What was made of the query at the place before, which is taken away.
fn take_made(alloc: Global, made: &mut Vec<Made>, place: usize) -> Made {
    if place < made.len() {
        replace(&mut made[place], Made::new(alloc))
    } else {
        Made::new(alloc)
    }
}

/// Puts what was made of the query at the place there, or last.
fn put_made(made: &mut Vec<Made>, place: usize, known: Made) {
    if place < made.len() {
        made[place] = known;
    } else {
        let _ = made.push(known);
    }
}

impl Plan {
    /// The facts over individuals that follow from the snapshot's and that leaves or clashes can
    /// see.
    fn closed(&self, alloc: Global, snapshot: &Snapshot) -> Result<Index, Memory>
        requires plan { IsPlan self.now }
        requires over { AreOver self.now.ontology snapshot.now }
        ensures { IfOk result (λ index.
            AreSeen self.now.ontology self.now.sight snapshot.now index) }
    {
        let facts = self.saturator.saturate_seen(alloc, &self.sight, snapshot)?;
        build::index(alloc, &facts)
    }

    /// What is kept of the query at the place after one more snapshot, and its answers then.
    fn advance_one(
        &self,
        moment: &Moment<'_>,
        place: usize,
        kept: &Kept,
        made: &mut Vec<Made>,
        store: &mut Store,
    ) -> Result<(Kept, Tuples), Memory>
        requires plan { IsPlan self.now }
        requires relations { AreLeafRelations self.now.leaves.items moment.now.relations.now }
        requires within { place < length self.now.queries.items }
        requires fits { (query : Tcq) → slice_get self.now.queries.items place ≡ Some query →
            Fits query self.now.slots kept.now }
        ensures { IfOk result (λ r. (facts : List Fact) (query : Tcq) →
            AllZip (AreUnionAnswers facts) self.now.leaves.items moment.now.relations.now →
            slice_get self.now.queries.items place ≡ Some query →
            Advances self.now.ontology self.now.slots self.now.sight query facts kept.now r.0
            r.1) }
    {
        let alloc = moment.alloc;
        let query = &self.queries[place];
        let places = self.places.as_slice();
        let leaves = relations_at(alloc, moment.relations, places[place].as_slice())?;
        let individuals = self.ontology.count(Kind::Individual);
        let slots = Slots {
            kept: self.slots,
            answered: individuals,
        };
        let mut known = take_made(alloc, made, place);
        let asked = leaves.as_slice();
        let next = advance(alloc, query, slots, kept, asked, &mut known, store);
        put_made(made, place, known);
        next
    }

    /// What is kept of each query after one more snapshot, from whose facts these follow, and the
    /// answers then.
    fn advanced(
        &self,
        alloc: Global,
        kept: &[Kept],
        facts: &Index,
        made: &mut Vec<Made>,
    ) -> Result<Advanced, Memory>
        requires plan { IsPlan self.now }
        requires fits { AllFit self.now.slots self.now.queries.items kept.now }
        ensures { IfOk result (λ a.
            AllAdvance self.now.ontology self.now.slots self.now.sight self.now.queries.items
            facts.now kept.now a.kept.items a.answers.items) }
    {
        let relations = leaf_answers(alloc, facts, self.leaves.as_slice())?;
        let mut store = Store::new(alloc);
        let mut new = Vec::with_capacity(alloc, kept.len())?;
        let mut answers = Vec::with_capacity(alloc, kept.len())?;
        let known = relations.as_slice();
        let moment = Moment {
            alloc,
            relations: known,
        };
        for place in 0..kept.len() {
            let (k, rows) = self.advance_one(&moment, place, &kept[place], made, &mut store)?;
            new.push(k)?;
            answers.push(rows)?;
        }
        Ok(Advanced { kept: new, answers })
    }

    /// The state after this one, and the answers of each query then.
    fn next(
        &self,
        alloc: Global,
        state: &State,
        facts: &Index,
        made: &mut Vec<Made>,
    ) -> Result<(State, Vec<Tuples>), Memory>
        requires plan { IsPlan self.now }
        requires state { IsState state.now }
        requires fits { AllFit self.now.slots self.now.queries.items state.now.kept.items }
        ensures { IfOk result (λ r. IsNext self.now state.now facts.now r.0 r.1.items) }
    {
        let advanced = self.advanced(alloc, state.kept.as_slice(), facts, made)?;
        let Advanced { kept, answers } = advanced;
        let count = state.count.saturating_add(1);
        let state = state_of(alloc, count, kept)?;
        Ok((state, answers))
    }
}

impl Monitor {
    /// Takes the next snapshot, and gives the answers of each query then. It is counted, as far as
    /// numbers go. The answers are tuples of individuals: none has the stranger, which stands for
    /// names that may still come. A snapshot that is inconsistent is refused with the least clash
    /// that it meets. A refused snapshot changes nothing.
    pub fn accept(&mut self, alloc: Global, snapshot: &Snapshot) -> Result<Vec<Tuples>, AcceptFault>
        requires { AreOver (setting_of self.old).ontology snapshot.now }
        ensures plan { self.new.plan ≡ self.old.plan }
        ensures setting { setting_of self.new ≡ setting_of self.old }
        ensures strangers { self.new.strangers ≡ self.old.strangers }
        ensures declared { self.new.declared ≡ self.old.declared }
        ensures counted { OnOk result (self.new.state.count ≡ one_more self.old.state.count) }
        ensures each { AreCounted self.new.state }
        ensures rows { IfOk result (λ answers. AreRowsIn (setting_of self.old) answers.items) }
        ensures consistent { OnOk result (IsConsistentIn (setting_of self.old) snapshot.now) }
        ensures ok { IfOk result (λ answers. Takes self.old self.new snapshot.now answers.items) }
        ensures contradiction { (number : ℕ) → result ≡ Err (AcceptFault.Contradiction number) →
            IsLeastIn (setting_of self.old) snapshot.now number }
        ensures err { OnErr result (self.new ≡ self.old) }
    {
        let facts = self.plan.closed(alloc, snapshot)?;
        if let Some(number) = first_clash_closed(alloc, &self.plan.clashes, &facts)? {
            return Err(AcceptFault::Contradiction(number));
        }
        let (state, answers) = self.plan.next(alloc, &self.state, &facts, &mut self.made)?;
        self.state = state;
        Ok(answers)
    }
}
