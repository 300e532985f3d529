//! Named streams under one plan.

ghost use Rattle.std.specs.Prelude.{◌≡◌, ◌↔◌, ◌<◌, ◌≤◌, ◌+◌, ℕ, None, Some, Err, length, slice_get};
ghost use Rattle.std.specs.Prelude.{IfOk, OnOk, OnErr};
ghost use Rattle.dl_syntax.specs.declared.facts.Fact.{Fact};
ghost use Rattle.monitor_core.specs.Answering.{AreOver};
ghost use Rattle.monitor_core.specs.Exchanging.{watched_of, setting_under, StandsUnder};
ghost use Rattle.monitor_core.specs.Standing.{Stands, no_history, AreRowsIn, IsConsistentIn};
ghost use Rattle.monitor_core.specs.Standing.{IsLeastIn, count_of};
ghost use Rattle.tcq_syntax.specs.Histories.{History};
ghost use Rattle.monitor_core.specs.declared.state.State.{State};
ghost use Rattle.many_streams.specs.Streams.{AreStreams, number_of, no_streams, IsOneTooMany};
ghost use Rattle.many_streams.specs.Streams.{Enters, Begins, GoesOn};
ghost use Rattle.many_streams.specs.Standing.{StandEntered, StandTaken};

use crate::enter_fault::EnterFault;
use crate::name_numbers::NameNumbers;
use crate::turns::take_turn;
use dl_syntax::{Memory, Ontology, Snapshot, Tuples};
use monitor_core::{AcceptFault, Monitor, Plan, RestingState};
use std::alloc::Global;
use std::marker::Model;
use tcq_syntax::Query;

/// The most streams.
const STREAM_LIMIT: usize = 64;

/// Named streams that are watched by one plan. Each has a history of its own, with which no further
/// name may come.
#[derive(Drop)]
pub struct StreamSet {
    alloc: Global,
    /// It is in the state of a stream only while that stream has its turn.
    pub monitor: Monitor,
    /// The state of each stream.
    pub states: Vec<RestingState>,
    names: NameNumbers,
}

impl Model for StreamSet {
    ghost use Rattle.monitor_core.specs.Exchanging.{watched_of};
    ghost use Rattle.many_streams.specs.Streams.{Streams, AreStreams};

    ghost Value = { Streams };

    ghost view = { λ s. record {
      watched = watched_of s.monitor;
      names = s.names;
      states = s.states.items;
    } };

    ghost invariant = { λ s. AreStreams (record {
      watched = watched_of s.monitor;
      names = s.names;
      states = s.states.items;
    }) };
}

impl StreamSet {
    /// No streams, under the plan of the monitor, which is kept once. It takes no memory.
    pub fn new(alloc: Global, monitor: Monitor) -> StreamSet
        requires { Stands monitor no_history }
        ensures { result ≡ no_streams (watched_of monitor) }
    {
        StreamSet {
            alloc,
            monitor,
            states: Vec::new(alloc),
            names: NameNumbers::new(alloc),
        }
    }

    /// How many streams there are.
    pub fn len(&self) -> usize
        ensures len { result ≡ length self.now.names }
        ensures states { result ≡ length self.now.states }
        ensures few { result ≤ 64 }
        ensures sound { AreStreams self.now }
    {
        self.states.len()
    }

    /// The name of the stream.
    pub fn name(&self, stream: u16) -> &[u8]
        requires { stream < length self.now.names }
        ensures { slice_get self.now.names stream ≡ Some result.now }
    {
        self.names.get(stream as usize)
    }

    /// What was computed once of the ontology and the queries. No stream changes it.
    pub fn plan(&self) -> &Plan
        ensures { result.now ≡ self.now.watched.plan }
    {
        self.monitor.plan()
    }

    /// The ontology under which the queries are answered.
    pub fn ontology(&self) -> &Ontology
        ensures { result.now ≡ (setting_under self.now.watched).ontology }
    {
        self.monitor.ontology()
    }

    /// The queries in their order.
    pub fn queries(&self) -> &[Query]
        ensures { result.now ≡ (setting_under self.now.watched).queries }
    {
        self.monitor.queries()
    }

    /// Begins a stream of a new name.
    fn begin(&mut self, name: &[u8]) -> Result<u16, EnterFault>
        requires new { number_of self.old.names name.now ≡ None }
        requires room { length self.old.names < 64 }
        ensures ok { IfOk result (Begins self.old self.new name.now) }
        ensures never { result ≡ Err EnterFault.TooManyStreams → ⊥ }
        ensures err { OnErr result (self.new ≡ self.old) }
    {
        let number = self.states.len() as u16;
        let state = match self.monitor.fresh(self.alloc) {
            Ok(state) => state,
            Err(_) => return Err(EnterFault::Memory),
        };
        if let Err(_) = self.states.push(state) {
            return Err(EnterFault::Memory);
        }
        match self.names.push(name) {
            Ok(()) => Ok(number),
            Err(_) => {
                let _ = self.states.pop();
                Err(EnterFault::Memory)
            }
        }
    }

    /// The number of the stream of this name, which begins where the name is new. A refusal changes
    /// nothing.
    pub fn enter(&mut self, name: &[u8]) -> Result<u16, EnterFault>
        ensures ok { IfOk result (Enters self.old self.new name.now) }
        ensures there { IfOk result (λ number.
            number_of self.new.names name.now ≡ Some number) }
        ensures few { length self.new.names ≤ 64 }
        ensures watched { self.new.watched ≡ self.old.watched }
        ensures many { (result ≡ Err EnterFault.TooManyStreams) ↔ IsOneTooMany self.old name.now }
        ensures stands { OnOk result (StandEntered self.old self.new name.now) }
        ensures err { OnErr result (self.new ≡ self.old) }
    {
        match self.names.find(name) {
            Some(place) => Ok(place as u16),
            None => {
                if self.states.len() == STREAM_LIMIT {
                    Err(EnterFault::TooManyStreams)
                } else {
                    self.begin(name)
                }
            }
        }
    }

    /// Takes the next snapshot of the stream, and gives the answers of each query then, as a
    /// monitor does. No other stream changes, and a refused snapshot changes nothing.
    pub fn accept(&mut self, stream: u16, snapshot: &Snapshot) -> Result<Vec<Tuples>, AcceptFault>
        requires entered { stream < length self.old.names }
        requires over { AreOver (setting_under self.old.watched).ontology snapshot.now }
        ensures ok { IfOk result (λ answers.
            GoesOn self.old self.new stream snapshot.now answers.items) }
        ensures stands { IfOk result (λ answers.
            StandTaken self.old self.new stream snapshot.now answers.items) }
        ensures rows { IfOk result (λ answers.
            AreRowsIn (setting_under self.old.watched) answers.items) }
        ensures consistent { OnOk result
            (IsConsistentIn (setting_under self.old.watched) snapshot.now) }
        ensures contradiction { (number : ℕ) → result ≡ Err (AcceptFault.Contradiction number) →
            IsLeastIn (setting_under self.old.watched) snapshot.now number }
        ensures err { OnErr result (self.new ≡ self.old) }
    {
        let place = stream as usize;
        take_turn(&mut self.monitor, &mut self.states, place);
        let outcome = self.monitor.accept(self.alloc, snapshot);
        take_turn(&mut self.monitor, &mut self.states, place);
        outcome
    }

    /// How many snapshots of the stream were accepted, or the greatest number where there were
    /// more.
    pub fn accepted(&self, stream: u16) -> u64
        requires { stream < length self.now.names }
        ensures { (state : State) (history : History) →
            slice_get self.now.states stream ≡ Some state →
            StandsUnder self.now.watched state history → result ≡ count_of history }
    {
        self.states[stream as usize].count()
    }
}
