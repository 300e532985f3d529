//! States that take turns in one monitor.

ghost use Rattle.std.specs.Prelude.{◌≡◌, not, [], IfOk};
ghost use Rattle.tcq_syntax.specs.Histories.{empty_history};
ghost use Rattle.monitor_core.specs.Standing.{came_with};
ghost use Rattle.monitor_core.specs.Exchanging.{watched_of, in_state, FitsUnder, StandsUnder};

use crate::monitor::Monitor;
use crate::opening::first_state;
use crate::plan::Plan;
use crate::state::State;
use answer_tables::Made;
use dl_syntax::Memory;
use std::alloc::Global;
use std::marker::Model;
use std::mem::swap;

/// A state that isn't in a monitor, with what was made of each query at its last snapshot.
#[derive(Drop)]
pub struct RestingState {
    pub(crate) state: State,
    pub(crate) made: Vec<Made>,
}

impl Model for RestingState {
    ghost use Rattle.monitor_core.specs.declared.state.State.{State};
    ghost use Rattle.monitor_core.specs.Keeping.{IsState};

    ghost Value = { State };

    ghost view = { λ resting. resting.state };

    ghost invariant = { λ resting. IsState resting.state };
}

impl RestingState {
    /// How many snapshots were accepted, or the greatest number where there were more.
    pub fn count(&self) -> u64
        ensures { result ≡ self.now.count }
    {
        self.state.count
    }
}

impl Monitor {
    /// What was computed once of the ontology and the queries.
    pub fn plan(&self) -> &Plan
        ensures { result.now ≡ self.now.plan }
    {
        &self.plan
    }

    /// The state before any snapshot, as this monitor would begin in it.
    pub fn fresh(&self, alloc: Global) -> Result<RestingState, Memory>
        ensures fits { IfOk result (FitsUnder (watched_of self.now)) }
        ensures stands { came_with self.now ≡ [] → IfOk result (λ state.
            StandsUnder (watched_of self.now) state (empty_history (not self.now.strangers))) }
    {
        let state = first_state(alloc, self.plan.queries.as_slice())?;
        let made = Vec::new(alloc);
        Ok(RestingState { state, made })
    }

    /// The state and that of the monitor change places. All else stays. It takes no memory.
    pub fn exchange(&mut self, state: &mut RestingState)
        requires { FitsUnder (watched_of self.old) state.old }
        ensures monitor { self.new ≡ in_state (watched_of self.old) state.old }
        ensures state { state.new ≡ self.old.state }
        ensures fits { FitsUnder (watched_of self.old) state.new }
    {
        swap(&mut self.state, &mut state.state);
        swap(&mut self.made, &mut state.made);
    }
}
