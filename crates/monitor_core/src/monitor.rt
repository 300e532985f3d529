//! The monitor.

ghost use Rattle.std.specs.Prelude.{◌≡◌, ◌<◌, ◌≤◌, length, IfOk};
ghost use Rattle.tcq_syntax.specs.Histories.{History};
ghost use Rattle.monitor_core.specs.Standing.{Stands, HoldsSize, KeepsSize, IsFewAt};
ghost use Rattle.monitor_core.specs.Standing.{setting_of, count_of, units_in};

use crate::plan::Plan;
use crate::state::{State, set_count_of};
use answer_tables::Made;
use dl_syntax::{Memory, Ontology};
use std::alloc::Global;
use std::marker::Model;
use tcq_syntax::Query;

/// Watches queries under an ontology.
#[derive(Drop)]
pub struct Monitor {
    pub(crate) plan: Plan,
    pub(crate) state: State,
    /// Whether further names may come with the stream.
    pub(crate) strangers: bool,
    /// How many individuals came with the stream.
    pub(crate) declared: u32,
    /// What was made of each query at the last snapshot, so that the same is not made again.
    pub(crate) made: Vec<Made>,
}

impl Model for Monitor {
    ghost use Rattle.monitor_core.specs.Keeping.{Monitored, IsMonitored};

    ghost Value = { Monitored };

    ghost view = { λ m. record {
      plan = m.plan;
      state = m.state;
      strangers = m.strangers;
      declared = m.declared;
    } };

    ghost invariant = { λ m. IsMonitored (record {
      plan = m.plan;
      state = m.state;
      strangers = m.strangers;
      declared = m.declared;
    }) };
}

impl Monitor {
    /// The queries in their order.
    pub fn queries(&self) -> &[Query]
        ensures { result.now ≡ (setting_of self.now).queries }
    {
        self.plan.queries.as_slice()
    }

    /// The ontology under which they are answered, with the individuals that came with the stream.
    pub fn ontology(&self) -> &Ontology
        ensures { result.now ≡ (setting_of self.now).ontology }
    {
        &self.plan.ontology
    }

    /// Whether further names may come with the stream.
    pub fn has_strangers(&self) -> bool
        ensures { result ≡ self.now.strangers }
    {
        self.strangers
    }

    /// How many individuals came with the stream. They are the last ones of the ontology.
    pub fn declared(&self) -> u32
        ensures { result ≡ self.now.declared }
    {
        self.declared
    }

    /// How many snapshots were accepted, or the greatest number where there were more.
    pub fn count(&self) -> u64
        ensures state { result ≡ self.now.state.count }
        ensures history { (history : History) →
            Stands self.now history → result ≡ count_of history }
    {
        self.state.count
    }

    /// How many sets are held: the total length of the distinct antichains that are kept. They are
    /// no more than the units of the queries over the individuals and a stranger, after any
    /// snapshots.
    pub fn held(&self) -> u64
        ensures kept { HoldsSize self.now result }
        ensures few { result ≤ units_in (setting_of self.now) }
    {
        self.state.store.set_count()
    }

    /// How many sets are kept of the query at the place: the total length of the distinct
    /// antichains of its kept tables. They are no more than the query's units over the
    /// individuals and a stranger.
    pub fn kept_size(&self, alloc: Global, place: usize) -> Result<u64, Memory>
        requires { place < length (setting_of self.now).queries }
        ensures kept { IfOk result (KeepsSize self.now place) }
        ensures few { IfOk result (IsFewAt (setting_of self.now) place) }
    {
        let kept = self.state.kept.as_slice();
        set_count_of(alloc, &kept[place])
    }
}
