//! What a monitor keeps, handed out and taken back.

ghost use Rattle.std.specs.Prelude.{◌≡◌, false, true, length, OnErr, OnOk};
ghost use Rattle.std.specs.List.{All};
ghost use Rattle.dl_syntax.specs.Names.{IsDeclarable};
ghost use Rattle.monitor_core.specs.Keeping.{IsMonitored};
ghost use Rattle.monitor_core.specs.Restoring.{IsKeptUnder, IsUnused, plan_without_stranger};
ghost use Rattle.monitor_core.specs.Restoring.{EmptyIsUnused};
ghost use Rattle.monitor_core.specs.Standing.{AreAcceptableTo, plan_with};

use crate::monitor::Monitor;
use crate::state::state_of;
use dl_syntax::{Kind, Memory, Name};
use progression::Kept;
use std::alloc::Global;

impl Monitor {
    /// What is kept of each query.
    pub fn kept(&self) -> &[Kept]
        ensures kept { result.now ≡ self.now.state.kept.items }
        ensures sound { IsMonitored self.now }
    {
        self.state.kept.as_slice()
    }

    /// Goes on from what an open monitor for the same sources kept after so many snapshots, when
    /// these names had come. For want of memory nothing changes.
    pub fn restore(
        &mut self,
        alloc: Global,
        names: &[Name],
        count: u64,
        kept: Vec<Kept>,
    ) -> Result<(), Memory>
        requires unused { IsUnused self.old }
        requires spelled { All IsDeclarable names.now }
        requires acceptable { AreAcceptableTo self.old names.now }
        requires kept { IsKeptUnder (plan_with names.now self.old.plan) count kept.items }
        ensures plan { OnOk result (self.new.plan ≡ plan_with names.now self.old.plan) }
        ensures strangers { OnOk result (self.new.strangers ≡ true) }
        ensures declared { OnOk result (self.new.declared ≡ length names.now) }
        ensures count { OnOk result (self.new.state.count ≡ count) }
        ensures kept { OnOk result (self.new.state.kept ≡ kept) }
        ensures err { OnErr result (self.new ≡ self.old) }
    {
        let state = state_of(alloc, count, kept)?;
        match self.declare(alloc, names) {
            Ok(_) => {
                self.state = state;
                Ok(())
            }
            Err(_) => Err(Memory),
        }
    }

    /// Goes on from what a closed monitor for the same sources kept after so many snapshots. For
    /// want of memory nothing changes.
    pub fn restore_closed(
        &mut self,
        alloc: Global,
        count: u64,
        kept: Vec<Kept>,
    ) -> Result<(), Memory>
        requires unused { IsUnused self.old }
        requires kept { IsKeptUnder (plan_without_stranger self.old.plan) count kept.items }
        ensures plan { OnOk result (self.new.plan ≡ plan_without_stranger self.old.plan) }
        ensures strangers { OnOk result (self.new.strangers ≡ false) }
        ensures declared { OnOk result (self.new.declared ≡ 0) }
        ensures count { OnOk result (self.new.state.count ≡ count) }
        ensures kept { OnOk result (self.new.state.kept ≡ kept) }
        ensures err { OnErr result (self.new ≡ self.old) }
    {
        let state = state_of(alloc, count, kept)?;
        self.plan.slots = self.plan.ontology.count(Kind::Individual);
        self.strangers = false;
        self.state = state;
        Ok(())
    }
}

/// A monitor before any snapshot and any name, to which names may come, is unused.
pub fn empty_is_unused()
    ensures { EmptyIsUnused }
{}
