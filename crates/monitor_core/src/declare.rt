//! Further individuals.

ghost use Rattle.std.specs.Prelude.{◌≡◌, ◌+◌, ◌<◌, not, length, IfOk, OnOk, OnErr, IfErr, false};
ghost use Rattle.std.specs.List.{All, AllZip};
ghost use Rattle.dl_syntax.specs.Names.{IsDeclarable};
ghost use Rattle.tcq_syntax.specs.Arrivals.{AreAcceptable};
ghost use Rattle.declaring.specs.declared.fault.DeclareFault.{DeclareFault};
ghost use Rattle.monitor_core.specs.Planning.{IsPlan};
ghost use Rattle.monitor_core.specs.Keeping.{AllFit};
ghost use Rattle.declaring.specs.Declaring.{IsRefusal};
ghost use Rattle.monitor_core.specs.Widening.{IsWidened, IsWider, CanWidenAll};
ghost use Rattle.monitor_core.specs.Standing.{Declares, AreAcceptableTo, IsRefusedBy, with_came};
ghost use Rattle.monitor_core.specs.Standing.{setting_of, plan_with};

use crate::monitor::Monitor;
use crate::plan::Plan;
use crate::state::State;
use declaring::{DeclareFault, declare};
use dl_syntax::{Kind, Memory, Name};
use progression::Kept;
use std::alloc::Global;

/// What is kept of each query over so many slots more.
fn widen_all(alloc: Global, kept: &[Kept], more: u32) -> Result<Vec<Kept>, Memory>
    requires { All (CanWidenAll more) kept.now }
    ensures { IfOk result (λ wider. AllZip (IsWidened more) kept.now wider.items) }
{
    let mut wider = Vec::with_capacity(alloc, kept.len())?;
    for k in kept {
        wider.push(k.widen(alloc, more)?)?;
    }
    Ok(wider)
}

/// Declares the names as further individuals, widens what is kept of each query, and answers how
/// many slots there are more.
fn declare_wider(
    alloc: Global,
    plan: &mut Plan,
    state: &mut State,
    names: &[Name],
) -> Result<u32, DeclareFault>
    requires plan { IsPlan plan.old }
    requires fits { AllFit plan.old.slots plan.old.queries.items state.old.kept.items }
    requires some { 0 < plan.old.slots }
    requires spelled { All IsDeclarable names.now }
    ensures ok { IfOk result (λ more.
        IsWider names.now more plan.old state.old plan.new state.new) }
    ensures none { OnOk result
        (AreAcceptable plan.old.ontology plan.old.queries.items false names.now) }
    ensures fault { IfErr result
        (IsRefusal plan.old.ontology plan.old.queries.items false names.now) }
    ensures err { OnErr result ((plan.new ≡ plan.old) × (state.new ≡ state.old)) }
{
    let count = plan.ontology.count(Kind::Individual);
    declare(&mut plan.ontology, plan.queries.as_slice(), names)?;
    let more = plan.ontology.count(Kind::Individual) - count;
    match widen_all(alloc, state.kept.as_slice(), more) {
        Ok(kept) => {
            state.kept = kept;
            plan.slots += more;
            Ok(more)
        }
        Err(_) => {
            plan.ontology.keep_individuals(count);
            Err(DeclareFault::Memory)
        }
    }
}

/// The refusal of names where none may come.
fn refuse_any(names: &[Name]) -> Result<(), DeclareFault>
    ensures ok { OnOk result (length names.now ≡ 0) }
    ensures err { IfErr result (λ fault. (fault ≡ DeclareFault.Closed) × (0 < length names.now)) }
{
    if names.is_empty() {
        Ok(())
    } else {
        Err(DeclareFault::Closed)
    }
}

impl Monitor {
    /// Declares the names as further individuals, in order, or none of them. Nothing was said of
    /// them before, so what is kept stands for the history with them. It is no snapshot, and the
    /// rest of what was computed of the ontology and the queries stays. The refusals are, at the
    /// first name at fault and there in this order: `Closed` where no name may come, `NameTwice`,
    /// `TooMany` and `TooLarge`. A refused list changes nothing.
    pub fn declare(&mut self, alloc: Global, names: &[Name]) -> Result<(), DeclareFault>
        requires { All IsDeclarable names.now }
        ensures ok { OnOk result (Declares self.old self.new names.now) }
        ensures setting { OnOk result
            (setting_of self.new ≡ with_came names.now (setting_of self.old)) }
        ensures plan { OnOk result (self.new.plan ≡ plan_with names.now self.old.plan) }
        ensures acceptable { OnOk result (AreAcceptableTo self.old names.now) }
        ensures strangers { self.new.strangers ≡ self.old.strangers }
        ensures declared { OnOk result
            (self.new.declared ≡ self.old.declared + length names.now) }
        ensures counted { self.new.state.count ≡ self.old.state.count }
        ensures refused { IfErr result (IsRefusedBy self.old names.now) }
        ensures err { OnErr result (self.new ≡ self.old) }
    {
        if !self.strangers {
            return refuse_any(names);
        }
        let more = declare_wider(alloc, &mut self.plan, &mut self.state, names)?;
        self.declared += more;
        Ok(())
    }
}
