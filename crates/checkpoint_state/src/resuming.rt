//! A monitor that goes on from what is written.

ghost use Rattle.std.specs.Prelude.{◌≡◌, ◌^◌, ◌≤◌, IfOk, OnErr, OnOk, length};
ghost use Rattle.std.specs.List.{All, AllZip};
ghost use Rattle.std.specs.Option.{option_map};
ghost use Rattle.dl_syntax.specs.Ontology.{IsOntology};
ghost use Rattle.tcq_syntax.specs.Histories.{History};
ghost use Rattle.tcq_syntax.specs.Tcq.{IsTcq};
ghost use Rattle.formula_store.specs.Interned.{AreDistinct};
ghost use Rattle.monitor_core.specs.Keeping.{IsMonitored};
ghost use Rattle.monitor_core.specs.Restoring.{IsUnused};
ghost use Rattle.monitor_core.specs.Standing.{Stands};
ghost use Rattle.checkpoint_text.specs.Suspended.{IsSuspended, slots_with};
ghost use Rattle.checkpoint_state.specs.Resuming.{AreKeptNodes, AreResumed, plan_for};
ghost use Rattle.checkpoint_state.specs.Suspending.{frame_of, suspended};
ghost use Rattle.checkpoint_state.specs.Telling.{IsCheckpointOf};

use crate::tables::kept_of;
use checkpoint_text::{Checkpoint, Nodes};
use dl_syntax::{Kind, Memory, Name, Ontology};
use formula_store::Link;
use monitor_core::Monitor;
use progression::Kept;
use std::alloc::Global;
use tcq_syntax::Query;

/// How many numbers a tuple may have, after these names.
fn slots_for(ontology: &Ontology, names: &Option<Vec<Name>>) -> u32
    requires { slots_with ontology.now (option_map (λ names. names.items) names.now) ≤ 4097 }
    ensures { result ≡ slots_with ontology.now (option_map (λ names. names.items) names.now) }
{
    let own = ontology.count(Kind::Individual);
    match names {
        None => own,
        Some(names) => own + names.len() as u32 + 1,
    }
}

/// What is kept of all queries after so many snapshots.
fn all_kept(
    alloc: Global,
    queries: &[Query],
    slots: u32,
    accepted: u64,
    lists: &[Link],
    nodes: &[Nodes],
) -> Result<Vec<Kept>, Memory>
    requires few { All (λ query. slots ^ query.vars ≤ 2 ^ 60) queries.now }
    requires distinct { AreDistinct lists.now }
    requires kept { AllZip (AreKeptNodes lists.now slots accepted) queries.now nodes.now }
    ensures { IfOk result (λ kept.
        AreResumed lists.now slots accepted queries.now nodes.now kept.items) }
{
    let mut kept = Vec::with_capacity(alloc, queries.len())?;
    for place in 0..queries.len() {
        let query = &queries[place];
        let said = &nodes[place];
        let own = said.nodes.as_slice();
        kept.push(kept_of(alloc, query, slots, accepted, lists, own)?)?;
    }
    Ok(kept)
}

/// What is kept of all queries, as the checkpoint says.
fn kept_in(
    alloc: Global,
    checkpoint: &Checkpoint,
    ontology: &Ontology,
    queries: &[Query],
) -> Result<Vec<Kept>, Memory>
    requires sound { IsOntology ontology.now }
    requires tables { All (λ query. IsTcq query.vars query.nodes) queries.now }
    requires fits { IsSuspended (record { ontology = ontology.now; queries = queries.now })
        checkpoint.now }
    ensures { IfOk result (λ kept. AreResumed checkpoint.now.lists
        (slots_with ontology.now checkpoint.now.names) checkpoint.now.accepted queries.now
        checkpoint.now.queries kept.items) }
{
    let slots = slots_for(ontology, &checkpoint.names);
    let lists = checkpoint.lists.as_slice();
    let nodes = checkpoint.queries.as_slice();
    all_kept(alloc, queries, slots, checkpoint.accepted, lists, nodes)
}

/// What is known of every monitor.
fn is_monitored(monitor: &Monitor)
    ensures { IsMonitored monitor.now }
{
    let _ = monitor.kept();
}

/// Goes on from a checkpoint that fits the ontology and the queries of a monitor before any
/// snapshot and any name: what is written of it then is the checkpoint, and it stands for
/// whatever history that is the checkpoint of. For want of memory nothing changes.
pub fn resume(alloc: Global, checkpoint: &Checkpoint, monitor: &mut Monitor) -> Result<(), Memory>
    requires unused { IsUnused monitor.old }
    requires fits { IsSuspended (frame_of monitor.old) checkpoint.now }
    ensures value { OnOk result (suspended monitor.new ≡ checkpoint.now) }
    ensures plan { OnOk result
        (monitor.new.plan ≡ plan_for checkpoint.now.names monitor.old.plan) }
    ensures frame { OnOk result (frame_of monitor.new ≡ frame_of monitor.old) }
    ensures tells { OnOk result ((history : History)
        → IsCheckpointOf (frame_of monitor.old) history checkpoint.now
        → Stands monitor.new history) }
    ensures err { OnErr result (monitor.new ≡ monitor.old) }
{
    is_monitored(monitor);
    let kept = kept_in(alloc, checkpoint, monitor.ontology(), monitor.queries())?;
    match &checkpoint.names {
        None => monitor.restore_closed(alloc, checkpoint.accepted, kept),
        Some(names) => monitor.restore(alloc, names.as_slice(), checkpoint.accepted, kept),
    }
}
