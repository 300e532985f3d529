//! The command `drill`.

ghost use Rattle.std.specs.Prelude.{◌≤◌};
ghost use Rattle.stream_report.specs.Outside.{SourceTold, sink_told};
ghost use Rattle.watch_report.specs.Ends.{DrillEnds};

use crate::rehearsing::rehearse;
use edge_io::Sink;
use job_sources::{Refusal, open_texts};
use std::alloc::Global;
use stream_maker::{Sources, make};
use stream_report::Ending;

/// Watches so many snapshots that are made by the seed, and writes what is told last, whatever the
/// input is.
pub fn drill<K: Sink>(alloc: Global, seed: u32, count: u32, out: &mut K) -> Ending<Refusal>
    requires { count ≤ 100000 }
    ensures ends { (input : SourceTold) → DrillEnds seed count result
        (record { input = input; out = sink_told K.Sink out.old })
        (record { input = input; out = sink_told K.Sink out.new }) }
{
    let made = match make(alloc, seed, count) {
        Ok(made) => made,
        Err(_) => return Ending::Memory,
    };
    let Sources {
        ontology,
        queries,
        stream,
    } = made;
    match open_texts(alloc, &ontology, &queries) {
        Ok(monitor) => rehearse(alloc, monitor, stream, out),
        Err(ending) => ending,
    }
}
