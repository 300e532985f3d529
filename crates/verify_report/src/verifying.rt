//! The command `verify`.

ghost use Rattle.monitor_core.specs.Standing.{setting_of};
ghost use Rattle.stream_report.specs.Ends.{StreamEnds};
ghost use Rattle.stream_report.specs.Outside.{ports_of, outside_of};
ghost use Rattle.job_sources.specs.FileNames.{file_names};
ghost use Rattle.verify_report.specs.Ends.{VerifyEnds};
ghost use Rattle.verify_report.specs.Report.{start, verifying};

use crate::verifier::verify_stream;
use edge_io::{Files, Sink, Source};
use job_sources::{Names, Refusal, open_files};
use monitor_core::Monitor;
use std::alloc::Global;
use stream_report::Ending;

/// Verifies the proofs of the input by the ontology and the queries of the monitor.
fn verify_by<S: Source, K: Sink>(
    alloc: Global,
    monitor: Monitor,
    input: &mut S,
    out: &mut K,
) -> Ending<Refusal>
    ensures ends { StreamEnds (verifying (record {
      ontology = (setting_of monitor).ontology;
      queries = (setting_of monitor).queries;
    })) start result
        (ports_of S.Source K.Sink input.old out.old)
        (ports_of S.Source K.Sink input.new out.new) }
{
    verify_stream(alloc, monitor.ontology(), monitor.queries(), input, out)
}

/// Verifies the proofs of the input by the files of these names.
pub fn verify_files<F: Files, S: Source, K: Sink>(
    alloc: Global,
    names: Names<'_>,
    files: &mut F,
    input: &mut S,
    out: &mut K,
) -> Ending<Refusal>
    ensures ends { VerifyEnds (file_names names.entry) result
        (outside_of F.Files S.Source K.Sink files.old input.old out.old)
        (outside_of F.Files S.Source K.Sink files.new input.new out.new) }
{
    match open_files(alloc, files, names) {
        Ok(monitor) => verify_by(alloc, monitor, input, out),
        Err(ending) => ending,
    }
}
