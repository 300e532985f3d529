//! The command `audit`.

ghost use Rattle.monitor_core.specs.Standing.{setting_of};
ghost use Rattle.stream_report.specs.Ends.{StreamEnds};
ghost use Rattle.stream_report.specs.Outside.{ports_of, outside_of};
ghost use Rattle.job_sources.specs.FileNames.{file_names};
ghost use Rattle.audit_report.specs.Ends.{AuditEnds};
ghost use Rattle.audit_report.specs.Report.{start, auditing};

use crate::auditor::audit_stream;
use edge_io::{Files, Sink, Source};
use job_sources::{Names, Refusal, open_files};
use monitor_core::Monitor;
use std::alloc::Global;
use stream_report::Ending;

/// Audits the models of the input by the ontology and the queries of the monitor.
fn audit_by<S: Source, K: Sink>(
    alloc: Global,
    monitor: Monitor,
    input: &mut S,
    out: &mut K,
) -> Ending<Refusal>
    ensures ends { StreamEnds (auditing (record {
      ontology = (setting_of monitor).ontology;
      queries = (setting_of monitor).queries;
    })) start result
        (ports_of S.Source K.Sink input.old out.old)
        (ports_of S.Source K.Sink input.new out.new) }
{
    audit_stream(alloc, monitor.ontology(), monitor.queries(), input, out)
}

/// Audits the models of the input by the files of these names.
pub fn audit_files<F: Files, S: Source, K: Sink>(
    alloc: Global,
    names: Names<'_>,
    files: &mut F,
    input: &mut S,
    out: &mut K,
) -> Ending<Refusal>
    ensures ends { AuditEnds (file_names names.entry) result
        (outside_of F.Files S.Source K.Sink files.old input.old out.old)
        (outside_of F.Files S.Source K.Sink files.new input.new out.new) }
{
    match open_files(alloc, files, names) {
        Ok(monitor) => audit_by(alloc, monitor, input, out),
        Err(ending) => ending,
    }
}
