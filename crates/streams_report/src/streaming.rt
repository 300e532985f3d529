//! The command `streams`.

ghost use Rattle.stream_report.specs.Outside.{outside_of};
ghost use Rattle.job_sources.specs.FileNames.{file_names};
ghost use Rattle.streams_report.specs.Ends.{StreamsEnds};

use crate::opening::open_streams;
use crate::streamer::stream_mixed;
use edge_io::{Files, Sink, Source};
use job_sources::{Names, Refusal};
use std::alloc::Global;
use stream_report::Ending;

/// Watches the streams whose lines the input has mixed, by the files of these names.
pub fn streams_files<F: Files, S: Source, K: Sink>(
    alloc: Global,
    names: Names<'_>,
    files: &mut F,
    input: &mut S,
    out: &mut K,
) -> Ending<Refusal>
    ensures ends { StreamsEnds (file_names names.entry) result
        (outside_of F.Files S.Source K.Sink files.old input.old out.old)
        (outside_of F.Files S.Source K.Sink files.new input.new out.new) }
{
    match open_streams(alloc, files, names) {
        Ok(monitor) => stream_mixed(alloc, monitor, input, out),
        Err(ending) => ending,
    }
}
