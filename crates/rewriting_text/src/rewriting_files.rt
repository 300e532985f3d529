//! The command `rewrite`.

ghost use Rattle.std.specs.Prelude.{◌≡◌};
ghost use Rattle.stream_report.specs.Outside.{SourceTold, files_told, sink_told};
ghost use Rattle.job_sources.specs.FileNames.{file_names};
ghost use Rattle.rewriting_text.specs.Ends.{RewriteEnds};

use crate::rewriting::rewriting_text;
use edge_io::{Files, Sink};
use job_sources::{Names, Refusal, read_sources};
use perfect_ref::RewriteFault;
use std::alloc::Global;
use stream_report::{Ending, write_text};

/// Writes the rewritings of all leaves, by the files of these names, whatever the input is.
pub fn rewrite_files<F: Files, K: Sink>(
    alloc: Global,
    names: Names<'_>,
    files: &mut F,
    out: &mut K,
) -> Ending<Refusal>
    ensures ends { (input : SourceTold) → RewriteEnds (file_names names.entry) result
        (record {
          files = files_told F.Files files.old;
          ports = record { input = input; out = sink_told K.Sink out.old };
        })
        (record {
          files = files_told F.Files files.new;
          ports = record { input = input; out = sink_told K.Sink out.new };
        }) }
{
    match read_sources(alloc, files, names) {
        Ok(sources) => match rewriting_text(alloc, &sources.ontology, &sources.queries) {
            Ok(text) => write_text(out, &text),
            Err(RewriteFault::TooManyRewritings) => Ending::Refused(Refusal::TooManyRewritings),
            Err(RewriteFault::Memory) => Ending::Memory,
        },
        Err(ending) => ending,
    }
}
