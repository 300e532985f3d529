//! The top call.

ghost use Rattle.std.specs.Prelude.{◌≡◌};
ghost use Rattle.command_words.specs.Commands.{texts_of};
ghost use Rattle.command_words.specs.Meanings.{IsWithinLimits, meaning_of};
ghost use Rattle.stream_report.specs.Outside.{outside_of, sink_told};
ghost use Rattle.monitor_run.specs.Ends.{line_of, status_of, status_of_refusal};
ghost use Rattle.monitor_run.specs.Jobs.{asked_by};
ghost use Rattle.job_sources.specs.FileNames.{file_names};
ghost use Rattle.monitor_run.specs.Running.{JobEnds, AskedEnds, RunEnds, Says, Ran};

use crate::error_line::error_line;
use crate::jobs::{Job, options_of};
use crate::status::Status;
use audit_report::audit_files;
use command_words::{FilesCommand, Request, WordsFault, read_words};
use containment_text::contain_files;
use edge_io::{Files, Sink, Source, write_all};
use explain_report::explain_files;
use job_sources::{Names, Refusal};
use rewriting_text::rewrite_files;
use std::alloc::Global;
use stream_report::Ending;
use streams_report::streams_files;
use verify_report::verify_files;
use watch_report::{drill, watch_files};

/// Does a command on the files of these names.
fn do_command<F: Files, S: Source, K: Sink>(
    alloc: Global,
    names: Names<'_>,
    command: FilesCommand,
    files: &mut F,
    input: &mut S,
    out: &mut K,
) -> Ending<Refusal>
    ensures ends { JobEnds (Job.OnFiles command) (file_names names.entry) result
        (outside_of F.Files S.Source K.Sink files.old input.old out.old)
        (outside_of F.Files S.Source K.Sink files.new input.new out.new) }
{
    match command {
        FilesCommand::Rewrite => rewrite_files(alloc, names, files, out),
        FilesCommand::Contain => contain_files(alloc, names, files, out),
        FilesCommand::Audit => audit_files(alloc, names, files, input, out),
        FilesCommand::Explain => explain_files(alloc, names, files, input, out),
        FilesCommand::Verify => verify_files(alloc, names, files, input, out),
        FilesCommand::Streams => streams_files(alloc, names, files, input, out),
    }
}

/// Does a job on the files of these names.
fn do_job<F: Files, S: Source, K: Sink>(
    alloc: Global,
    names: Names<'_>,
    job: Job,
    files: &mut F,
    input: &mut S,
    out: &mut K,
) -> Ending<Refusal>
    ensures ends { JobEnds job (file_names names.entry) result
        (outside_of F.Files S.Source K.Sink files.old input.old out.old)
        (outside_of F.Files S.Source K.Sink files.new input.new out.new) }
{
    match job {
        Job::Watch(options) => watch_files(alloc, names, options, files, input, out),
        Job::OnFiles(command) => do_command(alloc, names, command, files, input, out),
    }
}

/// The names of the files of the ontology and of the queries, and whether the ontology is an OWL 2
/// document.
fn named<'a>(ontology: &'a str, queries: &'a str, owl: bool) -> Names<'a>
    ensures { file_names result
        ≡ record { ontology = ontology.now; queries = queries.now; owl = owl } }
{
    Names {
        ontology,
        queries,
        owl,
    }
}

/// Does what is asked for.
fn perform<F: Files, S: Source, K: Sink>(
    alloc: Global,
    request: Request<'_>,
    files: &mut F,
    input: &mut S,
    out: &mut K,
) -> Ending<Refusal>
    requires { IsWithinLimits (meaning_of request) }
    ensures ends { AskedEnds (asked_by (meaning_of request.entry)) result
        (outside_of F.Files S.Source K.Sink files.old input.old out.old)
        (outside_of F.Files S.Source K.Sink files.new input.new out.new) }
{
    match request {
        Request::Watch(watch) => {
            let names = named(watch.ontology, watch.queries, watch.owl);
            let job = Job::Watch(options_of(watch));
            do_job(alloc, names, job, files, input, out)
        }
        Request::OnFiles(asked) => {
            let names = named(asked.ontology, asked.queries, asked.owl);
            let job = Job::OnFiles(asked.command);
            do_job(alloc, names, job, files, input, out)
        }
        Request::Drill { seed, count } => drill(alloc, seed, count, out),
    }
}

/// Does what the words mean.
fn run_words<F: Files, S: Source, K: Sink>(
    alloc: Global,
    words: &[String],
    files: &mut F,
    input: &mut S,
    out: &mut K,
) -> Ending<Refusal>
    ensures ends { RunEnds result (texts_of words.now)
        (outside_of F.Files S.Source K.Sink files.old input.old out.old)
        (outside_of F.Files S.Source K.Sink files.new input.new out.new) }
{
    match read_words(alloc, words) {
        Ok(request) => perform(alloc, request, files, input, out),
        Err(WordsFault::Usage) => Ending::Usage,
        Err(WordsFault::Memory) => Ending::Memory,
    }
}

fn refusal_status(refusal: Refusal) -> Status
    ensures { result ≡ status_of_refusal refusal }
{
    match refusal {
        Refusal::BadOntology(_, _) => Status::BadOntology,
        Refusal::BadDocument(_, _) => Status::BadOntology,
        Refusal::TooManyRewritings => Status::BadOntology,
        Refusal::BadQueries(_, _) => Status::BadQueries,
        Refusal::NotALeaf(_) => Status::BadQueries,
        Refusal::TooLarge(_) => Status::BadQueries,
    }
}

fn status(ending: Ending<Refusal>) -> Status
    ensures { result ≡ status_of ending }
{
    match ending {
        Ending::Done => Status::Done,
        Ending::Usage => Status::Usage,
        Ending::Refused(refusal) => refusal_status(refusal),
        Ending::ReadFault => Status::ReadFault,
        Ending::WriteFault => Status::WriteFault,
        Ending::Memory => Status::Memory,
        Ending::StreamLimit => Status::StreamLimit,
    }
}

/// Says on `err` how the run ended, in one line. A fault of `err` changes nothing.
fn say<E: Sink>(ending: Ending<Refusal>, err: &mut E)
    ensures { Says (sink_told E.Sink err.old) (sink_told E.Sink err.new) (line_of ending) }
{
    let line = error_line(ending);
    let _ = write_all(err, line.as_slice());
}

/// Runs the command that the words name, over files of these names, and says on `err` what a status
/// other than `Done` means. `watch`, `streams`, `audit`, `explain` and `verify` with ONTOLOGY and
/// QUERIES read the two files and then `input` to its end, a line at a time, and write to `out` the
/// report of the stream, the report of each of the mixed streams behind its mark, what is found of
/// each model, a proof of each answer and of each contradiction, and which proofs show what they
/// say. `rewrite` and `contain` read the two files and write to `out` the rewritings of all leaves,
/// and which queries are contained in which others. `drill SEED COUNT` makes an ontology, queries
/// and a stream, watches it, and writes to `out` what its last snapshot tells and the end of the
/// report.
pub fn run<F: Files, S: Source, K: Sink, E: Sink>(
    alloc: Global,
    words: &[String],
    files: &mut F,
    input: &mut S,
    out: &mut K,
    err: &mut E,
) -> Status
    ensures { Ran result (texts_of words.now)
        (outside_of F.Files S.Source K.Sink files.old input.old out.old)
        (outside_of F.Files S.Source K.Sink files.new input.new out.new)
        (sink_told E.Sink err.old) (sink_told E.Sink err.new) }
{
    let ending = run_words(alloc, words, files, input, out);
    say(ending, err);
    status(ending)
}
