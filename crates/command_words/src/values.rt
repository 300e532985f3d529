//! What the values of the arguments mean.

ghost use Rattle.std.specs.Prelude.{◌≡◌, ◌≤◌, MatchOption, codes, option_map, unwrap_or};
ghost use Rattle.clap.specs.Words.{first_of, found_of, rows_of};
ghost use Rattle.command_words.specs.Meanings.{IsWithinLimits, drill_in, file_in, file_of};
ghost use Rattle.command_words.specs.Meanings.{flag_in, is_file, meaning_in, meaning_of, number_in};
ghost use Rattle.command_words.specs.Meanings.{on_files_in, report_form_in, report_form_of};
ghost use Rattle.command_words.specs.Meanings.{stream_form_in, stream_form_of, watch_in};
ghost use Rattle.command_words.specs.Meanings.{watching_of};

use crate::names::CommandName;
use crate::numbers::read_number;
use crate::request::{FilesCommand, OnFiles, Request, Watch};
use clap::ArgMatches;
use forms::{LineForm, ReportForm, StreamForm};

/// The largest seed of a drill.
const MAX_SEED: u32 = 2_147_483_647;
/// The largest count of snapshots of a drill.
const MAX_COUNT: u32 = 100_000;

/// The value of an argument.
fn value<'a>(matches: &ArgMatches<'a>, id: &str) -> Option<&'a str>
    ensures { option_map (λ s. s.now) result ≡ first_of id.now (rows_of (found_of matches.now)) }
{
    matches.get_str(id)
}

/// The value of an argument, or its default.
fn value_or<'a>(matches: &ArgMatches<'a>, id: &str, default: &'a str) -> &'a str
    ensures { result.now ≡ unwrap_or
        (first_of id.now (rows_of (found_of matches.now))) default.entry.now }
{
    match value(matches, id) {
        Some(text) => text,
        None => default,
    }
}

/// Whether the word may name a file.
fn is_file(word: &str) -> bool
    ensures { result ≡ is_file word.now }
{
    match word.as_bytes() {
        [] => false,
        [first, ..] => *first != b'-',
    }
}

/// The file that an argument names.
#[tactic(auto, unfolding(crate::specs::Meanings::file_in))]
fn file<'a>(matches: &ArgMatches<'a>, id: &str) -> Option<&'a str>
    ensures { option_map (λ s. s.now) result ≡ file_in id.now (rows_of (found_of matches.now)) }
{
    match value(matches, id) {
        Some(word) if is_file(word) => Some(word),
        _ => None,
    }
}

/// The number that an argument says.
#[tactic(auto, unfolding(crate::specs::Meanings::number_in))]
fn number(matches: &ArgMatches, id: &str, limit: u32) -> Option<u32>
    ensures number { result ≡ number_in limit id.now (rows_of (found_of matches.now)) }
    ensures within { MatchOption result (Unit {0}) (λ n. n ≤ limit) }
{
    match value(matches, id) {
        Some(word) => read_number(word, limit),
        None => None,
    }
}

/// The form of a stream that the word names.
fn stream_form_of(word: &str) -> Option<StreamForm>
    ensures { result ≡ stream_form_of word.now }
{
    match word {
        "text" => Some(StreamForm::Text),
        "json" => Some(StreamForm::Json),
        _ => None,
    }
}

/// The form of a report that the word names.
fn report_form_of(word: &str) -> Option<ReportForm>
    ensures { result ≡ report_form_of word.now }
{
    match word {
        "text" => Some(ReportForm::Lines(LineForm::Text)),
        "json" => Some(ReportForm::Objects),
        "csv" => Some(ReportForm::Lines(LineForm::Csv)),
        _ => None,
    }
}

/// The form of the stream.
#[tactic(auto, unfolding(crate::specs::Meanings::stream_form_in))]
fn stream_form(matches: &ArgMatches) -> Option<StreamForm>
    ensures { result ≡ stream_form_in (rows_of (found_of matches.now)) }
{
    stream_form_of(value_or(matches, "form", "text"))
}

/// The form of the report.
#[tactic(auto, unfolding(crate::specs::Meanings::report_form_in))]
fn report_form(matches: &ArgMatches) -> Option<ReportForm>
    ensures { result ≡ report_form_in (rows_of (found_of matches.now)) }
{
    report_form_of(value_or(matches, "report", "text"))
}

/// Whether a flag is there.
#[tactic(auto, unfolding(crate::specs::Meanings::flag_in))]
fn flag(matches: &ArgMatches, id: &str) -> bool
    ensures { result ≡ flag_in id.now (rows_of (found_of matches.now)) }
{
    value_or(matches, id, "false") == "true"
}

/// What the arguments of a watch mean.
fn watch<'a>(matches: &ArgMatches<'a>) -> Option<Watch<'a>>
    ensures { option_map watching_of result ≡ watch_in (rows_of (found_of matches.now)) }
{
    let ontology = file(matches, "ontology")?;
    let queries = file(matches, "queries")?;
    let form = stream_form(matches)?;
    let report = report_form(matches)?;
    let owl = flag(matches, "owl");
    let sizes = flag(matches, "sizes");
    Some(Watch {
        ontology,
        queries,
        owl,
        form,
        report,
        sizes,
    })
}

/// What the arguments of a command on files mean.
fn on_files<'a>(command: FilesCommand, matches: &ArgMatches<'a>) -> Option<Request<'a>>
    ensures meaning { option_map meaning_of result
        ≡ on_files_in command (rows_of (found_of matches.now)) }
    ensures limits { MatchOption result (Unit {0})
        (λ request. IsWithinLimits (meaning_of request)) }
{
    let ontology = file(matches, "ontology")?;
    let queries = file(matches, "queries")?;
    let owl = flag(matches, "owl");
    Some(Request::OnFiles(OnFiles {
        command,
        ontology,
        queries,
        owl,
    }))
}

/// What the arguments of a drill mean.
fn drill<'a>(matches: &ArgMatches<'a>) -> Option<Request<'a>>
    ensures meaning { option_map meaning_of result ≡ drill_in (rows_of (found_of matches.now)) }
    ensures limits { MatchOption result (Unit {0})
        (λ request. IsWithinLimits (meaning_of request)) }
{
    let seed = number(matches, "seed", MAX_SEED)?;
    let count = number(matches, "count", MAX_COUNT)?;
    Some(Request::Drill { seed, count })
}

/// What the arguments of a command mean.
#[tactic(auto, unfolding(crate::specs::Meanings::meaning_in))]
pub fn request<'a>(name: CommandName, matches: &ArgMatches<'a>) -> Option<Request<'a>>
    ensures meaning { option_map meaning_of result
        ≡ meaning_in name (rows_of (found_of matches.now)) }
    ensures limits { MatchOption result (Unit {0})
        (λ request. IsWithinLimits (meaning_of request)) }
{
    match name {
        CommandName::Watch => match watch(matches) {
            Some(watch) => Some(Request::Watch(watch)),
            None => None,
        },
        CommandName::OnFiles(command) => on_files(command, matches),
        CommandName::Drill => drill(matches),
    }
}
