//! The arguments of each command, and what clap finds of them in words.

ghost use Rattle.std.specs.Prelude.{◌≡◌, ◌≢◌, [], IfOk, OnOk, false, true};
ghost use Rattle.clap.specs.Words.{app_of, found_of, new_app, rows_of, rule_of};
ghost use Rattle.command_words.specs.Commands.{app_of_command, are_taken, faults_in, flag_rule};
ghost use Rattle.command_words.specs.Commands.{files_app, files_word, place_rule, places_app};
ghost use Rattle.command_words.specs.Commands.{rows_in, texts_of, value_rule, without_help};

use crate::names::{CommandName, files_word};
use crate::request::{FilesCommand, WordsFault};
use clap::error::ErrorKind;
use clap::{Arg, ArgAction, ArgMatches, Command};
use std::alloc::{AllocError, Global};

/// An argument that has to be there, known by its place.
fn place_argument<'a>(alloc: Global, id: &'a str) -> Arg<'a>
    ensures rule { rule_of result ≡ place_rule id.entry.now }
    ensures local { result.global ≡ false }
{
    Arg::new(alloc, id).required(true)
}

/// The option `--name VALUE`.
fn value_argument<'a>(alloc: Global, name: &'a str) -> Arg<'a>
    ensures rule { rule_of result ≡ value_rule name.entry.now }
    ensures local { result.global ≡ false }
{
    Arg::new(alloc, name).long(name)
}

/// The flag `--name`.
fn flag_argument<'a>(alloc: Global, name: &'a str) -> Arg<'a>
    ensures rule { rule_of result ≡ flag_rule name.entry.now }
    ensures local { result.global ≡ false }
{
    Arg::new(alloc, name).long(name).action(ArgAction::SetTrue)
}

/// A command with no argument, not even the help flag.
fn bare_command<'a>(alloc: Global, name: &'a str) -> Command<'a>
    ensures { app_of result ≡ without_help (new_app name.entry.now) }
{
    Command::new(alloc, name).disable_help_flag(true)
}

/// A command of two arguments.
fn two_places<'a>(
    alloc: Global,
    name: &'a str,
    first: &'a str,
    second: &'a str,
) -> Result<Command<'a>, AllocError>
    ensures { IfOk result (λ c. app_of c
        ≡ places_app name.entry.now first.entry.now second.entry.now) }
{
    let first = place_argument(alloc, first);
    let second = place_argument(alloc, second);
    bare_command(alloc, name).arg(first)?.arg(second)
}

/// A command of an ontology and queries, with the flag that says how the ontology is written.
fn two_files<'a>(alloc: Global, name: &'a str) -> Result<Command<'a>, AllocError>
    ensures { IfOk result (λ c. app_of c ≡ files_app name.entry.now) }
{
    let owl = flag_argument(alloc, "owl");
    two_places(alloc, name, "ontology", "queries")?.arg(owl)
}

/// A command on files.
fn files_command<'a>(alloc: Global, command: FilesCommand) -> Result<Command<'a>, AllocError>
    ensures { IfOk result (λ c. app_of c ≡ files_app (files_word command)) }
{
    let name: &'a str = files_word(command);
    two_files(alloc, name)
}

/// The command `watch`, which alone has more options.
fn watch_command<'a>(alloc: Global) -> Result<Command<'a>, AllocError>
    ensures { IfOk result (λ c. app_of c ≡ app_of_command CommandName.Watch) }
{
    let form = value_argument(alloc, "form");
    let report = value_argument(alloc, "report");
    let sizes = flag_argument(alloc, "sizes");
    two_files(alloc, "watch")?
        .arg(form)?
        .arg(report)?
        .arg(sizes)
}

/// The command of this name, with its arguments.
#[tactic(auto, unfolding(crate::specs::Commands::app_of_command))]
fn command<'a>(alloc: Global, name: CommandName) -> Result<Command<'a>, AllocError>
    ensures { IfOk result (λ c. app_of c ≡ app_of_command name) }
{
    match name {
        CommandName::Watch => watch_command(alloc),
        CommandName::OnFiles(command) => files_command(alloc, command),
        CommandName::Drill => two_places(alloc, "drill", "seed", "count"),
    }
}

/// What clap finds in the words by the arguments of a command, whose name is the first word.
pub fn arguments_in<'a>(
    alloc: Global,
    name: CommandName,
    words: &'a [String],
) -> Result<ArgMatches<'a>, WordsFault>
    ensures taken { OnOk result (faults_in name (texts_of words.entry.now) ≡ []) }
    ensures rows { IfOk result
        (λ m. rows_of (found_of m) ≡ rows_in name (texts_of words.entry.now)) }
    ensures usage { result ≡ Err WordsFault.Usage → faults_in name (texts_of words.entry.now) ≢ [] }
    ensures passes { are_taken name (texts_of words.entry.now) ≡ true
        → result ≢ Err WordsFault.Usage }
{
    let Ok(command) = command(alloc, name) else {
        return Err(WordsFault::Memory);
    };
    match command.try_get_matches_from(words) {
        Ok(matches) => Ok(matches),
        Err(error) => match error.kind() {
            ErrorKind::OutOfMemory => Err(WordsFault::Memory),
            _ => Err(WordsFault::Usage),
        },
    }
}
