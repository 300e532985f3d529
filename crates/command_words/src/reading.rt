//! The words of the command line, read.

ghost use Rattle.std.specs.Prelude.{◌≡◌, ◌≢◌, IfOk, true, is_some, Some};
ghost use Rattle.command_words.specs.Commands.{are_taken, command_of, rows_in, texts_of};
ghost use Rattle.command_words.specs.Meanings.{Answers, IsWithinLimits, MeansIfTaken, meaning_by};
ghost use Rattle.command_words.specs.Meanings.{meaning_of, meaning_in, meaning_of_words};
ghost use Rattle.command_words.specs.Canonical.{Canonical, IsCanonical, IsMeant, canonical_meaning};
ghost use Rattle.command_words.specs.Canonical.{canonical_words};

use crate::arguments::arguments_in;
use crate::names::{CommandName, command_of};
use crate::request::{Request, WordsFault};
use crate::values::request;
use std::alloc::Global;

/// What the words ask for by the arguments of a command, whose name is the first word.
fn read_arguments<'a>(
    alloc: Global,
    name: CommandName,
    words: &'a [String],
) -> Result<Request<'a>, WordsFault>
    ensures answers { Answers (meaning_by name (texts_of words.entry.now)) result }
    ensures limits { IfOk result (λ request. IsWithinLimits (meaning_of request)) }

    // Words that pass clap's own test, with values in their forms, are never refused so.
    ensures taken { are_taken name (texts_of words.entry.now) ≡ true
        → is_some (meaning_in name (rows_in name (texts_of words.entry.now))) ≡ true
        → result ≢ Err WordsFault.Usage }
{
    let matches = match arguments_in(alloc, name, words) {
        Ok(matches) => matches,
        Err(fault) => return Err(fault),
    };
    match request(name, &matches) {
        Some(request) => Ok(request),
        None => Err(WordsFault::Usage),
    }
}

/// What the words of the command line after the program's name ask for.
///
/// The first word names the command, and `clap` reads the others: two arguments, `--owl` where the
/// first of them is an ontology, and for `watch` its options. No word may be empty, `-` or `--`.
/// Words that ask for nothing are `Usage`.
pub fn read_words<'a>(alloc: Global, words: &'a [String]) -> Result<Request<'a>, WordsFault>
    ensures answers { Answers (meaning_of_words (texts_of words.entry.now)) result }
    ensures limits { IfOk result (λ request. IsWithinLimits (meaning_of request)) }

    // Words that pass clap's own test, with values in their forms, are never refused so.
    ensures taken { MeansIfTaken (texts_of words.entry.now) → result ≢ Err WordsFault.Usage }

    // Canonical words are never refused as no words of a command, and mean what they say.
    ensures canonical { (c : Canonical) → IsCanonical c
        → texts_of words.entry.now ≡ canonical_words c
        → IsMeant (canonical_meaning c) result }
{
    match command_of(words) {
        Some(name) => read_arguments(alloc, name, words),
        None => Err(WordsFault::Usage),
    }
}
