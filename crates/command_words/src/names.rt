//! The command that the words name.

ghost use Rattle.std.specs.Prelude.{◌≡◌, string_bytes};
ghost use Rattle.std.specs.List.{list_any};
ghost use Rattle.command_words.specs.Commands.{command_named, command_of, files_named};
ghost use Rattle.command_words.specs.Commands.{files_word, first_command, is_barred_word, texts_of};

use crate::request::FilesCommand;

/// The commands.
#[derive(Clone, Copy, Debug, PartialEq, Eq)]
pub enum CommandName {
    Watch,
    OnFiles(FilesCommand),
    Drill,
}

/// The word that names a command on files.
pub fn files_word(command: FilesCommand) -> &'static str
    ensures { result.now ≡ files_word command }
{
    match command {
        FilesCommand::Rewrite => "rewrite",
        FilesCommand::Contain => "contain",
        FilesCommand::Audit => "audit",
        FilesCommand::Explain => "explain",
        FilesCommand::Verify => "verify",
        FilesCommand::Streams => "streams",
    }
}

/// The command on files that the word names.
fn files_named(word: &str) -> Option<FilesCommand>
    ensures { result ≡ files_named word.now }
{
    match word {
        "rewrite" => Some(FilesCommand::Rewrite),
        "contain" => Some(FilesCommand::Contain),
        "audit" => Some(FilesCommand::Audit),
        "explain" => Some(FilesCommand::Explain),
        "verify" => Some(FilesCommand::Verify),
        "streams" => Some(FilesCommand::Streams),
        _ => None,
    }
}

/// The command of this name.
fn command_named(word: &str) -> Option<CommandName>
    ensures { result ≡ command_named word.now }
{
    match word {
        "watch" => Some(CommandName::Watch),
        "drill" => Some(CommandName::Drill),
        _ => files_named(word).map(CommandName::OnFiles),
    }
}

/// The command that the first word names.
fn first_command(words: &[String]) -> Option<CommandName>
    ensures { result ≡ first_command (texts_of words.now) }
{
    match words {
        [] => None,
        [first, ..] => command_named(first.as_str()),
    }
}

/// Whether no command takes the word.
fn is_barred(word: &str) -> bool
    ensures { result ≡ is_barred_word word.now }
{
    word.is_empty() || (word == "-" || word == "--")
}

/// Whether one of the words is taken by no command.
fn has_barred(words: &[String]) -> bool
    ensures { result ≡ list_any (λ word. is_barred_word (string_bytes word)) words.now }
{
    words.iter().any(|word| is_barred(word.as_str()))
}

/// The command by whose arguments the words are read.
pub fn command_of(words: &[String]) -> Option<CommandName>
    ensures { result ≡ command_of (texts_of words.now) }
{
    if has_barred(words) {
        None
    } else {
        first_command(words)
    }
}
