//! What is done with the files that the words name.

ghost use Rattle.std.specs.Prelude.{◌≡◌};
ghost use Rattle.command_words.specs.Meanings.{watching_of};
ghost use Rattle.monitor_run.specs.Jobs.{options_of};

use command_words::{FilesCommand, Watch};
use watch_report::Options;

/// What is done with an ontology and queries.
#[derive(Clone, Copy, Debug, PartialEq, Eq)]
pub enum Job {
    /// Watches the input, and writes a report of it.
    Watch(Options),
    /// Does what has no option but how the ontology is written.
    OnFiles(FilesCommand),
}

/// The options that the words of a watch mean.
pub fn options_of(watch: Watch<'_>) -> Options
    ensures { result ≡ options_of (watching_of watch.entry) }
{
    Options {
        form: watch.form,
        report: watch.report,
        sizes: watch.sizes,
    }
}
