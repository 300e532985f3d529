//! Laws of what words mean, each the contract of a function with nothing to do.
ghost use Rattle.command_words.specs.Laws.{CanonicalWordsMean, TakenWordsMean};

/// Canonical words always mean their command, in whatever order their options stand.
pub fn canonical_words_mean()
    ensures { CanonicalWordsMean }
{}

/// Words that pass `clap`'s own test for a command and whose values have their forms mean what
/// these values mean, and are never refused as no words of a command.
pub fn taken_words_mean()
    ensures { TakenWordsMean }
{}
