//! Laws of what a line says, each the contract of a function with nothing to do.
ghost use Rattle.ontology_reader.specs.Laws.{
  LinesSaySpellings,
  SayingsAreSpelled,
  SpelledLinesSay,
  SpellingsSay,
  WordsAreRead,
};

/// The words that spell a saying say it.
pub fn spellings_say()
    ensures { SpellingsSay }
{}

/// Words that have a form are the spelling of what they say.
pub fn sayings_are_spelled()
    ensures { SayingsAreSpelled }
{}

/// A line says what has a form exactly where its words are the spelling of that.
pub fn lines_say_spellings()
    ensures { LinesSaySpellings }
{}

/// The bytes of words with a blank between two are read as these words.
pub fn words_are_read()
    ensures { WordsAreRead }
{}

/// The line of the words that spell a saying says it.
pub fn spelled_lines_say()
    ensures { SpelledLinesSay }
{}
