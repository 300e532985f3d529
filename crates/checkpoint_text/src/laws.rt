//! Laws of the definitions, each the contract of a function with nothing to do.

ghost use Rattle.checkpoint_text.specs.Laws.{OneText};

/// A text is that of one checkpoint, among those that fit one ontology and queries.
pub fn one_text()
    ensures { OneText }
{}
