//! The law of the text of rewritings, the contract of a function with nothing to do.
ghost use Rattle.rewriting_text.specs.Leaves.{OneRewriting};

/// The rewritings of the same queries are one text.
pub fn one_rewriting()
    ensures { OneRewriting }
{}
