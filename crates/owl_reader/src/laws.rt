//! Laws of what documents say, each the contract of a function with nothing to do.

ghost use Rattle.owl_reader.specs.Laws.{SaysStatements, HasFirstFault};

/// A text says what the statements say that it stands for, one after the other.
pub fn says_statements()
    ensures { SaysStatements }
{}

/// A text has a fault exactly where it is the first one: too many bytes, then what the grammar
/// doesn't allow, then what isn't taken, then what is at fault in the declarations, and then in the
/// axioms.
pub fn has_first_fault()
    ensures { HasFirstFault }
{}
