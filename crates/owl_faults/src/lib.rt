//! The places of the faults of OWL 2 documents, each law the contract of a function with nothing to
//! do.
#![tactic(auto)]

ghost use Rattle.owl_faults.specs.Laws.{StopsWhereRefused, StopsOnce, FaultOfGrammar};
ghost use Rattle.owl_faults.specs.Laws.{FaultOfLimits, LimitsAlone};

/// Tokens stop being read as a document exactly at the first token that no document goes on with,
/// or where they end before they are one.
pub fn stops_where_refused()
    ensures { StopsWhereRefused }
{}

/// Tokens stop being a document at one place at most.
pub fn stops_once()
    ensures { StopsOnce }
{}

/// A text is at fault for its grammar exactly on the line of the first token that no document goes
/// on with, or on its last.
pub fn fault_of_grammar()
    ensures { FaultOfGrammar }
{}

/// A text says too many of something exactly on the line of the closing parenthesis of an item
/// whose statements pass a limit, with nothing at fault before.
pub fn fault_of_limits()
    ensures { FaultOfLimits }
{}

/// Where a text says too many of something, it stands for statements of which those before an item
/// are added, and those of the item pass a limit.
pub fn limits_alone()
    ensures { LimitsAlone }
{}
