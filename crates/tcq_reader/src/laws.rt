//! Laws of what a query text says, each the contract of a function with nothing to do.
ghost use Rattle.tcq_reader.specs.Laws.{OneFault, OneSaying, SaidAreNamed, SaidAreWithin};
ghost use Rattle.tcq_reader.specs.Laws.{SaidHaveNoFault};

/// The queries that a text says name only what the ontology declares, and neither they nor their
/// units over its individuals are more than may be.
pub fn said_are_within()
    ensures { SaidAreWithin }
{}

/// The queries that a text says have names that are spelled as names.
pub fn said_are_named()
    ensures { SaidAreNamed }
{}

/// A text says one list of queries over an ontology at most.
pub fn one_saying()
    ensures { OneSaying }
{}

/// A text that says queries has no fault.
pub fn said_have_no_fault()
    ensures { SaidHaveNoFault }
{}

/// A text has one first fault at most, on one line and of one kind.
pub fn one_fault()
    ensures { OneFault }
{}
