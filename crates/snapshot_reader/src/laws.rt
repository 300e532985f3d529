//! Laws of what a line says, each the contract of a function with nothing to do.
ghost use Rattle.snapshot_reader.specs.Laws.{RefusesNames, SaidAreDeclared, SaidAreDistinct};
ghost use Rattle.snapshot_reader.specs.Laws.{SaidAreFew, DeclaresNames, NamesAreFree};

/// A line that is refused for a name is refused for what is spelled as a name.
pub fn refuses_names()
    ensures { RefusesNames }
{}

/// The name of an individual that a line declares is one that an ontology may declare, and the same
/// under any ontology.
pub fn declares_names()
    ensures declarable { DeclaresNames }
    ensures free { NamesAreFree }
{}

/// The facts that a line says are of declared concepts and roles over declared individuals.
pub fn said_are_declared()
    ensures { SaidAreDeclared }
{}

/// Of the facts that a line says none stands twice, and none holds a null.
pub fn said_are_distinct()
    ensures { SaidAreDistinct }
{}

/// A line says no more facts than it may write.
pub fn said_are_few()
    ensures { SaidAreFew }
{}
