//! A law of the definitions, the contract of a function with nothing to do.
ghost use Rattle.ucq_join.specs.Alike.{AnswersAreAlike};

/// A union has the same answers in two lists that have the same facts of its predicates.
pub fn answers_are_alike()
    ensures { AnswersAreAlike }
{}
