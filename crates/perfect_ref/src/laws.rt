//! Laws of the definitions, each the contract of a function with nothing to do.
ghost use Rattle.perfect_ref.specs.Laws.{RewritingGivesAnswers, CoreGivesAnswers};
ghost use Rattle.perfect_ref.specs.Laws.{CoreAnswersSaturation, ReachableIsQuery};

/// The certain answers of a query are what its rewriting gives in the snapshot's facts alone.
pub fn rewriting_gives_answers()
    ensures { RewritingGivesAnswers }
{}

/// They are what the core of the rewriting gives in the facts over individuals that follow.
pub fn core_gives_answers()
    ensures { CoreGivesAnswers }
{}

/// They are what the core of the rewriting gives in a saturation of the snapshot.
pub fn core_answers_saturation()
    ensures { CoreAnswersSaturation }
{}

/// Each query of the rewriting is within the limits, and has a head of the same length.
pub fn reachable_is_query()
    ensures { ReachableIsQuery }
{}
