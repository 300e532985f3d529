//! Laws of the definitions, each the contract of a function with nothing to do.
ghost use Rattle.query_unify.specs.Core.{CoreIsExact, ReplaceGoesBack, ReduceGoesBack};
ghost use Rattle.query_unify.specs.Laws.{NormalGivesSame, StepIsSound, StepKeepsAnswers};
ghost use Rattle.query_unify.specs.Laws.{ReachKeepsAnswers, ReachIsSound, ReachIsComplete};
ghost use Rattle.query_unify.specs.Laws.{RewritingIsExact, ReduceHasOneResult, StepIsNoLonger};
ghost use Rattle.query_unify.specs.Laws.{NormalIsQuery, StepKeepsQuery, ReplaceHasOneResult};

/// A query and its normal form give the same.
pub fn normal_gives_same()
    ensures { NormalGivesSame }
{}

/// What a step's result gives in a run the query before gives in this run, or in this run continued
/// once.
pub fn step_is_sound()
    ensures { StepIsSound }
{}

/// A certain answer of what one or more steps lead to is one of the query before.
pub fn steps_keep_answers()
    ensures step { StepKeepsAnswers }
    ensures reach { ReachKeepsAnswers }
{}

/// What some reachable query gives in the snapshot's facts is a certain answer.
pub fn reach_is_sound()
    ensures { ReachIsSound }
{}

/// Each certain answer is what some reachable query gives in the snapshot's facts.
pub fn reach_is_complete()
    ensures { ReachIsComplete }
{}

/// The certain answers are what the reachable queries give in the snapshot's facts.
pub fn rewriting_is_exact()
    ensures { RewritingIsExact }
{}

/// All most general unifiers of the atoms at two places give one reduced query.
pub fn reduce_has_one_result()
    ensures { ReduceHasOneResult }
{}

/// All new variables give one query after a replacement.
pub fn replace_has_one_result()
    ensures { ReplaceHasOneResult }
{}

/// The certain answers are what the core gives in the saturated facts.
pub fn core_is_exact()
    ensures { CoreIsExact }
{}

/// What the result of a step that makes no nulls gives in facts that are closed under the
/// inclusions that make none, the query before gives there. Reductions need no closed facts.
pub fn steps_go_back()
    ensures replace { ReplaceGoesBack }
    ensures reduce { ReduceGoesBack }
{}

/// A step leaves the head's length, and makes the body no longer.
pub fn step_is_no_longer()
    ensures { StepIsNoLonger }
{}

/// The normal form of a query within the limits is within them.
pub fn normal_is_query()
    ensures { NormalIsQuery }
{}

/// What a step leads to from a query within the limits is within them.
pub fn step_keeps_query()
    ensures { StepKeepsQuery }
{}
