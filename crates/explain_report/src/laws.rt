//! Laws of the report, each the contract of a function with nothing to do.
ghost use Rattle.explain_report.specs.Laws.{AnswersAreTold, ContradictionsAreShown, OneOrder};

/// Of an accepted line a proof is told of each certain answer of each leaf, and of nothing else,
/// and each shows its goal.
pub fn answers_are_told()
    ensures { AnswersAreTold }
{}

/// The proof that is told of a contradiction shows it.
pub fn contradictions_are_shown()
    ensures { ContradictionsAreShown }
{}

/// The answers of a line are told in one order, whichever proofs are shown.
pub fn one_order()
    ensures { OneOrder }
{}
