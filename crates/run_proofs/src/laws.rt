//! Laws of the definitions, each the contract of a function with nothing to do.
ghost use Rattle.run_proofs.specs.Laws.{StepsMakeRun, RunsHaveSteps, ShownHolds, OneStep};
ghost use Rattle.run_proofs.specs.Laws.{OnePairOfPlaces, OneGoal, OneEnding};

/// Steps that name facts by their places lead from a run to a run.
pub fn steps_make_run()
    ensures { StepsMakeRun }
{}

/// Such steps, each of which makes something, lead to each run of a snapshot.
pub fn runs_have_steps()
    ensures { RunsHaveSteps }
{}

/// What a proof shows holds: the row is a certain answer of the leaf, or some run of the facts
/// meets the clash.
pub fn shown_holds()
    ensures { ShownHolds }
{}

/// A line tells one step, one pair of places, one goal or one ending: what is written is read back
/// as the same.
pub fn lines_tell_one()
    ensures step { OneStep }
    ensures places { OnePairOfPlaces }
    ensures goal { OneGoal }
    ensures ending { OneEnding }
{}
