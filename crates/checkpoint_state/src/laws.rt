//! Laws of the definitions, each the contract of a function with nothing to do.

ghost use Rattle.checkpoint_state.specs.Laws.{OneCheckpoint, SuspendedTells};

/// A history has one checkpoint.
pub fn one_checkpoint()
    ensures { OneCheckpoint }
{}

/// A monitor stands for exactly the histories whose checkpoint is written of it.
pub fn suspended_tells()
    ensures { SuspendedTells }
{}
