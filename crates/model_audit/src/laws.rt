//! Laws of finite models, each the contract of a function with nothing to do.
ghost use Rattle.model_audit.specs.Laws.{
  FiniteModelsAreModels,
  FiniteModelsShowConsistency,
  CertainAnswersMatch,
};

/// A finite list of facts over individuals is a finite model of a snapshot exactly where it is one
/// of its models, the elements of which are the individuals.
pub fn finite_models_are_models()
    ensures { FiniteModelsAreModels }
{}

/// A snapshot with a finite model is consistent.
pub fn finite_models_show_consistency()
    ensures { FiniteModelsShowConsistency }
{}

/// Each certain answer of a conjunctive query has a match in each finite model of the snapshot.
pub fn certain_answers_match()
    ensures { CertainAnswersMatch }
{}
