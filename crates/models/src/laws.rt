//! Laws of models and runs, each the contract of a function with nothing to do.
//!
//! Runs that each model holds by a map, and a model with exactly the certain answers, are after
//! R. Fagin, P. Kolaitis, R. Miller and L. Popa, "Data Exchange: Semantics and Query Answering",
//! Theoretical Computer Science 336, 2005. Containment by the frozen query is after A. Chandra and
//! P. Merlin, "Optimal Implementation of Conjunctive Queries in Relational Data Bases", STOC 1977,
//! and D. Johnson and A. Klug, "Testing Containment of Conjunctive Queries under Functional and
//! Inclusion Dependencies", Journal of Computer and System Sciences 28, 1984.
ghost use Rattle.dl_syntax.specs.declared.names.ConceptId.{ConceptId};
ghost use Rattle.dl_syntax.specs.declared.names.RoleId.{RoleId};
ghost use Rattle.dl_syntax.specs.declared.names.IndId.{IndId};
ghost use Rattle.models.specs.Laws.{
  RunsMapInto,
  CertainAnswersHoldIn,
  ModelsShowConsistency,
  RunsMapAlong,
  CertainAnswersMapAlong,
  ClashesMapAlong,
  HasFairRuns,
  FairRunsAreModel,
  FairRunsAnswerExactly,
  HasExactModel,
  ConsistentHasModel,
  CertainIsInAllModels,
  AnswersAreUnions,
  FiniteModelsShowConsistency,
};
ghost use Rattle.models.specs.Models.{interpreted};
ghost use Rattle.models.specs.Containment.{ContainmentIsCertainty};
ghost use Rattle.models.specs.Entailment.{
  MoreKeepsAnswers,
  FewerKeepsConsistency,
  EntailedKeepAnswers,
  EntailedKeepConsistency,
};

/// Elements of any type, with what each concept and each role holds of them, and which element each
/// individual is.
pub trait Interpreted {
    ghost individual: { IndId → Self };

    ghost concept: { ConceptId → Self → Type 0 };

    ghost role: { RoleId → Self → Self → Type 0 };
}

/// Each run of a snapshot maps into each model of it: each individual goes to the element that it
/// is there, and each fact to one that holds.
pub fn runs_map_into<E: Interpreted>()
    ensures { RunsMapInto (interpreted E.individual E.concept E.role) }
{}

/// A snapshot with a model is consistent.
pub fn models_show_consistency<E: Interpreted>()
    ensures { ModelsShowConsistency (interpreted E.individual E.concept E.role) }
{}

/// Where a map of individuals sends the facts of a snapshot into a run of another, each run of the
/// one maps, individuals by that map, into a run that goes on from that of the other.
pub fn runs_map_along()
    ensures { RunsMapAlong }
{}

/// With that, each certain tuple of the one snapshot is, by the map, an answer in a run that goes
/// on from that of the other.
pub fn certain_answers_map_along()
    ensures { CertainAnswersMapAlong }
{}

/// With that, the one snapshot is consistent if the other is.
pub fn clashes_map_along()
    ensures { ClashesMapAlong }
{}

/// Each snapshot has runs, each going on from the one before, in which each inclusion is at last
/// applied to each fact.
pub fn has_fair_runs()
    ensures { HasFairRuns }
{}

/// The facts of such runs are a model of a consistent snapshot.
pub fn fair_runs_are_model()
    ensures { FairRunsAreModel }
{}

/// The answers in the facts of such runs are exactly the certain tuples.
pub fn fair_runs_answer_exactly()
    ensures { FairRunsAnswerExactly }
{}

/// A consistent snapshot has a model in which the answers are exactly the certain tuples.
pub fn has_exact_model()
    ensures { HasExactModel }
{}

/// A snapshot is consistent exactly where it has a model whose facts a sequence of lists names.
pub fn consistent_has_model()
    ensures { ConsistentHasModel }
{}

/// The certain tuples of a consistent snapshot are exactly the answers in all of its models, as
/// Calvanese et al. (2007) define them: each is an answer in each model, over elements of any type,
/// and what is an answer in all models whose facts a sequence of lists names is certain.
pub fn certain_is_in_all_models<E: Interpreted>()
    ensures each { CertainAnswersHoldIn (interpreted E.individual E.concept E.role) }
    ensures all { CertainIsInAllModels }
{}

/// A row is an answer of one of some queries in each such model exactly where it is a certain tuple
/// of one of them.
pub fn answers_are_unions()
    ensures { AnswersAreUnions }
{}

/// A snapshot with a model of finitely many facts is consistent.
pub fn finite_models_show_consistency()
    ensures { FiniteModelsShowConsistency }
{}

/// A query is contained in a union of queries, under inclusions and clashes, exactly where its
/// frozen body, if consistent, has its frozen head as a certain tuple of one of them.
pub fn containment_is_certainty()
    ensures { ContainmentIsCertainty }
{}

/// With more facts and more inclusions, in any order and number, each certain tuple stays one, and
/// with fewer what is consistent stays so.
pub fn more_keeps_answers()
    ensures answers { MoreKeepsAnswers }
    ensures consistency { FewerKeepsConsistency }
{}

/// Inclusions that hold in each such interpretation in which those of a list hold change neither
/// the certain tuples nor consistency when they are added to it.
pub fn entailed_change_nothing()
    ensures answers { EntailedKeepAnswers }
    ensures consistency { EntailedKeepConsistency }
{}
