//! Laws of formulas in sequences of models, each the contract of a function with nothing to do.
//!
//! Temporal queries over an ontology are after S. Borgwardt, M. Lippmann and V. Thost,
//! "Temporalizing Rewritable Query Languages over Knowledge Bases", Journal of Web Semantics 33,
//! 2015.
ghost use Rattle.std.specs.Prelude.{ℕ};
ghost use Rattle.dl_syntax.specs.declared.names.ConceptId.{ConceptId};
ghost use Rattle.dl_syntax.specs.declared.names.RoleId.{RoleId};
ghost use Rattle.dl_syntax.specs.declared.names.IndId.{IndId};
ghost use Rattle.models_over_time.specs.Readings.{steady, interpreted_at};
ghost use Rattle.models_over_time.specs.Laws.{
  HoldingIsAReading,
  HoldsInModels,
  HasExactModels,
  HoldsInAllModels,
  AnswersAreCommon,
  ConsistentHaveModels,
  HistoriesAreConsistent,
  HistoriesAnswersAreCommon,
  MoreKeepsHolding,
  EntailedKeepHolding,
};

/// Elements of any type, with what each concept and each role holds of them at each position, and
/// which element each individual is there.
pub trait InterpretedOverTime {
    ghost individual: { ℕ → IndId → Self };

    ghost concept: { ℕ → ConceptId → Self → Type 0 };

    ghost role: { ℕ → RoleId → Self → Self → Type 0 };
}

/// Where a formula holds in a history is told by the same recursion as where it holds in models,
/// the leaves read as certain answers.
pub fn holding_is_a_reading()
    ensures { HoldingIsAReading }
{}

/// A history of consistent snapshots has a sequence of models in which exactly what holds in it
/// holds.
pub fn has_exact_models()
    ensures { HasExactModels }
{}

/// A formula holds in such a history exactly where it holds in each sequence of models of its
/// snapshots: what holds in the history holds in each sequence of models, over elements of any
/// type, and what holds in all sequences whose facts lists name holds in the history.
pub fn holds_in_all_models<E: InterpretedOverTime>()
    ensures each { HoldsInModels (steady E) (interpreted_at E.individual E.concept E.role) }
    ensures all { HoldsInAllModels }
{}

/// The answers after such a history are the rows for which the root holds in each of those
/// sequences at the last position.
pub fn answers_are_common()
    ensures { AnswersAreCommon }
{}

/// Snapshots over individuals are consistent exactly where there is such a sequence.
pub fn consistent_have_models()
    ensures { ConsistentHaveModels }
{}

/// Each history that may come has consistent snapshots over individuals, so the answers after it
/// are those rows.
pub fn histories_are_consistent()
    ensures consistent { HistoriesAreConsistent }
    ensures answers { HistoriesAnswersAreCommon }
{}

/// With more inclusions, and more facts at each position, what holds goes on holding.
pub fn more_keeps_holding()
    ensures { MoreKeepsHolding }
{}

/// Inclusions that hold in each interpretation by lists in which those of a list hold change
/// nothing when they are added to it.
pub fn entailed_keep_holding()
    ensures { EntailedKeepHolding }
{}
