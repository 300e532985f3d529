//! What holds of all tables.

ghost use Rattle.answer_tables.specs.Laws.{FewAntichains};
ghost use Rattle.answer_tables.specs.Lengths.{AntichainsTell, CountedAreSpread, RunsAreTold};

/// Distinct antichains, each of which some tuple of a table has, are at most as many as the table's
/// tuples.
pub fn few_antichains()
    ensures { FewAntichains }
{}

/// Runs of equal antichains, as few as there can be, are told by what they spread out to.
pub fn runs_are_told()
    ensures { RunsAreTold }
{}

/// A table in which counted runs give their antichains to the next tuples has them spread out.
pub fn counted_are_spread()
    ensures { CountedAreSpread }
{}

/// The antichains of a table in rising order of its tuples tell that of each tuple.
pub fn antichains_tell()
    ensures { AntichainsTell }
{}
