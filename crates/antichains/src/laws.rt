//! What holds of all antichains.

ghost use Rattle.antichains.specs.Laws.{Canonical, FewSets, MinimalSets, MonotoneHolds};

/// Two antichains that hold at the same sets are equal.
pub fn canonical()
    ensures { Canonical }
{}

/// A antichain that holds where a monotone function does is the rising list of its minimal sets,
/// and that list is a antichain that holds where the function does.
pub fn minimal_sets()
    ensures { MinimalSets }
{}

/// What a antichain holds at is monotone.
pub fn monotone_holds()
    ensures { MonotoneHolds }
{}

/// A antichain whose sets name only the first so many nodes has at most two to the power of as many
/// sets.
pub fn few_sets()
    ensures { FewSets }
{}
