//! What is kept of a query.

ghost use Rattle.std.specs.Prelude.{List, ℕ, Bool};
ghost use Rattle.dl_syntax.specs.declared.ontology.Inclusion.{Inclusion};
ghost use Rattle.tcq_syntax.specs.Tcq.{Tcq};
ghost use Rattle.tcq_syntax.specs.Histories.{empty_history};
ghost use Rattle.progression.specs.Kept.{Fits, StandsFor};

use answer_tables::Table;
use std::alloc::Global;

/// What is kept of a query from one snapshot to the next.
#[derive(Drop)]
pub struct Kept {
    /// How many snapshots came, or the greatest number where there were more.
    pub count: u64,
    /// For each kept node, by its place, the antichain of each tuple.
    pub tables: Vec<(u16, Table)>,
}

/// The numbers that a tuple may have.
#[derive(Clone, Copy)]
pub struct Slots {
    /// Tuples of numbers below are kept.
    pub kept: u32,
    /// Tuples of numbers below are answered.
    pub answered: u32,
}

/// What is kept of any query before the first snapshot.
pub fn start(alloc: Global) -> Kept
    ensures fits { (query : Tcq) (slots : ℕ) → Fits query slots result }
    ensures stands { (inclusions : List Inclusion) (slots : ℕ) (query : Tcq) (closed : Bool)
        → StandsFor inclusions slots (empty_history closed) query result }
{
    Kept {
        count: 0,
        tables: Vec::new(alloc),
    }
}
