//! Why a text says no queries.

use dl_syntax::Memory;
use std::alloc::AllocFailed;

/// What is wrong with a query text.
#[derive(Clone, Copy, PartialEq, Eq, Debug)]
pub enum QueryKind {
    /// It is no query file.
    BadQuery,
    /// An earlier query has the name, or the answer variable stands earlier in its list.
    NameTwice,
    /// The predicate is declared as nothing.
    Unknown,
    /// The predicate is no concept before one term, or no role before two.
    WrongKind,
    /// The name of a term is no individual.
    Undeclared,
    /// The 17th query, the fifth answer variable, the ninth atom, or a query of more than 64 nodes
    /// or 8 future nodes.
    TooMany,
    /// The units of the queries up to this one, their sum, pass 67,108,864.
    TooLarge(u128),
    /// The text has more than 4,194,304 bytes.
    TooLong,
}

/// Why a text says no queries.
#[derive(Clone, Copy, PartialEq, Eq, Debug)]
pub enum QueryFault {
    /// The first fault and its line, counted from 1, and 0 for `TooLong`.
    Bad { line: u64, kind: QueryKind },
    Memory,
}

/// Why the builder goes no further.
#[derive(Clone, Copy, PartialEq, Eq, Debug)]
pub(crate) enum Stop {
    /// A fault at the token that starts at this place.
    At(usize, QueryKind),
    Memory,
}

impl From<Memory> for QueryFault {
    ghost use Rattle.std.specs.Prelude.{◌≡◌};
    ghost use Rattle.tcq_reader.specs.declared.faults.QueryFault.TheVariants.{Memory};

    ghost from_gives = { λ _ e. e ≡ Memory };

    fn from(_refused: Memory) -> QueryFault {
        QueryFault::Memory
    }
}

impl From<Memory> for Stop {
    ghost use Rattle.std.specs.Prelude.{◌≡◌};
    ghost use Rattle.tcq_reader.specs.declared.faults.Stop.TheVariants.{Memory};

    ghost from_gives = { λ _ e. e ≡ Memory };

    fn from(_refused: Memory) -> Stop {
        Stop::Memory
    }
}
