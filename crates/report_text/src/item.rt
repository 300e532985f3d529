//! The items of a report.

use dl_syntax::{Name, Row};

/// Why a line of the stream is refused.
#[derive(Debug, Drop)]
pub enum Cause {
    /// It has more than 4,194,304 bytes.
    TooLong,
    Malformed,
    /// A predicate that is declared as nothing.
    Unknown(Name),
    /// A predicate that isn't a concept with one argument or a role with two.
    WrongKind(Name),
    /// An argument that is no individual.
    Undeclared(Name),
    /// More than 65,536 facts are written.
    TooManyFacts,
    /// The least clash that the snapshot meets, counted from 1.
    Contradiction(u32),
    /// No further name may come.
    Closed,
    /// A name that is declared already.
    NameTwice(Name),
    /// There are as many individuals as there may be.
    TooMany,
    /// The units of the queries, so many with the name, are too many.
    TooLarge(u128),
}

/// One thing that a report tells.
#[derive(Debug, Drop)]
pub enum Item {
    /// The line with this number was accepted, as the snapshot with this number in the whole
    /// history.
    Accepted {
        line: u64,
        number: u64,
    },
    /// The row answers the query with this place after that snapshot.
    Answer {
        line: u64,
        number: u64,
        query: u16,
        row: Row,
    },
    /// The query with this place keeps so much after that snapshot.
    Kept {
        line: u64,
        query: u16,
        size: u64,
    },
    /// The line declared an individual of this name.
    Declared {
        line: u64,
        name: Name,
    },
    /// The line was refused.
    Refused {
        line: u64,
        cause: Cause,
    },
    /// How many snapshots the history has, and how many lines were refused.
    End {
        accepted: u64,
        refused: u64,
    },
}
