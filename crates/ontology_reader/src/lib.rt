//! The text of an ontology.
#![tactic(auto)]

mod adding;
pub mod laws;
mod sayings;
mod texts;
mod words;

pub use adding::{LineFault, add};
pub use sayings::{BasicTerm, RoleTerm, Saying};
pub use texts::read_ontology;

/// What is at fault in a text.
#[derive(Clone, Copy, PartialEq, Eq, Debug)]
pub enum OntologyKind {
    /// The line has no form.
    BadLine,
    /// The name is declared before.
    NameTwice,
    /// The name isn't declared.
    Unknown,
    /// The name is declared as another kind.
    WrongKind,
    /// There are as many names of the kind, inclusions or clashes as an ontology may have.
    TooMany,
    /// The text has more than 4,194,304 bytes.
    TooLong,
}

/// Why a text gives no ontology.
#[derive(Clone, Copy, PartialEq, Eq, Debug)]
pub enum OntologyFault {
    /// The first fault, with its line, counted from 1, and 0 for a text that is too long.
    Bad { line: u64, kind: OntologyKind },
    /// There is no memory.
    Memory,
}

#[cfg(test)]
mod tests;
