//! The lines of a stream.
#![tactic(auto)]

ghost use Rattle.std.specs.Prelude.{◌≡◌};

mod blaming;
mod distinct;
mod facts;
mod further;
mod gathering;
mod individuals;
mod json_lines;
pub mod laws;
mod lines;
mod model_lines;
mod names;
mod plain_lines;

use dl_syntax::{Memory, Name, Snapshot};
pub use lines::read_snapshot;
pub use model_lines::{is_model_line, read_model};

/// What a line gives.
#[derive(Debug, Drop)]
pub enum Reading {
    /// The line has nothing to read.
    Skip,
    /// The name of a further individual. It is spelled as a name and neither `some` nor `inv`.
    Individual(Name),
    /// A snapshot, in which a repeated fact keeps its first place.
    Facts(Snapshot),
}

/// Why a line gives nothing. Each cause is looked for over the whole line before the next one, and
/// the name is that of the first place at fault.
#[derive(Debug, Drop)]
pub enum SnapFault {
    /// The line isn't written in its form.
    Malformed,
    /// A predicate isn't declared.
    Unknown(Name),
    /// A predicate isn't a concept with one argument or a role with two.
    WrongKind(Name),
    /// An argument is no individual; in a model, it is the name of a concept or of a role.
    Undeclared(Name),
    /// More than 65,536 facts are written, repeats counted.
    TooManyFacts,
    /// There is no memory.
    Memory,
}

impl From<Memory> for SnapFault {
    ghost use Rattle.snapshot_reader.specs.declared.SnapFault.TheVariants.{Memory as NoMemory};

    ghost from_gives = { λ _ e. e ≡ NoMemory };

    fn from(_refused: Memory) -> SnapFault {
        SnapFault::Memory
    }
}

#[cfg(test)]
mod tests;
