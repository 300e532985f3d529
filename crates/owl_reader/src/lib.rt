//! OWL 2 documents in functional-style syntax.
#![tactic(auto)]

mod axioms;
mod declarations;
mod entities;
pub mod laws;
mod reading;
mod refusals;
#[cfg(test)]
mod tests;

pub use reading::{OwlFault, OwlKind, read_owl};
