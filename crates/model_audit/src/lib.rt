//! The audit of a finite model: whether a finite list of facts holds a snapshot and all that an
//! ontology says of it, and what queries answer in it.
//!
//! A finite model is an interpretation with finitely many elements, so a snapshot with one is
//! consistent, and each certain answer has a match in it. The definitions are told without the
//! chase.
#![tactic(auto)]

mod auditing;
mod clashes;
mod examining;
mod first;
mod holding;
mod inclusions;
pub mod laws;
mod outcome;
mod rows;
#[cfg(test)]
mod tests;

pub use auditing::audit;
pub use examining::{Finding, examine};
pub use outcome::Audit;
