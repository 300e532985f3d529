//! Contradictions of a snapshot under an ontology, found by rewriting (Calvanese, De Giacomo,
//! Lembo, Lenzerini and Rosati 2007): a clash is met exactly where its query, both sides at one
//! existential variable or pair, is certain.
#![tactic(auto)]

mod clashes;
mod first;
pub mod laws;
mod marks;
mod pairs;
mod query;
mod refute;
mod rewriting;

pub use clashes::{Clashes, prepare};
pub use first::{first_clash, first_clash_closed};
pub use perfect_ref::RewriteFault;

#[cfg(test)]
mod tests;
