//! Well-formed inputs of any length, made from a number.
#![tactic(auto)]

mod draws;
mod facts;
mod numbers;
mod ontology;
mod sources;
#[cfg(test)]
mod tests;

pub use draws::Generator;
pub use sources::{Sources, make, make_ontology, make_queries, make_stream};
pub use std::alloc::AllocError as Memory;
