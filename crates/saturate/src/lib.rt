//! What follows from a snapshot under an ontology about its individuals.
//!
//! A fact over individuals never needs the name of a null: it follows by what the individuals are,
//! told in basic concepts and roles alone. Each inclusion has one premise, so whatever follows is
//! implied by one fact of the snapshot, and what a fact implies is listed once for each concept and
//! role of the ontology.
#![tactic(auto)]

mod graph;
pub mod laws;
mod saturator;
mod sight;
mod tables;

pub use saturator::{Saturator, saturate};
pub use sight::{Sight, see};

#[cfg(test)]
mod tests;
