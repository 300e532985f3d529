//! Proofs that a row is a certain answer, or that a snapshot contradicts an ontology: the steps of
//! the chase that show it.
//!
//! The chase is that of D. Calvanese, G. De Giacomo, D. Lembo, M. Lenzerini and R. Rosati,
//! "Tractable Reasoning and Efficient Query Answering in Description Logics: The DL-Lite Family",
//! Journal of Automated Reasoning 39, 2007.
#![tactic(auto)]

mod asking;
mod checking;
mod elements;
pub mod laws;
mod listing;
mod matching;
mod printing;
mod proof;
mod reading;
#[cfg(test)]
mod tests;
mod variables;
mod whole;
mod writing;

pub use asking::{read_ending, read_goal};
pub use checking::verify;
pub use elements::read_element;
pub use printing::{append_ending, append_snapshot};
pub use proof::{Ending, Goal, Proof, ProofStep};
pub use reading::{read_clash, read_places, read_step, rest_of};
pub use variables::variables_of;
pub use whole::{append_goal, append_proof};
pub use writing::{append_clash, append_places, append_step};
