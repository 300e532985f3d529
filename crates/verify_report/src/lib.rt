//! The report of a verification: proofs by steps of the chase are read, and for each is told
//! whether it shows its goal.
#![tactic(auto)]

pub mod laws;
mod outcome;
mod stage;
#[cfg(test)]
mod tests;
mod texts;
mod verifier;
mod verifying;

pub use verifier::verify_stream;
pub use verifying::verify_files;
