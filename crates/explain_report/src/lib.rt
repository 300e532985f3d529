//! The report of proofs: lines of a stream are read, and each answer of each leaf and each
//! contradiction is told with the steps of the chase that show it.
#![tactic(auto)]

mod explaining;
pub mod laws;
mod outcome;
mod proof_lines;
mod reporter;
mod snapshot_lines;

pub use explaining::explain_files;
pub use reporter::explain_stream;
