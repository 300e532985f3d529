//! What shows a goal.

use run_proofs::{Ending, ProofStep};

/// The steps of the chase, and how the run that they lead to shows a goal.
#[derive(Debug, Drop)]
pub struct Shown {
    pub steps: Vec<ProofStep>,
    pub ending: Ending,
}
