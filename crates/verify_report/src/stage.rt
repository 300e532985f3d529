//! How much of a proof was read.

use dl_syntax::{Items, Snapshot};
use run_proofs::{Goal, Proof, ProofStep};

/// How much was read of a proof that isn't at its end.
#[derive(Debug, Drop)]
pub enum Stage {
    /// No proof is open.
    Outside,
    /// What is to be shown is known, and the facts come next.
    Begun(Goal),
    /// The facts are known too, and so many steps.
    Given {
        goal: Goal,
        facts: Snapshot,
        steps: Items<ProofStep>,
    },
    /// All is known, and the last line comes next.
    Whole(Proof),
}
