//! Lemmas over lists of any elements, which the proofs of the crates above cite: `proofs/` has a
//! file for each subject.
#![tactic(auto)]
