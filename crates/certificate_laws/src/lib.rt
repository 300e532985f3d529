//! What is told of certificates as they are written, where they are verified: laws alone.
#![tactic(auto)]

pub mod laws;
