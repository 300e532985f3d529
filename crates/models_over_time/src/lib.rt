//! Sequences of models of a history's snapshots, one for each position, in which a temporal formula
//! holds exactly where it holds in the history, its leaves read as certain answers.
#![tactic(auto)]

pub mod laws;
