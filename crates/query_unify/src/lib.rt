//! Unification, substitutions, the steps of query rewriting and their laws.
//!
//! Unifiers and the most general of them are after J. A. Robinson, "A Machine-Oriented Logic Based
//! on the Resolution Principle", Journal of the ACM 12, 1965, and A. Martelli and U. Montanari, "An
//! Efficient Unification Algorithm", ACM Transactions on Programming Languages and Systems 4, 1982.
//! The steps are those of D. Calvanese, G. De Giacomo, D. Lembo, M. Lenzerini and R. Rosati,
//! "Tractable Reasoning and Efficient Query Answering in Description Logics: The DL-Lite Family",
//! Journal of Automated Reasoning 39, 2007.
#![tactic(auto)]

pub mod laws;
mod limits;
mod normal;
mod steps;
#[cfg(test)]
mod tests;
mod unifier;

pub use limits::is_query;
pub use normal::normalise;
pub use steps::{step, step_applies};
pub use unifier::{Subst, atoms_unify, reduce, unify};
