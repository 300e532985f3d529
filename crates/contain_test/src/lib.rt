//! Containment of conjunctive queries under an ontology: one query is contained in another where,
//! in each consistent snapshot, each certain answer of the one is one of the other.
//!
//! It is decided by the frozen query, as A. Chandra and P. Merlin do without an ontology, in
//! "Optimal Implementation of Conjunctive Queries in Relational Data Bases", STOC 1977, and D.
//! Johnson and A. Klug with one, in "Testing Containment of Conjunctive Queries under Functional
//! and Inclusion Dependencies", Journal of Computer and System Sciences 28, 1984. The body of the
//! first query, each variable an individual of its own, is a snapshot. The first is contained in
//! the second exactly where that is inconsistent, or has the frozen head among the second's
//! answers.
#![tactic(auto)]

mod asking;
mod binding;
mod deciding;
mod declared;
mod frozen;
#[cfg(test)]
mod tests;

pub use deciding::{Containment, contain, contain_by};
pub use declared::is_query_of;
pub use perfect_ref::RewriteFault as ContainFault;
