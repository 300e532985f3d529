//! Monotone functions of eight variables, each kept as its minimal sets.
#![tactic(auto)]

mod antichain;
mod family;
pub mod laws;
#[cfg(test)]
mod tests;

pub use antichain::{Antichain, and, from_sets, holds, or, substitute};
pub use std::alloc::AllocError as Memory;
