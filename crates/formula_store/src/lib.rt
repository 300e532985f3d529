//! A store of antichains, each kept once.
#![tactic(auto)]

pub mod laws;
mod link;
mod pair;
mod store;
#[cfg(test)]
mod tests;

pub use link::Link;
pub use std::alloc::AllocError as Memory;
pub use store::Store;
