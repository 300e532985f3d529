//! Checkpoints: what a suspended monitor keeps, as text.
#![tactic(auto)]

mod checkpoint;
mod digests;
pub mod laws;
mod numbers;
#[cfg(test)]
mod tests;
mod writing;

pub use checkpoint::{Checkpoint, Node, Nodes, Stretch};
pub use digests::{digest_text, read_digest, sources_digest};
pub use formula_store::Memory;
pub use numbers::{append_number, read_number};
pub use writing::write;
