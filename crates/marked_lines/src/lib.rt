//! Lines of mixed streams, each marked with the name of its stream, and texts whose lines are
//! marked so.
#![tactic(auto)]

mod marking;
mod marks;
#[cfg(test)]
mod tests;

pub use marking::{Unowned, append_end, append_marked, append_refusal};
pub use marks::{Mark, Owner, owner_of};
