//! Answers of unions of conjunctive queries in the facts of an index.
//!
//! An atom is bound in turn to each fact that has its bound places, the atoms with the fewest such
//! facts first. As soon as the head is bound a single match of the rest is sought.
//! Parts of a body that share no variable with the head or with one another are matched once, each
//! by itself. Rows are gathered in rising lists, of which two are merged as soon as the earlier
//! isn't twice as long.
#![tactic(auto)]

mod bindings;
mod gathered;
mod join;
pub mod laws;
mod merge;
mod order;
mod split;

pub use join::answers;

#[cfg(test)]
mod tests;
