//! Checkpoints, read: whether a text is the checkpoint for given sources, and what it says.
#![tactic(auto)]

mod arrivals;
mod draft;
mod fault;
mod head;
mod line;
mod lists;
mod names;
mod nodes;
mod own_sets;
mod place;
mod reading;
mod stretches;
#[cfg(test)]
mod tests;
mod words;

pub use fault::CheckFault;
pub use reading::read;
