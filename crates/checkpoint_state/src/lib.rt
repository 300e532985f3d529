//! What a monitor keeps as a checkpoint, and a monitor that goes on from one.
#![tactic(auto)]

pub mod laws;
mod lists;
mod nodes;
mod resuming;
mod suspending;
mod tables;
#[cfg(test)]
mod tests;

pub use resuming::resume;
pub use suspending::suspend;
