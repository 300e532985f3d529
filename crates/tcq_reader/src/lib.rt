//! Reads query files: the queries that a text says, or its first fault.
#![tactic(auto)]

mod builder;
mod faults;
pub mod laws;
mod leaf;
mod reading;
mod table;

pub use faults::{QueryFault, QueryKind};
pub use reading::read_queries;

#[cfg(test)]
mod tests;
