//! Each kind of node on short histories, by the step and by the plain definition.
#![tactic(auto)]

mod leaves;
mod plain;
mod running;
#[cfg(test)]
mod tests;

pub use plain::holds_last;
pub use running::agrees;
