//! The top call: it does what the words ask for, and says how that ended.
#![tactic(auto)]

mod command;
mod error_line;
mod jobs;
pub mod laws;
mod status;
#[cfg(test)]
mod tests;

pub use command::run;
pub use status::Status;
