//! The words of the command line after the program's name.
#![tactic(auto)]

mod arguments;
pub mod laws;
mod names;
mod numbers;
mod reading;
mod request;
#[cfg(test)]
mod tests;
mod values;

pub use reading::read_words;
pub use request::{FilesCommand, OnFiles, Request, Watch, WordsFault};
