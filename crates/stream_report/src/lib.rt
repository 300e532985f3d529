//! One loop for every command that reads a stream: it reads lines, reports them and writes that.
#![tactic(auto)]

mod ending;
pub mod laws;
mod line;
mod reporter;
mod running;
#[cfg(test)]
mod tests;
mod writing;

pub use ending::Ending;
pub use line::GivenLine;
pub use reporter::Reporter;
pub use running::report_stream;
pub use writing::write_text;
