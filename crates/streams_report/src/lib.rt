//! The report of mixed streams: each line is marked with the name of its stream, and each stream is
//! watched with a history of its own.
#![tactic(auto)]

pub mod laws;
mod one_line;
mod opening;
mod streamer;
mod streaming;
#[cfg(test)]
mod tests;

pub use streamer::stream_mixed;
pub use streaming::streams_files;
