//! What a watch tells of a stream, and the job that writes it; what a drill tells of the stream
//! that it makes.
#![tactic(auto)]

mod drilling;
pub mod laws;
mod options;
mod rehearsing;
mod telling;
mod watching;

pub use drilling::drill;
pub use options::Options;
pub use rehearsing::plain;
pub use telling::tell;
pub use watching::{watch, watch_files};
