//! Named streams that are watched by one plan: each has a state of its own, and they take turns in
//! one monitor.
#![tactic(auto)]

mod enter_fault;
mod name_numbers;
mod stream_set;
mod turns;

pub use enter_fault::EnterFault;
pub use name_numbers::NameNumbers;
pub use stream_set::StreamSet;
pub use turns::take_turn;
