//! One step of a query: what is kept of it, and its answers, after one more snapshot, and what is
//! kept of it over more slots.
#![tactic(auto)]

mod advancing;
mod fitting;
mod joined;
mod keep;
mod kept;
mod own;
mod step;
#[cfg(test)]
mod tests;
mod weak;
mod widening;

pub use advancing::advance;
pub use fitting::fits;
pub use kept::{Kept, Slots, start};
pub use std::alloc::AllocError as Memory;
