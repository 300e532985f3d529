//! Tables with a antichain for each tuple.
#![tactic(auto)]

mod align;
mod coding;
mod combine;
mod counts;
mod holding;
pub mod laws;
mod lengths;
mod links;
mod made;
mod marks;
mod mask;
mod patch;
mod ranking;
mod remembered;
mod renaming;
mod run;
mod same;
mod sparse;
mod spread;
mod substitute;
mod table;
#[cfg(test)]
mod tests;
mod true_at;
mod widen;

pub use combine::{combine_and, combine_or};
pub use counts::from_runs;
pub use made::Made;
pub use std::alloc::AllocError as Memory;
pub use substitute::substitute_all;
pub use table::{Table, fill};
pub use true_at::from_tuples;
