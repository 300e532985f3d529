//! Which queries are contained in which others as a text, and the job that writes it.
#![tactic(auto)]

mod containing;
mod containment_files;
mod containment_lines;
pub mod laws;
mod leaf_queries;
mod unions;

pub use containment_files::contain_files;
