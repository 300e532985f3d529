//! The rewritings of all leaves of queries as a text, and the job that writes it.
#![tactic(auto)]

pub mod laws;
mod leaf_texts;
mod rewriting;
mod rewriting_files;

pub use rewriting::rewriting_text;
pub use rewriting_files::rewrite_files;
