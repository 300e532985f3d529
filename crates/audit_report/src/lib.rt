//! The report of an audit: pairs of a snapshot and a model are read, and what is found of each is
//! told.
#![tactic(auto)]

mod auditing;
mod auditor;
mod finding_lines;
pub mod laws;
mod outcome;
mod row_lines;
#[cfg(test)]
mod tests;
mod texts;

pub use auditing::audit_files;
pub use auditor::audit_stream;
