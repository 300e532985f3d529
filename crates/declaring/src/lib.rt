//! Names of individuals that come with a stream: which are refused, and the ontology with them.
#![tactic(auto)]

mod declaring;
mod fault;
#[cfg(test)]
mod tests;

pub use declaring::declare;
pub use fault::DeclareFault;
