//! The search for proofs: why a row is a certain answer, or why a snapshot contradicts an ontology.
#![tactic(auto)]

mod answer;
mod bindings;
mod closure;
mod explainer;
mod fault;
mod known;
mod made;
mod matching;
mod meets;
mod naming;
mod one_goal;
mod reached;
mod search;
mod searches;
mod showing;
mod sides;
mod walk;

pub use answer::Search;
pub use explainer::Explainer;
pub use fault::ProofFault;
pub use one_goal::explain;
pub use showing::Shown;
