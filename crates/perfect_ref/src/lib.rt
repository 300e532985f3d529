//! The rewriting of a conjunctive query over an ontology by the algorithm PerfectRef: all that
//! finitely many steps lead to.
//!
//! The definitions in `specs/` follow D. Calvanese, G. De Giacomo, D. Lembo, M. Lenzerini and R.
//! Rosati, "Tractable Reasoning and Efficient Query Answering in Description Logics: The DL-Lite
//! Family", Journal of Automated Reasoning 39, 2007.
#![tactic(auto)]

pub mod laws;
mod rewriting;
mod rules;
mod successors;
#[cfg(test)]
mod tests;

pub use rewriting::{
    CountedRewriting, RewriteFault, Rewriter, WholeAndCore, reach_count, rewrite, rewrite_core,
};
