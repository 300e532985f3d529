//! Models of a snapshot under an ontology: interpretations over elements of any kind, told without
//! the chase, in which the certain tuples of a conjunctive query are exactly the common answers.
//!
//! The definitions in `specs/` follow D. Calvanese, G. De Giacomo, D. Lembo, M. Lenzerini and
//! R. Rosati, "Tractable Reasoning and Efficient Query Answering in Description Logics: The DL-Lite
//! Family", Journal of Automated Reasoning 39, 2007.
#![tactic(auto)]

pub mod laws;
