//! What is computed once of an ontology and queries.

use consistency::Clashes;
use dl_syntax::{Cq, Ontology};
use saturate::{Saturator, Sight};
use tcq_syntax::Query;

/// What leaves ask, as it is asked of the facts that follow from a snapshot.
#[derive(Drop)]
pub struct Leaf {
    /// The query that they ask.
    pub query: Cq,
    /// The length of its head.
    pub arity: u8,
    /// How many queries it reaches by rewriting.
    pub reached: u32,
    /// The core of its rewriting.
    pub core: Vec<Cq>,
}

/// What a monitor watches, and what was computed of it once.
#[derive(Drop)]
pub struct Plan {
    pub ontology: Ontology,
    pub queries: Vec<Query>,
    /// The individuals, and where names may still come the stranger, which stands for all of them.
    pub slots: u32,
    /// The leaves of all queries, where those that ask the same are kept once.
    pub leaves: Vec<Leaf>,
    /// For each query the places of its leaves among them, in the order of its table.
    pub places: Vec<Vec<usize>>,
    pub clashes: Clashes,
    pub saturator: Saturator,
    /// The predicates of the facts that the leaves and the clashes can see.
    pub sight: Sight,
}
