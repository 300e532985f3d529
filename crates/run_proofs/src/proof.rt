//! Proofs by steps of the chase.

use dl_syntax::{Element, Items, Row, Snapshot};

/// What a proof is to show.
#[derive(Debug, Drop)]
pub enum Goal {
    /// The row is a certain answer of a leaf: the place of the query, and the place of the leaf
    /// among its nodes, both counted from 0.
    Answer { query: u16, leaf: u16, row: Row },
    /// The facts meet the clash of the number, counted from 1.
    Clash(u32),
}

/// One step of the chase: the place of an earlier fact in the run, counted from 0, and the number
/// of an inclusion, counted from 1.
#[derive(Clone, Copy, PartialEq, Eq, Debug)]
pub struct ProofStep {
    pub from: u32,
    pub inclusion: u32,
}

/// How the run shows the goal.
#[derive(Debug, Drop)]
pub enum Ending {
    /// An element for each variable of the leaf, in the rising order of the variables' numbers.
    Match(Items<Element>),
    /// The places of two facts that put one element, or one pair, into the left and the right side
    /// of the clash.
    Places(u32, u32),
}

/// The facts that are given, what is to be shown, the steps of the chase from the facts on, and
/// how the run that they lead to shows it.
#[derive(Debug, Drop)]
pub struct Proof {
    pub facts: Snapshot,
    pub goal: Goal,
    pub steps: Items<ProofStep>,
    pub ending: Ending,
}
