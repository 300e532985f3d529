//! What an audit answers.
use dl_syntax::Tuples;

/// The first that applies, in this order.
#[derive(Debug, Drop)]
pub enum Audit {
    /// The least place of a fact of the snapshot that the model lacks.
    Missing(u32),
    /// The least inclusion, counted from 1, and the least place of a fact of the model whose right
    /// side is missing.
    Broken { inclusion: u32, fact: u32 },
    /// The least clash that the model meets, counted from 1.
    Clash(u32),
    /// For each query and leaf the rows of declared individuals with a match in the model.
    Model(Vec<Vec<Tuples>>),
}
