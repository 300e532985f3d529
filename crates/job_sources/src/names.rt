//! The files that the words name.

/// The names of the files of a job.
#[derive(Clone, Copy, Debug)]
pub struct Names<'a> {
    pub ontology: &'a str,
    pub queries: &'a str,
    /// Whether the ontology is an OWL 2 document in functional-style syntax.
    pub owl: bool,
}
