//! What the words ask for.

use forms::{ReportForm, StreamForm};

/// Why words were refused.
#[derive(Clone, Copy, Debug, PartialEq, Eq)]
pub enum WordsFault {
    /// They are the words of no command.
    Usage,
    /// Memory ran out.
    Memory,
}

/// A watch: the names of its two files and its options.
#[derive(Clone, Copy, Debug, PartialEq, Eq)]
pub struct Watch<'a> {
    pub ontology: &'a str,
    pub queries: &'a str,
    /// Whether the ontology is an OWL 2 document in functional-style syntax.
    pub owl: bool,
    pub form: StreamForm,
    pub report: ReportForm,
    /// Whether the report tells the kept sizes.
    pub sizes: bool,
}

/// A command on an ontology and queries whose one option says how the ontology is written.
#[derive(Clone, Copy, Debug, PartialEq, Eq)]
pub enum FilesCommand {
    /// Rewrites the queries by the ontology.
    Rewrite,
    /// Tests which queries are contained in which others, under the ontology.
    Contain,
    /// Audits models of the ontology, and answers the queries in them.
    Audit,
    /// Shows each answer of the queries' leaves, and each contradiction, by a run of the chase.
    Explain,
    /// Checks proofs of answers and of contradictions.
    Verify,
    /// Watches interleaved streams, each as if it were alone.
    Streams,
}

/// A command on files, with the names of its two files and its option.
#[derive(Clone, Copy, Debug, PartialEq, Eq)]
pub struct OnFiles<'a> {
    pub command: FilesCommand,
    pub ontology: &'a str,
    pub queries: &'a str,
    /// Whether the ontology is an OWL 2 document in functional-style syntax.
    pub owl: bool,
}

/// What the words ask for.
#[derive(Clone, Copy, Debug, PartialEq, Eq)]
pub enum Request<'a> {
    Watch(Watch<'a>),
    OnFiles(OnFiles<'a>),
    /// Watches a made stream: the seed is at most 2,147,483,647, the count of snapshots at most
    /// 100,000.
    Drill { seed: u32, count: u32 },
}
