//! How a stream is read and its report written.

use forms::{ReportForm, StreamForm};

/// How a stream is read and its report written.
#[derive(Clone, Copy, Debug, PartialEq, Eq)]
pub struct Options {
    /// How a line of the stream is written.
    pub form: StreamForm,
    /// How the report is written.
    pub report: ReportForm,
    /// Whether it tells how much is kept of each query after each accepted snapshot.
    pub sizes: bool,
}
