//! How a stream and a report are written.
#![tactic(auto)]

/// How a line of a stream is written.
#[derive(Clone, Copy, PartialEq, Eq, Debug)]
pub enum StreamForm {
    /// The word `snap` and then facts, as `A(a)` and `R(a,b)`.
    Text,
    /// A JSON object whose member `facts` is a list of them, as `["A","a"]` and `["R","a","b"]`.
    Json,
}

/// How the lines of a report are written.
#[derive(Clone, Copy, PartialEq, Eq, Debug)]
pub enum LineForm {
    /// Words and numbers, separated by spaces.
    Text,
    /// Rows of five fields: line, event, number, name, detail.
    Csv,
}

/// How a report is written.
#[derive(Clone, Copy, PartialEq, Eq, Debug)]
pub enum ReportForm {
    /// A line for each item of an event.
    Lines(LineForm),
    /// A JSON object on a line of its own for each event.
    Objects,
}
