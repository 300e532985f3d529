//! The events of a stream, and the bytes that a report tells of them.

ghost use Rattle.std.specs.Prelude.{◌≡◌, ◌++◌, OnOk, OnErr, IfOk, take, vec_len, flat_map};
ghost use Rattle.dl_syntax.specs.Names.{IsName};
ghost use Rattle.report_text.specs.Names.{AreNamed, AreSpelled, IsSpelledCause};
ghost use Rattle.report_text.specs.Lines.{accepted_in, answers_in, declared_in, end_in, line_in};
ghost use Rattle.report_text.specs.Lines.{refused_in, size_in};
ghost use Rattle.report_text.specs.Objects.{object_text};
ghost use Rattle.report_text.specs.Events.{AreAnswered, EventHasNames, event_text, items_of};
ghost use Rattle.report_text.specs.Events.{query_items, report_heading_text};

use crate::item::Cause;
use crate::line::{
    append_answers, append_declared, append_kept, append_refused, append_two, heading,
};
use crate::object::{
    append_accepted_object, append_declared_object, append_end_object, append_refused_object,
    size_of,
};
use crate::row::{
    append_accepted_row, append_answer_rows, append_declared_row, append_end_row, append_kept_row,
    append_refused_row,
};
use dl_syntax::{Items, Memory, Name, Ontology, Tuples};
use forms::{LineForm, ReportForm};
use std::alloc::Global;
use tcq_syntax::Query;

/// What happened to a line of the stream, or its end.
#[derive(Debug, Drop)]
pub enum Event {
    /// The line with this number was accepted, as the snapshot with this number in the whole
    /// history.
    Accepted {
        line: u64,
        number: u64,
        /// The answers of each query after it, in the order of the queries.
        answers: Items<Tuples>,
        /// How much each query keeps after it, in the same order, where that is told.
        kept: Option<Items<u64>>,
    },
    /// The line with this number declared an individual of this name.
    Declared {
        line: u64,
        name: Name,
    },
    /// The line with this number was refused.
    Refused {
        line: u64,
        cause: Cause,
    },
    /// How many snapshots the history has, and how many lines were refused.
    End {
        accepted: u64,
        refused: u64,
    },
}

/// How lines are written, the line of which answers are told, and the snapshot's number in the
/// whole history.
#[derive(Clone, Copy)]
struct Told {
    form: LineForm,
    line: u64,
    number: u64,
}

/// What stands before the first event.
pub fn report_heading(form: ReportForm) -> &'static [u8]
    ensures { result.now ≡ report_heading_text form }
{
    match form {
        ReportForm::Lines(lines) => heading(lines),
        ReportForm::Objects => b"",
    }
}

/// Appends the event in this form. The buffer is as before where memory runs out.
pub fn append_event(
    out: &mut Vec<u8>,
    event: &Event,
    form: ReportForm,
    ontology: &Ontology,
    queries: &[Query],
) -> Result<(), Memory>
    requires { EventHasNames ontology.now queries.now event.now }
    ensures ok { OnOk result (out.new.items ≡ out.old.items
        ++ event_text form ontology.now queries.now event.now) }
    ensures err { OnErr result (out.new.items ≡ out.old.items) }
{
    let start = out.len();
    let done = try_append_event(out, event, form, ontology, queries);
    if done.is_err() {
        out.truncate(start);
    }
    done
}

/// The exact bytes of the JSON line of an event.
pub fn render_object(
    alloc: Global,
    event: &Event,
    ontology: &Ontology,
    queries: &[Query],
) -> Result<Vec<u8>, Memory>
    requires { EventHasNames ontology.now queries.now event.now }
    ensures { IfOk result (λ line. line.items ≡ object_text ontology.now queries.now event.now) }
{
    let mut line = Vec::new(alloc);
    append_event(&mut line, event, ReportForm::Objects, ontology, queries)?;
    Ok(line)
}

/// Appends the event in this form. What stood before stays, also on an error.
fn try_append_event(
    out: &mut Vec<u8>,
    event: &Event,
    form: ReportForm,
    ontology: &Ontology,
    queries: &[Query],
) -> Result<(), Memory>
    requires { EventHasNames ontology.now queries.now event.now }
    ensures ok { OnOk result (out.new.items ≡ out.old.items
        ++ event_text form ontology.now queries.now event.now) }
    ensures kept { take (vec_len out.old) out.new.items ≡ out.old.items }
{
    match form {
        ReportForm::Lines(lines) => append_items(out, event, lines, ontology, queries),
        ReportForm::Objects => append_object(out, event, ontology, queries),
    }
}

/// Appends the object of an event, with its newline. What stood before stays, also on an error.
fn append_object(
    out: &mut Vec<u8>,
    event: &Event,
    ontology: &Ontology,
    queries: &[Query],
) -> Result<(), Memory>
    requires { EventHasNames ontology.now queries.now event.now }
    ensures ok { OnOk result (out.new.items ≡ out.old.items
        ++ object_text ontology.now queries.now event.now) }
    ensures kept { take (vec_len out.old) out.new.items ≡ out.old.items }
{
    match event {
        Event::Accepted {
            line,
            number,
            answers,
            kept,
        } => {
            let answers = answers.as_slice();
            append_accepted_object(out, *line, *number, ontology, queries, kept, answers)
        }
        Event::Declared { line, name } => append_declared_object(out, *line, name.bytes()),
        Event::Refused { line, cause } => append_refused_object(out, *line, cause),
        Event::End { accepted, refused } => append_end_object(out, *accepted, *refused),
    }
}

/// Appends a line for each item of an event. What stood before stays, also on an error.
fn append_items(
    out: &mut Vec<u8>,
    event: &Event,
    form: LineForm,
    ontology: &Ontology,
    queries: &[Query],
) -> Result<(), Memory>
    requires { EventHasNames ontology.now queries.now event.now }
    ensures ok { OnOk result (out.new.items ≡ out.old.items
        ++ flat_map (line_in form ontology.now queries.now) (items_of event.now)) }
    ensures kept { take (vec_len out.old) out.new.items ≡ out.old.items }
{
    match event {
        Event::Accepted {
            line,
            number,
            answers,
            kept,
        } => {
            append_accepted(out, form, *line, *number)?;
            let answers = answers.as_slice();
            let told = Told {
                form,
                line: *line,
                number: *number,
            };
            append_queries(out, told, ontology, queries, kept, answers)
        }
        Event::Declared { line, name } => append_arrival(out, form, *line, name.bytes()),
        Event::Refused { line, cause } => append_refusal(out, form, *line, cause),
        Event::End { accepted, refused } => append_last(out, form, *accepted, *refused),
    }
}

/// Appends the line of an accepted snapshot. What stood before stays, also on an error.
fn append_accepted(out: &mut Vec<u8>, form: LineForm, line: u64, number: u64) -> Result<(), Memory>
    ensures ok { OnOk result (out.new.items ≡ out.old.items ++ accepted_in form line number) }
    ensures kept { take (vec_len out.old) out.new.items ≡ out.old.items }
{
    match form {
        LineForm::Text => append_two(out, b"line ", line, b" accepted ", number),
        LineForm::Csv => append_accepted_row(out, line, number),
    }
}

/// Appends the line of a name that was declared. What stood before stays, also on an error.
fn append_arrival(out: &mut Vec<u8>, form: LineForm, line: u64, name: &[u8]) -> Result<(), Memory>
    requires { IsName name.now }
    ensures ok { OnOk result (out.new.items ≡ out.old.items ++ declared_in form line name.now) }
    ensures kept { take (vec_len out.old) out.new.items ≡ out.old.items }
{
    match form {
        LineForm::Text => append_declared(out, line, name),
        LineForm::Csv => append_declared_row(out, line, name),
    }
}

/// Appends the line of a refusal. What stood before stays, also on an error.
fn append_refusal(out: &mut Vec<u8>, form: LineForm, line: u64, cause: &Cause) -> Result<(), Memory>
    requires { IsSpelledCause cause.now }
    ensures ok { OnOk result (out.new.items ≡ out.old.items ++ refused_in form line cause.now) }
    ensures kept { take (vec_len out.old) out.new.items ≡ out.old.items }
{
    match form {
        LineForm::Text => append_refused(out, line, cause),
        LineForm::Csv => append_refused_row(out, line, cause),
    }
}

/// Appends the last line. What stood before stays, also on an error.
fn append_last(out: &mut Vec<u8>, form: LineForm, accepted: u64, refused: u64) -> Result<(), Memory>
    ensures ok { OnOk result (out.new.items ≡ out.old.items ++ end_in form accepted refused) }
    ensures kept { take (vec_len out.old) out.new.items ≡ out.old.items }
{
    match form {
        LineForm::Text => append_two(out, b"end accepted ", accepted, b" refused ", refused),
        LineForm::Csv => append_end_row(out, accepted, refused),
    }
}

/// Appends a line for each answer of one query. What stood before stays, also on an error.
fn append_rows(
    out: &mut Vec<u8>,
    told: Told,
    query: &[u8],
    ontology: &Ontology,
    rows: &Tuples,
) -> Result<(), Memory>
    requires named { AreNamed ontology.now rows.now.rows }
    requires spelled { IsName query.now }
    ensures ok { OnOk result (out.new.items ≡ out.old.items
        ++ answers_in told.form ontology.now.individuals told.line told.number query.now
        rows.now.rows) }
    ensures kept { take (vec_len out.old) out.new.items ≡ out.old.items }
{
    match told.form {
        LineForm::Text => append_answers(out, query, ontology, rows),
        LineForm::Csv => append_answer_rows(out, told.line, told.number, query, ontology, rows),
    }
}

/// Appends the line that tells a size, where there is one. What stood before stays, also on an
/// error.
fn append_size(out: &mut Vec<u8>, told: Told, query: &[u8], size: Option<u64>) -> Result<(), Memory>
    requires { IsName query.now }
    ensures ok { OnOk result (out.new.items
        ≡ out.old.items ++ size_in told.form told.line query.now size) }
    ensures kept { take (vec_len out.old) out.new.items ≡ out.old.items }
{
    match (size, told.form) {
        (None, _) => Ok(()),
        (Some(size), LineForm::Text) => append_kept(out, query, size),
        (Some(size), LineForm::Csv) => append_kept_row(out, told.line, size, query),
    }
}

/// Appends the lines of one query. What stood before stays, also on an error.
fn append_query(
    out: &mut Vec<u8>,
    told: Told,
    query: &[u8],
    ontology: &Ontology,
    rows: &Tuples,
    size: Option<u64>,
) -> Result<(), Memory>
    requires named { AreNamed ontology.now rows.now.rows }
    requires spelled { IsName query.now }
    ensures ok { OnOk result (out.new.items ≡ out.old.items
        ++ (answers_in told.form ontology.now.individuals told.line told.number query.now
        rows.now.rows
        ++ size_in told.form told.line query.now size)) }
    ensures kept { take (vec_len out.old) out.new.items ≡ out.old.items }
{
    append_rows(out, told, query, ontology, rows)?;
    append_size(out, told, query, size)
}

/// Appends the lines of the queries in their order. What stood before stays, also on an error.
fn append_queries(
    out: &mut Vec<u8>,
    told: Told,
    ontology: &Ontology,
    queries: &[Query],
    kept: &Option<Items<u64>>,
    answers: &[Tuples],
) -> Result<(), Memory>
    requires answered { AreAnswered ontology.now queries.now kept.now answers.now }
    requires spelled { AreSpelled queries.now }
    ensures ok { OnOk result (out.new.items ≡ out.old.items
        ++ flat_map (line_in told.form ontology.now queries.now)
        (query_items told.line told.number kept.now 0 answers.now)) }
    ensures kept { take (vec_len out.old) out.new.items ≡ out.old.items }
{
    for place in 0..answers.len() {
        let query = queries[place].name().bytes();
        let size = size_of(kept, place);
        append_query(out, told, query, ontology, &answers[place], size)?;
    }
    Ok(())
}
