//! The bytes of a report's lines, appended to a buffer that is used again.

ghost use Rattle.std.specs.Prelude.{◌≡◌, ◌++◌, ◌<◌, All, [], length, OnOk, OnErr, IfOk, take};
ghost use Rattle.std.specs.Prelude.{vec_len, decimal};
ghost use Rattle.report_text.specs.Names.{IsNamed, AreNamed, HasNames};
ghost use Rattle.report_text.specs.Lines.{IsSpelledIn, cause_text, row_text, answer_text};
ghost use Rattle.report_text.specs.Lines.{answers_text, kept_text, two_text, refused_text};
ghost use Rattle.report_text.specs.Lines.{declared_text};
ghost use Rattle.report_text.specs.Lines.{line_text, line_in, heading_text};

use crate::item::{Cause, Item};
use crate::numbers::{append_number, append_wide_number};
use crate::row::append_item_row;
use dl_syntax::{IndId, Kind, Memory, Ontology, Tuples};
use forms::LineForm;
use std::alloc::Global;
use tcq_syntax::Query;

/// What stands before the first line.
#[tactic(auto, unfolding(crate::specs::Rows::row, csv::specs::Writing::fields_text, csv::specs::Writing::is_blank))]
pub fn heading(form: LineForm) -> &'static [u8]
    ensures { result.now ≡ heading_text form }
{
    match form {
        LineForm::Text => b"",
        LineForm::Csv => b"line,event,number,name,detail\n",
    }
}

/// Appends a cause. What stood before stays, also on an error.
fn append_cause(out: &mut Vec<u8>, cause: &Cause) -> Result<(), Memory>
    ensures ok { OnOk result (out.new.items ≡ out.old.items ++ cause_text cause.now) }
    ensures kept { take (vec_len out.old) out.new.items ≡ out.old.items }
{
    match cause {
        Cause::TooLong => out.extend_from_slice(b"too-long"),
        Cause::Malformed => out.extend_from_slice(b"malformed"),
        Cause::Unknown(name) => append_named(out, b"unknown ", name.bytes()),
        Cause::WrongKind(name) => append_named(out, b"wrong-kind ", name.bytes()),
        Cause::Undeclared(name) => append_named(out, b"undeclared ", name.bytes()),
        Cause::TooManyFacts => out.extend_from_slice(b"too-many-facts"),
        Cause::Contradiction(clash) => append_counted(out, b"contradiction ", *clash as u128),
        Cause::Closed => out.extend_from_slice(b"closed"),
        Cause::NameTwice(name) => append_named(out, b"name-twice ", name.bytes()),
        Cause::TooMany => out.extend_from_slice(b"too-many"),
        Cause::TooLarge(total) => append_counted(out, b"too-large ", *total),
    }
}

/// Appends a word and a number. What stood before stays, also on an error.
fn append_counted(out: &mut Vec<u8>, word: &[u8], number: u128) -> Result<(), Memory>
    ensures ok { OnOk result (out.new.items ≡ out.old.items ++ (word.now ++ decimal number)) }
    ensures kept { take (vec_len out.old) out.new.items ≡ out.old.items }
{
    out.extend_from_slice(word)?;
    append_wide_number(out, number)
}

/// Appends a word and a name. What stood before stays, also on an error.
fn append_named(out: &mut Vec<u8>, word: &[u8], name: &[u8]) -> Result<(), Memory>
    ensures ok { OnOk result (out.new.items ≡ out.old.items ++ (word.now ++ name.now)) }
    ensures kept { take (vec_len out.old) out.new.items ≡ out.old.items }
{
    out.extend_from_slice(word)?;
    out.extend_from_slice(name)
}

/// Appends the names of a row, each after a space.
pub(crate) fn append_row(
    out: &mut Vec<u8>,
    ontology: &Ontology,
    row: &[IndId],
) -> Result<(), Memory>
    requires { IsNamed ontology.now row.now }
    ensures ok { OnOk result (out.new.items ≡ out.old.items
        ++ row_text ontology.now.individuals row.now) }
    ensures kept { take (vec_len out.old) out.new.items ≡ out.old.items }
{
    for individual in row {
        out.push(b' ')?;
        out.extend_from_slice(ontology.name(Kind::Individual, individual.0))?;
    }
    Ok(())
}

/// Appends one answer. What stood before stays, also on an error.
fn append_answer(
    out: &mut Vec<u8>,
    query: &[u8],
    ontology: &Ontology,
    row: &[IndId],
) -> Result<(), Memory>
    requires { IsNamed ontology.now row.now }
    ensures ok { OnOk result (out.new.items ≡ out.old.items
        ++ answer_text ontology.now.individuals query.now row.now) }
    ensures kept { take (vec_len out.old) out.new.items ≡ out.old.items }
{
    out.extend_from_slice(b"answer ")?;
    out.extend_from_slice(query)?;
    append_row(out, ontology, row)?;
    out.extend_from_slice(b"\n")
}

/// Appends the answers of one query. What stood before stays, also on an error.
pub(crate) fn append_answers(
    out: &mut Vec<u8>,
    query: &[u8],
    ontology: &Ontology,
    rows: &Tuples,
) -> Result<(), Memory>
    requires { AreNamed ontology.now rows.now.rows }
    ensures ok { OnOk result (out.new.items ≡ out.old.items
        ++ answers_text ontology.now.individuals query.now rows.now.rows) }
    ensures kept { take (vec_len out.old) out.new.items ≡ out.old.items }
{
    for place in 0..rows.len() {
        append_answer(out, query, ontology, rows.row(place))?;
    }
    Ok(())
}

/// Appends a word and two numbers after words.
pub(crate) fn append_two(
    out: &mut Vec<u8>,
    before: &[u8],
    first: u64,
    between: &[u8],
    second: u64,
) -> Result<(), Memory>
    ensures ok { OnOk result (out.new.items ≡ out.old.items
        ++ two_text before.now first between.now second) }
    ensures kept { take (vec_len out.old) out.new.items ≡ out.old.items }
{
    out.extend_from_slice(before)?;
    append_number(out, first)?;
    out.extend_from_slice(between)?;
    append_number(out, second)?;
    out.extend_from_slice(b"\n")
}

/// Appends how much a query keeps.
pub(crate) fn append_kept(out: &mut Vec<u8>, query: &[u8], size: u64) -> Result<(), Memory>
    ensures ok { OnOk result (out.new.items ≡ out.old.items ++ kept_text query.now size) }
    ensures kept { take (vec_len out.old) out.new.items ≡ out.old.items }
{
    out.extend_from_slice(b"kept ")?;
    out.extend_from_slice(query)?;
    out.extend_from_slice(b" ")?;
    append_number(out, size)?;
    out.extend_from_slice(b"\n")
}

/// Appends the line of a name that was declared. What stood before stays, also on an error.
pub(crate) fn append_declared(out: &mut Vec<u8>, line: u64, name: &[u8]) -> Result<(), Memory>
    ensures ok { OnOk result (out.new.items ≡ out.old.items ++ declared_text line name.now) }
    ensures kept { take (vec_len out.old) out.new.items ≡ out.old.items }
{
    out.extend_from_slice(b"line ")?;
    append_number(out, line)?;
    out.extend_from_slice(b" declared ")?;
    out.extend_from_slice(name)?;
    out.extend_from_slice(b"\n")
}

/// Appends the line of a refusal.
pub(crate) fn append_refused(out: &mut Vec<u8>, line: u64, cause: &Cause) -> Result<(), Memory>
    ensures ok { OnOk result (out.new.items ≡ out.old.items ++ refused_text line cause.now) }
    ensures kept { take (vec_len out.old) out.new.items ≡ out.old.items }
{
    out.extend_from_slice(b"line ")?;
    append_number(out, line)?;
    out.extend_from_slice(b" refused ")?;
    append_cause(out, cause)?;
    out.extend_from_slice(b"\n")
}

/// Appends the text line of an item. What stood before stays, also on an error.
fn append_item_text(
    out: &mut Vec<u8>,
    item: &Item,
    ontology: &Ontology,
    queries: &[Query],
) -> Result<(), Memory>
    requires { HasNames ontology.now queries.now item.now }
    ensures ok { OnOk result (out.new.items ≡ out.old.items
        ++ line_text ontology.now queries.now item.now) }
    ensures kept { take (vec_len out.old) out.new.items ≡ out.old.items }
{
    match item {
        Item::Accepted { line, number } => append_two(out, b"line ", *line, b" accepted ", *number),
        Item::Answer { query, row, .. } => {
            append_answer(
                out,
                queries[*query as usize].name().bytes(),
                ontology,
                row.places(),
            )
        }
        Item::Kept { query, size, .. } => {
            append_kept(out, queries[*query as usize].name().bytes(), *size)
        }
        Item::Declared { line, name } => append_declared(out, *line, name.bytes()),
        Item::Refused { line, cause } => append_refused(out, *line, cause),
        Item::End { accepted, refused } => {
            append_two(out, b"end accepted ", *accepted, b" refused ", *refused)
        }
    }
}

/// Appends the line of an item in this form. What stood before stays, also on an error.
fn append_item(
    out: &mut Vec<u8>,
    item: &Item,
    form: LineForm,
    ontology: &Ontology,
    queries: &[Query],
) -> Result<(), Memory>
    requires named { HasNames ontology.now queries.now item.now }
    requires spelled { IsSpelledIn form queries.now item.now }
    ensures ok { OnOk result (out.new.items ≡ out.old.items
        ++ line_in form ontology.now queries.now item.now) }
    ensures kept { take (vec_len out.old) out.new.items ≡ out.old.items }
{
    match form {
        LineForm::Text => append_item_text(out, item, ontology, queries),
        LineForm::Csv => append_item_row(out, item, ontology, queries),
    }
}

/// The exact bytes of the line of an item.
pub fn render_line(
    alloc: Global,
    item: &Item,
    form: LineForm,
    ontology: &Ontology,
    queries: &[Query],
) -> Result<Vec<u8>, Memory>
    requires named { HasNames ontology.now queries.now item.now }
    requires spelled { IsSpelledIn form queries.now item.now }
    ensures { IfOk result (λ line. line.items ≡ line_in form ontology.now queries.now item.now) }
{
    let mut line = Vec::new(alloc);
    append_item(&mut line, item, form, ontology, queries)?;
    Ok(line)
}
