//! The rows of a report in CSV form. What they tell needs no quotes, so it is appended as it is.

ghost use Rattle.std.specs.Prelude.{◌≡◌, ◌++◌, ◌+◌, ◌≤◌, OnOk, codes, take, length, vec_len};
ghost use Rattle.arrayvec.specs.ArrayVec.{array_vec_len};
ghost use Rattle.dl_syntax.specs.Names.{IsName};
ghost use Rattle.report_text.specs.Names.{IsNamed, AreNamed, HasNames, AreSpelled, IsSpelledCause};
ghost use Rattle.report_text.specs.Names.{IsSpelledItem};
ghost use Rattle.report_text.specs.Rows.{HasSmallNumber, cause_word, cause_name, cause_number};
ghost use Rattle.report_text.specs.Rows.{individuals_text, accepted_row, answer_row, answer_rows};
ghost use Rattle.report_text.specs.Rows.{answer_front, answer_detail, kept_row, refused_row};
ghost use Rattle.report_text.specs.Rows.{declared_row, end_row, item_row};

use crate::item::{Cause, Item};
use crate::line::append_row;
use crate::names::{individual_name, individuals_are_spelled};
use crate::numbers::{append_number, append_wide_number};
use arrayvec::ArrayVec;
use dl_syntax::{IndId, Memory, Ontology, Tuples};
use itoa::Buffer;
use tcq_syntax::Query;

/// More bytes than the fields that the answers of a query share: two numbers, the event and a name.
const FRONT_LIMIT: usize = 128;

/// The word for a cause.
pub fn word_of(cause: &Cause) -> &'static [u8]
    ensures { result.now ≡ cause_word cause.now }
{
    match cause {
        Cause::TooLong => b"too-long",
        Cause::Malformed => b"malformed",
        Cause::Unknown(_) => b"unknown",
        Cause::WrongKind(_) => b"wrong-kind",
        Cause::Undeclared(_) => b"undeclared",
        Cause::TooManyFacts => b"too-many-facts",
        Cause::Contradiction(_) => b"contradiction",
        Cause::Closed => b"closed",
        Cause::NameTwice(_) => b"name-twice",
        Cause::TooMany => b"too-many",
        Cause::TooLarge(_) => b"too-large",
    }
}

/// The name that the cause has, or nothing.
fn name_of(cause: &Cause) -> &[u8]
    ensures { result.now ≡ cause_name cause.now }
{
    match cause {
        Cause::Unknown(name) => name.bytes(),
        Cause::WrongKind(name) => name.bytes(),
        Cause::Undeclared(name) => name.bytes(),
        Cause::NameTwice(name) => name.bytes(),
        _ => b"",
    }
}

/// Appends the number that the cause has, where it has one. What stood before stays, also on an
/// error.
fn append_count(out: &mut Vec<u8>, cause: &Cause) -> Result<(), Memory>
    ensures ok { OnOk result (out.new.items ≡ out.old.items ++ cause_number cause.now) }
    ensures small { HasSmallNumber cause.now }
    ensures kept { take (vec_len out.old) out.new.items ≡ out.old.items }
{
    match cause {
        Cause::Contradiction(clash) => append_number(out, *clash as u64),
        Cause::TooLarge(total) => append_wide_number(out, *total),
        _ => Ok(()),
    }
}

/// Appends the row of a snapshot that was accepted. What stood before stays, also on an error.
pub fn append_accepted_row(out: &mut Vec<u8>, line: u64, number: u64) -> Result<(), Memory>
    ensures ok { OnOk result (out.new.items ≡ out.old.items ++ accepted_row line number) }
    ensures kept { take (vec_len out.old) out.new.items ≡ out.old.items }
{
    append_number(out, line)?;
    out.extend_from_slice(b",accepted,")?;
    append_number(out, number)?;
    out.extend_from_slice(b",,\n")
}

/// Appends the names of individuals, separated by one space. What stood before stays, also on an
/// error.
fn append_individuals(out: &mut Vec<u8>, ontology: &Ontology, row: &[IndId]) -> Result<(), Memory>
    requires { IsNamed ontology.now row.now }
    ensures ok { OnOk result
        (out.new.items ≡ out.old.items ++ individuals_text ontology.now.individuals row.now) }
    ensures kept { take (vec_len out.old) out.new.items ≡ out.old.items }
{
    match row {
        [] => Ok(()),
        [first, rest @ ..] => {
            out.extend_from_slice(individual_name(ontology, *first))?;
            append_row(out, ontology, rest)
        }
    }
}

/// The fields that the answers of a query share, each with the comma after it.
fn answer_front_of(line: u64, number: u64, query: &[u8]) -> ArrayVec<u8, FRONT_LIMIT>
    requires { IsName query.now }
    ensures { result.items ≡ answer_front line number query.now }
{
    let mut line_buffer = Buffer::new();
    let mut number_buffer = Buffer::new();
    let mut front = ArrayVec::new();
    put(&mut front, line_buffer.format(line).as_bytes());
    put(&mut front, b",answer,");
    put(&mut front, number_buffer.format(number).as_bytes());
    put(&mut front, b",");
    put(&mut front, query);
    put(&mut front, b",");
    front
}

/// Puts bytes that fit last.
fn put(front: &mut ArrayVec<u8, FRONT_LIMIT>, bytes: &[u8])
    requires { array_vec_len front.old + length bytes.now ≤ 128 }
    ensures items { front.new.items ≡ front.old.items ++ bytes.now }
    ensures len { array_vec_len front.new ≡ array_vec_len front.old + length bytes.now }
{
    front.try_extend_from_slice(bytes).unwrap();
}

/// Appends the row of an answer, of which the shared fields are given. What stood before stays,
/// also on an error.
fn append_detail(
    out: &mut Vec<u8>,
    front: &[u8],
    ontology: &Ontology,
    row: &[IndId],
) -> Result<(), Memory>
    requires { IsNamed ontology.now row.now }
    ensures ok { OnOk result (out.new.items
        ≡ out.old.items ++ (front.now ++ answer_detail ontology.now.individuals row.now)) }
    ensures kept { take (vec_len out.old) out.new.items ≡ out.old.items }
{
    out.extend_from_slice(front)?;
    append_individuals(out, ontology, row)?;
    out.extend_from_slice(b"\n")
}

/// Appends the row of one answer. What stood before stays, also on an error.
fn append_answer_row(
    out: &mut Vec<u8>,
    line: u64,
    number: u64,
    query: &[u8],
    ontology: &Ontology,
    row: &[IndId],
) -> Result<(), Memory>
    requires named { IsNamed ontology.now row.now }
    requires spelled { IsName query.now }
    ensures ok { OnOk result (out.new.items
        ≡ out.old.items ++ answer_row ontology.now.individuals line number query.now row.now) }
    ensures kept { take (vec_len out.old) out.new.items ≡ out.old.items }
{
    individuals_are_spelled(ontology);
    let front = answer_front_of(line, number, query);
    append_detail(out, front.as_slice(), ontology, row)
}

/// Appends a row for each answer of one query. What stood before stays, also on an error.
pub fn append_answer_rows(
    out: &mut Vec<u8>,
    line: u64,
    number: u64,
    query: &[u8],
    ontology: &Ontology,
    rows: &Tuples,
) -> Result<(), Memory>
    requires named { AreNamed ontology.now rows.now.rows }
    requires spelled { IsName query.now }
    ensures ok { OnOk result (out.new.items ≡ out.old.items
        ++ answer_rows ontology.now.individuals line number query.now rows.now.rows) }
    ensures kept { take (vec_len out.old) out.new.items ≡ out.old.items }
{
    individuals_are_spelled(ontology);
    let front = answer_front_of(line, number, query);
    for place in 0..rows.len() {
        append_detail(out, front.as_slice(), ontology, rows.row(place))?;
    }
    Ok(())
}

/// Appends the row of how much a query keeps. What stood before stays, also on an error.
pub fn append_kept_row(out: &mut Vec<u8>, line: u64, size: u64, query: &[u8]) -> Result<(), Memory>
    requires { IsName query.now }
    ensures ok { OnOk result (out.new.items ≡ out.old.items ++ kept_row line size query.now) }
    ensures kept { take (vec_len out.old) out.new.items ≡ out.old.items }
{
    append_number(out, line)?;
    out.extend_from_slice(b",kept,")?;
    append_number(out, size)?;
    out.extend_from_slice(b",")?;
    out.extend_from_slice(query)?;
    out.extend_from_slice(b",\n")
}

/// Appends the row of a name that was declared. What stood before stays, also on an error.
pub fn append_declared_row(out: &mut Vec<u8>, line: u64, name: &[u8]) -> Result<(), Memory>
    requires { IsName name.now }
    ensures ok { OnOk result (out.new.items ≡ out.old.items ++ declared_row line name.now) }
    ensures kept { take (vec_len out.old) out.new.items ≡ out.old.items }
{
    append_number(out, line)?;
    out.extend_from_slice(b",declared,,")?;
    out.extend_from_slice(name)?;
    out.extend_from_slice(b",\n")
}

/// Appends the last two fields of a row. What stood before stays, also on an error.
fn append_last_fields(out: &mut Vec<u8>, name: &[u8], detail: &[u8]) -> Result<(), Memory>
    ensures ok { OnOk result (out.new.items
        ≡ out.old.items ++ (codes "," ++ name.now ++ codes "," ++ detail.now ++ codes "\n")) }
    ensures kept { take (vec_len out.old) out.new.items ≡ out.old.items }
{
    out.extend_from_slice(b",")?;
    out.extend_from_slice(name)?;
    out.extend_from_slice(b",")?;
    out.extend_from_slice(detail)?;
    out.extend_from_slice(b"\n")
}

/// Appends the row of a refusal. What stood before stays, also on an error.
pub fn append_refused_row(out: &mut Vec<u8>, line: u64, cause: &Cause) -> Result<(), Memory>
    requires { IsSpelledCause cause.now }
    ensures ok { OnOk result (out.new.items ≡ out.old.items ++ refused_row line cause.now) }
    ensures kept { take (vec_len out.old) out.new.items ≡ out.old.items }
{
    append_number(out, line)?;
    out.extend_from_slice(b",refused,")?;
    append_count(out, cause)?;
    append_last_fields(out, word_of(cause), name_of(cause))
}

/// Appends the last row. What stood before stays, also on an error.
pub fn append_end_row(out: &mut Vec<u8>, accepted: u64, refused: u64) -> Result<(), Memory>
    ensures ok { OnOk result (out.new.items ≡ out.old.items ++ end_row accepted refused) }
    ensures kept { take (vec_len out.old) out.new.items ≡ out.old.items }
{
    out.extend_from_slice(b",end,")?;
    append_number(out, accepted)?;
    out.extend_from_slice(b",,")?;
    append_number(out, refused)?;
    out.extend_from_slice(b"\n")
}

/// Appends the row of an item. What stood before stays, also on an error.
pub fn append_item_row(
    out: &mut Vec<u8>,
    item: &Item,
    ontology: &Ontology,
    queries: &[Query],
) -> Result<(), Memory>
    requires named { HasNames ontology.now queries.now item.now }
    requires queries_spelled { AreSpelled queries.now }
    requires cause_spelled { IsSpelledItem item.now }
    ensures ok { OnOk result
        (out.new.items ≡ out.old.items ++ item_row ontology.now queries.now item.now) }
    ensures kept { take (vec_len out.old) out.new.items ≡ out.old.items }
{
    match item {
        Item::Accepted { line, number } => append_accepted_row(out, *line, *number),
        Item::Answer {
            line,
            number,
            query,
            row,
        } => {
            let name = queries[*query as usize].name().bytes();
            append_answer_row(out, *line, *number, name, ontology, row.places())
        }
        Item::Kept { line, query, size } => {
            append_kept_row(out, *line, *size, queries[*query as usize].name().bytes())
        }
        Item::Declared { line, name } => append_declared_row(out, *line, name.bytes()),
        Item::Refused { line, cause } => append_refused_row(out, *line, cause),
        Item::End { accepted, refused } => append_end_row(out, *accepted, *refused),
    }
}
