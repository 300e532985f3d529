//! The lines of a report in JSON form. A name needs no escapes, so it is appended as it is.

ghost use Rattle.std.specs.Prelude.{◌≡◌, ◌++◌, ◌<◌, OnOk, take, vec_len, codes, decimal, false};
ghost use Rattle.std.specs.Prelude.{length, map, nat_lt};
ghost use Rattle.serde_json.specs.Data.{string};
ghost use Rattle.serde_json.specs.View.{items_of};
ghost use Rattle.serde_json.specs.Written.{comma_if, items_text};
ghost use Rattle.dl_syntax.specs.Names.{IsName};
ghost use Rattle.report_text.specs.Names.{AreIndividualsSpelled, AreNamed, AreSpelled, IsNamed};
ghost use Rattle.report_text.specs.Names.{IsSpelledCause};
ghost use Rattle.report_text.specs.Rows.{cause_word};
ghost use Rattle.report_text.specs.Objects.{IsVerbatim, accepted_data, answers_data, clash_data};
ghost use Rattle.report_text.specs.Objects.{declared_data, end_data, large_data, name_data};
ghost use Rattle.report_text.specs.Objects.{named_data, object_line};
ghost use Rattle.report_text.specs.Objects.{plain_data, queries_data, query_data, refused_data};
ghost use Rattle.report_text.specs.Objects.{size_at, size_text, tuple_data, value_text};
ghost use Rattle.report_text.specs.Events.{AreAnswered};

use crate::item::Cause;
use crate::names::{individual_name, individuals_are_spelled};
use crate::numbers::append_number;
use crate::row::word_of;
use dl_syntax::{IndId, Items, Memory, Ontology, Tuples};
use itoa::Buffer;
use tcq_syntax::Query;

/// The word for a cause, which needs no escapes.
fn word_of_cause(cause: &Cause) -> &'static [u8]
    ensures same { result.now ≡ cause_word cause.now }
    ensures verbatim { IsVerbatim result.now }
{
    word_of(cause)
}

/// Appends a string that needs no escapes. What stood before stays, also on an error.
fn append_string(out: &mut Vec<u8>, text: &[u8]) -> Result<(), Memory>
    requires { IsVerbatim text.now }
    ensures ok { OnOk result (out.new.items ≡ out.old.items ++ value_text (string text.now)) }
    ensures kept { take (vec_len out.old) out.new.items ≡ out.old.items }
{
    out.extend_from_slice(b"\"")?;
    out.extend_from_slice(text)?;
    out.extend_from_slice(b"\"")
}

/// Appends a name as a string. What stood before stays, also on an error.
fn append_name(out: &mut Vec<u8>, name: &[u8]) -> Result<(), Memory>
    requires { IsName name.now }
    ensures ok { OnOk result (out.new.items ≡ out.old.items ++ value_text (string name.now)) }
    ensures kept { take (vec_len out.old) out.new.items ≡ out.old.items }
{
    append_string(out, name)
}

/// Appends the decimal digits of a number as a string. What stood before stays, also on an error.
fn append_digits(out: &mut Vec<u8>, number: u128) -> Result<(), Memory>
    ensures ok { OnOk result (out.new.items
        ≡ out.old.items ++ value_text (string (decimal number))) }
    ensures kept { take (vec_len out.old) out.new.items ≡ out.old.items }
{
    let mut buffer = Buffer::new();
    append_string(out, buffer.format(number).as_bytes())
}

/// Appends a word and a number. What stood before stays, also on an error.
fn append_counted(out: &mut Vec<u8>, word: &[u8], number: u64) -> Result<(), Memory>
    ensures ok { OnOk result (out.new.items ≡ out.old.items ++ (word.now ++ decimal number)) }
    ensures kept { take (vec_len out.old) out.new.items ≡ out.old.items }
{
    out.extend_from_slice(word)?;
    append_number(out, number)
}

/// Appends a comma before each element of a list but the first. What stood before stays, also on
/// an error.
fn append_comma(out: &mut Vec<u8>, place: usize) -> Result<(), Memory>
    ensures ok { OnOk result (out.new.items ≡ out.old.items ++ comma_if (nat_lt 0 place)) }
    ensures kept { take (vec_len out.old) out.new.items ≡ out.old.items }
{
    if place > 0 {
        out.extend_from_slice(b",")
    } else {
        Ok(())
    }
}

/// Appends the name at the place of a row. What stood before stays, also on an error.
#[tactic(auto, unfolding(crate::specs::Objects::name_data))]
fn append_next_name(
    out: &mut Vec<u8>,
    place: usize,
    ontology: &Ontology,
    individual: IndId,
) -> Result<(), Memory>
    requires named { individual.0 < length ontology.now.individuals }
    requires spelled { AreIndividualsSpelled ontology.now }
    ensures ok { OnOk result (out.new.items ≡ out.old.items ++ (comma_if (nat_lt 0 place)
        ++ value_text (name_data ontology.now.individuals individual))) }
    ensures kept { take (vec_len out.old) out.new.items ≡ out.old.items }
{
    append_comma(out, place)?;
    append_name(out, individual_name(ontology, individual))
}

/// Appends the names of a row and the bracket after them. What stood before stays, also on an
/// error.
fn append_names(out: &mut Vec<u8>, ontology: &Ontology, row: &[IndId]) -> Result<(), Memory>
    requires named { IsNamed ontology.now row.now }
    requires spelled { AreIndividualsSpelled ontology.now }
    ensures ok { OnOk result (out.new.items ≡ out.old.items
        ++ items_text false (items_of (map (name_data ontology.now.individuals) row.now))) }
    ensures kept { take (vec_len out.old) out.new.items ≡ out.old.items }
{
    for place in 0..row.len() {
        append_next_name(out, place, ontology, row[place])?;
    }
    out.extend_from_slice(b"]")
}

/// Appends the row at the place of a query's answers. What stood before stays, also on an error.
#[tactic(auto, unfolding(crate::specs::Objects::tuple_data, crate::specs::Objects::value_text))]
fn append_next_row(
    out: &mut Vec<u8>,
    place: usize,
    ontology: &Ontology,
    row: &[IndId],
) -> Result<(), Memory>
    requires named { IsNamed ontology.now row.now }
    requires spelled { AreIndividualsSpelled ontology.now }
    ensures ok { OnOk result (out.new.items ≡ out.old.items ++ (comma_if (nat_lt 0 place)
        ++ value_text (tuple_data ontology.now.individuals row.now))) }
    ensures kept { take (vec_len out.old) out.new.items ≡ out.old.items }
{
    append_comma(out, place)?;
    out.extend_from_slice(b"[")?;
    append_names(out, ontology, row)
}

/// Appends the rows of one query and the bracket after them. What stood before stays, also on an
/// error.
fn append_rows(out: &mut Vec<u8>, ontology: &Ontology, rows: &Tuples) -> Result<(), Memory>
    requires { AreNamed ontology.now rows.now.rows }
    ensures ok { OnOk result (out.new.items ≡ out.old.items
        ++ items_text false (items_of (map (tuple_data ontology.now.individuals) rows.now.rows))) }
    ensures kept { take (vec_len out.old) out.new.items ≡ out.old.items }
{
    individuals_are_spelled(ontology);
    for place in 0..rows.len() {
        append_next_row(out, place, ontology, rows.row(place))?;
    }
    out.extend_from_slice(b"]")
}

/// Appends the member that tells a size, where there is one, with a comma after it.
fn append_size(out: &mut Vec<u8>, size: Option<u64>) -> Result<(), Memory>
    ensures ok { OnOk result (out.new.items ≡ out.old.items ++ size_text size) }
    ensures kept { take (vec_len out.old) out.new.items ≡ out.old.items }
{
    match size {
        Some(size) => {
            out.extend_from_slice(b"\"kept\":")?;
            append_number(out, size)?;
            out.extend_from_slice(b",")
        }
        None => Ok(()),
    }
}

/// Appends the members of a query's object before its tuples. What stood before stays, also on an
/// error.
fn append_query_start(out: &mut Vec<u8>, query: &[u8], size: Option<u64>) -> Result<(), Memory>
    requires { IsName query.now }
    ensures ok { OnOk result (out.new.items ≡ out.old.items ++ ((codes "{" ++ size_text size)
        ++ (codes "\"query\":" ++ value_text (string query.now)))) }
    ensures kept { take (vec_len out.old) out.new.items ≡ out.old.items }
{
    out.extend_from_slice(b"{")?;
    append_size(out, size)?;
    out.extend_from_slice(b"\"query\":")?;
    append_name(out, query)
}

/// Appends the answers of one query as an object. What stood before stays, also on an error.
fn append_query(
    out: &mut Vec<u8>,
    query: &[u8],
    size: Option<u64>,
    ontology: &Ontology,
    rows: &Tuples,
) -> Result<(), Memory>
    requires spelled { IsName query.now }
    requires named { AreNamed ontology.now rows.now.rows }
    ensures ok { OnOk result (out.new.items ≡ out.old.items
        ++ value_text (query_data ontology.now.individuals query.now size rows.now.rows)) }
    ensures kept { take (vec_len out.old) out.new.items ≡ out.old.items }
{
    append_query_start(out, query, size)?;
    out.extend_from_slice(b",\"tuples\":[")?;
    append_rows(out, ontology, rows)?;
    out.extend_from_slice(b"}")
}

/// The size of the query with this place, where sizes are told.
pub fn size_of(kept: &Option<Items<u64>>, place: usize) -> Option<u64>
    ensures { result ≡ size_at kept.now place }
{
    match kept {
        Some(sizes) => sizes.as_slice().get(place).copied(),
        None => None,
    }
}

/// Appends the object at the place of the list of queries. What stood before stays, also on an
/// error.
fn append_next_query(
    out: &mut Vec<u8>,
    place: usize,
    query: &[u8],
    size: Option<u64>,
    ontology: &Ontology,
    rows: &Tuples,
) -> Result<(), Memory>
    requires spelled { IsName query.now }
    requires named { AreNamed ontology.now rows.now.rows }
    ensures ok { OnOk result (out.new.items ≡ out.old.items ++ (comma_if (nat_lt 0 place)
        ++ value_text (query_data ontology.now.individuals query.now size rows.now.rows))) }
    ensures kept { take (vec_len out.old) out.new.items ≡ out.old.items }
{
    append_comma(out, place)?;
    append_query(out, query, size, ontology, rows)
}

/// Appends the objects of the queries and the bracket after them. What stood before stays, also on
/// an error.
fn append_queries(
    out: &mut Vec<u8>,
    ontology: &Ontology,
    queries: &[Query],
    kept: &Option<Items<u64>>,
    answers: &[Tuples],
) -> Result<(), Memory>
    requires answered { AreAnswered ontology.now queries.now kept.now answers.now }
    requires spelled { AreSpelled queries.now }
    ensures ok { OnOk result (out.new.items ≡ out.old.items ++ items_text false
        (items_of (queries_data ontology.now.individuals queries.now kept.now 0 answers.now))) }
    ensures kept { take (vec_len out.old) out.new.items ≡ out.old.items }
{
    for place in 0..answers.len() {
        let query = queries[place].name().bytes();
        let size = size_of(kept, place);
        append_next_query(out, place, query, size, ontology, &answers[place])?;
    }
    out.extend_from_slice(b"]")
}

/// Appends the object of an accepted snapshot, with its newline. What stood before stays, also on
/// an error.
pub fn append_accepted_object(
    out: &mut Vec<u8>,
    line: u64,
    number: u64,
    ontology: &Ontology,
    queries: &[Query],
    kept: &Option<Items<u64>>,
    answers: &[Tuples],
) -> Result<(), Memory>
    requires answered { AreAnswered ontology.now queries.now kept.now answers.now }
    requires spelled { AreSpelled queries.now }
    ensures ok { OnOk result (out.new.items ≡ out.old.items ++ object_line
        (accepted_data line number
        (answers_data ontology.now.individuals queries.now kept.now answers.now))) }
    ensures kept { take (vec_len out.old) out.new.items ≡ out.old.items }
{
    append_counted(out, b"{\"accepted\":", number)?;
    out.extend_from_slice(b",\"answers\":[")?;
    append_queries(out, ontology, queries, kept, answers)?;
    append_counted(out, b",\"line\":", line)?;
    out.extend_from_slice(b"}\n")
}

/// Appends a cause's word and the end of the object. What stood before stays, also on an error.
fn append_word(out: &mut Vec<u8>, word: &[u8]) -> Result<(), Memory>
    requires { IsVerbatim word.now }
    ensures ok { OnOk result (out.new.items ≡ out.old.items
        ++ (codes ",\"refused\":" ++ (value_text (string word.now) ++ codes "}\n"))) }
    ensures kept { take (vec_len out.old) out.new.items ≡ out.old.items }
{
    out.extend_from_slice(b",\"refused\":")?;
    append_string(out, word)?;
    out.extend_from_slice(b"}\n")
}

/// Appends the object of a refusal that has a word alone. What stood before stays, also on an
/// error.
fn append_plain(out: &mut Vec<u8>, line: u64, word: &[u8]) -> Result<(), Memory>
    requires { IsVerbatim word.now }
    ensures ok { OnOk result
        (out.new.items ≡ out.old.items ++ object_line (plain_data line word.now)) }
    ensures kept { take (vec_len out.old) out.new.items ≡ out.old.items }
{
    append_counted(out, b"{\"line\":", line)?;
    append_word(out, word)
}

/// Appends the object of a refusal for a name. What stood before stays, also on an error.
fn append_named(out: &mut Vec<u8>, line: u64, name: &[u8], word: &[u8]) -> Result<(), Memory>
    requires name { IsName name.now }
    requires word { IsVerbatim word.now }
    ensures ok { OnOk result
        (out.new.items ≡ out.old.items ++ object_line (named_data line name.now word.now)) }
    ensures kept { take (vec_len out.old) out.new.items ≡ out.old.items }
{
    append_counted(out, b"{\"line\":", line)?;
    out.extend_from_slice(b",\"name\":")?;
    append_name(out, name)?;
    append_word(out, word)
}

/// Appends the object of a refusal for a clash. What stood before stays, also on an error.
fn append_clash(out: &mut Vec<u8>, line: u64, clash: u64, word: &[u8]) -> Result<(), Memory>
    requires { IsVerbatim word.now }
    ensures ok { OnOk result
        (out.new.items ≡ out.old.items ++ object_line (clash_data line clash word.now)) }
    ensures kept { take (vec_len out.old) out.new.items ≡ out.old.items }
{
    append_counted(out, b"{\"clash\":", clash)?;
    append_counted(out, b",\"line\":", line)?;
    append_word(out, word)
}

/// Appends the members of a refusal that are the line and the word. What stood before stays, also
/// on an error.
fn append_refused_word(out: &mut Vec<u8>, line: u64, word: &[u8]) -> Result<(), Memory>
    requires { IsVerbatim word.now }
    ensures ok { OnOk result (out.new.items ≡ out.old.items ++ ((codes "{\"line\":" ++ decimal line)
        ++ (codes ",\"refused\":" ++ value_text (string word.now)))) }
    ensures kept { take (vec_len out.old) out.new.items ≡ out.old.items }
{
    append_counted(out, b"{\"line\":", line)?;
    out.extend_from_slice(b",\"refused\":")?;
    append_string(out, word)
}

/// Appends so many units and the end of the object. What stood before stays, also on an error.
fn append_units(out: &mut Vec<u8>, total: u128) -> Result<(), Memory>
    ensures ok { OnOk result (out.new.items ≡ out.old.items
        ++ (codes ",\"units\":" ++ (value_text (string (decimal total)) ++ codes "}\n"))) }
    ensures kept { take (vec_len out.old) out.new.items ≡ out.old.items }
{
    out.extend_from_slice(b",\"units\":")?;
    append_digits(out, total)?;
    out.extend_from_slice(b"}\n")
}

/// Appends the object of a refusal for so many units. What stood before stays, also on an error.
fn append_large(out: &mut Vec<u8>, line: u64, total: u128, word: &[u8]) -> Result<(), Memory>
    requires { IsVerbatim word.now }
    ensures ok { OnOk result
        (out.new.items ≡ out.old.items ++ object_line (large_data line total word.now)) }
    ensures kept { take (vec_len out.old) out.new.items ≡ out.old.items }
{
    append_refused_word(out, line, word)?;
    append_units(out, total)
}

/// Appends the object of a name that was declared, with its newline. What stood before stays, also
/// on an error.
pub fn append_declared_object(out: &mut Vec<u8>, line: u64, name: &[u8]) -> Result<(), Memory>
    requires { IsName name.now }
    ensures ok { OnOk result
        (out.new.items ≡ out.old.items ++ object_line (declared_data line name.now)) }
    ensures kept { take (vec_len out.old) out.new.items ≡ out.old.items }
{
    out.extend_from_slice(b"{\"declared\":")?;
    append_name(out, name)?;
    append_counted(out, b",\"line\":", line)?;
    out.extend_from_slice(b"}\n")
}

/// Appends the object of a refusal. What stood before stays, also on an error.
#[tactic(auto, unfolding(crate::specs::Objects::refused_data))]
pub fn append_refused_object(out: &mut Vec<u8>, line: u64, cause: &Cause) -> Result<(), Memory>
    requires { IsSpelledCause cause.now }
    ensures ok { OnOk result
        (out.new.items ≡ out.old.items ++ object_line (refused_data line cause.now)) }
    ensures kept { take (vec_len out.old) out.new.items ≡ out.old.items }
{
    let word = word_of_cause(cause);
    match cause {
        Cause::TooLong => append_plain(out, line, word),
        Cause::Malformed => append_plain(out, line, word),
        Cause::Unknown(name) => append_named(out, line, name.bytes(), word),
        Cause::WrongKind(name) => append_named(out, line, name.bytes(), word),
        Cause::Undeclared(name) => append_named(out, line, name.bytes(), word),
        Cause::TooManyFacts => append_plain(out, line, word),
        Cause::Contradiction(clash) => append_clash(out, line, *clash as u64, word),
        Cause::Closed => append_plain(out, line, word),
        Cause::NameTwice(name) => append_named(out, line, name.bytes(), word),
        Cause::TooMany => append_plain(out, line, word),
        Cause::TooLarge(total) => append_large(out, line, *total, word),
    }
}

/// Appends the last object. What stood before stays, also on an error.
pub fn append_end_object(out: &mut Vec<u8>, accepted: u64, refused: u64) -> Result<(), Memory>
    ensures ok { OnOk result
        (out.new.items ≡ out.old.items ++ object_line (end_data accepted refused)) }
    ensures kept { take (vec_len out.old) out.new.items ≡ out.old.items }
{
    append_counted(out, b"{\"accepted\":", accepted)?;
    append_counted(out, b",\"end\":true,\"refused\":", refused)?;
    out.extend_from_slice(b"}\n")
}
