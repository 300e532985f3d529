//! Lines in JSON form.

ghost use Rattle.std.specs.Prelude.{◌≡◌, false, MatchResult};
ghost use Rattle.std.specs.Option.{option_map, option_map_or};
ghost use Rattle.std.specs.List.{list_all};
ghost use Rattle.dl_syntax.specs.Ontology.{Declared};
ghost use Rattle.serde_json.specs.View.{view, items_view};
ghost use Rattle.text_scan.specs.Bytes.{is_blank};
ghost use Rattle.snapshot_reader.specs.Written.{name_in, fact_in, facts_in, writes, malformed};
ghost use Rattle.snapshot_reader.specs.Written.{declaring, named_in, data_writes, json_writes};
ghost use Rattle.snapshot_reader.specs.Said.{line_says};
ghost use Rattle.snapshot_reader.specs.Answers.{Tells, HasValue, HasNoValue};
ghost use Rattle.snapshot_reader.specs.Cursor.{written_seen, name_seen};

use crate::facts::Written;
use crate::gathering::Gathered;
use crate::individuals::read_name;
use crate::plain_lines::gather_plain;
use crate::{Reading, SnapFault};
use dl_syntax::{Ontology, is_name};
use json::{Reader, Scratch};
use serde_json::Value;
use std::alloc::Global;

/// The name that a value is.
#[inline]
fn name_in(value: &Value) -> Option<&[u8]>
    ensures { name_seen result ≡ name_in (view value.now) }
{
    let text = value.as_str()?.as_bytes();
    if is_name(text) { Some(text) } else { None }
}

/// The fact that a value is.
#[inline]
fn fact_in(value: &Value) -> Option<Written<'_>>
    ensures { option_map written_seen result ≡ fact_in (view value.now) }
{
    match value.as_array()?.as_slice() {
        [predicate, argument] => Some(Written::Unary(name_in(predicate)?, name_in(argument)?)),
        [predicate, first, second] => Some(Written::Binary(
            name_in(predicate)?,
            name_in(first)?,
            name_in(second)?,
        )),
        _ => None,
    }
}

/// What a list of facts says.
fn read_list(alloc: Global, list: &[Value], ontology: &Ontology) -> Result<Reading, SnapFault>
    ensures { Tells result (line_says ontology.now
        (option_map_or writes (facts_in (items_view list.now)) malformed)) }
{
    let mut gathered = Gathered::new(alloc);
    for value in list {
        match fact_in(value) {
            Some(written) => gathered.gather(ontology, &written)?,
            None => return Err(SnapFault::Malformed),
        }
    }
    gathered.reading(alloc)
}

/// Whether the line has nothing to read.
fn is_blank_line(line: &[u8]) -> bool
    ensures { result ≡ list_all is_blank line.now }
{
    line.iter()
        .all(|byte| matches!(*byte, b' ' | b'\t' | b'\r' | b'\n'))
}

/// The value that a line is.
fn value_of(alloc: Global, line: &[u8]) -> Result<Value, SnapFault>
    ensures { MatchResult result (HasValue line.now) (HasNoValue line.now) }
{
    match Value::from_slice(alloc, line) {
        Ok(value) => Ok(value),
        Err(error) if error.is_memory() => Err(SnapFault::Memory),
        Err(_) => Err(SnapFault::Malformed),
    }
}

/// What an object without a member `facts` says.
fn read_named(alloc: Global, value: &Value) -> Result<Reading, SnapFault>
    ensures { (o : Declared) → Tells result
        (line_says o (option_map_or declaring (named_in (view value.now)) malformed)) }
{
    match value.get("individual").and_then(name_in) {
        Some(name) => read_name(alloc, name),
        None => Err(SnapFault::Malformed),
    }
}

/// What the value of a line says.
fn read_value(alloc: Global, value: &Value, ontology: &Ontology) -> Result<Reading, SnapFault>
    ensures { Tells result (line_says ontology.now (data_writes (view value.now))) }
{
    let Some(member) = value.get("facts") else {
        return read_named(alloc, value);
    };
    match member.as_array() {
        Some(list) => read_list(alloc, list.as_slice(), ontology),
        None => Err(SnapFault::Malformed),
    }
}

/// What a line says that has something to read, by the tree of its value.
fn read_tree(alloc: Global, line: &[u8], ontology: &Ontology) -> Result<Reading, SnapFault>
    requires { list_all is_blank line.now ≡ false }
    ensures { Tells result (line_says ontology.now (json_writes line.now)) }
{
    let value = match value_of(alloc, line) {
        Ok(value) => value,
        Err(fault) => return Err(fault),
    };
    read_value(alloc, &value, ontology)
}

/// What a line in JSON form says. A line of the usual form is read without its tree.
#[tactic(auto, unfolding(crate::specs::Written::json_writes))]
pub(crate) fn read_json(
    alloc: Global,
    line: &[u8],
    ontology: &Ontology,
) -> Result<Reading, SnapFault>
    ensures { Tells result (line_says ontology.now (json_writes line.now)) }
{
    if is_blank_line(line) {
        return Ok(Reading::Skip);
    }
    let Ok(text) = std::str::from_utf8(line) else {
        return Err(SnapFault::Malformed);
    };
    let mut scratch = Scratch::new(alloc);
    let Ok(mut reader) = Reader::new(text, &mut scratch) else {
        return Err(SnapFault::Memory);
    };
    match gather_plain(alloc, &mut reader, ontology)? {
        Some(gathered) => gathered.reading(alloc),
        None => read_tree(alloc, line, ontology),
    }
}
