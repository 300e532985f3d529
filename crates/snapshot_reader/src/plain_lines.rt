//! A line of the usual form, read token by token. Its facts are lists of names, and each other
//! member is a text, a natural number, a truth value or null.
ghost use Rattle.std.specs.Prelude.{◌≡◌, ◌==◌, ◌∷◌, slice_index, List, true, IsTrue, IfSome, IfOk};
ghost use Rattle.std.specs.List.{All};
ghost use Rattle.json.specs.Token.{Token as SpecToken, string, end_array};
ghost use Rattle.serde_json.specs.Data.{Data, Num};
ghost use Rattle.serde_json.specs.Read.{number_of};
ghost use Rattle.std.specs.Prelude.{Some};
ghost use Rattle.snapshot_reader.specs.Written as spec;
ghost use Rattle.dl_syntax.specs.Names.{is_name};
ghost use Rattle.snapshot_reader.specs.Cursor.{written_seen};
ghost use Rattle.snapshot_reader.specs.Gathering.{Gathers};
ghost use Rattle.snapshot_reader.specs.Tokens.{fact_before, facts_before, IsSpelled, value_in};
ghost use Rattle.snapshot_reader.specs.Tokens.{Passed, IsPassed, members_before, stop_token};
ghost use Rattle.snapshot_reader.specs.Tokens.{GatheredAll};

use crate::blaming::FACT_LIMIT;
use crate::facts::Written;
use crate::gathering::Gathered;
use dl_syntax::{Memory, Ontology, is_name};
use fast_float::Numeral;
use json::{Reader, Token};
use std::alloc::Global;

/// The most members that are passed over.
const MEMBER_LIMIT: usize = 64;

/// The text of the next token, if it is a name.
#[inline]
fn next_name<'r>(reader: &mut Reader<'r>) -> Option<&'r [u8]>
    ensures { IfSome result (λ name. (reader.old ≡ string name.now ∷ reader.new)
        × (is_name name.now ≡ true)) }
{
    let Some(Token::String(text)) = reader.next() else {
        return None;
    };
    let text = text.as_bytes();
    if is_name(text) { Some(text) } else { None }
}

/// The fact that goes on behind `[`.
#[inline]
fn next_fact<'r>(reader: &mut Reader<'r>) -> Option<Written<'r>>
    ensures { IfSome result (λ written.
        (reader.old ≡ fact_before (written_seen written) reader.new)
        × IsSpelled (written_seen written)) }
{
    let predicate = next_name(reader)?;
    let first = next_name(reader)?;
    if reader.take_end_array() {
        return Some(Written::Unary(predicate, first));
    }
    let second = next_name(reader)?;
    if reader.take_end_array() {
        Some(Written::Binary(predicate, first, second))
    } else {
        None
    }
}

/// The facts of the list that goes on behind `[`.
fn next_facts<'r>(
    alloc: Global,
    reader: &mut Reader<'r>,
    ontology: &Ontology,
) -> Result<Option<Gathered<'r>>, Memory>
    ensures { IfOk result (λ found. IfSome found (λ gathered.
        (facts : List spec.Written) × (reader.old ≡ facts_before facts (end_array ∷ reader.new))
        × All IsSpelled facts × Gathers ontology.now facts gathered)) }
{
    let mut gathered = Gathered::new(alloc);
    for _ in 0..=FACT_LIMIT {
        match reader.next() {
            Some(Token::BeginArray) => {
                let Some(written) = next_fact(reader) else {
                    return Ok(None);
                };
                gathered.gather(ontology, &written)?;
            }
            Some(Token::EndArray) => return Ok(Some(gathered)),
            _ => return Ok(None),
        }
    }
    Ok(None)
}

/// Whether the first byte is a minus sign.
fn has_minus(digits: &[u8]) -> bool
    ensures { result ≡ (slice_index digits.now 0 == 45) }
{
    !digits.is_empty() && digits[0] == b'-'
}

/// Whether the number is an integer from 0 on of at most 64 bits.
fn is_natural(number: &str) -> bool
    ensures { IsTrue result → (value : Num) × (number_of number.now ≡ Some value) }
{
    let digits = number.as_bytes();
    if has_minus(digits) {
        return false;
    }
    match Numeral::scan(digits).to_u64() {
        Some(_) => true,
        None => false,
    }
}

/// Whether the next token is a value by itself.
#[inline]
fn pass_value(reader: &mut Reader<'_>) -> bool
    ensures { IsTrue result → (token : SpecToken) × (meaning : Data)
        × (reader.old ≡ token ∷ reader.new) × (value_in token ≡ Some meaning) }
{
    match reader.next() {
        Some(Token::String(_)) => true,
        Some(Token::Number(number)) => is_natural(number),
        Some(Token::Bool(_)) => true,
        Some(Token::Null) => true,
        _ => false,
    }
}

/// Passes over members up to the facts or to the end of the object, and tells whether it is the
/// facts.
fn pass_members(reader: &mut Reader<'_>) -> Option<bool>
    ensures { IfSome result (λ at_facts. (members : List Passed)
        × (reader.old ≡ members_before members (stop_token at_facts ∷ reader.new))
        × All IsPassed members) }
{
    for _ in 0..MEMBER_LIMIT {
        match reader.next() {
            Some(Token::Key("facts")) => return Some(true),
            Some(Token::Key(_)) if pass_value(reader) => {}
            Some(Token::EndObject) => return Some(false),
            _ => return None,
        }
    }
    None
}

/// The facts of a line of the usual form.
pub(crate) fn gather_plain<'r>(
    alloc: Global,
    reader: &mut Reader<'r>,
    ontology: &Ontology,
) -> Result<Option<Gathered<'r>>, Memory>
    ensures { IfOk result (λ found. IfSome found
        (λ gathered. GatheredAll ontology.now reader.old gathered)) }
{
    let Some(Token::BeginObject) = reader.next() else {
        return Ok(None);
    };
    let Some(true) = pass_members(reader) else {
        return Ok(None);
    };
    let Some(Token::BeginArray) = reader.next() else {
        return Ok(None);
    };
    let Some(gathered) = next_facts(alloc, reader, ontology)? else {
        return Ok(None);
    };
    let Some(false) = pass_members(reader) else {
        return Ok(None);
    };
    match reader.next() {
        None => Ok(Some(gathered)),
        Some(_) => Ok(None),
    }
}
