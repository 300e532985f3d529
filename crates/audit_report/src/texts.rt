//! Pieces of lines.

ghost use Rattle.std.specs.Prelude.{◌≡◌, ◌++◌, ◌∷◌, [], OnOk, decimal};
ghost use Rattle.report_text.specs.Names.{IsNamed};
ghost use Rattle.report_text.specs.Lines.{row_text, refused_text, two_text};

use dl_syntax::{IndId, Kind, Memory, Ontology};
use itoa::Buffer;
use report_text::Cause;
use std::alloc::Global;

/// Appends the decimal digits of a number.
pub fn append_number(out: &mut Vec<u8>, number: u64) -> Result<(), Memory>
    ensures ok { OnOk result (out.new.items ≡ out.old.items ++ decimal number) }
{
    let mut buffer = Buffer::new();
    out.extend_from_slice(buffer.format(number).as_bytes())
}

/// Appends the names of a row, each after a space.
pub fn append_row(out: &mut Vec<u8>, ontology: &Ontology, row: &[IndId]) -> Result<(), Memory>
    requires { IsNamed ontology.now row.now }
    ensures ok { OnOk result (out.new.items ≡ out.old.items
        ++ row_text ontology.now.individuals row.now) }
{
    for individual in row {
        out.push(b' ')?;
        out.extend_from_slice(ontology.name(Kind::Individual, individual.0))?;
    }
    Ok(())
}

/// Appends a word and two numbers after words.
pub fn append_two(
    out: &mut Vec<u8>,
    before: &[u8],
    first: u64,
    between: &[u8],
    second: u64,
) -> Result<(), Memory>
    ensures ok { OnOk result (out.new.items ≡ out.old.items
        ++ two_text before.now first between.now second) }
{
    out.extend_from_slice(before)?;
    append_number(out, first)?;
    out.extend_from_slice(between)?;
    append_number(out, second)?;
    out.extend_from_slice(b"\n")
}
