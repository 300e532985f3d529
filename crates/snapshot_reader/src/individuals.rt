//! Names of individuals that lines declare.

ghost use Rattle.std.specs.Prelude.{◌≡◌, ◌≤◌, length};
ghost use Rattle.dl_syntax.specs.Ontology.{Declared};
ghost use Rattle.snapshot_reader.specs.Written.{is_reserved, declaring, individual_written};
ghost use Rattle.snapshot_reader.specs.Said.{line_says};
ghost use Rattle.snapshot_reader.specs.Answers.{Tells};
ghost use Rattle.snapshot_reader.specs.Cursor.{symbols_from};

use crate::facts::name_of;
use crate::{Reading, SnapFault};
use dl_syntax::Name;
use std::alloc::Global;
use text_scan::{Next, next_token};

/// Whether the text is a word that stands for no name of an ontology.
fn is_reserved(text: &[u8]) -> bool
    ensures { result ≡ is_reserved text.now }
{
    text == b"some".as_slice() || text == b"inv".as_slice()
}

/// What a line gives that declares an individual of this name.
pub(crate) fn read_name(alloc: Global, name: &[u8]) -> Result<Reading, SnapFault>
    ensures { (o : Declared) → Tells result (line_says o (declaring name.now)) }
{
    if is_reserved(name) {
        return Err(SnapFault::Malformed);
    }
    let name = Name::new(alloc, name)?;
    Ok(Reading::Individual(name))
}

/// What a line gives that declares an individual by what stands from a place on.
pub(crate) fn read_individual(alloc: Global, line: &[u8], from: usize) -> Result<Reading, SnapFault>
    requires { from ≤ length line.now }
    ensures { (o : Declared) → Tells result
        (line_says o (individual_written (symbols_from line.now from))) }
{
    let Some((name, end)) = name_of(line, from) else {
        return Err(SnapFault::Malformed);
    };
    match next_token(line, end) {
        Next::Token(_) => Err(SnapFault::Malformed),
        Next::Fault(_) => Err(SnapFault::Malformed),
        Next::End => read_name(alloc, name),
    }
}
