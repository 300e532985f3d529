//! Texts whose lines are marked, and the lines that belong to no stream.

ghost use Rattle.std.specs.Prelude.{◌≡◌, ◌++◌, OnOk, decimal};
ghost use Rattle.marked_lines.specs.Texts.{marked_line, marked, cause_text, refusal_text, end_text};

use dl_syntax::Memory;
use itoa::Buffer;
use text_scan::line_at;

/// Why a line belongs to no stream.
#[derive(Clone, Copy, Debug)]
pub enum Unowned<'a> {
    /// It has more bytes than a line may have.
    TooLong,
    /// It has no mark.
    NoStream,
    /// The stream of this name would be one too many.
    TooManyStreams(&'a [u8]),
}

/// Appends a line behind the mark of the name.
fn append_line(out: &mut Vec<u8>, name: &[u8], line: &[u8]) -> Result<(), Memory>
    ensures { OnOk result (out.new.items ≡ out.old.items ++ marked_line name.now line.now) }
{
    out.push(b'@')?;
    out.extend_from_slice(name)?;
    out.push(b' ')?;
    out.extend_from_slice(line)?;
    out.push(b'\n')?;
    Ok(())
}

/// Appends the text, with each line behind the mark of the name.
pub fn append_marked(out: &mut Vec<u8>, name: &[u8], text: &[u8]) -> Result<(), Memory>
    ensures { OnOk result (out.new.items ≡ out.old.items ++ marked name.now text.now) }
{
    let mut place = 0;
    while place < text.len() {
        let line = line_at(text, place);
        append_line(out, name, line)?;
        place += line.len() + 1;
    }
    Ok(())
}

/// Appends the decimal digits of a number.
fn append_number(out: &mut Vec<u8>, number: u64) -> Result<(), Memory>
    ensures { OnOk result (out.new.items ≡ out.old.items ++ decimal number) }
{
    let mut buffer = Buffer::new();
    out.extend_from_slice(buffer.format(number).as_bytes())
}

/// Appends why a line belongs to no stream.
fn append_cause(out: &mut Vec<u8>, cause: Unowned<'_>) -> Result<(), Memory>
    ensures { OnOk result (out.new.items ≡ out.old.items ++ cause_text cause.entry) }
{
    match cause {
        Unowned::TooLong => out.extend_from_slice(b"too-long"),
        Unowned::NoStream => out.extend_from_slice(b"no-stream"),
        Unowned::TooManyStreams(name) => {
            out.extend_from_slice(b"too-many-streams ")?;
            out.extend_from_slice(name)
        }
    }
}

/// Appends that the line with this number, in the whole input, belongs to no stream.
#[tactic(auto, unfolding(crate::specs::Texts::refusal_text))]
pub fn append_refusal(out: &mut Vec<u8>, number: u64, cause: Unowned<'_>) -> Result<(), Memory>
    ensures { OnOk result (out.new.items
        ≡ out.old.items ++ refusal_text number (cause_text cause.entry)) }
{
    out.extend_from_slice(b"line ")?;
    append_number(out, number)?;
    out.extend_from_slice(b" refused ")?;
    append_cause(out, cause)?;
    out.push(b'\n')?;
    Ok(())
}

/// Appends how many streams there were, and how many lines were refused that belong to none.
#[tactic(auto, unfolding(crate::specs::Texts::end_text))]
pub fn append_end(out: &mut Vec<u8>, streams: u64, refused: u64) -> Result<(), Memory>
    ensures { OnOk result (out.new.items ≡ out.old.items ++ end_text streams refused) }
{
    out.extend_from_slice(b"end streams ")?;
    append_number(out, streams)?;
    out.extend_from_slice(b" refused ")?;
    append_number(out, refused)?;
    out.push(b'\n')?;
    Ok(())
}
