//! Pieces of lines.

ghost use Rattle.std.specs.Prelude.{◌≡◌, ◌++◌, OnOk, decimal, true, false};
ghost use Rattle.verify_report.specs.Lines.{verdict_text, verdicts_text, end_text};

use dl_syntax::Memory;
use itoa::Buffer;

/// Appends the decimal digits of a number.
fn append_number(out: &mut Vec<u8>, number: u64) -> Result<(), Memory>
    ensures ok { OnOk result (out.new.items ≡ out.old.items ++ decimal number) }
{
    let mut buffer = Buffer::new();
    out.extend_from_slice(buffer.format(number).as_bytes())
}

/// Appends that the proof that ends with the line of this number shows its goal.
fn append_yes(out: &mut Vec<u8>, line: u64) -> Result<(), Memory>
    ensures ok { OnOk result (out.new.items ≡ out.old.items ++ verdict_text line true) }
{
    out.extend_from_slice(b"line ")?;
    append_number(out, line)?;
    out.extend_from_slice(b" yes\n")
}

/// Appends that it doesn't.
fn append_no(out: &mut Vec<u8>, line: u64) -> Result<(), Memory>
    ensures ok { OnOk result (out.new.items ≡ out.old.items ++ verdict_text line false) }
{
    out.extend_from_slice(b"line ")?;
    append_number(out, line)?;
    out.extend_from_slice(b" no\n")
}

/// Appends whether it does.
pub fn append_verdict(out: &mut Vec<u8>, line: u64, yes: bool) -> Result<(), Memory>
    ensures ok { OnOk result (out.new.items ≡ out.old.items ++ verdict_text line yes) }
{
    if yes {
        append_yes(out, line)
    } else {
        append_no(out, line)
    }
}

/// Appends how many proofs show their goals, and how many don't.
fn append_verdicts(out: &mut Vec<u8>, yes: u64, no: u64) -> Result<(), Memory>
    ensures ok { OnOk result (out.new.items ≡ out.old.items ++ verdicts_text yes no) }
{
    out.extend_from_slice(b"end yes ")?;
    append_number(out, yes)?;
    out.extend_from_slice(b" no ")?;
    append_number(out, no)
}

/// Appends that, and how many lines were refused.
pub fn append_end(out: &mut Vec<u8>, yes: u64, no: u64, refused: u64) -> Result<(), Memory>
    ensures ok { OnOk result (out.new.items ≡ out.old.items ++ end_text yes no refused) }
{
    append_verdicts(out, yes, no)?;
    out.extend_from_slice(b" refused ")?;
    append_number(out, refused)?;
    out.extend_from_slice(b"\n")
}
