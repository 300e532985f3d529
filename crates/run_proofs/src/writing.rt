//! The lines of a proof, written.

ghost use Rattle.std.specs.Prelude.{◌≡◌, ◌++◌, decimal, OnOk};
ghost use Rattle.run_proofs.specs.Texts.{pair_text, step_text, places_text, clash_text};

use crate::proof::ProofStep;
use dl_syntax::Memory;
use itoa::Buffer;

/// Appends the decimal digits of a number.
pub(crate) fn append_number(out: &mut Vec<u8>, number: u32) -> Result<(), Memory>
    ensures { OnOk result (out.new.items ≡ out.old.items ++ decimal number) }
{
    let mut buffer = Buffer::new();
    out.extend_from_slice(buffer.format(number).as_bytes())
}

/// Appends two numbers, separated by a space.
fn append_pair(out: &mut Vec<u8>, first: u32, second: u32) -> Result<(), Memory>
    ensures { OnOk result (out.new.items ≡ out.old.items ++ pair_text first second) }
{
    append_number(out, first)?;
    out.extend_from_slice(b" ")?;
    append_number(out, second)
}

/// Appends the line of a step, without its newline.
pub fn append_step(out: &mut Vec<u8>, step: &ProofStep) -> Result<(), Memory>
    ensures { OnOk result (out.new.items ≡ out.old.items ++ step_text step.now) }
{
    out.extend_from_slice(b"step ")?;
    append_pair(out, step.from, step.inclusion)
}

/// Appends the line of two places, without its newline.
pub fn append_places(out: &mut Vec<u8>, first: u32, second: u32) -> Result<(), Memory>
    ensures { OnOk result (out.new.items ≡ out.old.items ++ places_text first second) }
{
    out.extend_from_slice(b"at ")?;
    append_pair(out, first, second)
}

/// Appends the first line of a proof of a clash, without its newline.
pub fn append_clash(out: &mut Vec<u8>, number: u32) -> Result<(), Memory>
    ensures { OnOk result (out.new.items ≡ out.old.items ++ clash_text number) }
{
    out.extend_from_slice(b"proof clash ")?;
    append_number(out, number)
}
