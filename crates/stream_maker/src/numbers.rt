//! Words with a number behind them.

ghost use Rattle.std.specs.Prelude.{◌≡◌, ◌++◌, decimal, OnOk, take, vec_len};

use crate::Memory;
use itoa::Buffer;

/// Appends a word and the decimal digits of a number.
pub fn append_numbered(out: &mut Vec<u8>, word: &[u8], number: u32) -> Result<(), Memory>
    ensures ok { OnOk result (out.new.items ≡ out.old.items ++ word.now ++ decimal number) }
    ensures kept { take (vec_len out.old) out.new.items ≡ out.old.items }
{
    let mut buffer = Buffer::new();
    out.extend_from_slice(word)?;
    out.extend_from_slice(buffer.format(number).as_bytes())
}
