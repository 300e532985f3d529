//! Writing bytes to a sink.

ghost use Rattle.std.specs.Prelude.{◌≡◌};
ghost use Rattle.edge_io.specs.Causes.{HasCause, Rose};
ghost use Rattle.stream_report.specs.Ends.{Written};
ghost use Rattle.stream_report.specs.Writing.{Flushes};

use crate::Ending;
use edge_io::{Failed, Sink, write_all};

/// How many bytes are gathered before they are written.
const FULL: usize = 65_536;

/// Writes what was gathered, if the next line may have to be read, or if it is much.
pub fn flush<K: Sink>(is_waiting: bool, gathered: &mut Vec<u8>, out: &mut K) -> Result<(), Failed>
    ensures flushes { Flushes is_waiting (K.got out.old) (K.got out.new)
        gathered.old.items gathered.new.items result }
    ensures cause { HasCause (K.faults out.old) (K.faults out.new) result }
{
    if is_waiting || gathered.len() >= FULL {
        write_all(out, gathered)?;
        gathered.clear();
    }
    Ok(())
}

/// Writes a whole text.
pub fn write_text<Refusal, K: Sink>(out: &mut K, text: &[u8]) -> Ending<Refusal>
    ensures written { Written result text.now (K.got out.old) (K.got out.new) }
    ensures write { result ≡ Ending.WriteFault → Rose (K.faults out.old) (K.faults out.new) }
{
    match write_all(out, text) {
        Ok(()) => Ending::Done,
        Err(_) => Ending::WriteFault,
    }
}
