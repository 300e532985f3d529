//! The loop of every command that reads a stream.

ghost use Rattle.std.specs.Prelude.{◌≡◌, ◌≤◌, ◌<◌, ◌+◌, ◌^◌, ◌++◌, ℕ, Ok, OnOk, length};
ghost use Rattle.edge_io.specs.Causes.{Rose};
ghost use Rattle.edge_io.specs.Reading.{given_by, outcome_of_line};
ghost use Rattle.stream_report.specs.Ends.{Streamed, StreamedTo, Finishes, HasFault, ending_of};
ghost use Rattle.stream_report.specs.Outside.{ports_of};
ghost use Rattle.stream_report.specs.Told.{Tells};

use crate::writing::flush;
use crate::{Ending, GivenLine, Reporter};
use edge_io::{Line, LineReader, Memory, ReadEnd, Sink, Source, write_all};
use std::alloc::Global;

/// How many bytes a run takes at most, but for one.
const STREAM_LIMIT: u64 = 1 << 40;

/// Reads the input to its end, and writes what the reporter tells of it. Where it wrote all, the
/// reporter stands for the state behind the last line.
pub fn report_stream<Refusal, R: Reporter, S: Source, K: Sink>(
    alloc: Global,
    reporter: &mut R,
    input: &mut S,
    out: &mut K,
) -> Ending<Refusal>
    requires { R.counted reporter.old ≡ 0 }
    ensures ends { (first : R.State) → R.stands reporter.old first →
        Streamed result (R.manner (R.task reporter.old)) first
        (ports_of S.Source K.Sink input.old out.old)
        (ports_of S.Source K.Sink input.new out.new) }
    ensures stands { (first : R.State) → R.stands reporter.old first →
        StreamedTo result (R.manner (R.task reporter.old)) first (R.stands reporter.new)
        (ports_of S.Source K.Sink input.old out.old)
        (ports_of S.Source K.Sink input.new out.new) }
    ensures fault { HasFault result
        (ports_of S.Source K.Sink input.old out.old)
        (ports_of S.Source K.Sink input.new out.new) }
{
    let mut reader = match LineReader::new(alloc, STREAM_LIMIT) {
        Ok(reader) => reader,
        Err(_) => return Ending::Memory,
    };
    let mut gathered = Vec::new(alloc);
    if let Err(_) = reporter.open(&mut gathered) {
        return Ending::Memory;
    }
    let mut lines: u64 = 0;
    loop {
        let is_waiting = reader.is_waiting();
        if let Err(_) = flush(is_waiting, &mut gathered, out) {
            return Ending::WriteFault;
        }
        let line = match reader.next(input) {
            Ok(line) => line,
            Err(end) => return stopped(end),
        };
        if let Line::End = line {
            return finish(reporter, &mut gathered, out);
        }
        match report(reporter, lines + 1, line, &mut gathered) {
            Ok(()) => lines += 1,
            Err(_) => return Ending::Memory,
        }
    }
}

fn stopped<Refusal>(end: ReadEnd) -> Ending<Refusal>
    ensures { result ≡ ending_of end }
{
    match end {
        ReadEnd::ReadFault => Ending::ReadFault,
        ReadEnd::StreamLimit => Ending::StreamLimit,
    }
}

/// Reports a line, and nothing at the end.
fn report<R: Reporter>(
    reporter: &mut R,
    number: u64,
    line: Line<'_>,
    gathered: &mut Vec<u8>,
) -> Result<(), Memory>
    requires few { R.counted reporter.old < number }
    requires bound { number ≤ 2 ^ 40 + 2 }
    ensures task { R.task reporter.new ≡ R.task reporter.old }
    ensures counted { OnOk result (R.counted reporter.new ≤ number) }
    ensures tells { OnOk result ((state : R.State) → R.stands reporter.old state →
        Tells (R.manner (R.task reporter.old)) state (R.stands reporter.new) number
        (given_by (outcome_of_line (Ok line.entry))) gathered.old.items gathered.new.items) }
{
    match line {
        Line::Text(text) => reporter.report_line(number, GivenLine::Text(text), gathered),
        Line::TooLong => reporter.report_line(number, GivenLine::TooLong, gathered),
        Line::End => Ok(()),
    }
}

/// Writes what was gathered and what stands last.
fn finish<Refusal, R: Reporter, K: Sink>(
    reporter: &R,
    gathered: &mut Vec<u8>,
    out: &mut K,
) -> Ending<Refusal>
    ensures ends { (state : R.State) → R.stands reporter.now state →
        Finishes result (R.manner (R.task reporter.now)) state gathered.old.items
        (K.got out.old) (K.got out.new) }
    ensures later { K.faults out.old ≤ K.faults out.new }
    ensures write { result ≡ Ending.WriteFault → Rose (K.faults out.old) (K.faults out.new) }
    ensures read { result ≡ Ending.ReadFault → ⊥ }
{
    match reporter.finish(gathered) {
        Err(_) => Ending::Memory,
        Ok(()) => match write_all(out, gathered) {
            Ok(()) => Ending::Done,
            Err(_) => Ending::WriteFault,
        },
    }
}
