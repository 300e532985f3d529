//! The reporter of mixed streams.

ghost use Rattle.std.specs.Prelude.{◌≡◌, ◌++◌, ◌≤◌, ◌<◌, ◌+◌, ◌^◌, Some, OnOk, length, replicate};
ghost use Rattle.report_text.specs.Names.{AreSpelled};
ghost use Rattle.stream_report.specs.Ends.{StreamEnds};
ghost use Rattle.stream_report.specs.Outside.{ports_of};
ghost use Rattle.monitor_core.specs.Setting.{Setting};
ghost use Rattle.monitor_core.specs.Standing.{Stands, no_history, setting_of};
ghost use Rattle.monitor_core.specs.Exchanging.{setting_under, watched_of};
ghost use Rattle.many_streams.specs.Streams.{AreStreams, no_streams, number_of};
ghost use Rattle.marked_lines.specs.Marks.{to_stream, marked_in};
ghost use Rattle.marked_lines.specs.Mixing.{Mixed, unmixed};
ghost use Rattle.marked_lines.specs.Texts.{refusal_text, cause_text};
ghost use Rattle.watch_report.specs.Report.{Standing};
ghost use Rattle.watch_report.specs.Props.{facts};
ghost use Rattle.streams_report.specs.Report.{streaming};
ghost use Rattle.streams_report.specs.Streaming.{IsMixed, AreBelow, GoesOnMixed, RepliesMixed};
ghost use Rattle.streams_report.specs.Streaming.{ClosesOne, ClosesFirst, no_counts};

use crate::one_line::tell_one;
use dl_syntax::Memory;
use edge_io::{Sink, Source};
use many_streams::{EnterFault, StreamSet};
use marked_lines::{Mark, Owner, Unowned, append_end, append_marked, append_refusal, owner_of};
use monitor_core::Monitor;
use report_text::{Event, append_event};
use std::alloc::Global;
use stream_report::{Ending, GivenLine, Reporter, report_stream};
use watch_report::plain;

/// The most streams.
const STREAM_LIMIT: usize = 64;

/// How many lines a stream had, and how many of them were refused.
#[derive(Clone, Copy, Debug, PartialEq, Eq)]
pub struct Counts {
    pub lines: u64,
    pub refused: u64,
}

/// The streams, what is counted of each by its number, how many lines were refused that belong to
/// none, how many lines came, and room for what is told of a stream.
#[derive(Drop)]
struct Streamer {
    alloc: Global,
    set: StreamSet,
    counts: [Counts; STREAM_LIMIT],
    unowned: u64,
    lines: u64,
    alone: Vec<u8>,
    ghost are_spelled: { AreSpelled (setting_under set.watched).queries } by { Prim.hlevel facts },
    ghost few: { AreBelow lines counts unowned } by { Prim.hlevel facts },
}

impl Streamer {
    /// Before the first line there is no stream.
    fn new(alloc: Global, monitor: Monitor) -> Streamer
        requires stands { Stands monitor no_history }
        requires spelled { AreSpelled (setting_of monitor).queries }
        ensures set { result.set ≡ no_streams (watched_of monitor) }
        ensures counts { result.counts ≡ replicate 64 no_counts }
        ensures unowned { result.unowned ≡ 0 }
        ensures lines { result.lines ≡ 0 }
    {
        let none = Counts {
            lines: 0,
            refused: 0,
        };
        Streamer {
            alloc,
            set: StreamSet::new(alloc, monitor),
            counts: [none; STREAM_LIMIT],
            unowned: 0,
            lines: 0,
            alone: Vec::new(alloc),
        }
    }

    /// Refuses the line with this number, which belongs to no stream.
    fn refuse(
        &mut self,
        number: u64,
        cause: Unowned<'_>,
        gathered: &mut Vec<u8>,
    ) -> Result<(), Memory>
        requires few { self.old.lines < number }
        ensures set { self.new.set ≡ self.old.set }
        ensures counts { self.new.counts ≡ self.old.counts }
        ensures lines { OnOk result (self.new.lines ≡ number) }
        ensures unowned { OnOk result (self.new.unowned ≡ self.old.unowned + 1) }
        ensures text { OnOk result (gathered.new.items ≡ gathered.old.items
            ++ refusal_text number (cause_text cause.entry)) }
    {
        append_refusal(gathered, number, cause)?;
        self.unowned += 1;
        self.lines = number;
        Ok(())
    }

    /// Tells what the report of the stream gains by the line with this number.
    fn tell(
        &mut self,
        number: u64,
        stream: u16,
        mark: Mark<'_>,
        gathered: &mut Vec<u8>,
    ) -> Result<(), Memory>
        requires few { self.old.lines < number }
        requires stream { number_of self.old.set.names mark.name.now ≡ Some stream }
        requires small { stream < 64 }
        ensures watched { self.new.set.watched ≡ self.old.set.watched }
        ensures lines { OnOk result (self.new.lines ≡ number) }
        ensures unowned { self.new.unowned ≡ self.old.unowned }
        ensures ok { OnOk result ((mixed : Mixed Standing) →
            IsMixed self.old.set self.old.counts self.old.unowned mixed →
            GoesOnMixed self.new.set self.new.counts self.new.unowned mixed (marked_in mark.entry)
            gathered.old.items gathered.new.items) }
    {
        let place = stream as usize;
        let counts = self.counts[place];
        let lines = counts.lines + 1;
        self.alone.clear();
        let refused = tell_one(
            self.alloc,
            &mut self.set,
            place,
            lines,
            mark.rest,
            &mut self.alone,
        )?;
        append_marked(gathered, mark.name, self.alone.as_slice())?;
        let refused = counts.refused + refused;
        self.counts[place] = Counts { lines, refused };
        self.lines = number;
        Ok(())
    }

    /// Tells of a marked line.
    fn tell_marked(
        &mut self,
        number: u64,
        mark: Mark<'_>,
        gathered: &mut Vec<u8>,
    ) -> Result<(), Memory>
        requires few { self.old.lines < number }
        ensures watched { self.new.set.watched ≡ self.old.set.watched }
        ensures lines { OnOk result (self.new.lines ≡ number) }
        ensures ok { OnOk result ((mixed : Mixed Standing) →
            IsMixed self.old.set self.old.counts self.old.unowned mixed →
            RepliesMixed (setting_under self.old.set.watched) mixed
            (IsMixed self.new.set self.new.counts self.new.unowned) number
            (to_stream (marked_in mark.entry)) gathered.old.items gathered.new.items) }
    {
        match self.set.enter(mark.name) {
            Ok(stream) => self.tell(number, stream, mark, gathered),
            Err(EnterFault::TooManyStreams) => {
                self.refuse(number, Unowned::TooManyStreams(mark.name), gathered)
            }
            Err(EnterFault::Memory) => Err(Memory),
        }
    }
}

impl Streamer {
    /// Puts behind what was gathered what stands last of the stream.
    fn finish_one(&self, stream: u16, gathered: &mut Vec<u8>) -> Result<(), Memory>
        requires entered { stream < length self.now.set.names }
        requires sound { AreStreams self.now.set }
        ensures { OnOk result ((mixed : Mixed Standing) →
            IsMixed self.now.set self.now.counts self.now.unowned mixed →
            ClosesOne (setting_under self.now.set.watched) mixed.streams stream
            gathered.old.items gathered.new.items) }
    {
        let end = Event::End {
            accepted: self.set.accepted(stream),
            refused: self.counts[stream as usize].refused,
        };
        let mut told = Vec::new(self.alloc);
        append_event(
            &mut told,
            &end,
            plain().report,
            self.set.ontology(),
            self.set.queries(),
        )?;
        append_marked(gathered, self.set.name(stream), told.as_slice())
    }

    /// Puts behind what was gathered what stands last of each stream, in their order.
    fn finish_each(&self, gathered: &mut Vec<u8>) -> Result<(), Memory>
        ensures { OnOk result ((mixed : Mixed Standing) →
            IsMixed self.now.set self.now.counts self.now.unowned mixed →
            ClosesFirst (setting_under self.now.set.watched) (length mixed.streams) mixed.streams
            gathered.old.items gathered.new.items) }
    {
        let count = self.set.len() as u16;
        for stream in 0..count {
            self.finish_one(stream, gathered)?;
        }
        Ok(())
    }
}

impl Reporter for Streamer {
    ghost State = { Mixed Standing };

    ghost Task = { Setting };

    ghost manner = { streaming };

    ghost task = { λ streamer. setting_under streamer.set.watched };

    ghost stands = { λ streamer mixed.
        IsMixed streamer.set streamer.counts streamer.unowned mixed };

    ghost counted = { λ streamer. streamer.lines };

    fn open(&self, gathered: &mut Vec<u8>) -> Result<(), Memory> {
        Ok(())
    }

    fn report_line(
        &mut self,
        number: u64,
        line: GivenLine<'_>,
        gathered: &mut Vec<u8>,
    ) -> Result<(), Memory> {
        match owner_of(line) {
            Owner::Stream(mark) => self.tell_marked(number, mark, gathered),
            Owner::Skipped => Ok(()),
            Owner::NoStream => self.refuse(number, Unowned::NoStream, gathered),
            Owner::TooLong => self.refuse(number, Unowned::TooLong, gathered),
        }
    }

    fn finish(&self, gathered: &mut Vec<u8>) -> Result<(), Memory> {
        self.finish_each(gathered)?;
        append_end(gathered, self.set.len() as u64, self.unowned)
    }
}

/// Watches the streams whose lines the input has mixed, and writes their reports to `out`.
pub fn stream_mixed<Refusal, S: Source, K: Sink>(
    alloc: Global,
    monitor: Monitor,
    input: &mut S,
    out: &mut K,
) -> Ending<Refusal>
    requires stands { Stands monitor no_history }
    requires spelled { AreSpelled (setting_of monitor).queries }
    ensures ends { StreamEnds (streaming (setting_of monitor)) unmixed result
        (ports_of S.Source K.Sink input.old out.old)
        (ports_of S.Source K.Sink input.new out.new) }
{
    let mut streamer = Streamer::new(alloc, monitor);
    report_stream(alloc, &mut streamer, input, out)
}
