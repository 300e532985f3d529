//! What is told last of a stream.

ghost use Rattle.std.specs.Prelude.{◌≡◌, ◌++◌, ◌≤◌, ◌^◌, false, OnOk, length};
ghost use Rattle.tcq_syntax.specs.Histories.{History, empty_history};
ghost use Rattle.report_text.specs.Names.{AreSpelled};
ghost use Rattle.monitor_core.specs.Standing.{setting_of, Stands};
ghost use Rattle.stream_report.specs.Ends.{TextEnds};
ghost use Rattle.stream_report.specs.Outside.{SourceTold, sink_told};
ghost use Rattle.watch_report.specs.Drill.{Rehearsed, plain, rehearsing, IsDrill};
ghost use Rattle.watch_report.specs.Replies.{HasNamesOf, told_by};
ghost use Rattle.watch_report.specs.Report.{bytes_of};
ghost use Rattle.watch_report.specs.Props.{facts};
ghost use Rattle.watch_report.specs.Task.{Task, task_of};

use crate::options::Options;
use crate::telling::{ask, gather, refusals};
use dl_syntax::Memory;
use edge_io::{PlainSource, Sink};
use forms::{LineForm, ReportForm, StreamForm};
use job_sources::Refusal;
use monitor_core::Monitor;
use report_text::Event;
use std::alloc::Global;
use stream_report::{Ending, GivenLine, Reporter, report_stream};

/// How many bytes a read takes.
const STEP: usize = 65_536;

/// A monitor, what it told last of a line, and how many lines were refused so far.
#[derive(Drop)]
struct Rehearser {
    alloc: Global,
    monitor: Monitor,
    last: Option<Event>,
    refused: u64,
    ghost are_spelled: { AreSpelled (setting_of monitor).queries } by { Prim.hlevel facts },
    ghost has_names: { HasNamesOf (setting_of monitor) last } by { Prim.hlevel facts },
}

/// All in text form, and no sizes.
pub fn plain() -> Options
    ensures { result ≡ plain }
{
    Options {
        form: StreamForm::Text,
        report: ReportForm::Lines(LineForm::Text),
        sizes: false,
    }
}

/// Gathers what is told last, if anything is.
fn gather_last(
    gathered: &mut Vec<u8>,
    monitor: &Monitor,
    last: &Option<Event>,
) -> Result<(), Memory>
    requires { HasNamesOf (setting_of monitor.now) last.now }
    ensures { OnOk result ((history : History) → Stands monitor.now history →
        gathered.new.items ≡ gathered.old.items
        ++ bytes_of (task_of plain monitor.now) history (told_by last.now)) }
{
    match last {
        None => Ok(()),
        Some(event) => gather(gathered, plain(), monitor, event),
    }
}

impl Reporter for Rehearser {
    ghost State = { Rehearsed };

    ghost Task = { Task };

    ghost manner = { rehearsing };

    ghost task = { λ rehearser. task_of plain rehearser.monitor };

    ghost stands = { λ rehearser state. Stands rehearser.monitor state.standing.history
        × (rehearser.refused ≡ state.standing.refused)
        × (told_by rehearser.last ≡ state.last) };

    ghost counted = { λ rehearser. rehearser.refused };

    fn open(&self, gathered: &mut Vec<u8>) -> Result<(), Memory> {
        Ok(())
    }

    fn report_line(
        &mut self,
        number: u64,
        line: GivenLine<'_>,
        gathered: &mut Vec<u8>,
    ) -> Result<(), Memory> {
        match ask(self.alloc, plain(), &mut self.monitor, number, line) {
            Ok(None) => Ok(()),
            Ok(Some(event)) => {
                self.refused += refusals(&event);
                self.last = Some(event);
                Ok(())
            }
            Err(fault) => Err(fault),
        }
    }

    fn finish(&self, gathered: &mut Vec<u8>) -> Result<(), Memory> {
        gather_last(gathered, &self.monitor, &self.last)?;
        let end = Event::End {
            accepted: self.monitor.count(),
            refused: self.refused,
        };
        gather(gathered, plain(), &self.monitor, &end)
    }
}

/// Lets the monitor take a stream, and writes what is told last, whatever the input is.
pub fn rehearse<K: Sink>(
    alloc: Global,
    monitor: Monitor,
    stream: Vec<u8>,
    out: &mut K,
) -> Ending<Refusal>
    requires spelled { AreSpelled (setting_of monitor).queries }
    requires stands { Stands monitor (empty_history false) }
    requires short { length stream.items ≤ 2 ^ 40 }
    ensures ends { (input : SourceTold) →
        TextEnds (IsDrill (setting_of monitor) stream.items) result
        (record { input = input; out = sink_told K.Sink out.old })
        (record { input = input; out = sink_told K.Sink out.new }) }
{
    let mut source = PlainSource::new(stream, STEP);
    let mut rehearser = Rehearser {
        alloc,
        monitor,
        last: None,
        refused: 0,
    };
    report_stream(alloc, &mut rehearser, &mut source, out)
}
