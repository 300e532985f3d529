//! The command `watch`.

ghost use Rattle.std.specs.Prelude.{◌≡◌, false};
ghost use Rattle.tcq_syntax.specs.Histories.{History, empty_history};
ghost use Rattle.report_text.specs.Names.{AreSpelled};
ghost use Rattle.monitor_core.specs.Standing.{setting_of, Stands};
ghost use Rattle.stream_report.specs.Ends.{StreamEnds, StreamedTo, HasFault};
ghost use Rattle.stream_report.specs.Outside.{ports_of, outside_of};
ghost use Rattle.job_sources.specs.FileNames.{file_names};
ghost use Rattle.watch_report.specs.declared.options.Options.{Options};
ghost use Rattle.watch_report.specs.Ends.{WatchEnds};
ghost use Rattle.watch_report.specs.Monitoring.{Watched, monitoring, watched_from};
ghost use Rattle.watch_report.specs.Report.{standing_at, start, watching};
ghost use Rattle.watch_report.specs.Props.{facts};
ghost use Rattle.watch_report.specs.Task.{task_of};

use crate::options::Options;
use crate::telling::{gather, tell};
use dl_syntax::Memory;
use edge_io::{Files, Sink, Source};
use job_sources::{Names, Refusal, open_files};
use monitor_core::Monitor;
use report_text::{Event, report_heading};
use std::alloc::Global;
use stream_report::{Ending, GivenLine, Reporter, report_stream};

/// A monitor that reports what it tells, and how many lines were refused so far.
#[derive(Drop)]
struct Watcher {
    alloc: Global,
    options: Options,
    monitor: Monitor,
    refused: u64,
    ghost are_spelled: { AreSpelled (setting_of monitor).queries } by { Prim.hlevel facts },
}

impl Reporter for Watcher {
    ghost State = { Watched };

    ghost Task = { Options };

    ghost manner = { monitoring };

    ghost task = { λ watcher. watcher.options };

    ghost stands = { λ watcher state.
        state ≡ record { monitor = watcher.monitor; refused = watcher.refused } };

    ghost counted = { λ watcher. watcher.refused };

    #[tactic(auto, unfolding(crate::specs::Report::heading_of))]
    fn open(&self, gathered: &mut Vec<u8>) -> Result<(), Memory> {
        gathered.extend_from_slice(report_heading(self.options.report))
    }

    fn report_line(
        &mut self,
        number: u64,
        line: GivenLine<'_>,
        gathered: &mut Vec<u8>,
    ) -> Result<(), Memory> {
        match tell(
            self.alloc,
            self.options,
            &mut self.monitor,
            number,
            line,
            gathered,
        ) {
            Ok(more) => {
                self.refused += more;
                Ok(())
            }
            Err(fault) => Err(fault),
        }
    }

    fn finish(&self, gathered: &mut Vec<u8>) -> Result<(), Memory> {
        let end = Event::End {
            accepted: self.monitor.count(),
            refused: self.refused,
        };
        gather(gathered, self.options, &self.monitor, &end)
    }
}

/// Watches the input to its end, and writes the report to `out`. What the monitor is then comes
/// back: where the whole report was written, it is the very monitor that told the last line.
pub fn watch<S: Source, K: Sink>(
    alloc: Global,
    options: Options,
    monitor: Monitor,
    input: &mut S,
    out: &mut K,
) -> (Ending<Refusal>, Monitor)
    requires { AreSpelled (setting_of monitor).queries }
    ensures ends { StreamedTo result.0 (monitoring options) (watched_from monitor)
        (λ after. after.monitor ≡ result.1)
        (ports_of S.Source K.Sink input.old out.old)
        (ports_of S.Source K.Sink input.new out.new) }
    ensures history { (history : History) → Stands monitor history →
        StreamedTo result.0 (watching (task_of options monitor)) (standing_at history)
        (λ after. Stands result.1 after.history)
        (ports_of S.Source K.Sink input.old out.old)
        (ports_of S.Source K.Sink input.new out.new) }
    ensures fault { HasFault result.0
        (ports_of S.Source K.Sink input.old out.old)
        (ports_of S.Source K.Sink input.new out.new) }
{
    let mut watcher = Watcher {
        alloc,
        options,
        monitor,
        refused: 0,
    };
    let ending = report_stream(alloc, &mut watcher, input, out);
    let Watcher { monitor, .. } = watcher;
    (ending, monitor)
}

/// Watches the input to its end by a monitor that has seen nothing.
fn watch_from_start<S: Source, K: Sink>(
    alloc: Global,
    options: Options,
    monitor: Monitor,
    input: &mut S,
    out: &mut K,
) -> Ending<Refusal>
    requires spelled { AreSpelled (setting_of monitor).queries }
    requires stands { Stands monitor (empty_history false) }
    ensures ends { StreamEnds
        (watching (record { setting = setting_of monitor; options = options })) start result
        (ports_of S.Source K.Sink input.old out.old)
        (ports_of S.Source K.Sink input.new out.new) }
{
    let (ending, _monitor) = watch(alloc, options, monitor, input, out);
    ending
}

/// Watches the stream by the files of these names.
pub fn watch_files<F: Files, S: Source, K: Sink>(
    alloc: Global,
    names: Names<'_>,
    options: Options,
    files: &mut F,
    input: &mut S,
    out: &mut K,
) -> Ending<Refusal>
    ensures ends { WatchEnds options (file_names names.entry) result
        (outside_of F.Files S.Source K.Sink files.old input.old out.old)
        (outside_of F.Files S.Source K.Sink files.new input.new out.new) }
{
    match open_files(alloc, files, names) {
        Ok(monitor) => watch_from_start(alloc, options, monitor, input, out),
        Err(ending) => ending,
    }
}
