//! What the report of one stream tells of a line.

ghost use Rattle.std.specs.Prelude.{◌≡◌, ◌<◌, ◌≤◌, Some, length, slice_get, IfOk};
ghost use Rattle.report_text.specs.Names.{AreSpelled};
ghost use Rattle.monitor_core.specs.declared.state.State.{State};
ghost use Rattle.monitor_core.specs.Exchanging.{StandsUnder, setting_under};
ghost use Rattle.watch_report.specs.Report.{Standing};
ghost use Rattle.streams_report.specs.Streaming.{TellsOne};

use dl_syntax::Memory;
use many_streams::{StreamSet, take_turn};
use std::alloc::Global;
use stream_report::GivenLine;
use watch_report::{plain, tell};

/// Gathers what the report of the stream at the place tells of its line with this number, and
/// answers how many lines were refused. The other streams stay.
pub fn tell_one(
    alloc: Global,
    set: &mut StreamSet,
    place: usize,
    number: u64,
    line: &[u8],
    gathered: &mut Vec<u8>,
) -> Result<u64, Memory>
    requires place { place < length set.old.names }
    requires spelled { AreSpelled (setting_under set.old.watched).queries }
    ensures watched { set.new.watched ≡ set.old.watched }
    ensures names { set.new.names ≡ set.old.names }
    ensures small { IfOk result (λ refused. refused ≤ 1) }
    ensures ok { IfOk result (λ refused. (state : State) (standing : Standing) →
        slice_get set.old.states place ≡ Some state →
        StandsUnder set.old.watched state standing.history →
        TellsOne set.old set.new place number line.now gathered.old.items gathered.new.items
        refused standing) }
{
    take_turn(&mut set.monitor, &mut set.states, place);
    let line = GivenLine::Text(line);
    let told = tell(alloc, plain(), &mut set.monitor, number, line, gathered);
    take_turn(&mut set.monitor, &mut set.states, place);
    told
}
