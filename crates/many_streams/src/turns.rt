//! States that take turns in one monitor.

ghost use Rattle.std.specs.Prelude.{◌≡◌, ◌<◌, Some, length, slice_get, slice_set};
ghost use Rattle.std.specs.List.{All};
ghost use Rattle.monitor_core.specs.Exchanging.{watched_of, FitsUnder};

use monitor_core::{Monitor, RestingState};

/// The state at the place and that of the monitor change places. It takes no memory.
pub fn take_turn(monitor: &mut Monitor, states: &mut Vec<RestingState>, place: usize)
    requires place { place < length states.old.items }
    requires fits { All (FitsUnder (watched_of monitor.old)) states.old.items }
    ensures watched { watched_of monitor.new ≡ watched_of monitor.old }
    ensures monitor { slice_get states.old.items place ≡ Some monitor.new.state }
    ensures states { states.new.items
        ≡ slice_set states.old.items place monitor.old.state }
    ensures fits { All (FitsUnder (watched_of monitor.old)) states.new.items }
{
    monitor.exchange(&mut states[place]);
}
