//! Laws of runs, each the contract of a function with nothing to do.
ghost use Rattle.monitor_run.specs.Laws.{Completeness, CommandCompleteness, DrillCompleteness};
ghost use Rattle.monitor_run.specs.Laws.{DrillLeaves, InputStays, UsageLeaves, RefusalLeaves};
ghost use Rattle.monitor_run.specs.Laws.{LimitComesExactly};

/// Where the words name files without a fault, the stream is within its limit and no count of
/// faults rose, a run is done with the whole report, or found no memory.
pub fn completeness()
    ensures { Completeness }
{}

/// Where the words name files without a fault, which the command takes and which reach no more than
/// they may, the input is within its limit and no count of faults rose, a command on files is done
/// with the whole text or report, or found no memory.
pub fn command_completeness()
    ensures { CommandCompleteness }
{}

/// Where what a drill makes reaches no more than it may and the output's count of faults didn't
/// rise, a drill is done with the whole text, or found no memory.
pub fn drill_completeness()
    ensures { DrillCompleteness }
{}

/// A drill leaves the files and the input as they were.
pub fn drill_leaves()
    ensures { DrillLeaves }
{}

/// A rewriting and a test of containment leave the input as it was.
pub fn input_stays()
    ensures { InputStays }
{}

/// Words of no command leave everything as it was.
pub fn usage_leaves()
    ensures { UsageLeaves }
{}

/// A run whose sources are refused leaves the files, the input and the output as they were.
pub fn refusal_leaves()
    ensures { RefusalLeaves }
{}

/// A watch ends at the stream's limit exactly where more was taken and the report of the complete
/// lines was written, but for want of memory.
pub fn limit_comes_exactly()
    ensures { LimitComesExactly }
{}
