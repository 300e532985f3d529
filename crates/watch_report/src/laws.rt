//! Laws of what is told of lines, and of reports, each the contract of a function with nothing to
//! do.
ghost use Rattle.watch_report.specs.CommonAnswers.{AnswersAreCommon};
ghost use Rattle.watch_report.specs.ReportLaws.{OneOutcome, OneLine, OneTold, ToldJoined};
ghost use Rattle.watch_report.specs.ReportLaws.{ToldParts, OneReport, OnePart, BeginsPart};
ghost use Rattle.watch_report.specs.ReportLaws.{BeginsWhole, CutShort, LimitIsExact, OneDrill};
ghost use Rattle.watch_report.specs.ReportLaws.{HistoriesGoOn, HistoriesAreTold, MonitorsTell};
ghost use Rattle.watch_report.specs.ReportLaws.{LinesRenumber};

/// The accepted snapshots are consistent, and after each of them exactly the rows are told for
/// which a query holds in every sequence of models of the accepted snapshots.
pub fn answers_are_common()
    ensures { AnswersAreCommon }
{}

/// A line has one outcome.
pub fn one_outcome()
    ensures { OneOutcome }
{}

/// The history after a line, and so after any lines, is one of the ontology and the queries.
pub fn histories_go_on()
    ensures line { HistoriesGoOn }
    ensures lines { HistoriesAreTold }
{}

/// One thing is told of a line.
pub fn one_line()
    ensures { OneLine }
{}

/// One text is told of the same lines.
pub fn one_told()
    ensures { OneTold }
{}

/// What is told of lines joined is what is told of the first and then of the others.
pub fn told_joined()
    ensures { ToldJoined }
{}

/// And nothing else.
pub fn told_parts()
    ensures { ToldParts }
{}

/// The report of the same lines is one text.
pub fn one_report()
    ensures { OneReport }
{}

/// So is the report of complete lines.
pub fn one_part()
    ensures { OnePart }
{}

/// A beginning of the report of the first lines is one of the report of all.
pub fn begins_part()
    ensures { BeginsPart }
{}

/// At the end of the input too.
pub fn begins_whole()
    ensures { BeginsWhole }
{}

/// What a run that was cut short wrote is a beginning of each report.
pub fn cut_short()
    ensures { CutShort }
{}

/// The loop of a watch ends at the limit exactly where more was taken and the report of the
/// complete lines was written, but for want of memory.
pub fn limit_is_exact()
    ensures { LimitIsExact }
{}

/// The drill of one seed and count is one text.
pub fn one_drill()
    ensures { OneDrill }
{}

/// A line is told alike after a history, wherever the stream begins, but for its number.
pub fn lines_renumber()
    ensures { LinesRenumber }
{}

/// What a watch by a monitor wrote, a watch wrote from each history that the monitor stands for.
pub fn monitors_tell()
    ensures { MonitorsTell }
{}
