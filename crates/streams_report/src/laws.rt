//! Laws of the report, each the contract of a function with nothing to do.
ghost use Rattle.streams_report.specs.Laws.{OneLine, OneReport, OnePart, CutShort, EachIsAlone};
ghost use Rattle.streams_report.specs.Laws.{OrderIsFree};

/// For each of the first 64 names, the lines behind its mark, without the mark, are the report of
/// the rests of its lines, watched alone with a closed history.
pub fn each_is_alone()
    ensures { EachIsAlone }
{}

/// So what is told of a stream doesn't depend on how its lines stand among those of others.
pub fn order_is_free()
    ensures { OrderIsFree }
{}

/// One text is told of a line, and one standing comes after it.
pub fn one_line()
    ensures { OneLine }
{}

/// The report of the same lines is one text.
pub fn one_report()
    ensures { OneReport }
{}

/// So is the report of complete lines.
pub fn one_part()
    ensures { OnePart }
{}

/// What a run that was cut short wrote is a beginning of each report.
pub fn cut_short()
    ensures { CutShort }
{}
