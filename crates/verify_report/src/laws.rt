//! Laws of the report, each the contract of a function with nothing to do.
ghost use Rattle.verify_report.specs.Laws.{OneLine, OneReport, OnePart, CutShort, YesHolds};
ghost use Rattle.verify_report.specs.Laws.{NoShowsNot, YesIsRead, ProofsAreTold};

/// One text is told of a line, and one standing comes after it.
pub fn one_line()
    ensures { OneLine }
{}

/// The report of the same lines is one text.
pub fn one_report()
    ensures { OneReport }
{}

/// So is the report of complete lines.
pub fn one_part()
    ensures { OnePart }
{}

/// What a run that was cut short wrote is a beginning of each report.
pub fn cut_short()
    ensures { CutShort }
{}

/// Yes is told of a whole proof alone whose goal holds, and no of one that doesn't show it.
pub fn yes_holds()
    ensures yes { YesHolds }
    ensures no { NoShowsNot }
{}

/// Where yes is told of a line, the lines up to it end with those of a proof whose goal holds of
/// the facts that its snapshot says.
pub fn yes_is_read()
    ensures { YesIsRead }
{}

/// Yes is told of the lines of each proof that shows its goal.
pub fn proofs_are_told()
    ensures { ProofsAreTold }
{}
