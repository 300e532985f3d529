//! Laws of the definitions, each the contract of a function with nothing to do.
ghost use Rattle.stream_report.specs.Laws.{IsOneValued, IsTotal, HasOneText};
ghost use Rattle.stream_report.specs.Laws.{ToldJoined, ToldParts, OneTold};
ghost use Rattle.stream_report.specs.Laws.{OneReport, OnePart, BeginsAll, BeginsWhole};
ghost use Rattle.stream_report.specs.Laws.{CutShort, CutShortOfSome, LimitIsExact};

use crate::Reporter;

/// What is told of lines joined is what is told of the first and then of the others.
pub fn told_joined<R: Reporter>()
    ensures { (task : R.Task) → ToldJoined (R.manner task).step }
{}

/// Nothing else is told of lines joined.
pub fn told_parts<R: Reporter>()
    ensures { (task : R.Task) → ToldParts (R.manner task).step }
{}

/// Where the step gives one text, one text is told of the same lines.
pub fn one_told<R: Reporter>()
    ensures { (task : R.Task) → IsOneValued (R.manner task).step → OneTold (R.manner task).step }
{}

/// So the report of the same lines is one text.
pub fn one_report<R: Reporter>()
    ensures { (task : R.Task) → HasOneText (R.manner task) → OneReport (R.manner task) }
{}

/// So is the report of their complete lines.
pub fn one_part<R: Reporter>()
    ensures { (task : R.Task) → HasOneText (R.manner task) → OnePart (R.manner task) }
{}

/// A beginning of the report of the first lines is one of the report of all.
pub fn begins_all<R: Reporter>()
    ensures { (task : R.Task) → HasOneText (R.manner task) → BeginsAll (R.manner task) }
{}

/// At the end of the input too.
pub fn begins_whole<R: Reporter>()
    ensures { (task : R.Task) → HasOneText (R.manner task) → BeginsWhole (R.manner task) }
{}

/// What a run that was cut short wrote is a beginning of it.
pub fn cut_short<R: Reporter>()
    ensures { (task : R.Task) → HasOneText (R.manner task) → CutShort (R.manner task) }
{}

/// Where the step may give several texts, it is a beginning of one of them.
pub fn cut_short_of_some<R: Reporter>()
    ensures { (task : R.Task) → IsTotal (R.manner task).step → CutShortOfSome (R.manner task) }
{}

/// A run ends at the limit exactly where more was taken and the report of the complete lines was
/// written, but for want of memory.
pub fn limit_is_exact<Refusal, R: Reporter>()
    ensures { (task : R.Task) → HasOneText (R.manner task) → LimitIsExact Refusal (R.manner task) }
{}
