//! What a line of the stream comes to.

ghost use Rattle.std.specs.Prelude.{◌≡◌, Err, IfOk};
ghost use Rattle.stream_report.specs.Told.{item_of};
ghost use Rattle.snapshot_reader.specs.Said.{Said, said};
ghost use Rattle.snapshot_reader.specs.Answers.{Tells};
ghost use Rattle.forms.specs.declared.StreamForm.TheVariants.{Text};
ghost use Rattle.explain_report.specs.declared.outcome.Outcome.TheVariants as outcomes;
ghost use Rattle.explain_report.specs.Outcome.{outcome_of_said, outcome_of, HasKnownFacts};

use dl_syntax::{Memory, Ontology, Snapshot};
use forms::StreamForm;
use report_text::Cause;
use snapshot_reader::{Reading, SnapFault, read_snapshot};
use std::alloc::Global;
use stream_report::GivenLine;

/// What a line comes to.
#[derive(Debug, Drop)]
pub enum Outcome {
    /// There is nothing to read.
    Skipped,
    Refused(Cause),
    /// The line says a snapshot.
    Says(Snapshot),
}

/// A refusal, unless memory ran out.
fn refusal(fault: SnapFault) -> Result<Cause, Memory>
    ensures { IfOk result (λ cause. (what : Said) → Tells (Err fault) what →
        outcomes.Refused cause ≡ outcome_of_said what) }
{
    match fault {
        SnapFault::Malformed => Ok(Cause::Malformed),
        SnapFault::Unknown(name) => Ok(Cause::Unknown(name)),
        SnapFault::WrongKind(name) => Ok(Cause::WrongKind(name)),
        SnapFault::Undeclared(name) => Ok(Cause::Undeclared(name)),
        SnapFault::TooManyFacts => Ok(Cause::TooManyFacts),
        SnapFault::Memory => Err(Memory),
    }
}

/// What a text comes to.
fn text_outcome(alloc: Global, ontology: &Ontology, line: &[u8]) -> Result<Outcome, Memory>
    ensures outcome { IfOk result (λ outcome.
        outcome ≡ outcome_of_said (said ontology.now Text line.now)) }
    ensures known { IfOk result (HasKnownFacts ontology.now) }
{
    match read_snapshot(alloc, line, StreamForm::Text, ontology) {
        Ok(Reading::Skip) => Ok(Outcome::Skipped),
        Ok(Reading::Individual(_name)) => Ok(Outcome::Refused(Cause::Malformed)),
        Ok(Reading::Facts(snapshot)) => Ok(Outcome::Says(snapshot)),
        Err(fault) => match refusal(fault) {
            Ok(cause) => Ok(Outcome::Refused(cause)),
            Err(fault) => Err(fault),
        },
    }
}

/// What a line comes to.
pub fn line_outcome(
    alloc: Global,
    ontology: &Ontology,
    line: GivenLine<'_>,
) -> Result<Outcome, Memory>
    ensures outcome { IfOk result (λ outcome.
        outcome ≡ outcome_of ontology.now (item_of line.entry)) }
    ensures known { IfOk result (HasKnownFacts ontology.now) }
{
    match line {
        GivenLine::Text(text) => text_outcome(alloc, ontology, text),
        GivenLine::TooLong => Ok(Outcome::Refused(Cause::TooLong)),
    }
}
