//! What a line of an audit's input comes to.

ghost use Rattle.std.specs.Prelude.{◌≡◌, Err, IfOk};
ghost use Rattle.edge_io.specs.Lines.{Item as StreamLine};
ghost use Rattle.stream_report.specs.Told.{item_of};
ghost use Rattle.snapshot_reader.specs.Said.{Said, said};
ghost use Rattle.snapshot_reader.specs.ModelLines.{is_model_line, model_said};
ghost use Rattle.snapshot_reader.specs.Answers.{Tells};
ghost use Rattle.forms.specs.declared.StreamForm.TheVariants.{Text};
ghost use Rattle.audit_report.specs.Outcome.{outcome_of_snapshot, outcome_of_model};
ghost use Rattle.audit_report.specs.Outcome.{outcome_of_text, outcome_of, HasFewFacts, IsAwaited};

use dl_syntax::{Memory, Ontology, Snapshot};
use forms::StreamForm;
use report_text::Cause;
use snapshot_reader::{Reading, SnapFault, is_model_line, read_model, read_snapshot};
use std::alloc::Global;
use stream_report::GivenLine;

/// What a line comes to.
#[derive(Debug, Drop)]
pub enum Outcome {
    /// There is nothing to read.
    Skipped,
    Refused(Cause),
    /// A snapshot, which waits for its model.
    Waits(Snapshot),
    /// A model of the snapshot that waits, which is answered.
    Answered(Snapshot),
}

/// A refusal, unless memory ran out.
fn refusal(fault: SnapFault) -> Result<Outcome, Memory>
    ensures snapshot { IfOk result (λ outcome. (what : Said) → Tells (Err fault) what →
        outcome ≡ outcome_of_snapshot what) }
    ensures model { IfOk result (λ outcome. (what : Said) → Tells (Err fault) what →
        outcome ≡ outcome_of_model what) }
    ensures few { IfOk result HasFewFacts }
{
    match fault {
        SnapFault::Malformed => Ok(Outcome::Refused(Cause::Malformed)),
        SnapFault::Unknown(name) => Ok(Outcome::Refused(Cause::Unknown(name))),
        SnapFault::WrongKind(name) => Ok(Outcome::Refused(Cause::WrongKind(name))),
        SnapFault::Undeclared(name) => Ok(Outcome::Refused(Cause::Undeclared(name))),
        SnapFault::TooManyFacts => Ok(Outcome::Refused(Cause::TooManyFacts)),
        SnapFault::Memory => Err(Memory),
    }
}

/// What a line comes to that is no model line.
fn snapshot_outcome(alloc: Global, ontology: &Ontology, line: &[u8]) -> Result<Outcome, Memory>
    ensures outcome { IfOk result (λ outcome.
        outcome ≡ outcome_of_snapshot (said ontology.now Text line.now)) }
    ensures few { IfOk result HasFewFacts }
{
    match read_snapshot(alloc, line, StreamForm::Text, ontology) {
        Ok(Reading::Skip) => Ok(Outcome::Skipped),
        Ok(Reading::Individual(_name)) => Ok(Outcome::Refused(Cause::Malformed)),
        Ok(Reading::Facts(snapshot)) => Ok(Outcome::Waits(snapshot)),
        Err(fault) => refusal(fault),
    }
}

/// What a model line comes to where a snapshot waits.
fn model_outcome(alloc: Global, ontology: &Ontology, line: &[u8]) -> Result<Outcome, Memory>
    ensures outcome { IfOk result (λ outcome.
        outcome ≡ outcome_of_model (model_said ontology.now line.now)) }
    ensures few { IfOk result HasFewFacts }
{
    match read_model(alloc, line, ontology) {
        Ok(model) => Ok(Outcome::Answered(model)),
        Err(fault) => refusal(fault),
    }
}

/// What a text comes to.
fn text_outcome(
    alloc: Global,
    ontology: &Ontology,
    is_waiting: bool,
    line: &[u8],
) -> Result<Outcome, Memory>
    ensures outcome { IfOk result (λ outcome.
        outcome ≡ outcome_of_text ontology.now is_waiting line.now) }
    ensures few { IfOk result HasFewFacts }
{
    if !is_model_line(line) {
        return snapshot_outcome(alloc, ontology, line);
    }
    if is_waiting {
        model_outcome(alloc, ontology, line)
    } else {
        Ok(Outcome::Refused(Cause::Malformed))
    }
}

/// What a line comes to where a snapshot waits, or none does.
pub fn line_outcome(
    alloc: Global,
    ontology: &Ontology,
    is_waiting: bool,
    line: GivenLine<'_>,
) -> Result<Outcome, Memory>
    ensures outcome { IfOk result (λ outcome.
        outcome ≡ outcome_of ontology.now is_waiting (item_of line.entry)) }
    ensures few { IfOk result HasFewFacts }
    ensures awaited { IfOk result (IsAwaited is_waiting) }
{
    match line {
        GivenLine::Text(text) => text_outcome(alloc, ontology, is_waiting, text),
        GivenLine::TooLong => Ok(Outcome::Refused(Cause::TooLong)),
    }
}
