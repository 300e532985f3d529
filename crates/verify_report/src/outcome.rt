//! What a line comes to.

ghost use Rattle.std.specs.Prelude.{◌≡◌, ◌↔◌, Err, IfOk, IsTrue};
ghost use Rattle.edge_io.specs.Lines.{text};
ghost use Rattle.stream_report.specs.Told.{item_of};
ghost use Rattle.forms.specs.declared.StreamForm.TheVariants.{Text};
ghost use Rattle.snapshot_reader.specs.Said.{Said, said, nothing};
ghost use Rattle.snapshot_reader.specs.Answers.{Tells};
ghost use Rattle.run_proofs.specs.declared.proof.Goal.{Goal as GoalValue};
ghost use Rattle.run_proofs.specs.Words.{EndsWord};
ghost use Rattle.verify_report.specs.Stages.{AreFew, HasFew};
ghost use Rattle.verify_report.specs.Outcome.{HasFirstWord, IsPassedOver, outcome_of_goal};
ghost use Rattle.verify_report.specs.Outcome.{outcome_of_facts, outcome_of_step};
ghost use Rattle.verify_report.specs.Outcome.{outcome_of_ending, ComesOutside, ComesInSteps};
ghost use Rattle.verify_report.specs.Outcome.{ComesAtEnd, ComesTo, HasFewNow};
ghost use Rattle.verify_report.specs.Verifying.{task_of};

use crate::stage::Stage;
use dl_syntax::{Items, Memory, Ontology, Snapshot};
use forms::StreamForm;
use report_text::Cause;
use run_proofs::{
    Ending, Goal, Proof, ProofStep, read_ending, read_goal, read_step, rest_of, verify,
};
use snapshot_reader::{Reading, SnapFault, read_snapshot};
use std::alloc::Global;
use stream_report::GivenLine;
use tcq_syntax::Query;

/// The most steps that a proof has.
const MOST_STEPS: usize = 1_048_576;

/// What a line comes to.
#[derive(Debug, Drop)]
pub enum Outcome {
    /// Nothing is told, and so much of a proof was read.
    Goes(Stage),
    /// The line is refused, and a proof that was open is dropped.
    Refused(Cause),
    /// The line ends a proof, which shows its goal or doesn't.
    Answered(bool),
}

/// Whether a word ends before the text.
fn ends_word(rest: &[u8]) -> bool
    ensures { IsTrue result ↔ EndsWord rest.now }
{
    match rest {
        [] => true,
        [first, ..] => *first == b' ',
    }
}

/// Whether the first word of the line, up to a space, is this one.
fn has_first_word(line: &[u8], word: &[u8]) -> bool
    ensures { IsTrue result ↔ HasFirstWord word.now line.now }
{
    match rest_of(line, word) {
        Some(rest) => ends_word(rest),
        None => false,
    }
}

/// Whether the line has no tokens.
fn says_nothing(alloc: Global, ontology: &Ontology, line: &[u8]) -> Result<bool, Memory>
    ensures { IfOk result (λ yes. IsTrue yes ↔ (said ontology.now Text line.now ≡ nothing)) }
{
    match read_snapshot(alloc, line, StreamForm::Text, ontology) {
        Ok(Reading::Skip) => Ok(true),
        Err(SnapFault::Memory) => Err(Memory),
        _ => Ok(false),
    }
}

/// Whether the line is passed over outside proofs.
fn is_passed_over(alloc: Global, ontology: &Ontology, line: &[u8]) -> Result<bool, Memory>
    ensures { IfOk result (λ yes. IsTrue yes ↔ IsPassedOver ontology.now line.now) }
{
    if has_first_word(line, b"line") || has_first_word(line, b"end") {
        return Ok(true);
    }
    says_nothing(alloc, ontology, line)
}

/// What a line that isn't passed over comes to outside proofs, where it begins a proof of this
/// goal, or of none.
fn begun(goal: Option<Goal>) -> Outcome
    ensures outcome { result ≡ outcome_of_goal goal }
    ensures few { HasFewNow result }
{
    match goal {
        Some(goal) => Outcome::Goes(Stage::Begun(goal)),
        None => Outcome::Refused(Cause::Malformed),
    }
}

/// What a line comes to where no proof is open.
fn outside_outcome(
    alloc: Global,
    ontology: &Ontology,
    queries: &[Query],
    line: &[u8],
) -> Result<Outcome, Memory>
    ensures comes { IfOk result (ComesOutside ontology.now queries.now line.now) }
    ensures few { IfOk result HasFewNow }
{
    if is_passed_over(alloc, ontology, line)? {
        return Ok(Outcome::Goes(Stage::Outside));
    }
    let goal = read_goal(alloc, ontology, queries, line)?;
    Ok(begun(goal))
}

/// A refusal, unless memory ran out.
fn refusal(fault: SnapFault) -> Result<Outcome, Memory>
    ensures outcome { IfOk result (λ outcome. (goal : GoalValue) (what : Said) →
        Tells (Err fault) what → outcome ≡ outcome_of_facts goal what) }
    ensures few { IfOk result HasFewNow }
{
    match fault {
        SnapFault::Malformed => Ok(Outcome::Refused(Cause::Malformed)),
        SnapFault::Unknown(name) => Ok(Outcome::Refused(Cause::Unknown(name))),
        SnapFault::WrongKind(name) => Ok(Outcome::Refused(Cause::WrongKind(name))),
        SnapFault::Undeclared(name) => Ok(Outcome::Refused(Cause::Undeclared(name))),
        SnapFault::TooManyFacts => Ok(Outcome::Refused(Cause::TooManyFacts)),
        SnapFault::Memory => Err(Memory),
    }
}

/// What a line comes to where the facts come next.
fn facts_outcome(
    alloc: Global,
    ontology: &Ontology,
    goal: Goal,
    line: &[u8],
) -> Result<Outcome, Memory>
    ensures outcome { IfOk result (λ outcome.
        outcome ≡ outcome_of_facts goal (said ontology.now Text line.now)) }
    ensures few { IfOk result HasFewNow }
{
    match read_snapshot(alloc, line, StreamForm::Text, ontology) {
        Ok(Reading::Skip) => Ok(Outcome::Refused(Cause::Malformed)),
        Ok(Reading::Individual(_name)) => Ok(Outcome::Refused(Cause::Malformed)),
        Ok(Reading::Facts(facts)) => Ok(Outcome::Goes(Stage::Given {
            goal,
            facts,
            steps: Items::from_vec(Vec::new(alloc)),
        })),
        Err(fault) => refusal(fault),
    }
}

/// What the line of a step comes to where so many steps were read.
fn step_outcome(
    goal: Goal,
    facts: Snapshot,
    steps: Items<ProofStep>,
    step: ProofStep,
) -> Result<Outcome, Memory>
    requires { AreFew facts steps }
    ensures outcome { IfOk result (λ outcome. outcome ≡ outcome_of_step goal facts steps step) }
    ensures few { IfOk result HasFewNow }
{
    if steps.as_slice().len() >= MOST_STEPS {
        return Ok(Outcome::Refused(Cause::Malformed));
    }
    let mut all = steps.into_vec();
    all.push(step)?;
    let steps = Items::from_vec(all);
    Ok(Outcome::Goes(Stage::Given { goal, facts, steps }))
}

/// What a line that is no step's comes to, where it tells this ending, or none.
fn ended(goal: Goal, facts: Snapshot, steps: Items<ProofStep>, ending: Option<Ending>) -> Outcome
    requires { AreFew facts steps }
    ensures outcome { result ≡ outcome_of_ending goal facts steps ending }
    ensures few { HasFewNow result }
{
    match ending {
        Some(ending) => Outcome::Goes(Stage::Whole(Proof {
            facts,
            goal,
            steps,
            ending,
        })),
        None => Outcome::Refused(Cause::Malformed),
    }
}

/// What a line comes to where steps come next, or the ending.
fn steps_outcome(
    alloc: Global,
    ontology: &Ontology,
    goal: Goal,
    facts: Snapshot,
    steps: Items<ProofStep>,
    line: &[u8],
) -> Result<Outcome, Memory>
    requires { AreFew facts steps }
    ensures comes { IfOk result (ComesInSteps ontology.now goal facts steps line.now) }
    ensures few { IfOk result HasFewNow }
{
    match read_step(line) {
        Some(step) => step_outcome(goal, facts, steps, step),
        None => {
            let ending = read_ending(alloc, ontology, line)?;
            Ok(ended(goal, facts, steps, ending))
        }
    }
}

/// What a line comes to where the last line of the proof comes next.
fn end_outcome(
    alloc: Global,
    ontology: &Ontology,
    queries: &[Query],
    proof: &Proof,
    line: &[u8],
) -> Result<Outcome, Memory>
    requires { AreFew proof.now.facts proof.now.steps }
    ensures comes { IfOk result (ComesAtEnd ontology.now queries.now proof.now line.now) }
    ensures few { IfOk result HasFewNow }
{
    if line != b"end".as_slice() {
        return Ok(Outcome::Refused(Cause::Malformed));
    }
    let yes = verify(alloc, ontology, queries, proof)?;
    Ok(Outcome::Answered(yes))
}

/// What a text comes to.
fn text_outcome(
    alloc: Global,
    ontology: &Ontology,
    queries: &[Query],
    stage: Stage,
    line: &[u8],
) -> Result<Outcome, Memory>
    requires { HasFew stage }
    ensures comes { IfOk result (λ outcome. ComesTo (task_of ontology.now queries.now) stage
        (text line.now) outcome) }
    ensures few { IfOk result HasFewNow }
{
    match stage {
        Stage::Outside => outside_outcome(alloc, ontology, queries, line),
        Stage::Begun(goal) => facts_outcome(alloc, ontology, goal, line),
        Stage::Given { goal, facts, steps } => {
            steps_outcome(alloc, ontology, goal, facts, steps, line)
        }
        Stage::Whole(proof) => end_outcome(alloc, ontology, queries, &proof, line),
    }
}

/// What a line comes to where so much of a proof was read.
pub fn line_outcome(
    alloc: Global,
    ontology: &Ontology,
    queries: &[Query],
    stage: Stage,
    line: GivenLine<'_>,
) -> Result<Outcome, Memory>
    requires { HasFew stage }
    ensures comes { IfOk result (λ outcome. ComesTo (task_of ontology.now queries.now) stage
        (item_of line.entry) outcome) }
    ensures few { IfOk result HasFewNow }
{
    match line {
        GivenLine::Text(text) => text_outcome(alloc, ontology, queries, stage, text),
        GivenLine::TooLong => Ok(Outcome::Refused(Cause::TooLong)),
    }
}
