//! The reporter of a verification.

ghost use Rattle.std.specs.Prelude.{◌≡◌, ◌≤◌, ◌<◌, ◌+◌, ◌-◌, ◌^◌, OnOk};
ghost use Rattle.stream_report.specs.Ends.{StreamEnds};
ghost use Rattle.stream_report.specs.Outside.{ports_of};
ghost use Rattle.verify_report.specs.declared.stage.Stage.TheVariants.{Outside};
ghost use Rattle.verify_report.specs.declared.outcome.Outcome.TheVariants as outcomes;
ghost use Rattle.verify_report.specs.Stages.{HasFew};
ghost use Rattle.verify_report.specs.Outcome.{Task, HasFewNow};
ghost use Rattle.verify_report.specs.Props.{facts};
ghost use Rattle.verify_report.specs.Report.{Standing, start, verifying, with_verdict};
ghost use Rattle.verify_report.specs.Verifying.{task_of, standing_of, TellsReply};

use crate::outcome::{Outcome, line_outcome};
use crate::stage::Stage;
use crate::texts::{append_end, append_verdict};
use dl_syntax::{Memory, Ontology};
use edge_io::{Sink, Source};
use forms::LineForm;
use report_text::{Item, render_line};
use std::alloc::Global;
use std::mem;
use stream_report::{Ending, GivenLine, Reporter, report_stream};
use tcq_syntax::Query;

/// What proofs are verified against, how much was read of one, how many show their goals, how many
/// don't, and how many lines were refused.
#[derive(Drop)]
struct Verifier<'a> {
    alloc: Global,
    ontology: &'a Ontology,
    queries: &'a [Query],
    stage: Stage,
    yes: u64,
    no: u64,
    refused: u64,
    ghost few: { HasFew stage } by { Prim.hlevel facts },
}

impl<'a> Verifier<'a> {
    /// Counts a proof that was read to its end.
    fn count(&mut self, yes: bool)
        requires outside { self.old.stage ≡ Outside }
        requires few { self.old.yes + self.old.no + self.old.refused < 2 ^ 64 - 1 }
        ensures task { task_of self.new.ontology.now self.new.queries.now
            ≡ task_of self.old.ontology.now self.old.queries.now }
        ensures total { self.new.yes + self.new.no + self.new.refused
            ≡ self.old.yes + self.old.no + self.old.refused + 1 }
        ensures standing { standing_of self.new.stage self.new.yes self.new.no self.new.refused
            ≡ with_verdict yes
            (standing_of self.old.stage self.old.yes self.old.no self.old.refused) }
    {
        if yes {
            self.yes += 1;
        } else {
            self.no += 1;
        }
    }

    /// Tells the verdict on a proof.
    fn answer(&mut self, number: u64, yes: bool, gathered: &mut Vec<u8>) -> Result<(), Memory>
        requires outside { self.old.stage ≡ Outside }
        requires counted { self.old.yes + self.old.no + self.old.refused < number }
        ensures task { task_of self.new.ontology.now self.new.queries.now
            ≡ task_of self.old.ontology.now self.old.queries.now }
        ensures counted { OnOk result (self.new.yes + self.new.no + self.new.refused ≤ number) }
        ensures tells { OnOk result (TellsReply
            (standing_of self.old.stage self.old.yes self.old.no self.old.refused)
            (standing_of self.new.stage self.new.yes self.new.no self.new.refused)
            number (outcomes.Answered yes) gathered.old.items gathered.new.items) }
    {
        append_verdict(gathered, number, yes)?;
        self.count(yes);
        Ok(())
    }

    /// Tells what is told of the line with this number, and keeps what stays for the next one.
    fn reply(&mut self, number: u64, outcome: Outcome, gathered: &mut Vec<u8>) -> Result<(), Memory>
        requires few { HasFewNow outcome }
        requires outside { self.old.stage ≡ Outside }
        requires counted { self.old.yes + self.old.no + self.old.refused < number }
        ensures task { task_of self.new.ontology.now self.new.queries.now
            ≡ task_of self.old.ontology.now self.old.queries.now }
        ensures counted { OnOk result (self.new.yes + self.new.no + self.new.refused ≤ number) }
        ensures tells { OnOk result (TellsReply
            (standing_of self.old.stage self.old.yes self.old.no self.old.refused)
            (standing_of self.new.stage self.new.yes self.new.no self.new.refused)
            number outcome gathered.old.items gathered.new.items) }
    {
        match outcome {
            Outcome::Goes(stage) => {
                self.stage = stage;
                Ok(())
            }
            Outcome::Refused(cause) => {
                let item = Item::Refused {
                    line: number,
                    cause,
                };
                let line = render_line(
                    self.alloc,
                    &item,
                    LineForm::Text,
                    self.ontology,
                    self.queries,
                )?;
                gathered.extend_from_slice(line.as_slice())?;
                self.refused += 1;
                Ok(())
            }
            Outcome::Answered(yes) => self.answer(number, yes, gathered),
        }
    }
}

impl<'a> Reporter for Verifier<'a> {
    ghost State = { Standing };

    ghost Task = { Task };

    ghost manner = { verifying };

    ghost task = { λ verifier. task_of verifier.ontology.now verifier.queries.now };

    ghost stands = { λ verifier state.
        standing_of verifier.stage verifier.yes verifier.no verifier.refused ≡ state };

    ghost counted = { λ verifier. verifier.yes + verifier.no + verifier.refused };

    fn open(&self, gathered: &mut Vec<u8>) -> Result<(), Memory> {
        Ok(())
    }

    fn report_line(
        &mut self,
        number: u64,
        line: GivenLine<'_>,
        gathered: &mut Vec<u8>,
    ) -> Result<(), Memory> {
        let stage = mem::replace(&mut self.stage, Stage::Outside);
        match line_outcome(self.alloc, self.ontology, self.queries, stage, line) {
            Ok(outcome) => self.reply(number, outcome, gathered),
            Err(fault) => Err(fault),
        }
    }

    fn finish(&self, gathered: &mut Vec<u8>) -> Result<(), Memory> {
        append_end(gathered, self.yes, self.no, self.refused)
    }
}

/// Verifies the proofs of the input to its end, and writes to `out` which show their goals.
pub fn verify_stream<Refusal, S: Source, K: Sink>(
    alloc: Global,
    ontology: &Ontology,
    queries: &[Query],
    input: &mut S,
    out: &mut K,
) -> Ending<Refusal>
    ensures ends { StreamEnds
        (verifying (record { ontology = ontology.now; queries = queries.now })) start result
        (ports_of S.Source K.Sink input.old out.old)
        (ports_of S.Source K.Sink input.new out.new) }
{
    let mut verifier = Verifier {
        alloc,
        ontology,
        queries,
        stage: Stage::Outside,
        yes: 0,
        no: 0,
        refused: 0,
    };
    report_stream(alloc, &mut verifier, input, out)
}
