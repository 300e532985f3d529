//! The reporter of an audit.

ghost use Rattle.std.specs.Prelude.{◌≡◌, ◌≤◌, ◌<◌, ◌+◌, ◌^◌, OnOk, length, is_some, true};
ghost use Rattle.stream_report.specs.Ends.{StreamEnds};
ghost use Rattle.stream_report.specs.Outside.{ports_of};
ghost use Rattle.audit_report.specs.declared.outcome.Outcome.TheVariants as outcomes;
ghost use Rattle.audit_report.specs.Outcome.{HasFewFacts, IsAwaited};
ghost use Rattle.audit_report.specs.Props.{facts};
ghost use Rattle.audit_report.specs.Report.{Task, Standing, start, auditing, WaitsWithFew};
ghost use Rattle.audit_report.specs.Auditing.{task_of, standing_of, TellsReply};

use crate::finding_lines::append_audit;
use crate::outcome::{Outcome, line_outcome};
use crate::texts::append_two;
use dl_syntax::{Memory, Ontology, Snapshot};
use edge_io::{Sink, Source};
use forms::LineForm;
use model_audit::audit;
use report_text::{Item, render_line};
use std::alloc::Global;
use stream_report::{Ending, GivenLine, Reporter, report_stream};
use tcq_syntax::Query;

/// What models are audited against, the snapshot that waits for its model, how many model lines
/// were answered, and how many lines were refused.
#[derive(Drop)]
struct Auditor<'a> {
    alloc: Global,
    ontology: &'a Ontology,
    queries: &'a [Query],
    waiting: Option<Snapshot>,
    models: u64,
    refused: u64,
    ghost few: { WaitsWithFew waiting } by { Prim.hlevel facts },
}

impl<'a> Auditor<'a> {
    /// Tells what is found of the model for the snapshot that waits, and uses that up.
    fn answer(
        &mut self,
        number: u64,
        model: &Snapshot,
        gathered: &mut Vec<u8>,
    ) -> Result<(), Memory>
        requires few { length model.now ≤ 65536 }
        requires awaited { is_some self.old.waiting ≡ true }
        requires counted { self.old.models + self.old.refused < number }
        ensures task { task_of self.new.ontology.now self.new.queries.now
            ≡ task_of self.old.ontology.now self.old.queries.now }
        ensures counted { OnOk result (self.new.models + self.new.refused ≤ number) }
        ensures tells { OnOk result (TellsReply (task_of self.old.ontology.now self.old.queries.now)
            (standing_of self.old.waiting self.old.models self.old.refused)
            (standing_of self.new.waiting self.new.models self.new.refused) number
            (outcomes.Answered model.now) gathered.old.items gathered.new.items) }
    {
        let Some(snapshot) = self.waiting.take() else {
            return Ok(());
        };
        let found = audit(self.alloc, self.ontology, self.queries, &snapshot, model)?;
        append_audit(gathered, self.ontology, self.queries, number, &found)?;
        self.models += 1;
        Ok(())
    }

    /// Tells what is told of the line with this number, and keeps what stays for the next one.
    fn reply(&mut self, number: u64, outcome: Outcome, gathered: &mut Vec<u8>) -> Result<(), Memory>
        requires few { HasFewFacts outcome }
        requires awaited { IsAwaited (is_some self.old.waiting) outcome }
        requires counted { self.old.models + self.old.refused < number }
        ensures task { task_of self.new.ontology.now self.new.queries.now
            ≡ task_of self.old.ontology.now self.old.queries.now }
        ensures counted { OnOk result (self.new.models + self.new.refused ≤ number) }
        ensures tells { OnOk result (TellsReply (task_of self.old.ontology.now self.old.queries.now)
            (standing_of self.old.waiting self.old.models self.old.refused)
            (standing_of self.new.waiting self.new.models self.new.refused) number outcome
            gathered.old.items gathered.new.items) }
    {
        match outcome {
            Outcome::Skipped => Ok(()),
            Outcome::Refused(cause) => {
                let item = Item::Refused {
                    line: number,
                    cause,
                };
                let line = render_line(
                    self.alloc,
                    &item,
                    LineForm::Text,
                    self.ontology,
                    self.queries,
                )?;
                gathered.extend_from_slice(line.as_slice())?;
                self.refused += 1;
                Ok(())
            }
            Outcome::Waits(snapshot) => {
                self.waiting = Some(snapshot);
                Ok(())
            }
            Outcome::Answered(model) => self.answer(number, &model, gathered),
        }
    }
}

impl<'a> Reporter for Auditor<'a> {
    ghost State = { Standing };

    ghost Task = { Task };

    ghost manner = { auditing };

    ghost task = { λ auditor. task_of auditor.ontology.now auditor.queries.now };

    ghost stands = { λ auditor state.
        standing_of auditor.waiting auditor.models auditor.refused ≡ state };

    ghost counted = { λ auditor. auditor.models + auditor.refused };

    fn open(&self, gathered: &mut Vec<u8>) -> Result<(), Memory> {
        Ok(())
    }

    fn report_line(
        &mut self,
        number: u64,
        line: GivenLine<'_>,
        gathered: &mut Vec<u8>,
    ) -> Result<(), Memory> {
        let is_waiting = self.waiting.is_some();
        match line_outcome(self.alloc, self.ontology, is_waiting, line) {
            Ok(outcome) => self.reply(number, outcome, gathered),
            Err(fault) => Err(fault),
        }
    }

    fn finish(&self, gathered: &mut Vec<u8>) -> Result<(), Memory> {
        append_two(
            gathered,
            b"end models ",
            self.models,
            b" refused ",
            self.refused,
        )
    }
}

/// Audits the models of the input to its end, and writes to `out` what is found of them.
pub fn audit_stream<Refusal, S: Source, K: Sink>(
    alloc: Global,
    ontology: &Ontology,
    queries: &[Query],
    input: &mut S,
    out: &mut K,
) -> Ending<Refusal>
    ensures ends { StreamEnds
        (auditing (record { ontology = ontology.now; queries = queries.now })) start result
        (ports_of S.Source K.Sink input.old out.old)
        (ports_of S.Source K.Sink input.new out.new) }
{
    let mut auditor = Auditor {
        alloc,
        ontology,
        queries,
        waiting: None,
        models: 0,
        refused: 0,
    };
    report_stream(alloc, &mut auditor, input, out)
}
