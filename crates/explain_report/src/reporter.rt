//! The reporter of proofs.

ghost use Rattle.std.specs.Prelude.{◌≡◌, ◌≤◌, ◌<◌, ◌+◌, OnOk, length};
ghost use Rattle.std.specs.List.{All};
ghost use Rattle.snapshot_reader.specs.Laws.{IsDeclared};
ghost use Rattle.stream_report.specs.Ends.{StreamEnds};
ghost use Rattle.stream_report.specs.Outside.{ports_of};
ghost use Rattle.explain_report.specs.declared.outcome.Outcome.TheVariants as outcomes;
ghost use Rattle.explain_report.specs.Answers.{Task};
ghost use Rattle.explain_report.specs.Explaining.{counts_of};
ghost use Rattle.explain_report.specs.Outcome.{HasKnownFacts};
ghost use Rattle.explain_report.specs.Report.{Counts, start, explaining, TellsReply};

use crate::outcome::{Outcome, line_outcome};
use crate::proof_lines::Source as Given;
use crate::snapshot_lines::{append_accepted, append_contradiction, append_item};
use dl_syntax::{Memory, Snapshot};
use edge_io::{Sink, Source};
use fact_index::build::index;
use proof_search::Explainer;
use report_text::{Cause, Item};
use run_proofs::append_snapshot;
use std::alloc::Global;
use stream_report::{Ending, GivenLine, Reporter, report_stream};

/// What explains snapshots, how many lines were accepted, and how many were refused.
#[derive(Drop)]
struct Reporting<'a> {
    alloc: Global,
    explainer: &'a Explainer,
    accepted: u64,
    refused: u64,
}

impl<'a> Reporting<'a> {
    /// Tells a snapshot with its proofs.
    fn tell(
        &mut self,
        number: u64,
        snapshot: &Snapshot,
        gathered: &mut Vec<u8>,
    ) -> Result<(), Memory>
        requires declared { All (IsDeclared self.old.explainer.now.ontology) snapshot.now }
        requires few { length snapshot.now ≤ 65536 }
        requires counted { self.old.accepted + self.old.refused < number }
        ensures task { self.new.explainer.now ≡ self.old.explainer.now }
        ensures counted { OnOk result (self.new.accepted + self.new.refused ≤ number) }
        ensures tells { OnOk result (TellsReply self.old.explainer.now
            (counts_of self.old.accepted self.old.refused)
            (counts_of self.new.accepted self.new.refused) number (outcomes.Says snapshot.now)
            gathered.old.items gathered.new.items) }
    {
        let found = index(self.alloc, snapshot)?;
        let mut line = Vec::new(self.alloc);
        append_snapshot(&mut line, self.explainer.ontology(), snapshot.facts())?;
        let given = Given {
            alloc: self.alloc,
            explainer: self.explainer,
            snapshot,
            index: &found,
            line: line.as_slice(),
        };
        match self.explainer.first_clash(&found)? {
            Some(clash) => {
                append_contradiction(gathered, &given, number, clash)?;
                self.refused += 1;
            }
            None => {
                append_accepted(gathered, &given, number, self.accepted + 1)?;
                self.accepted += 1;
            }
        }
        Ok(())
    }

    /// Tells that a line is refused.
    fn refuse(&mut self, number: u64, cause: Cause, gathered: &mut Vec<u8>) -> Result<(), Memory>
        requires counted { self.old.accepted + self.old.refused < number }
        ensures task { self.new.explainer.now ≡ self.old.explainer.now }
        ensures counted { OnOk result (self.new.accepted + self.new.refused ≤ number) }
        ensures tells { OnOk result (TellsReply self.old.explainer.now
            (counts_of self.old.accepted self.old.refused)
            (counts_of self.new.accepted self.new.refused) number (outcomes.Refused cause)
            gathered.old.items gathered.new.items) }
    {
        let item = Item::Refused {
            line: number,
            cause,
        };
        let explainer = self.explainer;
        append_item(
            gathered,
            self.alloc,
            &item,
            explainer.ontology(),
            explainer.queries(),
        )?;
        self.refused += 1;
        Ok(())
    }

    /// Tells what is told of the line with this number.
    fn reply(&mut self, number: u64, outcome: Outcome, gathered: &mut Vec<u8>) -> Result<(), Memory>
        requires known { HasKnownFacts self.old.explainer.now.ontology outcome }
        requires counted { self.old.accepted + self.old.refused < number }
        ensures task { self.new.explainer.now ≡ self.old.explainer.now }
        ensures counted { OnOk result (self.new.accepted + self.new.refused ≤ number) }
        ensures tells { OnOk result (TellsReply self.old.explainer.now
            (counts_of self.old.accepted self.old.refused)
            (counts_of self.new.accepted self.new.refused) number outcome
            gathered.old.items gathered.new.items) }
    {
        match outcome {
            Outcome::Skipped => Ok(()),
            Outcome::Refused(cause) => self.refuse(number, cause, gathered),
            Outcome::Says(snapshot) => self.tell(number, &snapshot, gathered),
        }
    }
}

impl<'a> Reporter for Reporting<'a> {
    ghost State = { Counts };

    ghost Task = { Task };

    ghost manner = { explaining };

    ghost task = { λ r. r.explainer.now };

    ghost stands = { λ r state. counts_of r.accepted r.refused ≡ state };

    ghost counted = { λ r. r.accepted + r.refused };

    fn open(&self, gathered: &mut Vec<u8>) -> Result<(), Memory> {
        Ok(())
    }

    fn report_line(
        &mut self,
        number: u64,
        line: GivenLine<'_>,
        gathered: &mut Vec<u8>,
    ) -> Result<(), Memory> {
        match line_outcome(self.alloc, self.explainer.ontology(), line) {
            Ok(outcome) => self.reply(number, outcome, gathered),
            Err(fault) => Err(fault),
        }
    }

    fn finish(&self, gathered: &mut Vec<u8>) -> Result<(), Memory> {
        let item = Item::End {
            accepted: self.accepted,
            refused: self.refused,
        };
        let explainer = self.explainer;
        append_item(
            gathered,
            self.alloc,
            &item,
            explainer.ontology(),
            explainer.queries(),
        )
    }
}

/// Explains the snapshots of the input to its end, and writes the proofs to `out`.
pub fn explain_stream<Refusal, S: Source, K: Sink>(
    alloc: Global,
    explainer: &Explainer,
    input: &mut S,
    out: &mut K,
) -> Ending<Refusal>
    ensures ends { StreamEnds
        (explaining explainer.now) start result
        (ports_of S.Source K.Sink input.old out.old)
        (ports_of S.Source K.Sink input.new out.new) }
{
    let mut reporting = Reporting {
        alloc,
        explainer,
        accepted: 0,
        refused: 0,
    };
    report_stream(alloc, &mut reporting, input, out)
}
