//! The lines that are told of a snapshot.

ghost use Rattle.std.specs.Prelude.{◌≡◌, ◌++◌, OnOk};
ghost use Rattle.consistency.specs.Least.{IsConsistentUnder, IsLeastClash};
ghost use Rattle.report_text.specs.Lines.{HasNames, line_text};
ghost use Rattle.explain_report.specs.Report.{TellsMoreAnswers, TellsMoreContradiction};
ghost use Rattle.explain_report.specs.Source.{task_in, IsSource};

use crate::proof_lines::{Source, append_answers, append_shown};
use dl_syntax::{Memory, Ontology};
use forms::LineForm;
use report_text::{Cause, Item, render_line};
use run_proofs::Goal;
use std::alloc::Global;
use tcq_syntax::Query;

/// Appends the line of an item.
pub fn append_item(
    out: &mut Vec<u8>,
    alloc: Global,
    item: &Item,
    ontology: &Ontology,
    queries: &[Query],
) -> Result<(), Memory>
    requires { HasNames ontology.now queries.now item.now }
    ensures { OnOk result (out.new.items
        ≡ out.old.items ++ line_text ontology.now queries.now item.now) }
{
    let line = render_line(alloc, item, LineForm::Text, ontology, queries)?;
    out.extend_from_slice(line.as_slice())
}

/// Appends what is told of a consistent snapshot, which is accepted with this number.
pub fn append_accepted(
    out: &mut Vec<u8>,
    source: &Source<'_>,
    line: u64,
    number: u64,
) -> Result<(), Memory>
    requires source { IsSource source.now }
    requires consistent { IsConsistentUnder (task_in source.now).ontology source.now.snapshot.now }
    ensures { OnOk result (TellsMoreAnswers (task_in source.now) source.now.snapshot.now line number
        out.old.items out.new.items) }
{
    let item = Item::Accepted { line, number };
    let explainer = source.explainer;
    append_item(
        out,
        source.alloc,
        &item,
        explainer.ontology(),
        explainer.queries(),
    )?;
    append_answers(out, source)
}

/// Appends what is told of a snapshot whose least clash has this number.
pub fn append_contradiction(
    out: &mut Vec<u8>,
    source: &Source<'_>,
    line: u64,
    clash: u32,
) -> Result<(), Memory>
    requires source { IsSource source.now }
    requires least { IsLeastClash (task_in source.now).ontology source.now.snapshot.now clash }
    ensures { OnOk result (TellsMoreContradiction (task_in source.now) source.now.snapshot.now line
        out.old.items out.new.items) }
{
    let item = Item::Refused {
        line,
        cause: Cause::Contradiction(clash),
    };
    let explainer = source.explainer;
    append_item(
        out,
        source.alloc,
        &item,
        explainer.ontology(),
        explainer.queries(),
    )?;
    append_shown(out, source, &Goal::Clash(clash))
}
