//! The lines of proofs.

ghost use Rattle.std.specs.Prelude.{◌≡◌, ◌+◌, ◌<◌, ◌++◌, ◌∷◌, [], OnOk, flat_map, length};
ghost use Rattle.report_text.specs.Names.{Text};
ghost use Rattle.run_proofs.specs.Shows.{Holds};
ghost use Rattle.run_proofs.specs.Texts.{step_text};
ghost use Rattle.proof_search.specs.Explainer.{AreLeafRows};
ghost use Rattle.proof_search.specs.Goals.{ShowsGoal};
ghost use Rattle.explain_report.specs.Answers.{IsAnswer, IsEarlier, TellsMore, TellsProof};
ghost use Rattle.explain_report.specs.Answers.{TellsRows};
ghost use Rattle.explain_report.specs.Source.{task_in, IsSource};

use dl_syntax::{Memory, Row, Snapshot, Tuples};
use fact_index::Index;
use proof_search::{Explainer, Shown};
use run_proofs::{Goal, ProofStep, append_ending, append_goal, append_step};
use std::alloc::Global;

/// What explains a snapshot, the snapshot, its index, and its line in each proof.
#[derive(Clone, Copy)]
pub struct Source<'a> {
    pub alloc: Global,
    pub explainer: &'a Explainer,
    pub snapshot: &'a Snapshot,
    pub index: &'a Index,
    pub line: &'a [u8],
}

/// Appends the lines of steps.
fn append_steps(out: &mut Vec<u8>, steps: &[ProofStep]) -> Result<(), Memory>
    ensures { OnOk result (out.new.items
        ≡ out.old.items ++ flat_map (λ step. step_text step ++ 10 ∷ []) steps.now) }
{
    for step in steps {
        append_step(out, step)?;
        out.extend_from_slice(b"\n")?;
    }
    Ok(())
}

/// Appends bytes.
fn append_bytes(out: &mut Vec<u8>, bytes: &[u8]) -> Result<(), Memory>
    ensures { OnOk result (out.new.items ≡ out.old.items ++ bytes.now) }
{
    out.extend_from_slice(bytes)
}

/// Appends the text of the proof of the goal by the steps and the ending.
fn append_text(
    out: &mut Vec<u8>,
    source: &Source<'_>,
    goal: &Goal,
    shown: &Shown,
) -> Result<(), Memory>
    requires source { IsSource source.now }
    requires shows { ShowsGoal (task_in source.now).ontology (task_in source.now).queries
        source.now.snapshot.now goal.now shown.now }
    requires short { length shown.now.steps.items < (task_in source.now).room }
    ensures { OnOk result (TellsProof (task_in source.now) source.now.snapshot.now goal.now
        out.old.items out.new.items) }
{
    let ontology = source.explainer.ontology();
    append_goal(out, ontology, source.explainer.queries(), goal)?;
    out.extend_from_slice(b"\n")?;
    out.extend_from_slice(source.line)?;
    out.extend_from_slice(b"\n")?;
    append_steps(out, shown.steps.as_slice())?;
    append_ending(out, ontology, &shown.ending)?;
    append_bytes(out, b"\nend\n")
}

/// Appends a proof of the goal.
pub fn append_shown(out: &mut Vec<u8>, source: &Source<'_>, goal: &Goal) -> Result<(), Memory>
    requires source { IsSource source.now }
    requires holds { Holds (task_in source.now).ontology (task_in source.now).queries
        source.now.snapshot.now goal.now }
    ensures { OnOk result (TellsProof (task_in source.now) source.now.snapshot.now goal.now
        out.old.items out.new.items) }
{
    let facts = source.snapshot.facts();
    match source.explainer.show(facts, source.index, goal)? {
        Some(shown) => append_text(out, source, goal, &shown),
        None => Ok(()),
    }
}

/// Appends a proof of each row, which are the answers of the leaf.
fn append_rows(
    out: &mut Vec<u8>,
    source: &Source<'_>,
    query: u16,
    leaf: u16,
    rows: &Tuples,
) -> Result<(), Memory>
    requires source { IsSource source.now }
    requires rows { AreLeafRows (task_in source.now).ontology (task_in source.now).queries
        source.now.snapshot.now query leaf rows.now.rows }
    ensures { OnOk result (TellsRows (task_in source.now) source.now.snapshot.now query leaf
        rows.now.rows out.old.items out.new.items) }
{
    for at in 0..rows.len() {
        let row = Row::new(source.alloc, rows.row(at))?;
        append_shown(out, source, &Goal::Answer { query, leaf, row })?;
    }
    Ok(())
}

/// Appends a proof of each answer of the leaf at the place.
fn append_leaf(out: &mut Vec<u8>, source: &Source<'_>, query: u16, leaf: u16) -> Result<(), Memory>
    requires { IsSource source.now }
    ensures { OnOk result ((before : Text) → TellsMore (IsEarlier query leaf) (task_in source.now)
        source.now.snapshot.now before out.old.items → TellsMore (IsEarlier query (leaf + 1))
        (task_in source.now) source.now.snapshot.now before out.new.items) }
{
    let rows = source.explainer.rows(source.index, query, leaf)?;
    append_rows(out, source, query, leaf, &rows)
}

/// Appends a proof of each answer of each leaf of the query with the number.
fn append_query(out: &mut Vec<u8>, source: &Source<'_>, query: u16) -> Result<(), Memory>
    requires source { IsSource source.now }
    requires within { query < length (task_in source.now).queries }
    ensures { OnOk result ((before : Text) → TellsMore (IsEarlier query 0) (task_in source.now)
        source.now.snapshot.now before out.old.items → TellsMore (IsEarlier (query + 1) 0)
        (task_in source.now) source.now.snapshot.now before out.new.items) }
{
    let queries = source.explainer.queries();
    let count = queries[query as usize].nodes().len() as u16;
    for leaf in 0..count {
        append_leaf(out, source, query, leaf)?;
    }
    Ok(())
}

/// Appends a proof of each answer of each leaf, in their order.
pub fn append_answers(out: &mut Vec<u8>, source: &Source<'_>) -> Result<(), Memory>
    requires { IsSource source.now }
    ensures { OnOk result (TellsMore IsAnswer (task_in source.now) source.now.snapshot.now
        out.old.items out.new.items) }
{
    let count = source.explainer.queries().len() as u16;
    for query in 0..count {
        append_query(out, source, query)?;
    }
    Ok(())
}
