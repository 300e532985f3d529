//! Whole proofs, and what they are to show, written.

ghost use Rattle.std.specs.Prelude.{◌≡◌, ◌<◌, ◌++◌, ◌∷◌, [], length, flat_map, OnOk};
ghost use Rattle.std.specs.List.{All};
ghost use Rattle.run_proofs.specs.Texts.{row_text, answer_text, goal_text, step_text, proof_text};
ghost use Rattle.run_proofs.specs.Writable.{IsWritableRow, IsWritableGoal, IsWritableProof};

use crate::printing::{append_ending, append_name, append_snapshot};
use crate::proof::{Goal, Proof, ProofStep};
use crate::writing::{append_clash, append_number, append_step};
use dl_syntax::{IndId, Kind, Memory, Ontology};
use tcq_syntax::Query;

/// Appends the names of individuals, each after a space.
fn append_row(out: &mut Vec<u8>, ontology: &Ontology, row: &[IndId]) -> Result<(), Memory>
    requires { IsWritableRow ontology.now row.now }
    ensures { OnOk result (out.new.items
        ≡ out.old.items ++ row_text ontology.now.individuals row.now) }
{
    for individual in row {
        out.extend_from_slice(b" ")?;
        append_name(out, ontology, Kind::Individual, individual.0)?;
    }
    Ok(())
}

/// Appends what is to be shown of a row, by the name of the query and the place of the leaf.
fn append_answer(
    out: &mut Vec<u8>,
    ontology: &Ontology,
    name: &[u8],
    leaf: u16,
    row: &[IndId],
) -> Result<(), Memory>
    requires { IsWritableRow ontology.now row.now }
    ensures { OnOk result (out.new.items
        ≡ out.old.items ++ answer_text ontology.now.individuals name.now leaf row.now) }
{
    out.extend_from_slice(b"proof answer ")?;
    out.extend_from_slice(name)?;
    out.extend_from_slice(b" ")?;
    append_number(out, leaf as u32)?;
    append_row(out, ontology, row)
}

/// Appends the line of what is to be shown, without its newline.
pub fn append_goal(
    out: &mut Vec<u8>,
    ontology: &Ontology,
    queries: &[Query],
    goal: &Goal,
) -> Result<(), Memory>
    requires { IsWritableGoal ontology.now queries.now goal.now }
    ensures { OnOk result (out.new.items
        ≡ out.old.items ++ goal_text ontology.now.individuals queries.now goal.now) }
{
    match goal {
        Goal::Answer { query, leaf, row } => {
            let name = queries[*query as usize].name().bytes();
            append_answer(out, ontology, name, *leaf, row.places())
        }
        Goal::Clash(number) => append_clash(out, *number),
    }
}

/// Appends the lines of steps.
fn append_steps(out: &mut Vec<u8>, steps: &[ProofStep]) -> Result<(), Memory>
    ensures { OnOk result (out.new.items
        ≡ out.old.items ++ flat_map (λ step. step_text step ++ 10 ∷ []) steps.now) }
{
    for step in steps {
        append_step(out, step)?;
        out.extend_from_slice(b"\n")?;
    }
    Ok(())
}

/// Appends bytes.
fn append_bytes(out: &mut Vec<u8>, bytes: &[u8]) -> Result<(), Memory>
    ensures { OnOk result (out.new.items ≡ out.old.items ++ bytes.now) }
{
    out.extend_from_slice(bytes)
}

/// Appends the text of a proof: each of its lines and a newline.
pub fn append_proof(
    out: &mut Vec<u8>,
    ontology: &Ontology,
    queries: &[Query],
    proof: &Proof,
) -> Result<(), Memory>
    requires { IsWritableProof ontology.now queries.now proof.now }
    ensures { OnOk result (out.new.items
        ≡ out.old.items ++ proof_text ontology.now queries.now proof.now) }
{
    append_goal(out, ontology, queries, &proof.goal)?;
    out.extend_from_slice(b"\n")?;
    append_snapshot(out, ontology, proof.facts.facts())?;
    out.extend_from_slice(b"\n")?;
    append_steps(out, proof.steps.as_slice())?;
    append_ending(out, ontology, &proof.ending)?;
    append_bytes(out, b"\nend\n")
}
