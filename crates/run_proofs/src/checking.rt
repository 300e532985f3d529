//! Whether a proof shows its goal.

ghost use Rattle.std.specs.Prelude.{◌≡◌, ◌≢◌, ◌+◌, ◌*◌, ◌<◌, ◌^◌, ◌++◌, ◌↔◌, [], length, Option};
ghost use Rattle.std.specs.Prelude.{IfSome, IfOk, IsTrue};
ghost use Rattle.std.specs.List.{All};
ghost use Rattle.std.specs.Option.{option_map};
ghost use Rattle.dl_syntax.specs.Queries.{IsBound};
ghost use Rattle.run_proofs.specs.declared.proof.Goal.TheVariants as goal;
ghost use Rattle.run_proofs.specs.declared.proof.Ending.TheVariants as ending;
ghost use Rattle.run_proofs.specs.Matching.{IsMatch, MeetsAt};
ghost use Rattle.run_proofs.specs.Shows.{leaf_of_node, leaf_at, clash_of, EndsAnswer, EndsClash};
ghost use Rattle.run_proofs.specs.Shows.{Ends, Shows};
ghost use Rattle.run_proofs.specs.Growing.{made_in, run_after, NamesBoth, AllMake};

use crate::matching::{is_match, meets_at};
use crate::proof::{Ending, Goal, Proof, ProofStep};
use dl_syntax::{Clash, Cq, Element, Fact, Memory, Ontology, Row, extend_run};
use std::alloc::Global;
use tcq_syntax::{Node, Query};

/// Whether the step names a fact of the run and an inclusion.
fn names_both(ontology: &Ontology, run: &[Fact], step: &ProofStep) -> bool
    ensures { IsTrue result ↔ NamesBoth ontology.now.inclusions run.now step.now }
{
    (step.from as usize) < run.len()
        && step.inclusion >= 1
        && step.inclusion as usize <= ontology.inclusions().len()
}

/// Takes the step where what it names exists. Answers whether it makes anything.
fn take_step(ontology: &Ontology, run: &mut Vec<Fact>, step: &ProofStep) -> Result<bool, Memory>
    requires { length run.old.items + 2 < 2 ^ 32 }
    ensures run { IfOk result (λ makes. run.new.items
        ≡ run.old.items ++ made_in ontology.now.inclusions run.old.items step.now) }
    ensures makes { IfOk result (λ makes. IsTrue makes
        ↔ (made_in ontology.now.inclusions run.old.items step.now ≢ [])) }
{
    if names_both(ontology, run.as_slice(), step) {
        extend_run(ontology, run, step.from, step.inclusion)
    } else {
        Ok(false)
    }
}

/// Takes the steps, up to the first that makes nothing. Answers whether there is no such step.
pub(crate) fn take_steps(
    ontology: &Ontology,
    run: &mut Vec<Fact>,
    steps: &[ProofStep],
) -> Result<bool, Memory>
    requires { length run.old.items + 2 * length steps.now < 2 ^ 32 }
    ensures make { IfOk result (λ make. IsTrue make
        ↔ AllMake ontology.now.inclusions run.old.items steps.now) }
    ensures run { IfOk result (λ make. IsTrue make → run.new.items
        ≡ run_after ontology.now.inclusions run.old.items steps.now) }
{
    for step in steps {
        if !take_step(ontology, run, step)? {
            return Ok(false);
        }
    }
    Ok(true)
}

/// The query of the node, where that is a leaf.
fn leaf_in(node: &Node) -> Option<&Cq>
    ensures { option_map (λ q. q.now) result ≡ leaf_of_node (Some node.now) }
{
    match node {
        Node::Leaf(cq) => Some(cq),
        _ => None,
    }
}

/// The query of the leaf, where there is one at the place.
pub(crate) fn leaf_of(queries: &[Query], query: u16, leaf: u16) -> Option<&Cq>
    ensures same { option_map (λ q. q.now) result ≡ leaf_at queries.now query leaf }
    ensures bound { IfSome result (λ q. All (IsBound q.now.body) q.now.head) }
{
    let Some(known) = queries.get(query as usize) else {
        return None;
    };
    let Some(node) = known.nodes().get(leaf as usize) else {
        return None;
    };
    leaf_in(node)
}

/// The clash of the number, counted from 1, where there is one.
pub(crate) fn clash_at(ontology: &Ontology, number: u32) -> Option<&Clash>
    ensures { option_map (λ m. m.now) result ≡ clash_of ontology.now.clashes number }
{
    if number == 0 {
        None
    } else {
        ontology.clashes().get((number - 1) as usize)
    }
}

/// Whether the elements are a match of the leaf in the run that makes its head the row.
fn shows_answer(
    alloc: Global,
    leaf: Option<&Cq>,
    run: &[Fact],
    row: &Row,
    elements: &[Element],
) -> Result<bool, Memory>
    requires { IfSome leaf (λ q. All (IsBound q.now.body) q.now.head) }
    ensures { IfOk result (λ yes. IsTrue yes ↔ EndsAnswer (option_map
        (λ q. q.now) leaf.entry) run.now row.now elements.now) }
{
    match leaf {
        Some(cq) => is_match(alloc, cq, elements, run, row),
        None => Ok(false),
    }
}

/// Whether the facts at the two places of the run are both sides of the clash.
fn shows_clash(clash: Option<&Clash>, run: &[Fact], first: u32, second: u32) -> bool
    ensures { IsTrue result ↔ EndsClash (option_map
        (λ m. m.now) clash.entry) run.now first second }
{
    match clash {
        Some(clash) => meets_at(clash, run, first, second),
        None => false,
    }
}

/// Whether by the ending the run shows the goal.
fn ends(
    alloc: Global,
    ontology: &Ontology,
    queries: &[Query],
    run: &[Fact],
    goal: &Goal,
    ending: &Ending,
) -> Result<bool, Memory>
    ensures { IfOk result (λ yes. IsTrue yes
        ↔ Ends ontology.now queries.now run.now goal.now ending.now) }
{
    match (goal, ending) {
        (Goal::Answer { query, leaf, row }, Ending::Match(elements)) => {
            let cq = leaf_of(queries, *query, *leaf);
            shows_answer(alloc, cq, run, row, elements.as_slice())
        }
        (Goal::Clash(number), Ending::Places(first, second)) => {
            let clash = clash_at(ontology, *number);
            Ok(shows_clash(clash, run, *first, *second))
        }
        _ => Ok(false),
    }
}

/// Whether the proof shows its goal: each step makes something, and by the ending the run that
/// they lead to shows the goal.
/// A goal that names no leaf or clash, and an ending of the other kind, show nothing.
pub fn verify(
    alloc: Global,
    ontology: &Ontology,
    queries: &[Query],
    proof: &Proof,
) -> Result<bool, Memory>
    requires { length proof.now.facts + 2 * length proof.now.steps < 2 ^ 32 }
    ensures { IfOk result (λ yes. IsTrue yes ↔ Shows ontology.now queries.now proof.now) }
{
    let mut run = Vec::from_slice(alloc, proof.facts.facts())?;
    if !take_steps(ontology, &mut run, proof.steps.as_slice())? {
        return Ok(false);
    }
    ends(
        alloc,
        ontology,
        queries,
        run.as_slice(),
        &proof.goal,
        &proof.ending,
    )
}
