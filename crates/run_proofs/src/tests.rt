//! Worked examples.
ghost use Rattle.std.specs.Prelude.{◌≡◌, ◌∷◌, [], length, IfOk, IfSome};
ghost use Rattle.dl_syntax.specs.Facts.{HasNoNull};

use crate::checking::take_steps;
use crate::matching::is_match;
use crate::{Ending, Goal, Proof, ProofStep, verify};
use dl_syntax::{
    Atom, Basic, Clash, ConceptId, Cq, Element, Fact, Inclusion, IndId, Items, Kind, Memory,
    Ontology, Role, RoleId, Row, Snapshot, Term,
};
use std::alloc::Global;

const RUNS: Role = Role {
    id: RoleId(0),
    inverse: false,
};

const RUNS_ON: Role = Role {
    id: RoleId(0),
    inverse: true,
};

const SERVER: Basic = Basic::Concept(ConceptId(0));

const PROCESS: Basic = Basic::Concept(ConceptId(1));

const INDIVIDUAL: Element = Element::Ind(IndId(0));

/// The concepts Server and Process and the role runs.
fn named(alloc: Global) -> Option<Ontology>
    ensures { IfSome result (λ o. (length o.concepts ≡ 2) × (length o.roles ≡ 1)) }
{
    let mut ontology = Ontology::new(alloc);
    ontology.add_name(Kind::Concept, b"Server").ok()?;
    ontology.add_name(Kind::Concept, b"Process").ok()?;
    ontology.add_name(Kind::Role, b"runs").ok()?;
    Some(ontology)
}

/// Servers run something, what is run is a process, what runs something is a server, and no server
/// is a process.
fn stated(alloc: Global) -> Option<Ontology> {
    let mut ontology = named(alloc)?;
    ontology
        .add_inclusion(Inclusion::Concepts(SERVER, Basic::Some(RUNS)))
        .ok()?;
    ontology
        .add_inclusion(Inclusion::Concepts(Basic::Some(RUNS_ON), PROCESS))
        .ok()?;
    ontology
        .add_inclusion(Inclusion::Concepts(Basic::Some(RUNS), SERVER))
        .ok()?;
    ontology.add_clash(Clash::Concepts(SERVER, PROCESS)).ok()?;
    Some(ontology)
}

fn step(from: u32, inclusion: u32) -> ProofStep {
    ProofStep { from, inclusion }
}

/// Whether something runs a process.
fn runs_process(alloc: Global) -> Result<Cq, Memory>
    ensures { IfOk result (λ q. length q.head ≡ 0) }
{
    let pair = Atom::Role(RoleId(0), Term::Var(0), Term::Var(1));
    let member = Atom::Concept(ConceptId(1), Term::Var(1));
    let body = Vec::from_array(alloc, [pair, member])?;
    Ok(Cq {
        head: Items::from_vec(Vec::new(alloc)),
        body: Items::from_vec(body),
    })
}

/// Whether the run of a server and two steps shows that something runs a process, which is the
/// null of the number.
fn shows_process(alloc: Global, null: u32) -> Option<bool> {
    let ontology = stated(alloc)?;
    let mut run = Vec::from_array(alloc, [Fact::Concept(ConceptId(0), INDIVIDUAL)]).ok()?;
    if !take_steps(&ontology, &mut run, &[step(0, 1), step(1, 2)]).ok()? {
        return None;
    }
    let cq = runs_process(alloc).ok()?;
    let row = Row::new(alloc, &[]).ok()?;
    let elements = [INDIVIDUAL, Element::Null(null)];
    is_match(alloc, &cq, &elements, run.as_slice(), &row).ok()
}

// From Server(s1) the null that it runs is made at place 1.
#[test]
fn matches_a_run(rt: HostRuntime) {
    assert!(rt; shows_process(rt.alloc(), 1) == Some(true));
    assert!(rt; shows_process(rt.alloc(), 2) == Some(false));
}

fn snapshot_of(alloc: Global, fact: Fact) -> Result<Snapshot, Memory>
    requires { HasNoNull fact }
    ensures { IfOk result (λ snapshot. snapshot ≡ fact ∷ []) }
{
    let mut facts = Vec::new(alloc);
    facts.push(fact)?;
    Ok(Snapshot::new(facts))
}

fn runs_itself() -> Fact
    ensures { HasNoNull result }
{
    Fact::Role(RoleId(0), INDIVIDUAL, INDIVIDUAL)
}

/// Whether what runs itself, and so is a process and a server, meets the clash by the facts at the
/// places.
fn shows_clash(alloc: Global, first: u32, second: u32) -> Option<bool> {
    let ontology = stated(alloc)?;
    let steps = Vec::from_array(alloc, [step(0, 2), step(0, 3)]).ok()?;
    let proof = Proof {
        facts: snapshot_of(alloc, runs_itself()).ok()?,
        goal: Goal::Clash(1),
        steps: Items::from_vec(steps),
        ending: Ending::Places(first, second),
    };
    verify(alloc, &ontology, &[], &proof).ok()
}

// The process is made at place 1 and the server at place 2; the left side of the clash is the
// server.
#[test]
fn meets_a_clash(rt: HostRuntime) {
    assert!(rt; shows_clash(rt.alloc(), 2, 1) == Some(true));
    assert!(rt; shows_clash(rt.alloc(), 1, 2) == Some(false));
    assert!(rt; shows_clash(rt.alloc(), 2, 3) == Some(false));
}
