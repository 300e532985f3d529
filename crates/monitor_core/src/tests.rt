//! Who was a server at some snapshot and failed at the next one, over three individuals.
ghost use Rattle.std.specs.Prelude.{◌≡◌, ◌≤◌, ◌∷◌, [], All, IfOk, IfSome, length};
ghost use Rattle.dl_syntax.specs.Laws.{instances};
ghost use Rattle.dl_syntax.specs.Names.{IsDeclarable};
ghost use Rattle.dl_syntax.specs.declared.facts.Element.TheVariants as element;
ghost use Rattle.dl_syntax.specs.declared.facts.Fact.TheVariants as fact;
ghost use Rattle.tcq_syntax.proofs.Example.{server_then_failed};
ghost use Rattle.monitor_core.specs.Standing.{setting_of};

use crate::{DeclareFault, Monitor, open};
use dl_syntax::{
    Atom, Basic, Clash, ConceptId, Cq, Element, Fact, Inclusion, IndId, Items, Kind, Memory, Name,
    Ontology, Role, RoleId, Snapshot, Term,
};
use std::alloc::Global;
use tcq_syntax::{Node, Query};

const RUNS: Role = Role {
    id: RoleId(0),
    inverse: false,
};

const RUNS_ON: Role = Role {
    id: RoleId(0),
    inverse: true,
};

const SERVER: ConceptId = ConceptId(0);

const FAILED: ConceptId = ConceptId(1);

const PROCESS: ConceptId = ConceptId(2);

fn with_concepts(alloc: Global) -> Option<Ontology>
    ensures concepts { IfSome result (λ o. length o.concepts ≡ 3) }
    ensures roles { IfSome result (λ o. length o.roles ≡ 0) }
    ensures individuals { IfSome result (λ o. length o.individuals ≡ 0) }
{
    let mut ontology = Ontology::new(alloc);
    ontology.add_name(Kind::Concept, b"Server").ok()?;
    ontology.add_name(Kind::Concept, b"Failed").ok()?;
    ontology.add_name(Kind::Concept, b"Process").ok()?;
    Some(ontology)
}

#[tactic(auto, using(std::proofs::lemmas::List::length_push))]
fn with_role(alloc: Global) -> Option<Ontology>
    ensures concepts { IfSome result (λ o. length o.concepts ≡ 3) }
    ensures roles { IfSome result (λ o. length o.roles ≡ 1) }
    ensures individuals { IfSome result (λ o. length o.individuals ≡ 0) }
{
    let mut ontology = with_concepts(alloc)?;
    ontology.add_name(Kind::Role, b"runs").ok()?;
    Some(ontology)
}

#[tactic(auto, using(std::proofs::lemmas::List::length_push))]
fn named(alloc: Global) -> Option<Ontology>
    ensures concepts { IfSome result (λ o. length o.concepts ≡ 3) }
    ensures roles { IfSome result (λ o. length o.roles ≡ 1) }
    ensures individuals { IfSome result (λ o. length o.individuals ≡ 3) }
{
    let mut ontology = with_role(alloc)?;
    ontology.add_name(Kind::Individual, b"s1").ok()?;
    ontology.add_name(Kind::Individual, b"s2").ok()?;
    ontology.add_name(Kind::Individual, b"p1").ok()?;
    Some(ontology)
}

// Servers run something, what is run is a process, and no server is a process.
fn stated(alloc: Global) -> Option<Ontology>
    ensures concepts { IfSome result (λ o. length o.concepts ≡ 3) }
    ensures roles { IfSome result (λ o. length o.roles ≡ 1) }
    ensures individuals { IfSome result (λ o. length o.individuals ≡ 3) }
{
    let mut ontology = named(alloc)?;
    let server = Basic::Concept(SERVER);
    let process = Basic::Concept(PROCESS);
    ontology
        .add_inclusion(Inclusion::Concepts(server, Basic::Some(RUNS)))
        .ok()?;
    ontology
        .add_inclusion(Inclusion::Concepts(Basic::Some(RUNS_ON), process))
        .ok()?;
    ontology.add_clash(Clash::Concepts(server, process)).ok()?;
    Some(ontology)
}

// `[A(?x)]`
fn instances_of(alloc: Global, concept: ConceptId) -> Result<Cq, Memory>
    ensures { IfOk result (λ q. q ≡ instances concept) }
{
    let head = Vec::from_array(alloc, [Term::Var(0)])?;
    let body = Vec::from_array(alloc, [Atom::Concept(concept, Term::Var(0))])?;
    Ok(Cq {
        head: Items::from_vec(head),
        body: Items::from_vec(body),
    })
}

fn server_then_failed_nodes(alloc: Global) -> Result<Vec<Node>, Memory>
    ensures { IfOk result (λ nodes. nodes.items ≡ server_then_failed) }
{
    let server = instances_of(alloc, SERVER)?;
    let failed = instances_of(alloc, FAILED)?;
    let nodes = Vec::from_array(
        alloc,
        [
            Node::Leaf(server),
            Node::Leaf(failed),
            Node::Next(1),
            Node::And(0, 2),
            Node::Once(3),
        ],
    )?;
    Ok(nodes)
}

// `once ([Server(?x)] & next [Failed(?x)])`
fn server_then_failed(alloc: Global) -> Result<Query, Memory>
    ensures vars { IfOk result (λ q. q.vars ≡ 1) }
    ensures nodes { IfOk result (λ q. q.nodes ≡ server_then_failed) }
{
    let name = Name::new(alloc, b"o")?;
    let nodes = server_then_failed_nodes(alloc)?;
    Ok(Query::new(name, 1, nodes))
}

// The same query twice.
fn two_queries(alloc: Global) -> Result<Vec<Query>, Memory>
    ensures many { IfOk result (λ queries. length queries.items ≡ 2) }
    ensures vars { IfOk result (λ queries. All (λ q. q.vars ≡ 1) queries.items) }
    ensures nodes { IfOk result (λ queries. All (λ q. q.nodes ≡ server_then_failed) queries.items) }
{
    let first = server_then_failed(alloc)?;
    let second = server_then_failed(alloc)?;
    let queries = Vec::from_array(alloc, [first, second])?;
    Ok(queries)
}

// The monitor of these queries.
fn opened(alloc: Global, ontology: Ontology, queries: Vec<Query>) -> Option<Monitor>
    requires concepts { length ontology.concepts ≡ 3 }
    requires roles { length ontology.roles ≡ 1 }
    requires individuals { length ontology.individuals ≡ 3 }
    requires many { length queries.items ≡ 2 }
    requires vars { All (λ q. q.vars ≡ 1) queries.items }
    requires nodes { All (λ q. q.nodes ≡ server_then_failed) queries.items }
    ensures concepts { IfSome result (λ m. length (setting_of m).ontology.concepts ≡ 3) }
    ensures individuals { IfSome result (λ m. length (setting_of m).ontology.individuals ≡ 3) }
    ensures queries { IfSome result (λ m. length (setting_of m).queries ≡ 2) }
{
    match open(alloc, ontology, queries, 1000) {
        Ok(monitor) => Some(monitor),
        Err(_) => None,
    }
}

// A monitor of both.
fn watching(alloc: Global) -> Option<Monitor>
    ensures concepts { IfSome result (λ m. length (setting_of m).ontology.concepts ≡ 3) }
    ensures individuals { IfSome result (λ m. length (setting_of m).ontology.individuals ≡ 3) }
    ensures queries { IfSome result (λ m. length (setting_of m).queries ≡ 2) }
{
    let ontology = stated(alloc)?;
    match two_queries(alloc) {
        Ok(queries) => opened(alloc, ontology, queries),
        Err(_) => None,
    }
}

// The snapshot in which the first individual is in the concept.
fn snapshot_of(alloc: Global, concept: ConceptId) -> Result<Snapshot, Memory>
    ensures { IfOk result (λ snapshot. snapshot
        ≡ fact.Concept concept (element.Ind (record { 0 = 0 })) ∷ []) }
{
    let mut facts = Vec::new(alloc);
    facts.push(Fact::Concept(concept, Element::Ind(IndId(0))))?;
    Ok(Snapshot::new(facts))
}

// Takes the snapshot in which the first individual is in the concept, and tells how many of the
// queries have an answer then.
fn answers_after(alloc: Global, monitor: &mut Monitor, concept: ConceptId) -> Option<usize>
    requires concepts { length (setting_of monitor.old).ontology.concepts ≡ 3 }
    requires individuals { length (setting_of monitor.old).ontology.individuals ≡ 3 }
    requires declared { concept.0 ≤ 2 }
    ensures { setting_of monitor.new ≡ setting_of monitor.old }
{
    let snapshot = snapshot_of(alloc, concept).ok()?;
    let answers = monitor.accept(alloc, &snapshot).ok()?;
    Some(answers.iter().filter(|rows| !rows.is_empty()).count())
}

// Whether so many sets are held, and as many kept of each query.
fn keeps(alloc: Global, monitor: &Monitor, size: u64) -> bool
    requires { length (setting_of monitor.now).queries ≡ 2 }
{
    monitor.held() == size
        && monitor.kept_size(alloc, 0) == Ok(size)
        && monitor.kept_size(alloc, 1) == Ok(size)
}

// The name `s3`.
fn third_server(alloc: Global) -> Result<Name, Memory>
    ensures { IfOk result IsDeclarable }
{
    Name::new(alloc, b"s3")
}

// Declares the name `s3`.
fn declare_third(alloc: Global, monitor: &mut Monitor) -> Result<(), DeclareFault> {
    let name = third_server(alloc)?;
    monitor.declare(alloc, &[name])
}

#[test]
fn declares_a_third_server(rt: HostRuntime) {
    let mut monitor = watching(rt.alloc()).expect(&rt, "memory");
    assert!(rt; declare_third(rt.alloc(), &mut monitor) == Ok(()));
    assert!(rt; monitor.ontology().count(Kind::Individual) == 4);
    assert!(rt; monitor.declared() == 1);
    assert!(rt; monitor.has_strangers());
}

#[test]
fn declares_no_name_twice(rt: HostRuntime) {
    let mut monitor = watching(rt.alloc()).expect(&rt, "memory");
    assert!(rt; declare_third(rt.alloc(), &mut monitor) == Ok(()));
    let twice = declare_third(rt.alloc(), &mut monitor);
    assert!(rt; twice == Err(DeclareFault::NameTwice(0)));
    assert!(rt; monitor.declared() == 1);
    assert!(rt; monitor.count() == 0);
}

#[test]
fn tells_what_is_kept(rt: HostRuntime) {
    let mut monitor = watching(rt.alloc()).expect(&rt, "memory");
    assert!(rt; keeps(rt.alloc(), &monitor, 0));
    assert!(rt; answers_after(rt.alloc(), &mut monitor, SERVER) == Some(0));
    assert!(rt; keeps(rt.alloc(), &monitor, 1));
    assert!(rt; answers_after(rt.alloc(), &mut monitor, FAILED) == Some(2));
    assert!(rt; keeps(rt.alloc(), &monitor, 1));
    assert!(rt; answers_after(rt.alloc(), &mut monitor, PROCESS) == Some(2));
    assert!(rt; keeps(rt.alloc(), &monitor, 1));
    assert!(rt; monitor.count() == 3);
}
