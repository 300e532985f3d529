//! The worked example: what is written of `once ([Server(?x)] & next [Failed(?x)])` over three
//! individuals, after one snapshot that has one server.
ghost use Rattle.std.specs.Prelude.{◌≡◌, ◌≤◌, ◌∷◌, [], All, IfOk, IfSome, length, true};
ghost use Rattle.dl_syntax.specs.Laws.{instances};
ghost use Rattle.dl_syntax.specs.declared.facts.Element.TheVariants as element;
ghost use Rattle.dl_syntax.specs.declared.facts.Fact.TheVariants as fact;
ghost use Rattle.tcq_syntax.proofs.Example.{server_then_failed};
ghost use Rattle.monitor_core.specs.Standing.{setting_of};

use crate::{resume, suspend};
use checkpoint_text::write;
use dl_syntax::{
    Atom, ConceptId, Cq, Element, Fact, IndId, Items, Kind, Memory, Name, Ontology, Snapshot, Term,
};
use monitor_core::{Monitor, open, open_closed};
use std::alloc::Global;
use tcq_syntax::{Node, Query};

const DIGEST: [u8; 32] = [0; 32];

const OPEN: &[u8] =
    b"tom-checkpoint 2\ndigest 0000000000000000000000000000000000000000000000000000000000000000\naccepted 1\nnames 0\nlists 2\nlist 1\nlist\nquery 1\nnode 4 1:0 3:1\nend\n";

const CLOSED: &[u8] =
    b"tom-checkpoint 1\ndigest 0000000000000000000000000000000000000000000000000000000000000000\naccepted 1\nlists 2\nlist 1\nlist\nquery 1\nnode 4 1:0 2:1\nend\n";

const SERVER: ConceptId = ConceptId(0);

const FAILED: ConceptId = ConceptId(1);

fn with_concepts(alloc: Global) -> Option<Ontology>
    ensures concepts { IfSome result (λ o. length o.concepts ≡ 3) }
    ensures roles { IfSome result (λ o. length o.roles ≡ 0) }
    ensures individuals { IfSome result (λ o. length o.individuals ≡ 0) }
{
    let mut ontology = Ontology::new(alloc);
    ontology.add_name(Kind::Concept, b"Server").ok()?;
    ontology.add_name(Kind::Concept, b"Failed").ok()?;
    ontology.add_name(Kind::Concept, b"Process").ok()?;
    Some(ontology)
}

#[tactic(auto, using(std::proofs::lemmas::List::length_push))]
fn with_role(alloc: Global) -> Option<Ontology>
    ensures concepts { IfSome result (λ o. length o.concepts ≡ 3) }
    ensures roles { IfSome result (λ o. length o.roles ≡ 1) }
    ensures individuals { IfSome result (λ o. length o.individuals ≡ 0) }
{
    let mut ontology = with_concepts(alloc)?;
    ontology.add_name(Kind::Role, b"runs").ok()?;
    Some(ontology)
}

#[tactic(auto, using(std::proofs::lemmas::List::length_push))]
fn named(alloc: Global) -> Option<Ontology>
    ensures concepts { IfSome result (λ o. length o.concepts ≡ 3) }
    ensures roles { IfSome result (λ o. length o.roles ≡ 1) }
    ensures individuals { IfSome result (λ o. length o.individuals ≡ 3) }
{
    let mut ontology = with_role(alloc)?;
    ontology.add_name(Kind::Individual, b"s1").ok()?;
    ontology.add_name(Kind::Individual, b"s2").ok()?;
    ontology.add_name(Kind::Individual, b"p1").ok()?;
    Some(ontology)
}

// `[A(?x)]`
fn instances_of(alloc: Global, concept: ConceptId) -> Result<Cq, Memory>
    ensures { IfOk result (λ q. q ≡ instances concept) }
{
    let head = Vec::from_array(alloc, [Term::Var(0)])?;
    let body = Vec::from_array(alloc, [Atom::Concept(concept, Term::Var(0))])?;
    Ok(Cq {
        head: Items::from_vec(head),
        body: Items::from_vec(body),
    })
}

fn server_then_failed_nodes(alloc: Global) -> Result<Vec<Node>, Memory>
    ensures { IfOk result (λ nodes. nodes.items ≡ server_then_failed) }
{
    let server = instances_of(alloc, SERVER)?;
    let failed = instances_of(alloc, FAILED)?;
    let nodes = Vec::from_array(
        alloc,
        [
            Node::Leaf(server),
            Node::Leaf(failed),
            Node::Next(1),
            Node::And(0, 2),
            Node::Once(3),
        ],
    )?;
    Ok(nodes)
}

// `once ([Server(?x)] & next [Failed(?x)])`
fn server_then_failed(alloc: Global) -> Result<Query, Memory>
    ensures vars { IfOk result (λ q. q.vars ≡ 1) }
    ensures nodes { IfOk result (λ q. q.nodes ≡ server_then_failed) }
{
    let name = Name::new(alloc, b"o")?;
    let nodes = server_then_failed_nodes(alloc)?;
    Ok(Query::new(name, 1, nodes))
}

// The query alone.
fn one_query(alloc: Global) -> Result<Vec<Query>, Memory>
    ensures many { IfOk result (λ queries. length queries.items ≡ 1) }
    ensures vars { IfOk result (λ queries. All (λ q. q.vars ≡ 1) queries.items) }
    ensures nodes { IfOk result (λ queries. All (λ q. q.nodes ≡ server_then_failed) queries.items) }
{
    let query = server_then_failed(alloc)?;
    let queries = Vec::from_array(alloc, [query])?;
    Ok(queries)
}

// The monitor of these queries, to which names may come.
fn opened(alloc: Global, ontology: Ontology, queries: Vec<Query>) -> Option<Monitor>
    requires concepts { length ontology.concepts ≡ 3 }
    requires roles { length ontology.roles ≡ 1 }
    requires individuals { length ontology.individuals ≡ 3 }
    requires many { length queries.items ≡ 1 }
    requires vars { All (λ q. q.vars ≡ 1) queries.items }
    requires nodes { All (λ q. q.nodes ≡ server_then_failed) queries.items }
    ensures concepts { IfSome result (λ m. length (setting_of m).ontology.concepts ≡ 3) }
    ensures individuals { IfSome result (λ m. length (setting_of m).ontology.individuals ≡ 3) }
    ensures strangers { IfSome result (λ m. m.strangers ≡ true) }
    ensures none { IfSome result (λ m. m.declared ≡ 0) }
{
    match open(alloc, ontology, queries, 1000) {
        Ok(monitor) => {
            let _ = monitor.kept();
            Some(monitor)
        }
        Err(_) => None,
    }
}

// The same where no name may come.
fn opened_closed(alloc: Global, ontology: Ontology, queries: Vec<Query>) -> Option<Monitor>
    requires concepts { length ontology.concepts ≡ 3 }
    requires roles { length ontology.roles ≡ 1 }
    requires individuals { length ontology.individuals ≡ 3 }
    requires many { length queries.items ≡ 1 }
    requires vars { All (λ q. q.vars ≡ 1) queries.items }
    requires nodes { All (λ q. q.nodes ≡ server_then_failed) queries.items }
    ensures concepts { IfSome result (λ m. length (setting_of m).ontology.concepts ≡ 3) }
    ensures individuals { IfSome result (λ m. length (setting_of m).ontology.individuals ≡ 3) }
{
    match open_closed(alloc, ontology, queries, 1000) {
        Ok(monitor) => Some(monitor),
        Err(_) => None,
    }
}

// The snapshot in which the first individual is a server.
fn one_server(alloc: Global) -> Result<Snapshot, Memory>
    ensures { IfOk result (λ snapshot. snapshot
        ≡ fact.Concept (record { 0 = 0 }) (element.Ind (record { 0 = 0 })) ∷ []) }
{
    let mut facts = Vec::new(alloc);
    facts.push(Fact::Concept(SERVER, Element::Ind(IndId(0))))?;
    Ok(Snapshot::new(facts))
}

// Takes the snapshot.
fn sees_one_server(alloc: Global, monitor: &mut Monitor) -> Option<()>
    requires concepts { length (setting_of monitor.old).ontology.concepts ≡ 3 }
    requires individuals { length (setting_of monitor.old).ontology.individuals ≡ 3 }
    ensures strangers { monitor.new.strangers ≡ monitor.old.strangers }
    ensures declared { monitor.new.declared ≡ monitor.old.declared }
{
    let snapshot = one_server(alloc).ok()?;
    let _ = monitor.accept(alloc, &snapshot).ok()?;
    Some(())
}

// The text of what is written of the monitor.
fn text_of(alloc: Global, monitor: &Monitor) -> Result<Vec<u8>, Memory> {
    let checkpoint = suspend(alloc, monitor)?;
    write(alloc, &checkpoint, &DIGEST)
}

// Suspends, begins anew, and goes on from what was written.
fn there_and_back(alloc: Global, monitor: &mut Monitor) -> Result<(), Memory>
    requires strangers { monitor.old.strangers ≡ true }
    requires none { monitor.old.declared ≡ 0 }
{
    let checkpoint = suspend(alloc, monitor)?;
    let mut begun = monitor.fresh(alloc)?;
    monitor.exchange(&mut begun);
    resume(alloc, &checkpoint, monitor)
}

#[test]
fn suspends_and_goes_on(rt: HostRuntime) {
    let alloc = rt.alloc();
    let ontology = named(alloc).expect(&rt, "memory");
    let queries = one_query(alloc).expect(&rt, "memory");
    let mut monitor = opened(alloc, ontology, queries).expect(&rt, "memory");
    assert!(rt; sees_one_server(alloc, &mut monitor) == Some(()));
    let text = text_of(alloc, &monitor).expect(&rt, "memory");
    assert_eq!(rt; text.as_slice(), OPEN);
    assert!(rt; there_and_back(alloc, &mut monitor).is_ok());
    let text = text_of(alloc, &monitor).expect(&rt, "memory");
    assert_eq!(rt; text.as_slice(), OPEN);
}

#[test]
fn suspends_where_no_name_may_come(rt: HostRuntime) {
    let alloc = rt.alloc();
    let ontology = named(alloc).expect(&rt, "memory");
    let queries = one_query(alloc).expect(&rt, "memory");
    let mut monitor = opened_closed(alloc, ontology, queries).expect(&rt, "memory");
    assert!(rt; sees_one_server(alloc, &mut monitor) == Some(()));
    let text = text_of(alloc, &monitor).expect(&rt, "memory");
    assert_eq!(rt; text.as_slice(), CLOSED);
}
