//! All histories of at most four positions.
use crate::agrees;
use crate::plain::Fact;
use dl_syntax::{Kind, Ontology};
use std::alloc::Global;
use tcq_reader::read_queries;
use tcq_syntax::Query;

// The concepts A and B and one individual, if there is memory.
fn small_ontology(alloc: Global) -> Option<Ontology> {
    let mut ontology = Ontology::new(alloc);
    let declared = ontology.add_name(Kind::Concept, b"A").is_ok()
        && ontology.add_name(Kind::Concept, b"B").is_ok()
        && ontology.add_name(Kind::Individual, b"a").is_ok();
    if declared { Some(ontology) } else { None }
}

fn fact_of(code: u32) -> Fact {
    (code % 2 == 1, code / 2 % 2 == 1)
}

// Whether the query agrees on each history of four positions, and so on each shorter one.
fn query_agrees(alloc: Global, query: &Query) -> Option<bool> {
    for code in 0..256 {
        let facts = [
            fact_of(code),
            fact_of(code / 4),
            fact_of(code / 16),
            fact_of(code / 64),
        ];
        if !agrees(alloc, query, &facts)? {
            return Some(false);
        }
    }
    Some(true)
}

// Whether each query of a text agrees.
fn all_agree(alloc: Global, text: &[u8]) -> Option<bool> {
    let ontology = small_ontology(alloc)?;
    let queries = read_queries(alloc, text, &ontology).ok()?;
    for query in &queries {
        if !query_agrees(alloc, query)? {
            return Some(false);
        }
    }
    Some(true)
}

#[test]
fn each_kind(rt: HostRuntime) {
    let text = b"query a (?x) = true ;
query b (?x) = false ;
query c (?x) = [A(?x)] ;
query d (?x) = [A(?x)] & [B(?x)] ;
query e (?x) = [A(?x)] | [B(?x)] ;
query f (?x) = next [A(?x)] ;
query g (?x) = wnext [A(?x)] ;
query h (?x) = prev [A(?x)] ;
query i (?x) = wprev [A(?x)] ;
query j (?x) = [A(?x)] until [B(?x)] ;
query k (?x) = [A(?x)] since [B(?x)] ;
query l (?x) = eventually [A(?x)] ;
query m (?x) = always [A(?x)] ;
query n (?x) = once [A(?x)] ;
query o (?x) = historically [A(?x)] ;
";
    assert!(rt; all_agree(rt.alloc(), text) == Some(true));
}

#[test]
fn kinds_inside_kinds(rt: HostRuntime) {
    let text = b"query a (?x) = once ([A(?x)] & next [B(?x)]) ;
query b (?x) = prev ([A(?x)] until [B(?x)]) ;
query c (?x) = historically ([A(?x)] | wnext [B(?x)]) ;
query d (?x) = [A(?x)] since eventually [B(?x)] ;
query e (?x) = wprev always [A(?x)] ;
query f (?x) = prev wprev next next [A(?x)] ;
query g (?x) = (next [A(?x)]) since (wnext [B(?x)]) ;
query h (?x) = once always ([A(?x)] | next once [B(?x)]) ;
";
    assert!(rt; all_agree(rt.alloc(), text) == Some(true));
}
