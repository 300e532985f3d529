//! A worked example.

use crate::audit_stream;
use dl_syntax::{Kind, Ontology};
use edge_io::{MemSink, MemSource};
use std::alloc::Global;
use std::test::Fail;
use stream_report::Ending;

/// Declares the concept `Server` and the individual `s1`.
fn server(alloc: Global) -> Option<Ontology> {
    let mut ontology = Ontology::new(alloc);
    ontology.add_name(Kind::Concept, b"Server").ok()?;
    ontology.add_name(Kind::Individual, b"s1").ok()?;
    Some(ontology)
}

// A model without a snapshot, one that lacks it, and one with a further element.
#[test]
fn tells_what_is_found(rt: HostRuntime) -> Result<(), Fail> {
    let alloc = rt.alloc();
    let ontology = server(alloc).expect(&rt, "memory");
    let lines =
        b"model Server(s1)\nsnap Server(s1)\nmodel Server(u)\nsnap Server(s1)\nmodel Server(s1) Server(u)";
    let mut input = MemSource::new(lines.to_vec(alloc)?, 9, [0].to_vec(alloc)?);
    let mut out = MemSink::new(alloc, 256, 9, [0].to_vec(alloc)?)?;
    let ending: Ending<bool> = audit_stream(alloc, &ontology, &[], &mut input, &mut out);
    let told =
        b"line 1 refused malformed\nline 3 missing 0\nline 5 model\nend models 2 refused 1\n";
    assert!(rt; ending == Ending::Done);
    assert_eq!(rt; out.bytes(), told.as_slice());
    Ok(())
}
