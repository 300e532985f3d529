//! The three texts of a made input.

ghost use Rattle.std.specs.Prelude.{◌≡◌, ◌++◌, [], IfOk};
ghost use Rattle.stream_maker.specs.Ontology.{ontology_text};
ghost use Rattle.stream_maker.specs.Snapshots.{queries_text, stream_text};

use crate::Memory;
use crate::draws::Generator;
use crate::ontology::append_ontology;
use std::alloc::Global;

/// The texts of an ontology, of its queries and of a stream.
#[derive(Drop)]
pub struct Sources {
    pub ontology: Vec<u8>,
    pub queries: Vec<u8>,
    pub stream: Vec<u8>,
}

/// The ontology, which is the same for each seed: 40 concepts, 15 roles, 60 individuals, 120
/// inclusions and 30 clashes.
pub fn make_ontology(alloc: Global) -> Result<Vec<u8>, Memory>
    ensures { IfOk result (λ made. made.items ≡ ontology_text) }
{
    let mut ontology = Vec::new(alloc);
    append_ontology(&mut ontology)?;
    Ok(ontology)
}

/// The three queries, which are the same for each seed.
pub fn make_queries(alloc: Global) -> Result<Vec<u8>, Memory>
    ensures { IfOk result (λ made. made.items ≡ queries_text) }
{
    Vec::from_slice(
        alloc,
        b"query q0 (?x ?y) = [r0(?x,?y)] & once [C9(?x)] ;\nquery q1 (?x ?y) = prev ([C1(?x)] until [C21(?y)]) ;\nquery q2 (?x ?y) = once ([C3(?x)] & next [C23(?y)]) ;\n",
    )
}

/// The stream: so many lines, drawn from a generator that begins with the seed.
pub fn make_stream(alloc: Global, seed: u32, count: u32) -> Result<Vec<u8>, Memory>
    ensures { IfOk result (λ made. made.items ≡ stream_text seed count) }
{
    let mut generator = Generator::new(seed);
    let mut stream = Vec::new(alloc);
    for line in 0..count {
        generator.append_snapshot(&mut stream)?;
    }
    Ok(stream)
}

/// A well-formed input, the same for the same seed and count: its stream has `count` snapshots of
/// 50 facts each, a fact of a concept and one of a role in turn.
pub fn make(alloc: Global, seed: u32, count: u32) -> Result<Sources, Memory>
    ensures ontology { IfOk result (λ made. made.ontology.items ≡ ontology_text) }
    ensures queries { IfOk result (λ made. made.queries.items ≡ queries_text) }
    ensures stream { IfOk result (λ made. made.stream.items ≡ stream_text seed count) }
{
    let ontology = make_ontology(alloc)?;
    let queries = make_queries(alloc)?;
    let stream = make_stream(alloc, seed, count)?;
    Ok(Sources {
        ontology,
        queries,
        stream,
    })
}
