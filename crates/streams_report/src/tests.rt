//! The worked examples.
ghost use Rattle.std.specs.Prelude.{◌<◌};

use crate::streams_files;
use edge_io::{MemFiles, MemSink, MemSource};
use job_sources::{Names, Refusal};
use std::alloc::Global;
use std::test::Fail;
use stream_report::Ending;

const ONTOLOGY: &[u8] =
    b"concept Server\nconcept Process\nconcept Failed\nrole runs\nindividual s1\nindividual s2\nindividual p1\nsub Server some runs\nsub some inv runs Process\ndisjoint Server Process\n";

const QUERIES: &[u8] = b"query p (?x) = prev [Failed(?x)] ;\n";

/// How a run ended, and what it wrote.
#[derive(Drop)]
struct Outcome {
    ending: Ending<Refusal>,
    report: Vec<u8>,
}

/// Watches the streams of the input by these sources.
fn ran(alloc: Global, ontology: &[u8], queries: &[u8], stream: &[u8]) -> Result<Outcome, Fail> {
    let mut files = Vec::new(alloc);
    files.push((String::from_str(alloc, "O")?, ontology.to_vec(alloc)?))?;
    files.push((String::from_str(alloc, "Q")?, queries.to_vec(alloc)?))?;
    let mut files = MemFiles::new(files, Vec::new(alloc));
    let mut input = MemSource::new(stream.to_vec(alloc)?, 7, Vec::new(alloc));
    let mut out = MemSink::new(alloc, 8192, 5, Vec::new(alloc))?;
    let names = Names {
        ontology: "O",
        queries: "Q",
        owl: false,
    };
    let ending = streams_files(alloc, names, &mut files, &mut input, &mut out);
    let report = out.bytes().to_vec(alloc)?;
    Ok(Outcome { ending, report })
}

/// Appends a text, the two digits of a number and another text.
fn put(text: &mut Vec<u8>, before: &[u8], number: u8, after: &[u8]) -> Result<(), Fail>
    requires { number < 100 }
{
    text.extend_from_slice(before)?;
    text.push(b'0' + number / 10)?;
    text.push(b'0' + number % 10)?;
    text.extend_from_slice(after)?;
    Ok(())
}

#[test]
fn each_stream_has_its_history(rt: HostRuntime) -> Result<(), Fail> {
    let alloc = rt.alloc();
    let stream = b"@a snap Failed(s1)\n@b snap\n@a snap\nsnap\n";
    let outcome = ran(alloc, ONTOLOGY, QUERIES, stream)?;
    let wanted =
        b"@a line 1 accepted 1\n@b line 1 accepted 1\n@a line 2 accepted 2\n@a answer p s1\nline 4 refused no-stream\n@a end accepted 2 refused 0\n@b end accepted 1 refused 0\nend streams 2 refused 1\n";
    assert!(rt; outcome.ending == Ending::Done);
    assert_eq!(rt; outcome.report.as_slice(), wanted.as_slice());
    Ok(())
}

// A refused line has the number of its stream's lines, a blank rest counts, and no name may come.
#[test]
fn lines_are_refused_as_of_one_stream(rt: HostRuntime) -> Result<(), Fail> {
    let alloc = rt.alloc();
    let stream = b"\n@a snap Server(s1) Process(s1)\n@b \n@a individual s3\n@b snap Up(s1)\n@b";
    let outcome = ran(alloc, ONTOLOGY, QUERIES, stream)?;
    let wanted =
        b"@a line 1 refused contradiction 1\n@a line 2 refused closed\n@b line 2 refused unknown Up\n@a end accepted 0 refused 2\n@b end accepted 0 refused 1\nend streams 2 refused 0\n";
    assert!(rt; outcome.ending == Ending::Done);
    assert_eq!(rt; outcome.report.as_slice(), wanted.as_slice());
    Ok(())
}

#[test]
fn there_are_at_most_64_streams(rt: HostRuntime) -> Result<(), Fail> {
    let alloc = rt.alloc();
    let mut stream = Vec::new(alloc);
    let mut wanted = Vec::new(alloc);
    for number in 0..64 {
        put(&mut stream, b"@n", number, b" snap\n")?;
        put(&mut wanted, b"@n", number, b" line 1 accepted 1\n")?;
    }
    stream.extend_from_slice(b"@z snap\n@n07 snap\n")?;
    wanted.extend_from_slice(b"line 65 refused too-many-streams z\n@n07 line 2 accepted 2\n")?;
    for number in 0..64 {
        let end: &[u8] = if number == 7 {
            b" end accepted 2 refused 0\n"
        } else {
            b" end accepted 1 refused 0\n"
        };
        put(&mut wanted, b"@n", number, end)?;
    }
    wanted.extend_from_slice(b"end streams 64 refused 1\n")?;
    let outcome = ran(alloc, ONTOLOGY, QUERIES, &stream)?;
    assert!(rt; outcome.ending == Ending::Done);
    assert_eq!(rt; outcome.report.as_slice(), wanted.as_slice());
    Ok(())
}

// Four answer variables over 32 individuals make 1,048,576 units.
#[test]
fn large_queries_are_refused(rt: HostRuntime) -> Result<(), Fail> {
    let alloc = rt.alloc();
    let mut ontology = b"concept A\n".to_vec(alloc)?;
    for number in 0..32 {
        put(&mut ontology, b"individual i", number, b"\n")?;
    }
    let most = b"query u (?x ?y ?z ?w) = [A(?x)] ;\n";
    let outcome = ran(alloc, &ontology, most, b"")?;
    assert!(rt; outcome.ending == Ending::Done);
    assert_eq!(rt;
        outcome.report.as_slice(),
        b"end streams 0 refused 0\n".as_slice()
    );
    let more = b"query u (?x ?y ?z ?w) = [A(?x)] ;\nquery v () = true ;\n";
    let outcome = ran(alloc, &ontology, more, b"")?;
    assert!(rt; outcome.ending == Ending::Refused(Refusal::TooLarge(1_048_577)));
    assert_eq!(rt; outcome.report.as_slice(), b"".as_slice());
    Ok(())
}
