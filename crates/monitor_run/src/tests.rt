//! Tests of the public calls, and the worked examples.

ghost use Rattle.std.specs.Prelude.{◌≤◌};

mod answers;
mod certificates;
mod containing;
mod documents;
mod limits;
mod refusals;
mod rewriting;
mod streaming;

use crate::{Status, run};
use edge_io::{MemFiles, MemSink, MemSource};
use std::alloc::Global;
use std::test::Fail;

const ONTOLOGY: &[u8] =
    b"concept Server\nconcept Process\nconcept Failed\nrole runs\nindividual s1\nindividual s2\nindividual p1\n";

const QUERIES: &[u8] = b"query f (?x) = [Failed(?x)] ;\n";

/// What a run did: its status, what it wrote and what it said.
#[derive(Drop)]
struct Outcome {
    status: Status,
    report: Vec<u8>,
    said: Vec<u8>,
}

/// A stream, how many bytes of it a read gives and a write takes, and which of these calls fail.
#[derive(Clone, Copy)]
struct Ports<'a> {
    stream: &'a [u8],
    read_step: usize,
    reads: &'a [u64],
    write_step: usize,
    writes: &'a [u64],
}

/// A stream that comes whole, with no fault.
fn whole(stream: &[u8]) -> Ports<'_>
    ensures read { 1 ≤ result.read_step }
    ensures write { 1 ≤ result.write_step }
{
    Ports {
        stream,
        read_step: 1024,
        reads: &[],
        write_step: 1024,
        writes: &[],
    }
}

/// The files O and Q with these texts.
fn files_of(alloc: Global, ontology: &[u8], queries: &[u8]) -> Result<MemFiles, Fail> {
    let mut files = Vec::new(alloc);
    files.push((String::from_str(alloc, "O")?, ontology.to_vec(alloc)?))?;
    files.push((String::from_str(alloc, "Q")?, queries.to_vec(alloc)?))?;
    Ok(MemFiles::new(files, Vec::new(alloc)))
}

/// The words of a line, with a blank between each two.
fn words_of(alloc: Global, line: &str) -> Result<Vec<String>, Fail> {
    let mut words = Vec::new(alloc);
    for word in line.split(' ') {
        words.push(String::from_str(alloc, word)?)?;
    }
    Ok(words)
}

/// Runs a command with files, and a stream that comes through ports.
fn ran(
    alloc: Global,
    line: &str,
    ontology: &[u8],
    queries: &[u8],
    ports: Ports<'_>,
) -> Result<Outcome, Fail>
    requires read { 1 ≤ ports.read_step }
    requires write { 1 ≤ ports.write_step }
{
    let mut files = files_of(alloc, ontology, queries)?;
    let words = words_of(alloc, line)?;
    let reads = ports.reads.to_vec(alloc)?;
    let mut input = MemSource::new(ports.stream.to_vec(alloc)?, ports.read_step, reads);
    let writes = ports.writes.to_vec(alloc)?;
    let mut out = MemSink::new(alloc, 1024, ports.write_step, writes)?;
    let mut err = MemSink::new(alloc, 256, 256, Vec::new(alloc))?;
    let status = run(alloc, &words, &mut files, &mut input, &mut out, &mut err);
    Ok(Outcome {
        status,
        report: out.bytes().to_vec(alloc)?,
        said: err.bytes().to_vec(alloc)?,
    })
}

#[test]
fn lines_come_in_any_pieces(rt: HostRuntime) -> Result<(), Fail> {
    let alloc = rt.alloc();
    let stream: &[u8] = b"# start\r\n\r\nsnap Failed(s1)\r\nsnap";
    let wanted: &[u8] =
        b"line 3 accepted 1\nanswer f s1\nline 4 accepted 2\nend accepted 2 refused 0\n";
    for count in 1..42 {
        let mut ports = whole(stream);
        ports.read_step = count;
        let outcome = ran(alloc, "watch O Q", ONTOLOGY, QUERIES, ports)?;
        assert_eq!(rt; outcome.status, Status::Done);
        assert_eq!(rt; outcome.report.as_slice(), wanted);
    }
    Ok(())
}

#[test]
fn faults_leave_what_was_told(rt: HostRuntime) -> Result<(), Fail> {
    let alloc = rt.alloc();
    let mut ports = whole(b"snap Failed(s1)\n");
    ports.write_step = 4;
    ports.writes = &[3];
    let outcome = ran(alloc, "watch O Q", ONTOLOGY, QUERIES, ports)?;
    assert_eq!(rt; outcome.status, Status::WriteFault);
    assert_eq!(rt; outcome.report.as_slice(), b"line 1 a".as_slice());
    let mut ports = whole(b"snap Failed(s1)\nsnap\n");
    ports.read_step = 16;
    ports.reads = &[2];
    let outcome = ran(alloc, "watch O Q", ONTOLOGY, QUERIES, ports)?;
    assert_eq!(rt; outcome.status, Status::ReadFault);
    assert_eq!(rt;
        outcome.report.as_slice(),
        b"line 1 accepted 1\nanswer f s1\n".as_slice()
    );
    Ok(())
}
