//! Worked examples.

use crate::verify_files;
use edge_io::{MemFiles, MemSink, MemSource};
use job_sources::Names;
use std::alloc::Global;
use std::test::Fail;
use stream_report::Ending;

const SERVERS: &[u8] =
    b"concept Server\nconcept Process\nrole runs\nindividual s1\nindividual s2\nsub Server some runs\nsub some inv runs Process\ndisjoint Server Process\n";

const RUNS_PROCESS: &[u8] = b"query t (?x) = [runs(?x,?y), Process(?y)] ;";

/// The files of the servers and of one query.
fn files_of(alloc: Global) -> Result<MemFiles, Fail> {
    let mut files = Vec::new(alloc);
    files.push((String::from_str(alloc, "o")?, SERVERS.to_vec(alloc)?))?;
    files.push((String::from_str(alloc, "q")?, RUNS_PROCESS.to_vec(alloc)?))?;
    Ok(MemFiles::new(files, Vec::new(alloc)))
}

/// What is told of the lines.
fn told(alloc: Global, lines: &[u8]) -> Result<Vec<u8>, Fail> {
    let names = Names {
        ontology: "o",
        queries: "q",
        owl: false,
    };
    let mut files = files_of(alloc)?;
    let mut input = MemSource::new(lines.to_vec(alloc)?, 7, [0].to_vec(alloc)?);
    let mut out = MemSink::new(alloc, 256, 9, [0].to_vec(alloc)?)?;
    match verify_files(alloc, names, &mut files, &mut input, &mut out) {
        Ending::Done => Ok(out.bytes().to_vec(alloc)?),
        _ => Ok(Vec::new(alloc)),
    }
}

// What s1 runs is the null that is made at place 1.
#[test]
fn verifies_answers(rt: HostRuntime) -> Result<(), Fail> {
    let alloc = rt.alloc();
    let right = b"proof answer t 0 s1\nsnap Server(s1)\nstep 0 1\nstep 1 2\nmatch s1 *1\nend\n";
    let wrong = b"proof answer t 0 s1\nsnap Server(s1)\nstep 0 1\nstep 1 2\nmatch s1 *2\nend\n";
    let yes = told(alloc, right)?;
    let no = told(alloc, wrong)?;
    assert_eq!(rt;
        yes.as_slice(),
        b"line 6 yes\nend yes 1 no 0 refused 0\n".as_slice()
    );
    assert_eq!(rt;
        no.as_slice(),
        b"line 6 no\nend yes 0 no 1 refused 0\n".as_slice()
    );
    Ok(())
}

// What a server runs is a process, and s2 is a server too.
#[test]
fn verifies_contradictions(rt: HostRuntime) -> Result<(), Fail> {
    let alloc = rt.alloc();
    let lines =
        b"line 1 refused contradiction 1\nproof clash 1\nsnap runs(s1,s2)Server(s2)\nstep 0 2\nat 1 2\nend\nend accepted 0 refused 1\n";
    let told = told(alloc, lines)?;
    assert_eq!(rt;
        told.as_slice(),
        b"line 6 yes\nend yes 1 no 0 refused 0\n".as_slice()
    );
    Ok(())
}

// A line that isn't allowed next drops the proof, and isn't read again.
#[test]
fn drops_proofs(rt: HostRuntime) -> Result<(), Fail> {
    let alloc = rt.alloc();
    let lines =
        b"proof answer t 1 s1\nproof clash 1\nproof clash 1\nend\nsnap\n\nproof clash 1\nsnap Server(s3)\n";
    let told = told(alloc, lines)?;
    let wanted =
        b"line 1 refused malformed\nline 3 refused malformed\nline 5 refused malformed\nline 8 refused undeclared s3\nend yes 0 no 0 refused 4\n";
    assert_eq!(rt; told.as_slice(), wanted.as_slice());
    Ok(())
}
