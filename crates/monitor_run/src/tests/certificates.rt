//! Answers and contradictions that are explained, and proofs that are verified.

use super::{ran, whole};
use crate::Status;
use std::test::Fail;

const ONTOLOGY: &[u8] =
    b"concept Server\nconcept Process\nconcept Failed\nrole runs\nindividual s1\nindividual s2\nindividual p1\nsub Server some runs\nsub some inv runs Process\ndisjoint Server Process\n";

const QUERIES: &[u8] = b"query t (?x) = [runs(?x,?y), Process(?y)] ;\n";

#[test]
fn proofs_are_verified(rt: HostRuntime) -> Result<(), Fail> {
    let alloc = rt.alloc();
    let proof: &[u8] =
        b"proof answer t 0 s1\nsnap Server(s1)\nstep 0 1\nstep 1 2\nmatch s1 *1\nend\n";
    let shown = ran(alloc, "verify O Q", ONTOLOGY, QUERIES, whole(proof))?;
    assert_eq!(rt; shown.status, Status::Done);
    assert_eq!(rt;
        shown.report.as_slice(),
        b"line 6 yes\nend yes 1 no 0 refused 0\n".as_slice()
    );
    let other: &[u8] =
        b"proof answer t 0 s1\nsnap Server(s1)\nstep 0 1\nstep 1 2\nmatch s1 *2\nend\n";
    let not_shown = ran(alloc, "verify O Q", ONTOLOGY, QUERIES, whole(other))?;
    assert_eq!(rt; not_shown.status, Status::Done);
    assert_eq!(rt;
        not_shown.report.as_slice(),
        b"line 6 no\nend yes 0 no 1 refused 0\n".as_slice()
    );
    Ok(())
}

#[test]
fn explanations_are_verified(rt: HostRuntime) -> Result<(), Fail> {
    let alloc = rt.alloc();
    let stream: &[u8] = b"snap Server(s1)\nindividual s3\n\nsnap runs(s1,s2) Server(s2)";
    let explained = ran(alloc, "explain O Q", ONTOLOGY, QUERIES, whole(stream))?;
    assert_eq!(rt; explained.status, Status::Done);
    let told: &[u8] =
        b"line 1 accepted 1\nproof answer t 0 s1\nsnap Server(s1)\nstep 0 1\nstep 1 2\nmatch s1 *1\nend\nline 2 refused malformed\nline 4 refused contradiction 1\nproof clash 1\nsnap runs(s1,s2)Server(s2)\nstep 0 2\nat 1 2\nend\nend accepted 1 refused 2\n";
    assert_eq!(rt; explained.report.as_slice(), told);
    let verified = ran(alloc, "verify O Q", ONTOLOGY, QUERIES, whole(told))?;
    assert_eq!(rt; verified.status, Status::Done);
    assert_eq!(rt;
        verified.report.as_slice(),
        b"line 7 yes\nline 14 yes\nend yes 2 no 0 refused 0\n".as_slice()
    );
    Ok(())
}
