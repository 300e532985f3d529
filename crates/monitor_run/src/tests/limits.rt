//! Sources that lead to very many queries, and a chase that can't be made level by level.
ghost use Rattle.std.specs.Prelude.{◌<◌};

use super::{ran, whole};
use crate::Status;
use std::alloc::Global;
use std::test::Fail;

const CONCEPTS: &[u8] =
    b"concept A00\nconcept A01\nconcept A02\nconcept A03\nconcept A04\nconcept A05\nconcept A06\nconcept A07\n";

const ATOMS: &[u8] =
    b"query q (?x) = [A00(?x), A01(?x), A02(?x), A03(?x), A04(?x), A05(?x), A06(?x), A07(?x)] ;";

const PATH: &[u8] =
    b"query t (?x) = [r00(?x,?a), r01(?a,?b), r02(?b,?c), r03(?c,?d), r04(?d,?e), r05(?e,?f), r06(?f,?g), r07(?g,?h)] ;";

/// Appends a text and the two digits of a number.
fn put(text: &mut Vec<u8>, before: &[u8], number: u8) -> Result<(), Fail>
    requires { number < 100 }
{
    text.extend_from_slice(before)?;
    text.push(b'0' + number / 10)?;
    text.push(b'0' + number % 10)?;
    Ok(())
}

/// Eight concepts, each with five below it.
fn forty_below(alloc: Global) -> Result<Vec<u8>, Fail> {
    let mut text = CONCEPTS.to_vec(alloc)?;
    for number in 0..40 {
        put(&mut text, b"concept B", number)?;
        put(&mut text, b"\nsub B", number)?;
        put(&mut text, b" A", number / 5)?;
        text.push(b'\n')?;
    }
    Ok(text)
}

/// A concept, each of whose members has a partner in it by each of 64 roles.
fn partners_by_each_role(alloc: Global) -> Result<Vec<u8>, Fail> {
    let mut text = b"concept A\nindividual a\n".to_vec(alloc)?;
    for number in 0..64 {
        put(&mut text, b"role r", number)?;
        put(&mut text, b"\nsub A some r", number)?;
        put(&mut text, b"\nsub some inv r", number)?;
        text.extend_from_slice(b" A\n")?;
    }
    Ok(text)
}

#[test]
fn too_many_rewritings_are_refused(rt: HostRuntime) -> Result<(), Fail> {
    let alloc = rt.alloc();
    let ontology = forty_below(alloc)?;
    let outcome = ran(alloc, "rewrite O Q", &ontology, ATOMS, whole(b""))?;
    assert_eq!(rt; outcome.status, Status::BadOntology);
    assert_eq!(rt;
        outcome.said.as_slice(),
        b"tom: ontology: too-many-rewritings\n".as_slice()
    );
    assert_eq!(rt; outcome.report.as_slice(), b"".as_slice());
    Ok(())
}

#[test]
fn wide_chases_are_answered(rt: HostRuntime) -> Result<(), Fail> {
    let alloc = rt.alloc();
    let ontology = partners_by_each_role(alloc)?;
    let outcome = ran(alloc, "watch O Q", &ontology, PATH, whole(b"snap A(a)\n"))?;
    assert_eq!(rt; outcome.status, Status::Done);
    assert_eq!(rt;
        outcome.report.as_slice(),
        b"line 1 accepted 1\nanswer t a\nend accepted 1 refused 0\n".as_slice()
    );
    Ok(())
}
