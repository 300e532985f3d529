//! Containments that are told, and queries that are refused.
use super::{ran, whole};
use crate::Status;
use std::test::Fail;

const ONTOLOGY: &[u8] =
    b"concept Server\nconcept Process\nconcept Failed\nrole runs\nindividual s1\nsub Server some runs\nsub some inv runs Process\ndisjoint Server Process\n";

#[test]
fn each_pair_is_told(rt: HostRuntime) -> Result<(), Fail> {
    let alloc = rt.alloc();
    let table: [(&[u8], &[u8]); 3] = [
        (
            b"query a (?x) = [Server(?x)] ; query b (?x) = [runs(?x,?y)] ;",
            b"contain a b yes\ncontain b a no snap runs(*0,*1) row *0\n",
        ),
        (
            b"query c (?x) = [Server(?x), Process(?x)] ; query f (?x) = [Failed(?x)] ;",
            b"contain c f yes\ncontain f c no snap Failed(*0) row *0\n",
        ),
        (
            b"query p () = [Failed(s1)] ; query q (?x) = [Failed(?x)] ; query r () = [Failed(?x)] ;",
            b"contain p r yes\ncontain r p no snap Failed(*0) row\n",
        ),
    ];
    for (queries, wanted) in table {
        let outcome = ran(alloc, "contain O Q", ONTOLOGY, queries, whole(b""))?;
        assert_eq!(rt; outcome.status, Status::Done);
        assert_eq!(rt; outcome.report.as_slice(), wanted);
    }
    Ok(())
}

#[test]
fn the_first_query_that_is_no_leaf_is_refused(rt: HostRuntime) -> Result<(), Fail> {
    let alloc = rt.alloc();
    let queries: &[u8] =
        b"query a (?x) = [Server(?x)] ; query b (?x ?y) = [Failed(?x)] ; query c () = next [Failed(s1)] ;";
    let outcome = ran(alloc, "contain O Q", ONTOLOGY, queries, whole(b""))?;
    assert_eq!(rt; outcome.status, Status::BadQueries);
    assert_eq!(rt;
        outcome.said.as_slice(),
        b"tom: queries: not-a-leaf b\n".as_slice()
    );
    assert_eq!(rt; outcome.report.as_slice(), b"".as_slice());
    Ok(())
}
