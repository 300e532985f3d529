//! Rewritings that are told.
use super::{ONTOLOGY, ran, whole};
use crate::Status;
use std::test::Fail;

#[test]
fn each_leaf_is_told(rt: HostRuntime) -> Result<(), Fail> {
    let alloc = rt.alloc();
    let table: [(&[u8], &[u8], &[u8]); 2] = [
        (
            ONTOLOGY,
            b"query t (?x) = [runs(?x,?y)] | next [Failed(s1)] ;",
            b"leaf t 0 1\ncq (?v0) = [runs(?v0,?v1)]\nleaf t 1 1\ncq () = [Failed(s1)]\n",
        ),
        (
            b"concept A\nconcept B\nrole r\nsub A some r B\n",
            b"query t (?x) = [r(?x,?y), B(?y)] ;",
            b"leaf t 0 2\ncq (?v0) = [A(?v0)]\ncq (?v0) = [r(?v0,?v1), B(?v1)]\n",
        ),
    ];
    for (ontology, queries, wanted) in table {
        let outcome = ran(alloc, "rewrite O Q", ontology, queries, whole(b""))?;
        assert_eq!(rt; outcome.status, Status::Done);
        assert_eq!(rt; outcome.report.as_slice(), wanted);
    }
    Ok(())
}
