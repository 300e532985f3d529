//! Words and sources that are refused.
use super::{ONTOLOGY, ran, whole};
use crate::Status;
use std::test::Fail;

#[test]
fn sources_are_refused(rt: HostRuntime) -> Result<(), Fail> {
    let alloc = rt.alloc();
    let wrong: &[u8] = b"query f (?x) = [runs(?x)] ;";
    let twice: &[u8] = b"query f (?x) = [Failed(?x)] ;\nquery f () = true ;\n";
    let table: [(&str, &[u8], &[u8], Status, &[u8]); 6] = [
        ("watch O ", ONTOLOGY, b"", Status::Usage, b"tom: usage\n"),
        (
            "watch P Q",
            ONTOLOGY,
            b"",
            Status::ReadFault,
            b"tom: read fault\n",
        ),
        (
            "watch O P",
            ONTOLOGY,
            b"",
            Status::ReadFault,
            b"tom: read fault\n",
        ),
        (
            "watch O P",
            b"concept A\nconcept A\n",
            b"",
            Status::BadOntology,
            b"tom: ontology line 2: name-twice\n",
        ),
        (
            "watch O Q",
            ONTOLOGY,
            wrong,
            Status::BadQueries,
            b"tom: queries line 1: wrong-kind\n",
        ),
        (
            "rewrite O Q",
            ONTOLOGY,
            twice,
            Status::BadQueries,
            b"tom: queries line 2: name-twice\n",
        ),
    ];
    for (words, ontology, queries, wanted, line) in table {
        let outcome = ran(alloc, words, ontology, queries, whole(b"snap\n"))?;
        assert_eq!(rt; outcome.status, wanted);
        assert_eq!(rt; outcome.said.as_slice(), line);
        assert_eq!(rt; outcome.report.as_slice(), b"".as_slice());
    }
    Ok(())
}
