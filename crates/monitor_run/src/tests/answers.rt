//! Answers that follow from an ontology, over time, and of individuals that come with the stream.
use super::{ran, whole};
use crate::Status;
use std::test::Fail;

const ONTOLOGY: &[u8] =
    b"concept A\nconcept B\nconcept C\nindividual a\nindividual b\nsub A B\ndisjoint B C\n";

#[test]
fn streams_are_answered(rt: HostRuntime) -> Result<(), Fail> {
    let alloc = rt.alloc();
    let table: [(&[u8], &[u8], &[u8]); 5] = [
        (
            b"query f (?x) = once [B(?x)] ;",
            b"snap A(a)\nsnap\n",
            b"line 1 accepted 1\nanswer f a\nline 2 accepted 2\nanswer f a\nend accepted 2 refused 0\n",
        ),
        (
            b"query f (?x) = prev [B(?x)] ;",
            b"snap B(a)\nsnap A(b) C(b)\nsnap\n",
            b"line 1 accepted 1\nline 2 refused contradiction 1\nline 3 accepted 2\nanswer f a\nend accepted 2 refused 1\n",
        ),
        (
            b"query f (?x) = prev [B(?x)] ;",
            b"individual c\nsnap B(c)\nsnap\n",
            b"line 1 declared c\nline 2 accepted 1\nline 3 accepted 2\nanswer f c\nend accepted 2 refused 0\n",
        ),
        (
            b"query f (?x) = once [B(a)] ;",
            b"snap B(a)\nindividual c\nsnap\n",
            b"line 1 accepted 1\nanswer f a\nanswer f b\nline 2 declared c\nline 3 accepted 2\nanswer f a\nanswer f b\nanswer f c\nend accepted 2 refused 0\n",
        ),
        (
            b"query f (?x) = once [B(?x)] ;",
            b"individual a\nindividual\n",
            b"line 1 refused name-twice a\nline 2 refused malformed\nend accepted 0 refused 2\n",
        ),
    ];
    for (queries, stream, wanted) in table {
        let outcome = ran(alloc, "watch O Q", ONTOLOGY, queries, whole(stream))?;
        assert_eq!(rt; outcome.status, Status::Done);
        assert_eq!(rt; outcome.report.as_slice(), wanted);
    }
    Ok(())
}
