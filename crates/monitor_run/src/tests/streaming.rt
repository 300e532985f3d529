//! Mixed streams, each watched as if it were alone.

use super::{ONTOLOGY, ran, whole};
use crate::Status;
use std::test::Fail;

#[test]
fn each_stream_has_its_report(rt: HostRuntime) -> Result<(), Fail> {
    let alloc = rt.alloc();
    let queries: &[u8] = b"query p (?x) = prev [Failed(?x)] ;\n";
    let stream: &[u8] = b"@a snap Failed(s1)\n@b snap\n@a snap\nsnap\n";
    let outcome = ran(alloc, "streams O Q", ONTOLOGY, queries, whole(stream))?;
    assert_eq!(rt; outcome.status, Status::Done);
    assert_eq!(rt;
        outcome.report.as_slice(),
        b"@a line 1 accepted 1\n@b line 1 accepted 1\n@a line 2 accepted 2\n@a answer p s1\nline 4 refused no-stream\n@a end accepted 2 refused 0\n@b end accepted 1 refused 0\nend streams 2 refused 1\n".as_slice()
    );
    Ok(())
}
