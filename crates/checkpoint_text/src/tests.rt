//! Worked examples.

use crate::checkpoint::{Checkpoint, Node, Nodes, Stretch};
use crate::digests::{digest_text, read_digest, sources_digest};
use crate::numbers::read_number;
use crate::writing::write;
use antichains::from_sets;
use dl_syntax::Name;
use formula_store::{Link, Memory};
use std::alloc::Global;

/// The digest of two empty texts: the SHA-256 of eight bytes 0.
const EMPTY: &[u8] = b"af5570f5a1810b7af78caf4bc70a660f0df51e42baf91d4de5b2328de0e83dfc";

/// One snapshot was accepted; of the one query the node at place 4 is kept, whose first tuple has
/// the list of the set 1, and the others the empty list.
fn worked(alloc: Global, names: Option<Vec<Name>>, others: u64) -> Result<Checkpoint, Memory> {
    let first = Stretch { count: 1, list: 0 };
    let rest = Stretch {
        count: others,
        list: 1,
    };
    let node = Node {
        place: 4,
        stretches: vec![in alloc; first, rest]?,
    };
    let query = Nodes {
        nodes: vec![in alloc; node]?,
    };
    let one = Link::new(alloc, from_sets(alloc, &[1])?)?;
    let none = Link::new(alloc, from_sets(alloc, &[])?)?;
    Ok(Checkpoint {
        names,
        accepted: 1,
        lists: vec![in alloc; one, none]?,
        queries: vec![in alloc; query]?,
    })
}

/// Nothing was accepted, of no queries.
fn empty(alloc: Global, names: Option<Vec<Name>>) -> Checkpoint {
    Checkpoint {
        names,
        accepted: 0,
        lists: Vec::new(alloc),
        queries: Vec::new(alloc),
    }
}

#[test]
fn digests_of_empty_texts(rt: HostRuntime) -> Result<(), Memory> {
    let digest = sources_digest(b"", b"");
    assert_eq!(rt; digest_text(&digest).as_slice(), EMPTY);
    assert!(rt; read_digest(EMPTY).is_some());
    assert!(rt; read_digest(b"00").is_none());
    Ok(())
}

#[test]
fn reads_numbers(rt: HostRuntime) -> Result<(), Memory> {
    assert_eq!(rt; read_number(b"18446744073709551615"), Some(u64::MAX));
    assert_eq!(rt; read_number(b"18446744073709551616"), None);
    assert_eq!(rt; read_number(b"0"), Some(0));
    assert_eq!(rt; read_number(b"00"), None);
    assert_eq!(rt; read_number(b"+1"), None);
    assert_eq!(rt; read_number(b""), None);
    Ok(())
}

#[test]
fn writes_where_no_name_may_come(rt: HostRuntime) -> Result<(), Memory> {
    let alloc = rt.alloc();
    let digest = sources_digest(b"", b"");
    let text = write(alloc, &worked(alloc, None, 2)?, &digest)?;
    assert_eq!(rt;
        text.as_slice(),
        b"tom-checkpoint 1
digest af5570f5a1810b7af78caf4bc70a660f0df51e42baf91d4de5b2328de0e83dfc
accepted 1
lists 2
list 1
list
query 1
node 4 1:0 2:1
end
"
            .as_slice()
    );
    let text = write(alloc, &empty(alloc, None), &digest)?;
    assert_eq!(rt;
        text.as_slice(),
        b"tom-checkpoint 1
digest af5570f5a1810b7af78caf4bc70a660f0df51e42baf91d4de5b2328de0e83dfc
accepted 0
lists 0
end
"
            .as_slice()
    );
    Ok(())
}

#[test]
fn writes_where_names_may_come(rt: HostRuntime) -> Result<(), Memory> {
    let alloc = rt.alloc();
    let digest = sources_digest(b"", b"");
    let text = write(alloc, &worked(alloc, Some(Vec::new(alloc)), 3)?, &digest)?;
    assert_eq!(rt;
        text.as_slice(),
        b"tom-checkpoint 2
digest af5570f5a1810b7af78caf4bc70a660f0df51e42baf91d4de5b2328de0e83dfc
accepted 1
names 0
lists 2
list 1
list
query 1
node 4 1:0 3:1
end
"
            .as_slice()
    );
    let names = vec![in alloc; Name::new(alloc, b"s3")?]?;
    let text = write(alloc, &empty(alloc, Some(names)), &digest)?;
    assert_eq!(rt;
        text.as_slice(),
        b"tom-checkpoint 2
digest af5570f5a1810b7af78caf4bc70a660f0df51e42baf91d4de5b2328de0e83dfc
accepted 0
names 1
name s3
lists 0
end
"
            .as_slice()
    );
    Ok(())
}
