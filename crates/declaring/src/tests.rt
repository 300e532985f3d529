//! Individuals are declared one after another.
ghost use Rattle.std.specs.Prelude.{IfOk};
ghost use Rattle.dl_syntax.specs.Names.{IsDeclarable};

use crate::{DeclareFault, declare};
use dl_syntax::{Kind, Memory, Name, Ontology};
use std::alloc::Global;

// The name `s3`.
fn third(alloc: Global) -> Result<Name, Memory>
    ensures { IfOk result IsDeclarable }
{
    Name::new(alloc, b"s3")
}

#[test]
fn declares_once(rt: HostRuntime) {
    let mut ontology = Ontology::new(rt.alloc());
    let name = third(rt.alloc()).expect(&rt, "memory");
    assert!(rt; declare(&mut ontology, &[], &[name]) == Ok(()));
    assert!(rt; ontology.count(Kind::Individual) == 1);
}

#[test]
fn refuses_a_name_that_is_declared(rt: HostRuntime) {
    let mut ontology = Ontology::new(rt.alloc());
    let first = third(rt.alloc()).expect(&rt, "memory");
    let second = third(rt.alloc()).expect(&rt, "memory");
    let names = [first, second];
    assert!(rt; declare(&mut ontology, &[], &names) == Err(DeclareFault::NameTwice(1)));
    assert!(rt; ontology.count(Kind::Individual) == 0);
}
