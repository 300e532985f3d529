//! The draws of seed 7, and the first bytes that they give.
use crate::draws::Generator;
use crate::make;

#[test]
fn draws_from_seed_seven(rt: HostRuntime) {
    let mut generator = Generator::new(7);
    assert_eq!(rt; generator.draw(40), 4);
    assert_eq!(rt; generator.state, 1282168116);
    assert_eq!(rt; generator.draw(30), 26);
    assert_eq!(rt; generator.state, 642666333);
}

#[test]
fn makes_one_snapshot(rt: HostRuntime) {
    let made = make(rt.alloc(), 7, 1).expect(&rt, "memory");
    assert!(rt; made.ontology.as_slice().starts_with(b"concept C0\n"));
    assert!(rt; made.queries.as_slice().starts_with(b"query q0 (?x ?y) = "));
    assert!(rt; made.stream.as_slice().starts_with(b"snap C4(i26) r"));
}
