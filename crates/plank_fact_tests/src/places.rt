//! Where some facts stand in their tables.
use crate::texts::{FROZEN, SMALLEST, program_of};
use plank_fact::{Fact, fact, number};
use plank_pic::Literal;
use plank_prog::Reference;

const ROOT: Reference = Reference::Root;

const P: Reference = Reference::Variable(0);

const Q: Reference = Reference::Variable(1);

const R: Reference = Reference::Variable(2);

const T: Reference = Reference::Variable(4);

const U: Reference = Reference::Variable(5);

const SMALLEST_FACTS: [(u32, Option<Fact>); 6] = [
    (0, Some(Fact::Now(Literal::Null { name: ROOT }))),
    (12, Some(Fact::Now(Literal::Visited { name: ROOT }))),
    (14, Some(Fact::Now(Literal::NotInSet))),
    (15, Some(Fact::Past(Literal::Visited { name: ROOT }))),
    (19, Some(Fact::Now(Literal::Unspent))),
    (20, None),
];

#[test]
fn facts_of_the_smallest_text_stand_so(rt: HostRuntime) {
    let program = program_of(rt.alloc(), SMALLEST).expect(&rt, "a program");
    for (n, wanted) in SMALLEST_FACTS {
        assert_eq!(rt; fact(&program, 0, n), wanted);
    }
    assert_eq!(rt; fact(&program, 1, 0), None);
}

const FROZEN_FACTS: [(Fact, Option<u32>); 12] = [
    (
        Fact::Now(Literal::Same {
            left: ROOT,
            right: P,
        }),
        Some(0),
    ),
    (Fact::Now(Literal::Same { left: T, right: U }), Some(20)),
    // a pair stands once, by the name that comes first
    (
        Fact::Now(Literal::Same {
            left: P,
            right: ROOT,
        }),
        None,
    ),
    (
        Fact::Now(Literal::KeyBelow {
            left: P,
            right: ROOT,
        }),
        Some(62),
    ),
    (Fact::Now(Literal::KeyBelow { left: P, right: P }), None),
    (
        Fact::Now(Literal::Leads {
            name: ROOT,
            pointer: 0,
            to: ROOT,
        }),
        Some(210),
    ),
    (
        Fact::Now(Literal::Leads {
            name: Q,
            pointer: 0,
            to: R,
        }),
        Some(227),
    ),
    (
        Fact::Now(Literal::Leads {
            name: Q,
            pointer: 1,
            to: R,
        }),
        None,
    ),
    (Fact::Now(Literal::Chain { from: U, to: T }), Some(330)),
    (Fact::Past(Literal::Visited { name: ROOT }), Some(331)),
    // what is said of a lock or a chain is never past
    (Fact::Past(Literal::Chain { from: U, to: T }), None),
    (Fact::Now(Literal::Locked { name: ROOT }), None),
];

#[test]
fn facts_of_links_and_chains_stand_so(rt: HostRuntime) {
    let program = program_of(rt.alloc(), FROZEN).expect(&rt, "a program");
    for (fact, wanted) in FROZEN_FACTS {
        assert_eq!(rt; number(&program, 0, &fact), wanted);
    }
}
