//! Where walks come to, which chains grow, and what calls know.
use crate::drawings::{Drawing, KEY, MAX, MIN, Node, Owner, shared, three};
use crate::structures::{FORK, LIST, LOOSE};
use plank_pic::{KeyName, Literal, Outcome, Place};
use plank_prog::{Header, Reference};
use plank_truth::Calls;

const OWN: KeyName = KeyName::Own;

fn end_of(header: &Header, drawing: Drawing) -> Option<Outcome> {
    Some(drawing.of(header, Some(0))?.outcome(0, OWN))
}

// The first node leads to the second.
fn from_head(second: Node) -> Drawing {
    three(shared(MIN, Some(1)), second, shared(MAX, None))
}

#[test]
fn walks_end_leave_or_turn_in_a_circle(rt: HostRuntime) {
    let header = LOOSE.header(rt.alloc()).expect(&rt, "memory");
    let outside = Outcome::Leaves(Place {
        name: 1,
        pointer: 0,
    });
    for (second, end) in [
        (shared(2, Some(2)), Outcome::EndsAt(2)),
        (shared(KEY, Some(2)), Outcome::EndsAt(1)),
        (shared(2, None), Outcome::EndsAt(1)),
        (shared(2, Some(3)), outside),
        (shared(2, Some(0)), Outcome::Cycles),
        (shared(2, Some(1)), Outcome::Cycles),
    ] {
        assert_eq!(rt; end_of(&header, from_head(second)), Some(end));
    }
}

#[test]
fn of_two_pointers_that_admit_a_key_the_first_is_taken(rt: HostRuntime) {
    let header = FORK.header(rt.alloc()).expect(&rt, "memory");
    let (both, other) = (shared(MIN, Some(1)).or_to(2), shared(MAX, None));
    let drawing = three(both, other, other).in_set();
    assert_eq!(rt; end_of(&header, drawing), Some(Outcome::EndsAt(1)));
}

fn stop_of(header: &Header, drawing: Drawing, from: u8) -> Option<u8> {
    drawing.of(header, Some(0))?.stop(OWN, from, 2)
}

// Both marked nodes lead outside, and are chains to the last.
#[test]
fn two_chains_have_one_stop_node(rt: HostRuntime) {
    let header = LIST.header(rt.alloc()).expect(&rt, "memory");
    let (first, last) = (shared(MIN, Some(3)).marked(), shared(7, None));
    let second = shared(2, Some(3)).marked();
    let two = Drawing {
        chains: [(0, 2), (1, 2)],
        ..three(first, second, last)
    };
    assert_eq!(rt; end_of(&header, two), Some(Outcome::EndsAt(2)));
    assert_eq!(rt; stop_of(&header, two, 1), None);
    let stopping = two.stopping(5);
    let (from, to, slot) = (0, 2, 0);
    assert_eq!(rt;
        end_of(&header, stopping),
        Some(Outcome::StopsIn { from, to, slot })
    );
    assert_eq!(rt; stop_of(&header, stopping, 0), Some(slot));
    assert_eq!(rt; stop_of(&header, stopping, 1), Some(slot));
    match stopping.of(&header, Some(0)) {
        Some(picture) => assert!(rt; picture.lawful()),
        None => assert!(rt; false),
    }
}

fn grows(header: &Header, second: Node) -> Option<bool> {
    Some(from_head(second).of(header, Some(0))?.extends(1, 2))
}

#[test]
fn a_chain_grows_by_a_shared_frozen_end(rt: HostRuntime) {
    let header = LIST.header(rt.alloc()).expect(&rt, "memory");
    let end = shared(2, Some(2));
    assert_eq!(rt; grows(&header, end), Some(false));
    assert_eq!(rt; grows(&header, end.marked()), Some(true));
    assert_eq!(rt;
        grows(&header, end.marked().made_by(Owner::Own)),
        Some(false)
    );
    assert_eq!(rt; grows(&header, shared(2, Some(3)).marked()), Some(false));
}

// The own call, of a method with seven variables.
struct Own;

impl Calls for Own {
    ghost use Rattle.std.specs.Prelude.{true, unwrap_or};
    ghost use Rattle.plank_pic.specs.Calls.{own_name};

    ghost caller = { λ c. record { own = true; name = λ r. unwrap_or (own_name 7 r) 0 } };

    fn is_own(&self) -> bool {
        true
    }

    fn name_of(&self, reference: Reference) -> u8 {
        match reference {
            Reference::Root => 0,
            Reference::Variable(variable) => if variable < 7 { variable + 1 } else { 0 },
        }
    }
}

// The names p and q are null, and the root leads nowhere.
fn is_true(header: &Header, literal: Literal) -> Option<bool> {
    let head = shared(MIN, None);
    let drawing = three(head, head, head).named(3, [Some(0), None, None, None, None]);
    Some(drawing.of(header, Some(0))?.truth(&Own, literal))
}

#[test]
fn null_is_equal_to_null_and_nothing_else_is_said_of_it(rt: HostRuntime) {
    let header = LIST.header(rt.alloc()).expect(&rt, "memory");
    let (root, p, q) = (
        Reference::Root,
        Reference::Variable(0),
        Reference::Variable(1),
    );
    let pointer = 0;
    for (literal, so) in [
        (Literal::Same { left: p, right: q }, true),
        (
            Literal::Leads {
                name: root,
                pointer,
                to: p,
            },
            true,
        ),
        (
            Literal::Leads {
                name: p,
                pointer,
                to: q,
            },
            false,
        ),
        (Literal::KeyAtMost { left: p, right: q }, false),
        (Literal::KeyIsMin { name: p }, false),
        (Literal::KeyIsMin { name: root }, true),
        (Literal::Chain { from: p, to: q }, false),
    ] {
        assert_eq!(rt; is_true(&header, literal), Some(so));
    }
}
