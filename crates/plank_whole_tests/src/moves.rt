//! How a write moves a key.
use crate::drawings::{Drawing, KEY, MAX, MIN, Node, read_aloud, shared, three};
use crate::structures::{LIST, LOOSE};
use crate::turns::{P, Q, own};
use plank_pic::{KeyName, Moved};
use plank_prog::{Action, Header, Reference, Value, Write};

fn moved(header: &Header, drawing: Drawing, write: Write) -> Option<Moved> {
    let action = Action::Return(false);
    let picture = drawing.of(header, Some(0))?;
    Some(picture.moved(&own(&action), &[write], KeyName::Own))
}

fn set_next(node: Reference, value: Value) -> Write {
    Write::Pointer {
        node,
        pointer: 0,
        value,
    }
}

fn mark(node: Reference) -> Write {
    Write::Flag {
        node,
        flag: 0,
        value: true,
    }
}

// The head leads to p; q leads outside.
fn from_head(p: Node) -> Drawing {
    three(shared(MIN, Some(1)), p, shared(3, Some(3)))
}

fn both_end(was: bool, now: bool) -> Option<Moved> {
    Some(Moved::BothEnd { was, now })
}

#[test]
fn a_node_that_the_key_does_not_visit_leaves_it_untouched(rt: HostRuntime) {
    let header = LOOSE.header(rt.alloc()).expect(&rt, "memory");
    let aside = from_head(shared(2, Some(3)).unvisited());
    let write = set_next(P, Value::Null);
    assert_eq!(rt; moved(&header, aside, write), Some(Moved::Untouched));
    // also where the walk from the node would enter a chain
    let frozen = shared(2, Some(3)).marked().unvisited();
    assert_eq!(rt;
        moved(&header, from_head(frozen).chained(), write),
        Some(Moved::Untouched)
    );
}

#[test]
fn a_key_that_leaves_to_one_node_both_times_stays(rt: HostRuntime) {
    let header = LOOSE.header(rt.alloc()).expect(&rt, "memory");
    let out = from_head(shared(2, Some(3)));
    assert_eq!(rt;
        moved(&header, out, set_next(P, Value::Node(Q))),
        Some(Moved::Same)
    );
    assert_eq!(rt;
        moved(&header, out, set_next(P, Value::Null)),
        Some(Moved::Apart)
    );
}

#[test]
fn a_key_that_turns_in_a_circle_both_times_stays(rt: HostRuntime) {
    let header = LOOSE.header(rt.alloc()).expect(&rt, "memory");
    let circle = from_head(shared(2, Some(0)));
    let to_itself = set_next(P, Value::Node(P));
    assert_eq!(rt; moved(&header, circle, to_itself), Some(Moved::Same));
    assert_eq!(rt;
        moved(&header, circle, set_next(P, Value::Node(Q))),
        Some(Moved::Apart)
    );
    assert_eq!(rt;
        moved(&header, from_head(shared(2, None)), to_itself),
        Some(Moved::Apart)
    );
}

#[test]
fn where_a_key_ends_both_times_it_is_asked_whether_it_is_there(rt: HostRuntime) {
    let header = LIST.header(rt.alloc()).expect(&rt, "memory");
    let found = three(
        shared(MIN, Some(1)),
        shared(KEY, Some(2)),
        shared(MAX, None),
    );
    assert_eq!(rt; moved(&header, found, mark(P)), both_end(true, false));
    assert_eq!(rt;
        moved(&header, found, set_next(Reference::Root, Value::Node(Q))),
        both_end(true, false)
    );
    assert_eq!(rt;
        moved(&header, found, set_next(P, Value::Null)),
        both_end(true, true)
    );
    let past = three(
        shared(MIN, Some(2)),
        shared(KEY, Some(2)).unvisited(),
        shared(MAX, None),
    );
    assert_eq!(rt;
        moved(&header, past, set_next(Reference::Root, Value::Node(P))),
        both_end(false, true)
    );
}

#[test]
fn a_frozen_node_that_is_written_before_a_chain_tells_nothing(rt: HostRuntime) {
    let header = LIST.header(rt.alloc()).expect(&rt, "memory");
    assert_eq!(rt; moved(&header, read_aloud(), mark(P)), Some(Moved::Apart));
    assert_eq!(rt;
        moved(&header, read_aloud(), mark(Reference::Root)),
        both_end(false, false)
    );
}

#[test]
fn a_key_may_end_at_a_stop_node_and_then_at_a_name(rt: HostRuntime) {
    let header = LIST.header(rt.alloc()).expect(&rt, "memory");
    let stopping = read_aloud().stopping(5);
    assert_eq!(rt;
        moved(&header, stopping, mark(Reference::Root)),
        both_end(false, false)
    );
    assert_eq!(rt;
        moved(&header, stopping, set_next(Reference::Root, Value::Node(Q))),
        both_end(false, false)
    );
}
