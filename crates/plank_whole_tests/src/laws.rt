//! Which pictures are lawful.
use crate::drawings::{Drawing, MIN, Owner, read_aloud, shared, three};
use crate::structures::{ENDS, LIST};
use plank_prog::Header;

fn is_lawful(header: &Header, root: Option<u8>, drawing: Drawing) -> Option<bool> {
    Some(drawing.of(header, root)?.lawful())
}

// Two names, of which the first leads to the second and that one outside.
fn pair(first: u8, second: u8) -> Drawing {
    let (p, c) = (shared(first, Some(1)), shared(second, Some(2)));
    three(p.unvisited(), c.unvisited(), c).named(2, [Some(0), Some(1), None, None, None])
}

#[test]
fn a_pointer_leads_to_a_greater_key(rt: HostRuntime) {
    let header = ENDS.header(rt.alloc()).expect(&rt, "memory");
    assert_eq!(rt; is_lawful(&header, None, pair(2, 6)), Some(true));
    assert_eq!(rt; is_lawful(&header, None, pair(6, 2)), Some(false));
}

#[test]
fn the_picture_that_is_read_aloud_is_lawful(rt: HostRuntime) {
    let header = LIST.header(rt.alloc()).expect(&rt, "memory");
    let (head, cut, last) = (
        shared(MIN, Some(1)),
        shared(2, Some(3)).marked(),
        shared(6, None),
    );
    let aloud = read_aloud();
    assert_eq!(rt; is_lawful(&header, Some(0), aloud), Some(true));
    // the end of the walk has another key
    assert_eq!(rt; is_lawful(&header, Some(0), aloud.in_set()), Some(false));
    // the walk goes through the chain, and begins at the root
    for changed in [
        three(head, cut, last.unvisited()).chained(),
        three(head, cut.unvisited(), last).chained(),
        three(head.unvisited(), cut, last).chained(),
        // a node that is not marked begins no chain
        three(head, shared(2, Some(3)), last).chained(),
        // a chain does not end at a node that is not shared, and no other node leads to one
        three(head, cut, last.made_by(Owner::Own)).chained(),
        three(head, cut.made_by(Owner::Own), last),
    ] {
        assert_eq!(rt; is_lawful(&header, Some(0), changed), Some(false));
    }
}
