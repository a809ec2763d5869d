//! From lawful pictures there are steps: for each kind of action one, and what it makes of each part.
use crate::drawings::{Drawing, KEY, MIN, Node, Owner, read_aloud, shared, three};
use crate::structures::LIST;
use crate::turns::{P, Q, Turn, block, next_of_p, own, writing};
use plank_prog::{Action, FlagOperand, Header, Reference, Test, Value, Write};

// Whether the one is lawful, and the turn leads to the other.
fn leads(header: &Header, turn: Turn<'_>, before: Drawing, after: Drawing) -> Option<bool> {
    let picture = before.of(header, Some(0))?;
    Some(picture.lawful() && picture.step_to(&turn, &after.of(header, Some(0))?))
}

// Whether it does so with the binds left out.
fn writes(header: &Header, turn: Turn<'_>, before: Drawing, after: Drawing) -> Option<bool> {
    let picture = before.of(header, Some(0))?;
    Some(picture.lawful() && picture.write_to(&turn, &after.of(header, Some(0))?))
}

// Three nodes in a row, named root, p and q.
fn row() -> Drawing {
    three(shared(MIN, Some(1)), shared(2, Some(2)), shared(7, None))
}

// The same, with a name more for the last.
fn row_and_read() -> Drawing {
    row().named(4, [Some(0), Some(1), Some(2), Some(2), None])
}

impl Drawing {
    // p is of another node.
    fn p_of(self, node: Option<u8>) -> Drawing {
        let [root, _, q, read, last] = self.names;
        Drawing {
            names: [root, node, q, read, last],
            ..self
        }
    }

    fn with_head(self, head: Node) -> Drawing {
        let [_, second, third, last] = self.nodes;
        Drawing {
            nodes: [head, second, third, last],
            ..self
        }
    }

    fn with_second(self, second: Node) -> Drawing {
        let [head, _, third, last] = self.nodes;
        Drawing {
            nodes: [head, second, third, last],
            ..self
        }
    }

    fn with_third(self, third: Node) -> Drawing {
        let [head, second, _, last] = self.nodes;
        Drawing {
            nodes: [head, second, third, last],
            ..self
        }
    }

    fn with_last(self, last: Node) -> Drawing {
        let [head, second, third, _] = self.nodes;
        Drawing {
            nodes: [head, second, third, last],
            ..self
        }
    }
}

fn copy(from: Value) -> Action {
    Action::Copy {
        to: 0,
        from,
        next: 0,
    }
}

#[test]
fn a_variable_takes_a_value_and_its_node_may_lose_its_name(rt: HostRuntime) {
    let header = LIST.header(rt.alloc()).expect(&rt, "memory");
    let (null, of_q) = (copy(Value::Null), copy(Value::Node(Q)));
    assert_eq!(rt;
        leads(&header, own(&null), row(), row().p_of(None)),
        Some(true)
    );
    assert_eq!(rt;
        leads(&header, own(&of_q), row(), row().p_of(Some(2))),
        Some(true)
    );
    assert_eq!(rt; leads(&header, own(&of_q), row(), row()), Some(false));
}

#[test]
fn a_fresh_node_has_the_argument_as_its_key_and_no_pointer(rt: HostRuntime) {
    let header = LIST.header(rt.alloc()).expect(&rt, "memory");
    let make = Action::New { to: 0, next: 0 };
    let after = row().p_of(Some(3));
    let fresh = shared(KEY, None).made_by(Owner::Own);
    assert_eq!(rt;
        leads(&header, own(&make), row(), after.with_last(fresh)),
        Some(true)
    );
    let other = shared(5, None).made_by(Owner::Own);
    assert_eq!(rt;
        leads(&header, own(&make), row(), after.with_last(other)),
        Some(false)
    );
    let led = shared(KEY, Some(2)).made_by(Owner::Own);
    assert_eq!(rt;
        leads(&header, own(&make), row(), after.with_last(led)),
        Some(false)
    );
}

#[test]
fn a_return_takes_no_step(rt: HostRuntime) {
    let header = LIST.header(rt.alloc()).expect(&rt, "memory");
    let end = Action::Return(true);
    assert_eq!(rt; leads(&header, own(&end), row(), row()), Some(false));
}

fn p_is_marked() -> Test {
    Test::Flag {
        flag: FlagOperand { node: P, flag: 0 },
        set: true,
    }
}

#[test]
fn a_test_says_by_which_exit_a_block_is_left(rt: HostRuntime) {
    let header = LIST.header(rt.alloc()).expect(&rt, "memory");
    let asked = block(rt.alloc(), Some(p_is_marked()), None, None).expect(&rt, "memory");
    let marked = row().with_second(shared(2, Some(2)).marked()).chained();
    assert_eq!(rt; leads(&header, own(&asked), row(), row()), Some(false));
    assert_eq!(rt; leads(&header, own(&asked).no(), row(), row()), Some(true));
    assert_eq!(rt; leads(&header, own(&asked), marked, marked), Some(true));
    assert_eq!(rt;
        leads(&header, own(&asked).no(), marked, marked),
        Some(false)
    );
    // null has no flag that could be read
    let null = row().p_of(None);
    assert_eq!(rt; leads(&header, own(&asked), null, null), Some(false));
    assert_eq!(rt; leads(&header, own(&asked).no(), null, null), Some(false));
}

#[test]
fn a_node_that_is_marked_begins_a_chain(rt: HostRuntime) {
    let header = LIST.header(rt.alloc()).expect(&rt, "memory");
    let mark = writing(
        rt.alloc(),
        Write::Flag {
            node: P,
            flag: 0,
            value: true,
        },
    )
    .expect(&rt, "memory");
    let marked = row().with_second(shared(2, Some(2)).marked());
    assert_eq!(rt;
        leads(&header, own(&mark), row(), marked.chained()),
        Some(true)
    );
    assert_eq!(rt; leads(&header, own(&mark), row(), marked), Some(false));
}

#[test]
fn whose_lock_it_is_says_the_thread_that_takes_it(rt: HostRuntime) {
    let header = LIST.header(rt.alloc()).expect(&rt, "memory");
    let take = writing(rt.alloc(), Write::TakeLock { node: P }).expect(&rt, "memory");
    let free = writing(rt.alloc(), Write::FreeLock { node: P }).expect(&rt, "memory");
    let mine = row().with_second(shared(2, Some(2)).locked_by(Owner::Own));
    let others = row().with_second(shared(2, Some(2)).locked_by(Owner::Other));
    assert_eq!(rt; leads(&header, own(&take), row(), mine), Some(true));
    assert_eq!(rt; leads(&header, own(&take), row(), others), Some(false));
    assert_eq!(rt;
        leads(&header, own(&take).of_other(), row(), others),
        Some(true)
    );
    assert_eq!(rt; leads(&header, own(&free), mine, row()), Some(true));
}

fn set_next(node: Reference, to: Reference) -> Write {
    Write::Pointer {
        node,
        pointer: 0,
        value: Value::Node(to),
    }
}

#[test]
fn whether_a_node_on_the_old_way_alone_is_visited_is_free(rt: HostRuntime) {
    let header = LIST.header(rt.alloc()).expect(&rt, "memory");
    let cut = writing(rt.alloc(), set_next(Reference::Root, Q)).expect(&rt, "memory");
    let after = row().with_head(shared(MIN, Some(2)));
    let aside = shared(2, Some(2)).unvisited();
    assert_eq!(rt; leads(&header, own(&cut), row(), after), Some(true));
    assert_eq!(rt;
        leads(&header, own(&cut), row(), after.with_second(aside)),
        Some(true)
    );
    // that of a node on the new way is not
    let last = shared(7, None).unvisited();
    assert_eq!(rt;
        leads(&header, own(&cut), row(), after.with_third(last)),
        Some(false)
    );
}

#[test]
fn the_step_that_is_read_aloud_is_one(rt: HostRuntime) {
    let header = LIST.header(rt.alloc()).expect(&rt, "memory");
    let swing = writing(rt.alloc(), set_next(Reference::Root, Q)).expect(&rt, "memory");
    let turn = own(&swing).of_other();
    let after = read_aloud().with_head(shared(MIN, Some(2)));
    let aside = shared(2, Some(3)).marked().unvisited();
    assert_eq!(rt; leads(&header, turn, read_aloud(), after), Some(true));
    assert_eq!(rt;
        leads(&header, turn, read_aloud(), after.with_second(aside)),
        Some(true)
    );
}

#[test]
fn a_node_that_is_pointed_to_is_shared_and_its_key_in_the_set(rt: HostRuntime) {
    let header = LIST.header(rt.alloc()).expect(&rt, "memory");
    let publish = writing(rt.alloc(), set_next(P, Q)).expect(&rt, "memory");
    let names = [Some(0), Some(1), Some(3), Some(2), None];
    let fresh = shared(KEY, Some(2));
    let before = row().named(4, names).with_last(fresh.made_by(Owner::Own));
    // where the key is in the set, its walk does not come to a greater key
    let cut_off = before.with_third(shared(7, None).unvisited());
    let after = cut_off
        .with_second(shared(2, Some(3)))
        .with_last(fresh)
        .in_set();
    assert_eq!(rt;
        leads(&header, own(&publish), before, after.spent()),
        Some(true)
    );
    assert_eq!(rt; leads(&header, own(&publish), before, after), Some(false));
    let still_own = after.spent().with_last(fresh.made_by(Owner::Own));
    assert_eq!(rt;
        leads(&header, own(&publish), before, still_own),
        Some(false)
    );
}

#[test]
fn a_bind_takes_what_its_pointer_leads_to(rt: HostRuntime) {
    let header = LIST.header(rt.alloc()).expect(&rt, "memory");
    let advance = block(rt.alloc(), None, Some(next_of_p()), None).expect(&rt, "memory");
    let before = row_and_read();
    assert_eq!(rt;
        leads(&header, own(&advance), before, before.p_of(Some(2))),
        Some(true)
    );
    // the last name has to be of the node that is read
    let unread = row().named(4, [Some(0), Some(1), Some(2), Some(1), None]);
    assert_eq!(rt;
        leads(&header, own(&advance), unread, unread.p_of(Some(1))),
        Some(false)
    );
}

#[test]
fn a_block_binds_and_writes_at_once(rt: HostRuntime) {
    let header = LIST.header(rt.alloc()).expect(&rt, "memory");
    let write = Some(set_next(Reference::Root, Q));
    let both = block(rt.alloc(), None, Some(next_of_p()), write).expect(&rt, "memory");
    let before = row_and_read();
    let after = before.with_head(shared(MIN, Some(2)));
    // the node that p had is cut out, and has no name any more
    assert_eq!(rt;
        leads(&header, own(&both), before, after.p_of(Some(2))),
        Some(true)
    );
    assert_eq!(rt; leads(&header, own(&both), before, after), Some(false));
    // the write alone leaves it its name
    assert_eq!(rt; writes(&header, own(&both), before, after), Some(true));
    assert_eq!(rt;
        writes(&header, own(&both), before, after.p_of(Some(2))),
        Some(false)
    );
}
