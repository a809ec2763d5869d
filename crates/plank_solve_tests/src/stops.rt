//! Stop nodes of chains, which the search has to find.
use crate::asks::ask;
use crate::atoms::claim;
use crate::texts::{FROZEN, program_of};
use plank_pic::{KeyName, Part, Term};
use plank_query::{Claim, Goal, Situation};
use std::alloc::Global;

const KEY: KeyName = KeyName::Any;

fn picks(from: u8, to: u8, slot: u8) -> Claim {
    claim(
        Part::Picks {
            key: KEY,
            from,
            to,
            slot,
        },
        true,
    )
}

fn at_most(left: Term, right: Term) -> Part {
    Part::AtMost { left, right }
}

// Whether there is a lawful picture of the root and four variables of which these claims are right.
fn is_reached(alloc: Global, claims: &[Claim]) -> Option<bool> {
    let program = program_of(alloc, FROZEN)?;
    let goals = [Goal::Anything];
    let situation = Situation::Names { variables: 4 };
    let answers = ask(alloc, &program, situation, claims, &[], &goals)?;
    answers.first().copied()
}

// Two chains with a stop node each for one key: from p to q, and from r to s.
fn two_chains() -> [Claim; 2] {
    [picks(1, 2, 0), picks(3, 4, 1)]
}

#[test]
fn two_chains_may_have_two_stop_nodes_for_a_key(rt: HostRuntime) {
    let [first, second] = two_chains();
    assert_eq!(rt; is_reached(rt.alloc(), &[first, second]), Some(true));
    // of two keys, since the first chain ends before the second begins
    let apart = claim(at_most(Term::Node(2), Term::Node(3)), true);
    let same = claim(
        at_most(
            Term::Stop { key: KEY, slot: 1 },
            Term::Stop { key: KEY, slot: 0 },
        ),
        true,
    );
    assert_eq!(rt; is_reached(rt.alloc(), &[first, second, apart]), Some(true));
    assert_eq!(rt;
        is_reached(rt.alloc(), &[first, second, apart, same]),
        Some(false)
    );
    // one chain has one
    assert_eq!(rt;
        is_reached(rt.alloc(), &[first, picks(1, 2, 1)]),
        Some(false)
    );
}
