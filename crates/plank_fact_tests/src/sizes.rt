//! How many facts methods have, and that each has its number.
use crate::texts::{FROZEN, GREATEST, LAZY, SMALLEST, SORTED, TREE, program_of};
use plank_fact::{fact, number};
use plank_prog::Program;

/// How many facts the first method has, each of which has its number.
fn count(program: &Program) -> Option<u32> {
    for n in 0..1024 {
        let Some(fact) = fact(program, 0, n) else {
            return Some(n);
        };
        if number(program, 0, &fact)? != n {
            return None;
        }
    }
    None
}

#[test]
fn methods_have_so_many_facts(rt: HostRuntime) {
    let cases: [(&[u8], u32); 6] = [
        (SMALLEST, 20),
        (SORTED, 118),
        (LAZY, 138),
        (TREE, 154),
        (FROZEN, 356),
        (GREATEST, 630),
    ];
    for (text, wanted) in cases {
        let program = program_of(rt.alloc(), text).expect(&rt, "a program");
        assert_eq!(rt; count(&program), Some(wanted));
    }
}
