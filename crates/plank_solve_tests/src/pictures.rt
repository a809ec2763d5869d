//! Questions about pictures: one claim besides those that all have, and what then may not be so.
use crate::asks::ask;
use crate::atoms::{ATOMS, atom, bits, claim, common, goals, reached, said};
use crate::sketches::{SKETCHES, Sketch, parts_of, two_names};
use crate::texts::{PAIR, program_of};
use plank_prog::Program;
use plank_query::{Moment, Situation};
use std::alloc::Global;

// What the pictures reach of which an atom is said, and those of which it is not: a word for each.
type Found = [u32; 42];

fn add(found: &mut Found, said: u32) {
    for number in 0..ATOMS {
        let at = if said & (1 << number) != 0 {
            number as usize
        } else {
            number as usize + 21
        };
        if let Some(word) = found.get_mut(at) {
            *word |= reached(said);
        }
    }
}

// What all lawful pictures of two names reach, of which the common claims are right.
fn by_looking(alloc: Global, program: &Program) -> Option<Found> {
    let shape = two_names(&program.header)?;
    let parts = parts_of(alloc, shape)?;
    let mut found = [0; 42];
    for number in (0..SKETCHES).step_by(2) {
        if let Some(sketch) = Sketch::of(number) {
            let picture = sketch.picture(shape, parts.as_slice());
            if picture.lawful() {
                add(&mut found, said(&picture));
            }
        }
    }
    Some(found)
}

// What the search reaches where an atom is said, or is not.
fn by_search(alloc: Global, program: &Program, number: u8, value: bool) -> Option<u32> {
    let mut before = common(alloc)?;
    before.push(claim(atom(number), value)).ok()?;
    let goals = goals(alloc, Moment::Before)?;
    let situation = Situation::Names { variables: 1 };
    let answers = ask(
        alloc,
        program,
        situation,
        before.as_slice(),
        &[],
        goals.as_slice(),
    )?;
    Some(bits(answers.as_slice()))
}

#[test]
fn a_search_reaches_what_a_look_at_each_picture_does(rt: HostRuntime) {
    let program = program_of(rt.alloc(), PAIR).expect(&rt, "a program");
    let found = by_looking(rt.alloc(), &program).expect(&rt, "memory");
    for number in 0..ATOMS {
        assert_eq!(rt;
            by_search(rt.alloc(), &program, number, true),
            found.get(number as usize).copied()
        );
        assert_eq!(rt;
            by_search(rt.alloc(), &program, number, false),
            found.get(number as usize + 21).copied()
        );
    }
}
