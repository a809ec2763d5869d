//! Questions about steps, one of each kind of action.
use crate::asks::ask;
use crate::atoms::{atom, bits, claim, common, goals, reached, said};
use crate::sketches::{SKETCHES, Sketch, parts_of, two_names};
use crate::texts::{PAIR, program_of, turn_of};
use plank_parts::Shape;
use plank_pic::{Exit, KeyName, Moved, Part};
use plank_prog::{Action, MethodKind, Program};
use plank_query::{Claim, Goal, Moment, OwnTurn, Situation};
use plank_whole::Picture;
use std::alloc::Global;

// What is claimed before a step, by atoms: p is of a node of its own, whose key lies above the walked one and below the
// greatest, and no key is in the set. The node is shared and the root's node leads to it, or the own call has made it.
const LINKED: [(u8, bool); 7] = [
    (0, false),
    (1, false),
    (3, true),
    (5, false),
    (8, false),
    (13, true),
    (20, false),
];

const MADE: [(u8, bool); 7] = [
    (0, false),
    (1, false),
    (4, true),
    (5, false),
    (8, false),
    (12, true),
    (20, false),
];

fn is_claimed(claimed: &[(u8, bool)], said: u32) -> bool {
    for (number, value) in claimed {
        if (*number < 32 && said & (1 << *number) != 0) != *value {
            return false;
        }
    }
    true
}

fn claims(alloc: Global, claimed: &[(u8, bool)]) -> Option<Vec<Claim>> {
    let mut claims = common(alloc)?;
    claims.push(claim(atom(19), false)).ok()?;
    for (number, value) in claimed {
        claims.push(claim(atom(*number), *value)).ok()?;
    }
    Some(claims)
}

// Whether p is null, or its node is shared or the own thread's.
fn is_usable(picture: &Picture<'_>) -> bool {
    let name = 1;
    picture.has(Part::Null { name })
        || picture.has(Part::Shared { name })
        || picture.has(Part::Mine { name })
}

// Every picture from which a step is looked for, and every possible picture after one, by its number. The own key is
// in the set neither before nor after.
#[derive(Drop)]
struct Looked<'a> {
    shape: Shape<'a>,
    parts: Vec<Part>,
    befores: Vec<Picture<'a>>,
    afters: Vec<u32>,
}

fn look<'a>(alloc: Global, program: &'a Program, claimed: &[(u8, bool)]) -> Option<Looked<'a>> {
    let shape = two_names(&program.header)?;
    let parts = parts_of(alloc, shape)?;
    let mut befores = Vec::new(alloc);
    let mut afters = Vec::new(alloc);
    for number in 0..SKETCHES {
        let Some(sketch) = Sketch::of(number) else {
            continue;
        };
        if !sketch.is_quiet() {
            continue;
        }
        let picture = sketch.picture(shape, parts.as_slice());
        if !picture.possible() {
            continue;
        }
        afters.push(number).ok()?;
        if is_claimed(claimed, said(&picture)) && is_usable(&picture) && picture.lawful() {
            befores.push(picture).ok()?;
        }
    }
    Some(Looked {
        shape,
        parts,
        befores,
        afters,
    })
}

// What is found of a step: which atoms may not be said after it, whether there is one, whether a key may move out
// of sight, and whether an upkeep may change the set.
#[derive(Clone, Copy, PartialEq, Eq, Debug)]
struct Found {
    after: u32,
    apart: bool,
    wrong: bool,
}

fn moved(before: &Picture<'_>, turn: &OwnTurn<'_>) -> Moved {
    match turn.action {
        Action::Block(block) if turn.exit == Exit::Yes && block.writes.len() != 0 => {
            before.moved(turn, block.writes.as_slice(), KeyName::Any)
        }
        _ => Moved::Untouched,
    }
}

impl Found {
    // With a step more.
    fn and(self, before: &Picture<'_>, turn: &OwnTurn<'_>, after: &Picture<'_>) -> Found {
        let (apart, wrong) = match moved(before, turn) {
            Moved::Untouched | Moved::Same => (false, false),
            Moved::BothEnd { now, .. } => {
                (false, before.has(Part::InSet { key: KeyName::Any }) != now)
            }
            Moved::Apart => (true, true),
        };
        Found {
            after: self.after | reached(said(after)),
            apart: self.apart || apart,
            wrong: self.wrong || wrong,
        }
    }
}

impl Looked<'_> {
    fn add(&self, found: Found, turn: &OwnTurn<'_>, after: &Picture<'_>) -> Found {
        let mut found = found;
        for before in &self.befores {
            if before.step_to(turn, after) {
                found = found.and(before, turn, after);
            }
        }
        found
    }

    // What all steps of a turn reach.
    fn found(&self, turn: &OwnTurn<'_>) -> Found {
        let mut found = Found {
            after: 0,
            apart: false,
            wrong: false,
        };
        for number in &self.afters {
            if let Some(sketch) = Sketch::of(*number) {
                let after = sketch.picture(self.shape, self.parts.as_slice());
                found = self.add(found, turn, &after);
            }
        }
        found
    }
}

// What the search reaches.
fn by_search<'q>(
    alloc: Global,
    program: &'q Program,
    turn: OwnTurn<'q>,
    claimed: &[(u8, bool)],
) -> Option<Found> {
    let before = claims(alloc, claimed)?;
    let after = [claim(atom(19), false), claim(Part::Spent, false)];
    let mut goals = goals(alloc, Moment::After)?;
    goals.push(Goal::MovesApart).ok()?;
    goals.push(Goal::TurnsWrongly(MethodKind::Upkeep)).ok()?;
    let answers = ask(
        alloc,
        program,
        Situation::Step(turn),
        before.as_slice(),
        &after,
        goals.as_slice(),
    )?;
    let bits = bits(answers.as_slice());
    Some(Found {
        after: bits & ((1 << 22) - 1),
        apart: bits & (1 << 22) != 0,
        wrong: bits & (1 << 23) != 0,
    })
}

// Steps at the first statements of methods, by an exit: in order, a variable takes a node or null, a fresh node, a
// flag after a test, the other exit of the same, and pointers.
const STEPS: [(u32, bool); 8] = [
    (0, true),
    (1, true),
    (2, true),
    (3, true),
    (3, false),
    (4, true),
    (5, true),
    (6, true),
];

// Of each step, what is found by a look at each, and by the search.
fn both(alloc: Global, claimed: &[(u8, bool)]) -> Option<Vec<(Found, Found)>> {
    let program = program_of(alloc, PAIR)?;
    let looked = look(alloc, &program, claimed)?;
    let mut answers = Vec::new(alloc);
    for (method, yes) in STEPS {
        let turn = turn_of(&program, method, yes)?;
        let searched = by_search(alloc, &program, turn, claimed)?;
        answers.push((looked.found(&turn), searched)).ok()?;
    }
    Some(answers)
}

#[test]
fn steps_from_a_node_that_is_shared_are_found(rt: HostRuntime) {
    for (looked, searched) in &both(rt.alloc(), &LINKED).expect(&rt, "answers") {
        assert_eq!(rt; *looked, *searched);
        // there is a step at all
        assert!(rt; looked.after & (1 << 21) != 0);
    }
}

#[test]
fn steps_from_a_node_that_is_made_are_found(rt: HostRuntime) {
    for (looked, searched) in &both(rt.alloc(), &MADE).expect(&rt, "answers") {
        assert_eq!(rt; *looked, *searched);
        assert!(rt; looked.after & (1 << 21) != 0);
    }
}
