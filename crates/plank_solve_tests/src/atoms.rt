//! What tests ask of a picture of two names, by numbers.
use plank_pic::{KeyName, Part, Place, Term};
use plank_query::{Claim, Goal, Moment, Predicate};
use plank_whole::Picture;
use std::alloc::Global;

/// How many atoms there are.
pub const ATOMS: u8 = 21;

const ROOT: Place = Place {
    name: 0,
    pointer: 0,
};

const P: Place = Place {
    name: 1,
    pointer: 0,
};

const OWN: Term = Term::Walked(KeyName::Own);

const NODE: Term = Term::Node(1);

fn at_most(left: Term, right: Term) -> Part {
    Part::AtMost { left, right }
}

// What is said of p alone.
fn atom_of_node(number: u8) -> Part {
    let name = 1;
    match number {
        0 => Part::Null { name },
        1 => Part::Same { left: 0, right: 1 },
        2 => Part::Flag { name, flag: 0 },
        3 => Part::Shared { name },
        4 => Part::Mine { name },
        5 => at_most(NODE, OWN),
        6 => at_most(OWN, NODE),
        7 => at_most(NODE, Term::Min),
        8 => at_most(Term::Max, NODE),
        9 => Part::Visits {
            key: KeyName::Own,
            name,
        },
        _ => Part::Visits {
            key: KeyName::Any,
            name,
        },
    }
}

/// The part of a number.
pub fn atom(number: u8) -> Part {
    match number {
        11 => Part::PointerNull { at: ROOT },
        12 => Part::Beyond { at: ROOT },
        13 => Part::Leads { at: ROOT, to: 1 },
        14 => Part::PointerNull { at: P },
        15 => Part::Beyond { at: P },
        16 => Part::Leads { at: P, to: 1 },
        17 => Part::Leads { at: P, to: 0 },
        18 => Part::SameBeyond {
            left: ROOT,
            right: P,
        },
        19 => Part::InSet { key: KeyName::Own },
        20 => Part::InSet { key: KeyName::Any },
        _ => atom_of_node(number),
    }
}

/// Which atoms a picture says, by bits.
pub fn said(picture: &Picture<'_>) -> u32 {
    let mut bits: u32 = 0;
    for number in 0..ATOMS {
        if picture.has(atom(number)) {
            bits |= 1 << number;
        }
    }
    bits
}

/// That a part is said, or that it is not.
pub fn claim(part: Part, value: bool) -> Claim {
    Claim {
        predicate: Predicate::Says(part),
        value,
    }
}

/// The claims of which the pictures of all sketches are right before a step: the root's node is not marked, the
/// walked keys are one, and the call has not changed the set.
pub fn common(alloc: Global) -> Option<Vec<Claim>> {
    let (other, any) = (Term::Walked(KeyName::Other), Term::Walked(KeyName::Any));
    let mut claims = Vec::new(alloc);
    for part in [
        at_most(OWN, other),
        at_most(other, OWN),
        at_most(any, OWN),
        at_most(OWN, any),
    ] {
        claims.push(claim(part, true)).ok()?;
    }
    claims.push(claim(Part::Spent, false)).ok()?;
    claims
        .push(claim(Part::Flag { name: 0, flag: 0 }, false))
        .ok()?;
    Some(claims)
}

/// Goals: that each atom is not said in the one picture or in that after, and then anything.
pub fn goals(alloc: Global, moment: Moment) -> Option<Vec<Goal>> {
    let mut goals = Vec::new(alloc);
    for number in 0..ATOMS {
        goals
            .push(Goal::Fails {
                moment,
                predicate: Predicate::Says(atom(number)),
            })
            .ok()?;
    }
    goals.push(Goal::Anything).ok()?;
    Some(goals)
}

/// The goals that a picture reaches, by bits.
pub fn reached(said: u32) -> u32 {
    (!said & ((1 << ATOMS) - 1)) | (1 << ATOMS)
}

/// Answers by bits.
pub fn bits(answers: &[bool]) -> u32 {
    let mut bits: u32 = 0;
    for (number, answer) in answers.iter().enumerate() {
        if *answer && number < 32 {
            bits |= 1 << number;
        }
    }
    bits
}
