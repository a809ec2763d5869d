//! Programs of texts: their locations and where the steps lead.
use plank_base::{BYTES_LIMIT, OutOfMemory};
use plank_lex::lex;
use plank_parse::parse;
use plank_prog::{Action, Location, Program};
use plank_type::check;
use std::alloc::Global;

/// What stands before a method's statements.
const BEFORE: &[u8] =
    b"structure s; flag up; ptr next asc; lock; root a; start a { key = MIN; } edge next : x.key < j; holds x.key == j;\nmethod insert(k) { var p, c, n;\n";

/// What a step at a location is, and where it leads.
#[derive(Clone, Copy, Debug, PartialEq, Eq)]
enum Step {
    /// A block: how many names of `with`, tests, binds and writes, and both exits.
    Block(usize, usize, usize, usize, u32, u32),
    Copy(u32),
    New(u32),
    Return(bool),
}

fn step_of(location: &Location) -> Step {
    match &location.action {
        Action::Block(block) => Step::Block(
            block.with.len(),
            block.tests.len(),
            block.binds.len(),
            block.writes.len(),
            block.yes,
            block.no,
        ),
        Action::Copy { next, .. } => Step::Copy(*next),
        Action::New { next, .. } => Step::New(*next),
        Action::Return(answer) => Step::Return(*answer),
    }
}

/// The program of a text, where it is in order.
pub(crate) fn program_of(alloc: Global, text: &[u8]) -> Option<Program> {
    if text.len() > BYTES_LIMIT as usize {
        return None;
    }
    let tokens = lex(alloc, text).ok()?;
    let text = parse(alloc, &tokens).ok()?;
    check(alloc, &text).ok()
}

/// The steps of a method with these statements.
fn steps_of(alloc: Global, statements: &[u8]) -> Result<Vec<Step>, OutOfMemory> {
    let mut text = Vec::from_slice(alloc, BEFORE)?;
    text.extend_from_slice(statements)?;
    text.extend_from_slice(b"\n}\n")?;
    let mut steps = Vec::new(alloc);
    let Some(program) = program_of(alloc, &text) else {
        return Ok(steps);
    };
    for method in program.methods.as_slice() {
        for location in method.locations.as_slice() {
            steps.push(step_of(location))?;
        }
    }
    Ok(steps)
}

fn have_steps(alloc: Global, statements: &[u8], wanted: &[Step]) -> Result<bool, OutOfMemory> {
    Ok(steps_of(alloc, statements)?.as_slice() == wanted)
}

/// Statements, and the steps of a method that has them alone.
const STEPS: [(&[u8], &[Step]); 14] = [
    // assignments lead on
    (
        b"n = new; p = null; p = root; p = c; return true;",
        &[
            Step::New(1),
            Step::Copy(2),
            Step::Copy(3),
            Step::Copy(4),
            Step::Return(true),
        ],
    ),
    // a read is a block of one bind
    (
        b"c = p.next; return false;",
        &[Step::Block(0, 0, 1, 0, 1, 1), Step::Return(false)],
    ),
    // a lock that is not free is waited for
    (
        b"lock p; unlock p; return true;",
        &[
            Step::Block(0, 1, 0, 1, 1, 0),
            Step::Block(0, 1, 0, 1, 2, 2),
            Step::Return(true),
        ],
    ),
    // a block has its names, tests, binds and writes
    (
        b"atomic { with n, root; test !p.up; c = n.next; write p.next = n; write p.up = true; } return true;",
        &[Step::Block(2, 1, 1, 2, 1, 1), Step::Return(true)],
    ),
    // a block goes to its else
    (
        b"atomic { test p.up; } else { p = null; } return true;",
        &[
            Step::Block(0, 1, 0, 0, 2, 1),
            Step::Copy(2),
            Step::Return(true),
        ],
    ),
    // continue leads to the loop
    (
        b"loop { atomic { test p.next == c; write p.next = n; } else { continue; } break; } return true;",
        &[Step::Block(0, 1, 0, 1, 1, 0), Step::Return(true)],
    ),
    // a walk
    (
        b"p = root; c = p.next; while (c.key < k) { p = c; c = p.next; } if (c.key == k) { return true; } else { return false; }",
        &[
            Step::Copy(1),
            Step::Block(0, 0, 1, 0, 2, 2),
            Step::Block(0, 1, 0, 0, 3, 5),
            Step::Copy(4),
            Step::Block(0, 0, 1, 0, 2, 2),
            Step::Block(0, 1, 0, 0, 6, 7),
            Step::Return(true),
            Step::Return(false),
        ],
    ),
    // an if at the end of a while leads back
    (
        b"while (c.key < k) { if (c.key == k) { c = null; } } return false;",
        &[
            Step::Block(0, 1, 0, 0, 1, 3),
            Step::Block(0, 1, 0, 0, 2, 0),
            Step::Copy(0),
            Step::Return(false),
        ],
    ),
    // break leads behind the loop
    (
        b"loop { if (c.key < k) { break; } else { c = null; } } return true;",
        &[
            Step::Block(0, 1, 0, 0, 2, 1),
            Step::Copy(0),
            Step::Return(true),
        ],
    ),
    // each break is of its own loop
    (
        b"loop { loop { if (p.up) { break; } p = null; } if (c.up) { break; } } return true;",
        &[
            Step::Block(0, 1, 0, 0, 2, 1),
            Step::Copy(0),
            Step::Block(0, 1, 0, 0, 3, 0),
            Step::Return(true),
        ],
    ),
    // each continue is of its own loop
    (
        b"while (p.up) { while (c.up) { continue; } break; } return true;",
        &[
            Step::Block(0, 1, 0, 0, 1, 2),
            Step::Block(0, 1, 0, 0, 1, 2),
            Step::Return(true),
        ],
    ),
    // a copy at the end leads to itself
    (
        b"return true; p = null;",
        &[Step::Return(true), Step::Copy(1)],
    ),
    // a block at the end leads to itself
    (
        b"return true; atomic { test p.up; }",
        &[Step::Return(true), Step::Block(0, 1, 0, 0, 1, 1)],
    ),
    // an if without statements leads on
    (
        b"if (p.up) { } return true;",
        &[Step::Block(0, 1, 0, 0, 1, 1), Step::Return(true)],
    ),
];

#[test]
fn steps_lead_where_their_statements_say(rt: HostRuntime) {
    for (statements, wanted) in STEPS {
        assert!(rt; have_steps(rt.alloc(), statements, wanted) == Ok(true));
    }
}
