//! The least marks of a program.
ghost use Rattle.std.specs.Prelude.{◌*◌, ◌<◌, ◌≤◌};

use crate::calls::ONE;
use crate::programs::program_of;
use plank_bits::MarkWords;
use plank_decide::Decider;
use plank_io::OpenGate;
use plank_prove::marks_by_workers;
use plank_solve::Solver;
use std::alloc::Global;
use std::marker::Sync;
use std::thread::Threads;

/// The least marks of the program of a text, where it has one, as so many workers find them.
fn marks_of<R: Threads + Sync>(
    rt: &R,
    alloc: Global,
    text: &[u8],
    workers: u32,
) -> Option<MarkWords>
    requires { (0 < workers) × (workers ≤ 64) }
{
    let program = program_of(alloc, text)?;
    let oracle = Solver;
    let deciding = Decider {
        oracle: &oracle,
        program: &program,
    };
    marks_by_workers(rt, alloc, &deciding, workers, &OpenGate).ok()
}

/// The marks 0, 4, 5, 7, 9, 10, 13, 16 and 18, and no other.
fn are_those_of_one(marks: &MarkWords) -> bool {
    for i in 0..marks.len() {
        let wanted = if i == 0 { 0x526b1 } else { 0 };
        if marks.word(i) != wanted {
            return false;
        }
    }
    marks.len() != 0
}

#[test]
fn the_one_return_of_a_structure_of_one_node_has_these_marks(rt: HostRuntime) {
    let alone = marks_of(&rt, rt.alloc(), ONE, 1).expect(&rt, "a program");
    assert!(rt; are_those_of_one(&alone));
    let three = marks_of(&rt, rt.alloc(), ONE, 3).expect(&rt, "a program");
    assert!(rt; are_those_of_one(&three));
}
