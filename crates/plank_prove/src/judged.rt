ghost use Rattle.std.specs.Prelude.{◌*◌, ◌<◌, ◌≤◌, IfOk};
ghost use Rattle.plank_verdict.specs.Judged.{IsJudged};

use crate::crews::marks_by_workers;
use plank_base::OutOfMemory;
use plank_decide::Decider;
use plank_demand::Asking;
use plank_io::Gate;
use plank_prog::Program;
use plank_solve::Solver;
use plank_verdict::{Judged, judge_at};
use std::alloc::Global;
use std::marker::Sync;
use std::thread::Threads;

/// Judges a program at its least marks, by questions about pictures. So many workers find the marks: one in the thread
/// of the call, several on one board, each in a thread of its own where a thread can be had.
pub fn judge<R: Threads + Sync, G: Gate>(
    rt: &R,
    alloc: Global,
    program: &Program,
    workers: u32,
    gate: &G,
) -> Result<Judged, OutOfMemory>
    requires { (0 < workers) × (workers ≤ 64) }
    ensures { IfOk result (IsJudged program.now) }
{
    let oracle = Solver;
    let deciding = Decider {
        oracle: &oracle,
        program,
    };
    let demands = Asking {
        oracle: &oracle,
        program,
    };
    let marks = marks_by_workers(rt, alloc, &deciding, workers, gate)?;
    judge_at(alloc, &oracle, &demands, &marks)
}
