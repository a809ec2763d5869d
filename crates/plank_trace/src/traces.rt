//! The run of a schedule.
ghost use Rattle.std.specs.Prelude.{◌≡◌, ◌≤◌, ℕ, length, IfOk};
ghost use Rattle.plank_sem.specs.Fits.{Fits};
ghost use Rattle.plank_trace.specs.Texts.{stands_at};
ghost use Rattle.plank_trace.specs.Moves.{IsMoved};
ghost use Rattle.plank_trace.specs.Traces.{IsTrace, IsBadStep};

use crate::keys::keys_of;
use crate::lines::{Line, TraceFault, choice_of};
use crate::printing::{append_null, append_step, append_walks, thread_of};
use plank_base::{OutOfMemory, Place, ThreadId};
use plank_prog::Program;
use plank_sem::{StepFault, World};
use std::alloc::Global;

// What became of a step.
enum Moved {
    // It was made, and its lines are written.
    On,
    // It would read or write a field of null, and its line is written.
    Null,
    // The thread cannot make it.
    Refused,
}

// A run so far: its world, and what is shown of it.
#[derive(Drop)]
struct Play {
    world: World,
    out: Vec<u8>,
}

// Where a thread stands.
fn stands_at(program: &Program, world: &World, thread: ThreadId) -> Option<Place>
    ensures { result ≡ stands_at program.now.methods world.now thread }
{
    let (method, location) = world.at(thread)?;
    let method = program.methods.as_slice().get(method as usize)?;
    let location = method.locations.as_slice().get(location as usize)?;
    Some(location.place)
}

// Makes the n-th step, and writes what it shows.
fn make(
    alloc: Global,
    program: &Program,
    keys: &[i64],
    play: &mut Play,
    n: u32,
    line: &Line,
) -> Result<Moved, OutOfMemory>
    requires { Fits program.now.methods play.old.world }
    ensures moved { IfOk result (λ moved. IsMoved program.now.header program.now.methods keys.now n line.now moved play.old play.new) }
    ensures fits { Fits program.now.methods play.new.world }
{
    if play.world.heap().nodes.len() >= u32::MAX as usize {
        return Err(OutOfMemory);
    }
    let place = stands_at(program, &play.world, thread_of(line));
    match play.world.step(program, choice_of(program, line)) {
        Ok(stepped) => {
            append_step(alloc, &mut play.out, n, line, place, stepped.event)?;
            append_walks(alloc, &mut play.out, program, play.world.heap(), keys)?;
            Ok(Moved::On)
        }
        Err(StepFault::NullRead) => {
            append_null(alloc, &mut play.out, n, line, place)?;
            Ok(Moved::Null)
        }
        Err(StepFault::NoSuchThread) => Ok(Moved::Refused),
        Err(StepFault::OutOfMemory) => Err(OutOfMemory),
    }
}

/// The trace of a schedule: a line for each step, with the place at which its thread stood and the answer
/// that it gives, and under it a line for each key of the schedule, with the nodes that its walk visits then
/// and whether it is in the set. It ends before a read or a write of a field of null.
pub fn trace(alloc: Global, program: &Program, lines: &[Line]) -> Result<Vec<u8>, TraceFault>
    requires { length lines.now ≤ 256 }
    ensures shown { IfOk result (λ out. IsTrace program.now.header program.now.methods lines.now out.items) }
    ensures bad { (i : ℕ) → result ≡ Err (TraceFault.BadStep i) → IsBadStep program.now.header program.now.methods lines.now i }
{
    let Ok(keys) = keys_of(alloc, lines) else {
        return Err(TraceFault::OutOfMemory);
    };
    let Ok(world) = World::start(alloc, program) else {
        return Err(TraceFault::OutOfMemory);
    };
    let mut play = Play {
        world,
        out: Vec::new(alloc),
    };
    for i in 0..lines.len() {
        let n = i as u32 + 1;
        match make(alloc, program, keys.as_slice(), &mut play, n, &lines[i]) {
            Ok(Moved::On) => {}
            Ok(Moved::Null) => return Ok(play.out),
            Ok(Moved::Refused) => return Err(TraceFault::BadStep(n)),
            Err(OutOfMemory) => return Err(TraceFault::OutOfMemory),
        }
    }
    Ok(play.out)
}
