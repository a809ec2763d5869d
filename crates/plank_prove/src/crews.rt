//! The least marks of a program, as any number of workers find them.
ghost use Rattle.std.specs.Prelude.{◌≡◌, ◌*◌, ◌<◌, ◌≤◌, length, IfOk};
ghost use Rattle.plank_bits.specs.Words.{has};
ghost use Rattle.plank_board.specs.Stills.{AreStill};
ghost use Rattle.plank_bits.specs.Forced.{IsLeast};
ghost use Rattle.plank_fact.specs.Forced.{AreLeastMarks, IsValid};
ghost use Rattle.plank_marks.specs.Marks.{mark_words};
ghost use Rattle.plank_method.specs.Deciding.{outline_of};
ghost use Rattle.plank_unit.specs.Units.{unit_count, UnitForces, UnitIsStill};

use plank_base::OutOfMemory;
use plank_bits::MarkWords;
use plank_board::Forcing;
use plank_crew::crew;
use plank_io::Gate;
use plank_method::{Deciding, Prover};
use plank_unit::units_law;
use std::alloc::Global;
use std::marker::Sync;
use std::thread::Threads;

// The least marks of the units, of which each is still there. Where there are no units, there are none.
fn marks_of_units<R: Threads + Sync, F: Forcing, G: Gate>(
    rt: &R,
    alloc: Global,
    forcing: &F,
    workers: u32,
    gate: &G,
) -> Result<MarkWords, OutOfMemory>
    requires workers { (0 < workers) × (workers ≤ 64) }
    ensures words { IfOk result (λ marks. length marks ≡ F.word_count forcing.now) }
    ensures least { IfOk result (λ marks. IsLeast (F.forces forcing.now) (F.method_count forcing.now) (has marks)) }
    ensures still { IfOk result (λ marks. AreStill (F.still forcing.now) (F.method_count forcing.now) (has marks)) }
{
    if forcing.methods() == 0 {
        let none = MarkWords::new(alloc, forcing.words())?;
        return Ok(none);
    }
    let marks = crew(rt, alloc, forcing, workers, gate)?;
    Ok(marks)
}

/// The least marks of a program, at which each claim is justified. The workers share one board, each in a
/// thread of its own where a thread can be had, and each passes the gate before it visits a location.
pub fn marks_by_workers<R: Threads + Sync, D: Deciding + Sync, G: Gate>(
    rt: &R,
    alloc: Global,
    deciding: &D,
    workers: u32,
    gate: &G,
) -> Result<MarkWords, OutOfMemory>
    requires workers { (0 < workers) × (workers ≤ 64) }
    ensures words { IfOk result (λ marks. length marks ≡ mark_words (D.program deciding.now).methods) }
    ensures least { IfOk result (λ marks. AreLeastMarks (D.program deciding.now).header
        (D.program deciding.now).methods (has marks)) }
    ensures valid { IfOk result (λ marks. IsValid (outline_of (D.program deciding.now) marks)) }
{
    let prover = Prover { deciding };
    let marks = marks_of_units(rt, alloc, &prover, workers, gate)?;
    units_law();
    Ok(marks)
}
