//! Times crews of 1, 2 and 4 workers on a forcing of 16 methods and 3,072 words whose runs take some 50
//! microseconds, and looks at as many words.
//!
//! Prints how many marks were found, which are the same every time; with an argument, as `times`, also the
//! microseconds of the fastest crew of each size with its runs, and the nanoseconds of a look.
#![tactic(auto)]

mod slow;

ghost use Rattle.std.specs.Prelude.{◌≡◌, ◌*◌, ◌<◌, ◌≤◌, length, IfOk};
ghost use Rattle.plank_crew.specs.Names.{IsNameOf};

use plank_base::OutOfMemory;
use plank_bits::MarkWords;
use plank_board::{Board, Forcing, Named, Seat};
use plank_crew::crew;
use plank_crew_tests::Table;
use plank_io::OpenGate;
use slow::{Slow, read_many};
use std::alloc::Global;
use std::marker::{Brand, Sync};
use std::rt::Runtime;
use std::sync::atomic::Ordering;
use std::thread::Threads;
use std::time::Instant;
use std::{env, io};

const METHODS: u32 = 16;

const WORDS: u32 = 3_072;

const LAYERS: u32 = 8;

const CREWS: u32 = 20;

const LOOKS: u32 = 2_000;

const PASSES_TIMED: u32 = 2_000;

const RUN_NANOSECONDS: u128 = 50_000;

// The mark of a method in a layer.
fn mark_of(method: u32, layer: u32) -> u32
    requires method { method < 16 }
    requires layer { layer < 8 }
    ensures { result < 64 * 3072 }
{
    64 * (192 * method + 24 * layer)
}

// Each method has a mark in each layer, which it forces where the next method has its mark in the layer
// below.
fn layers(alloc: Global) -> Result<Table, OutOfMemory>
    ensures { IfOk result (λ t. (t.methods ≡ 16) × (t.words ≡ 3072)) }
{
    let mut table = Table::new(alloc, METHODS, WORDS);
    for i in 0..METHODS * LAYERS {
        let (method, layer) = (i % METHODS, i / METHODS);
        let mark = mark_of(method, layer);
        if layer == 0 {
            table.add(method, 0, 0, mark)?;
        } else {
            let needed = mark_of((method + 1) % METHODS, layer - 1);
            table.add(method, needed, needed + 1, mark)?;
        }
    }
    Ok(table)
}

fn count(marks: &MarkWords) -> u32
    requires { length marks.now ≤ 4096 }
{
    let mut total: u32 = 0;
    for i in 0..marks.len() {
        total = total.saturating_add(marks.word(i).count_ones());
    }
    total
}

fn look_again<N: Named>(board: &Board<N>, seat: &mut Seat<N>, look: &mut MarkWords, times: u32)
    requires board { seat.old.table ≡ board.now.table }
    requires words { length look.old ≡ N.words }
{
    for _turn in 0..times {
        board.look(seat, look);
    }
}

// Looks so many times at a board of the forcing's words.
fn look_many<N: Named, F: Forcing>(
    alloc: Global,
    forcing: &F,
    times: u32,
) -> Result<(), OutOfMemory>
    requires name { IsNameOf N.methods N.words N.forces N.still (F.method_count forcing.now) (F.word_count forcing.now) (F.forces forcing.now) (F.still forcing.now) }
{
    let (board, mut seat) = Board::<N>::new(alloc, forcing, 1)?;
    let mut look = MarkWords::new(alloc, forcing.words())?;
    look_again(&board, &mut seat, &mut look, times);
    Ok(())
}

fn looks_of<F: Forcing>(alloc: Global, forcing: &F, times: u32) -> Result<(), OutOfMemory> {
    look_many::<Brand, F>(alloc, forcing, times)
}

// How many readings of all words take as long as a run.
fn passes_of_a_run<R: Runtime>(rt: &R, alloc: Global) -> io::Result<u32> {
    let Ok(marks) = MarkWords::new(alloc, WORDS) else {
        return Ok(0);
    };
    let started = Instant::now(rt)?;
    let state = read_many(&marks, PASSES_TIMED);
    let nanoseconds = started.elapsed(rt)?.as_nanos().max(1);
    let passes = (RUN_NANOSECONDS * (PASSES_TIMED as u128) / nanoseconds).min(10_000) as u32;
    Ok(if state == 0 { 0 } else { passes })
}

// The fastest of so many crews: its microseconds, its runs, and how many marks it found.
fn fastest<R: Runtime + Threads + Sync, F: Forcing>(
    rt: &R,
    alloc: Global,
    forcing: &F,
    workers: u32,
    passes: u32,
    crews: u32,
) -> io::Result<Option<(u128, u64, u32)>>
    requires methods { 0 < F.method_count forcing.now }
    requires words { F.word_count forcing.now ≤ 4096 }
    requires workers { (0 < workers) × (workers ≤ 64) }
{
    let mut best = None;
    for _ in 0..crews {
        let slow = Slow::new(forcing, passes);
        let started = Instant::now(rt)?;
        let Ok(marks) = crew(rt, alloc, &slow, workers, &OpenGate) else {
            return Ok(None);
        };
        let taken = started.elapsed(rt)?.as_micros();
        let runs = slow.runs.load(Ordering::SeqCst);
        best = Some(better(best, (taken, runs, count(&marks))));
    }
    Ok(best)
}

fn better(best: Option<(u128, u64, u32)>, other: (u128, u64, u32)) -> (u128, u64, u32) {
    match best {
        Some(first) if first.0 <= other.0 => first,
        _ => other,
    }
}

fn time_looks<R: Runtime, F: Forcing>(rt: &R, alloc: Global, forcing: &F) -> io::Result<()> {
    let started = Instant::now(rt)?;
    let done = looks_of(alloc, forcing, LOOKS);
    let taken = started.elapsed(rt)?.as_nanos() / (LOOKS as u128);
    match done {
        Ok(()) => println!(rt; "a look of 3072 words: {taken} nanoseconds"),
        Err(OutOfMemory) => println!(rt; "out of memory"),
    }
}

// Runs so many crews, and prints how many marks they found; with more than one also how long the fastest took.
fn print_crews<R: Runtime + Threads + Sync, F: Forcing>(
    rt: &R,
    alloc: Global,
    forcing: &F,
    workers: u32,
    passes: u32,
    crews: u32,
) -> io::Result<()>
    requires methods { 0 < F.method_count forcing.now }
    requires words { F.word_count forcing.now ≤ 4096 }
    requires workers { (0 < workers) × (workers ≤ 64) }
{
    match fastest(rt, alloc, forcing, workers, passes, crews)? {
        None => println!(rt; "{workers} workers: out of memory"),
        Some((taken, runs, marks)) => {
            println!(rt; "{workers} workers: {marks} marks")?;
            if crews > 1 {
                println!(rt; "  {taken} microseconds, {runs} runs")?;
            }
            Ok(())
        }
    }
}

fn main(rt: HostRuntime) -> io::Result<()> {
    let timed = env::args(&rt)?.len() > 1;
    let Ok(table) = layers(rt.alloc()) else {
        return println!(rt; "out of memory");
    };
    let (passes, crews) = if timed {
        (passes_of_a_run(&rt, rt.alloc())?, CREWS)
    } else {
        (0, 1)
    };
    print_crews(&rt, rt.alloc(), &table, 1, passes, crews)?;
    print_crews(&rt, rt.alloc(), &table, 2, passes, crews)?;
    print_crews(&rt, rt.alloc(), &table, 4, passes, crews)?;
    if timed {
        time_looks(&rt, rt.alloc(), &table)?;
    }
    Ok(())
}
