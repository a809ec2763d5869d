//! Times whether pictures of thirteen names are lawful, and whether a step leads from one to another.
//!
//! Prints how often the answer was yes, which is the same every time; with an argument, as `times`,
//! also how long an answer took in the fastest of many batches.
#![tactic(auto)]

mod pictures;

use pictures::{Row, SEVEN, THIRTEEN, Turn, list, marking};
use plank_base::OutOfMemory;
use plank_pic::Part;
use plank_prog::{Action, Header};
use plank_whole::Picture;
use std::alloc::Global;
use std::rt::Runtime;
use std::time::Instant;
use std::{env, io};

const BATCHES: u32 = 40;

// Answers in a batch.
const ROUNDS: u32 = 5;

// How many answers were yes, and how many nanoseconds the fastest batch took.
#[derive(Clone, Copy)]
struct Times {
    yes: u32,
    fastest: u128,
}

const NONE: Times = Times {
    yes: 0,
    fastest: u128::MAX,
};

impl Times {
    fn and(self, yes: u32, taken: u128) -> Times {
        Times {
            yes: self.yes.saturating_add(yes),
            fastest: if taken < self.fastest {
                taken
            } else {
                self.fastest
            },
        }
    }
}

// How often a picture is lawful. It is written before each answer, so that none is taken for the last.
fn count_lawful(picture: &mut Picture<'_>) -> u32 {
    let mut yes: u32 = 0;
    for _ in 0..ROUNDS {
        picture.put(Part::Spent);
        if picture.lawful() {
            yes = yes.saturating_add(1);
        }
    }
    yes
}

// How often a step leads from one to the other.
fn count_steps(picture: &mut Picture<'_>, turn: Turn<'_>, after: &Picture<'_>) -> u32 {
    let mut yes: u32 = 0;
    for _ in 0..ROUNDS {
        picture.put(Part::Spent);
        if picture.step_to(&turn, after) {
            yes = yes.saturating_add(1);
        }
    }
    yes
}

fn time_lawful<R: Runtime>(rt: &R, header: &Header, row: Row) -> io::Result<Times> {
    let mut times = NONE;
    let Some(mut picture) = row.picture(header) else {
        return Ok(times);
    };
    for _ in 0..BATCHES {
        let started = Instant::now(rt)?;
        let yes = count_lawful(&mut picture);
        times = times.and(yes, started.elapsed(rt)?.as_nanos());
    }
    Ok(times)
}

// Times a step that marks the third of thirteen nodes.
fn time_steps<R: Runtime>(rt: &R, header: &Header, action: &Action) -> io::Result<Times> {
    let mut times = NONE;
    let (Some(mut before), Some(mut after)) = (
        THIRTEEN.picture(header),
        THIRTEEN.marking(2).picture(header),
    ) else {
        return Ok(times);
    };
    after.put(Part::Spent);
    for _ in 0..BATCHES {
        let started = Instant::now(rt)?;
        let yes = count_steps(&mut before, Turn { action }, &after);
        times = times.and(yes, started.elapsed(rt)?.as_nanos());
    }
    Ok(times)
}

fn print_times<R: Runtime>(rt: &R, what: &str, times: Times, timed: bool) -> io::Result<()> {
    println!(rt; "{what}: {} of {}", times.yes, BATCHES * ROUNDS)?;
    if timed {
        println!(rt;
            "  {} nanoseconds each in the fastest batch",
            times.fastest / (ROUNDS as u128)
        )?;
    }
    Ok(())
}

fn made(alloc: Global) -> Result<(Header, Action), OutOfMemory> {
    Ok((list(alloc)?, marking(alloc, 1)?))
}

fn main(rt: HostRuntime) -> io::Result<()> {
    let timed = env::args(&rt)?.len() > 1;
    let Ok((header, action)) = made(rt.alloc()) else {
        return println!(rt; "out of memory");
    };
    print_times(
        &rt,
        "lawful, thirteen nodes",
        time_lawful(&rt, &header, THIRTEEN)?,
        timed,
    )?;
    print_times(
        &rt,
        "lawful, seven nodes",
        time_lawful(&rt, &header, SEVEN)?,
        timed,
    )?;
    print_times(&rt, "a step", time_steps(&rt, &header, &action)?, timed)
}
