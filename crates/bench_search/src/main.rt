//! Times the search: pigeonholes 9 into 8, random systems of 700 parts, and questions about these, in
//! a session for each system and each on its own.
//!
//! Prints the answers and the counts of decisions, which are the same every time; with an argument,
//! as `times`, also the microseconds.
#![tactic(auto)]

mod systems;

use plank_base::OutOfMemory;
use plank_search::{Literal, Session, Statistics, find_counted};
use std::alloc::Global;
use std::rt::Runtime;
use std::time::Instant;
use std::{env, io};
use systems::{System, pigeonholes, random_system};

const PARTS: usize = 700;

const CONSTRAINTS: usize = 400;

const SEEDS: u64 = 40;

// Questions about each system: each claims that one part is yes.
const QUESTIONS: usize = 25;

// How many systems were solved, and the work of all.
#[derive(Clone, Copy)]
struct Report {
    solved: u64,
    decisions: u64,
    conflicts: u64,
}

fn main(rt: HostRuntime) -> io::Result<()> {
    let timed = env::args(&rt)?.len() > 1;
    let started = Instant::now(&rt)?;
    let pigeons = run_pigeons(rt.alloc());
    print_report(&rt, "pigeonholes 9 into 8", pigeons)?;
    if timed {
        println!(rt; "  {} microseconds", started.elapsed(&rt)?.as_micros())?;
    }
    let started = Instant::now(&rt)?;
    let random = run_random(rt.alloc());
    print_report(&rt, "random systems", random)?;
    if timed {
        println!(rt; "  {} microseconds", started.elapsed(&rt)?.as_micros())?;
    }
    let started = Instant::now(&rt)?;
    let asked = run_sessions(rt.alloc());
    print_report(&rt, "questions of sessions", asked)?;
    if timed {
        println!(rt; "  {} microseconds", started.elapsed(&rt)?.as_micros())?;
    }
    let started = Instant::now(&rt)?;
    let alone = run_alone(rt.alloc());
    print_report(&rt, "questions alone", alone)?;
    if timed {
        println!(rt; "  {} microseconds", started.elapsed(&rt)?.as_micros())?;
    }
    Ok(())
}

fn print_report<R: Runtime>(
    rt: &R,
    name: &str,
    report: Result<Report, OutOfMemory>,
) -> io::Result<()> {
    match report {
        Err(OutOfMemory) => println!(rt; "{name}: out of memory"),
        Ok(
            Report {
                solved,
                decisions,
                conflicts,
            },
        ) => println!(rt; "{name}: {solved} solved, {decisions} decisions, {conflicts} conflicts"),
    }
}

fn run_pigeons(alloc: Global) -> Result<Report, OutOfMemory> {
    let mut report = Report {
        solved: 0,
        decisions: 0,
        conflicts: 0,
    };
    run_one(alloc, &pigeonholes(alloc, 9, 8)?, &mut report)?;
    Ok(report)
}

fn run_random(alloc: Global) -> Result<Report, OutOfMemory> {
    let mut report = Report {
        solved: 0,
        decisions: 0,
        conflicts: 0,
    };
    for seed in 0..SEEDS {
        let system = random_system(alloc, seed, PARTS, CONSTRAINTS)?;
        run_one(alloc, &system, &mut report)?;
    }
    Ok(report)
}

fn run_one(alloc: Global, system: &System, report: &mut Report) -> Result<(), OutOfMemory> {
    let given = vec![in alloc; None; system.parts]?;
    solve_given(alloc, system, given.as_slice(), report)
}

fn asked_part(question: usize) -> usize {
    question.saturating_mul(27)
}

fn run_sessions(alloc: Global) -> Result<Report, OutOfMemory> {
    let mut report = Report {
        solved: 0,
        decisions: 0,
        conflicts: 0,
    };
    for seed in 0..SEEDS {
        let system = random_system(alloc, seed, PARTS, CONSTRAINTS)?;
        ask_session(alloc, &system, &mut report)?;
    }
    Ok(report)
}

fn ask_session(alloc: Global, system: &System, report: &mut Report) -> Result<(), OutOfMemory> {
    let given = vec![in alloc; None; system.parts]?;
    let mut session = Session::new(alloc, &system.counts, &system.clauses, given.as_slice())?;
    for question in 0..QUESTIONS {
        let claim = Literal {
            part: asked_part(question),
            value: true,
        };
        if session.find(alloc, &[claim])?.is_some() {
            report.solved = report.solved.saturating_add(1);
        }
    }
    add_work(report, session.statistics());
    Ok(())
}

fn run_alone(alloc: Global) -> Result<Report, OutOfMemory> {
    let mut report = Report {
        solved: 0,
        decisions: 0,
        conflicts: 0,
    };
    for seed in 0..SEEDS {
        let system = random_system(alloc, seed, PARTS, CONSTRAINTS)?;
        for question in 0..QUESTIONS {
            ask_alone(alloc, &system, asked_part(question), &mut report)?;
        }
    }
    Ok(report)
}

fn ask_alone(
    alloc: Global,
    system: &System,
    part: usize,
    report: &mut Report,
) -> Result<(), OutOfMemory> {
    let mut given = vec![in alloc; None; system.parts]?;
    if part < given.len() {
        given[part] = Some(true);
    }
    solve_given(alloc, system, given.as_slice(), report)
}

fn solve_given(
    alloc: Global,
    system: &System,
    given: &[Option<bool>],
    report: &mut Report,
) -> Result<(), OutOfMemory> {
    let mut work = Statistics::new();
    let found = find_counted(
        alloc,
        &system.counts,
        &system.clauses,
        given,
        &[],
        &mut work,
    )?;
    if found.is_some() {
        report.solved = report.solved.saturating_add(1);
    }
    add_work(report, work);
    Ok(())
}

fn add_work(report: &mut Report, work: Statistics) {
    report.decisions = report.decisions.saturating_add(work.decisions);
    report.conflicts = report.conflicts.saturating_add(work.conflicts);
}
