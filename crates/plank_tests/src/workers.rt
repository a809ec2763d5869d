//! Workers: what is answered is the same by any number of them, and they run at once.
use crate::calls::{ENDS, ONE, PLAIN, called_by, writes};
use crate::structures::{LAMP, LAMP_EFFECTS, LAMP_REPORT, LOST, LOST_REPORT};
use plank_base::OutOfMemory;
use plank_io::Gate;
use std::alloc::Global;
use std::marker::Sync;
use std::sync::atomic::{AtomicU64, Ordering};
use std::thread::Threads;

/// Words that ask for different numbers of workers, a text, and what is written of it by each of them.
const ANSWERS: [(&[&[&str]], &[u8], &[u8]); 4] = [
    (
        &[
            &["verify", "--workers", "1"],
            &["verify", "--workers", "2"],
            &["verify", "--workers=4"],
            &["verify", "--workers=64"],
        ],
        ONE,
        b"structure one\neffects 0\naccepted\n",
    ),
    (
        &[
            &["verify", "--workers=2"],
            &["verify", "--workers", "0002"],
            &["verify", "--workers", "64"],
        ],
        ENDS,
        b"structure ends\neffects 0\naccepted\n",
    ),
    (
        &[&["verify", "--workers=2"], &["verify", "--workers=4"]],
        LAMP,
        LAMP_REPORT,
    ),
    (
        &[&["effects", "--workers=2"], &["effects", "--workers", "5"]],
        LAMP,
        LAMP_EFFECTS,
    ),
];

/// Whether each of these calls writes this.
fn all_write<R: Threads + Sync>(
    rt: &R,
    alloc: Global,
    calls: &[&[&str]],
    text: &[u8],
    output: &[u8],
) -> Result<bool, OutOfMemory> {
    for words in calls {
        if !writes(rt, alloc, words, text, output)? {
            return Ok(false);
        }
    }
    Ok(true)
}

#[test]
fn any_number_of_workers_writes_the_same(rt: HostRuntime) {
    for (calls, text, output) in ANSWERS {
        assert!(rt; all_write(&rt, rt.alloc(), calls, text, output) == Ok(true));
    }
}

#[test]
fn several_workers_write_the_report_on_a_lost_insert(rt: HostRuntime) {
    let calls: &[&[&str]] = &[&["verify", "--workers=2"], &["verify", "--workers", "4"]];
    assert!(rt; all_write(&rt, rt.alloc(), calls, LOST, LOST_REPORT) == Ok(true));
}

/// Holds worker 1 at its first turn until worker 2 has come to one.
#[derive(Drop)]
struct Held {
    second: AtomicU64,
    met: AtomicU64,
}

impl Held {
    fn wait(&self) {
        for _ in 0..2_000_000_000 {
            if self.second.load(Ordering::SeqCst) == 1 {
                self.met.store(1, Ordering::SeqCst);
                return;
            }
        }
    }
}

impl Gate for Held {
    fn pass(&self, worker: u32, turn: u64) {
        if worker == 2 {
            self.second.store(1, Ordering::SeqCst);
        }
        if worker == 1 && turn == 1 {
            self.wait();
        }
    }
}

/// What two workers write of a text, where the first waits for the second at its first turn; and whether it came.
pub(crate) fn by_two<R: Threads + Sync>(
    rt: &R,
    alloc: Global,
    text: &[u8],
) -> Result<(Vec<u8>, bool), OutOfMemory> {
    let gate = Held {
        second: AtomicU64::new(0),
        met: AtomicU64::new(0),
    };
    let words = &["verify", "--workers", "2"];
    let (_, taken) = called_by(rt, alloc, words, text, &PLAIN, &gate)?;
    Ok((taken, gate.met.load(Ordering::SeqCst) == 1))
}

#[test]
fn two_workers_run_at_once(rt: HostRuntime) {
    let (report, met) = by_two(&rt, rt.alloc(), LAMP).expect(&rt, "memory");
    assert!(rt; met);
    assert!(rt; report.as_slice() == LAMP_REPORT);
}
