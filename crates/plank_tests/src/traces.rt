//! Schedules that are run on a text, and those that are refused.
use crate::calls::{ENDS, ONE, answers, status_of, writes};
use plank_base::OutOfMemory;
use plank_top::Status;
use plank_trace::Measure;
use std::alloc::Global;
use std::marker::Sync;
use std::thread::Threads;

/// A variable that is null where its key is read.
const GAP: &[u8] =
    b"structure gap;\nroot a;\nstart a { key = MIN; }\nholds false;\nmethod contains(k) {\n  var p;\n  if (p.key < k) { return false; }\n  return false;\n}\n";

/// Two nodes that lead to each other.
const RING: &[u8] =
    b"structure ring;\nptr next free;\nroot a;\nstart a { key = MIN; next = b; }\nstart b { key = MIN; next = a; }\nedge next : true;\nholds true;\nmethod contains(k) { return false; }\n";

/// A method that never ends, and one that tidies.
const ROUND: &[u8] =
    b"structure round;\nroot a;\nstart a { key = MIN; }\nholds false;\nmethod contains(k) { var p; loop { p = root; } }\nmethod sweep as upkeep(k) { return true; }\n";

/// An insert that overwrites the root's pointer.
const PUSH: &[u8] =
    b"structure push;\nptr next free;\nroot a;\nstart a { key = MIN; }\nedge next : x.key < j;\nholds x.key == j;\nmethod insert(k) {\n  var n;\n  n = new;\n  atomic { write root.next = n; }\n  return true;\n}\n";

/// A schedule with its line `text`, the text behind it, how the call ends, and what is written.
struct Case {
    schedule: &'static [u8],
    text: &'static [u8],
    status: Status,
    output: &'static [u8],
}

fn is_answered<R: Threads + Sync>(rt: &R, alloc: Global, case: &Case) -> Result<bool, OutOfMemory> {
    let mut input = Vec::from_slice(alloc, case.schedule)?;
    input.extend_from_slice(case.text)?;
    answers(rt, alloc, &["trace"], &input, case.status, case.output)
}

/// Runs, shown step by step; schedules with a line that is none; and schedules with a step that cannot be made.
const CASES: [Case; 15] = [
    // A call that walks to the end and answers.
    Case {
        schedule: b"1 call contains 7\n1 go\n1 go\n1 go\n1 go\n1 go\ntext\n",
        text: ENDS,
        status: Status::Done,
        output: b"1 1 call contains 7\n  7 walk 0 1 out\n2 1 go 11:3\n  7 walk 0 1 out\n3 1 go 12:3\n  7 walk 0 1 out\n4 1 go 13:3\n  7 walk 0 1 out\n5 1 go 17:3\n  7 walk 0 1 out\n6 1 go 17:43 answer false\n  7 walk 0 1 out\n",
    },
    // Two calls of one method: fresh nodes have the next numbers, and the second write loses the first node.
    Case {
        schedule: b"0 call insert 4\n1 call insert 9\n0 go\n1 go\n0 go\n0 go\n1 go\n1 go\ntext\n",
        text: PUSH,
        status: Status::Done,
        output: b"1 0 call insert 4\n  4 walk 0 out\n  9 walk 0 out\n2 1 call insert 9\n  4 walk 0 out\n  9 walk 0 out\n3 0 go 9:3\n  4 walk 0 out\n  9 walk 0 out\n4 1 go 9:3\n  4 walk 0 out\n  9 walk 0 out\n5 0 go 10:3\n  4 walk 0 1 in\n  9 walk 0 1 out\n6 0 go 11:3 answer true\n  4 walk 0 1 in\n  9 walk 0 1 out\n7 1 go 10:3\n  4 walk 0 2 out\n  9 walk 0 2 in\n8 1 go 11:3 answer true\n  4 walk 0 2 out\n  9 walk 0 2 in\n",
    },
    // A field of null.
    Case {
        schedule: b"0 call contains 5\n0 go\ntext\n",
        text: GAP,
        status: Status::Done,
        output: b"1 0 call contains 5\n  5 walk 0 out\n2 0 null 7:3\n",
    },
    // Keys rise; what stands behind a field of null is not looked at, but its keys are shown.
    Case {
        schedule: b"3 call contains 9\n0 call contains -5\n3 go\n63 go\n2 call contains 0\ntext\n",
        text: GAP,
        status: Status::Done,
        output: b"1 3 call contains 9\n  -5 walk 0 out\n  0 walk 0 out\n  9 walk 0 out\n2 0 call contains -5\n  -5 walk 0 out\n  0 walk 0 out\n  9 walk 0 out\n3 3 null 7:3\n",
    },
    // A walk that never ends.
    Case {
        schedule: b"0 call contains 5\ntext\n",
        text: RING,
        status: Status::Done,
        output: b"1 0 call contains 5\n  5 walk 0 1 cycles out\n",
    },
    // An upkeep answers nothing, and can be called again.
    Case {
        schedule: b"0 call sweep 5\n0 go\n0 call sweep 5\ntext\n",
        text: ROUND,
        status: Status::Done,
        output: b"1 0 call sweep 5\n  5 walk 0 out\n2 0 go 6:29\n  5 walk 0 out\n3 0 call sweep 5\n  5 walk 0 out\n",
    },
    // Nobody moves.
    Case {
        schedule: b"text\n",
        text: ONE,
        status: Status::Done,
        output: b"",
    },
    // Nothing at all.
    Case {
        schedule: b"",
        text: b"",
        status: Status::BadSchedule(1),
        output: b"bad schedule 1\n",
    },
    // The second line is not whole.
    Case {
        schedule: b"0 go\n1 go",
        text: b"",
        status: Status::BadSchedule(2),
        output: b"bad schedule 2\n",
    },
    Case {
        schedule: b"0 call contains 1\n0 go \ntext\n",
        text: ONE,
        status: Status::BadSchedule(2),
        output: b"bad schedule 2\n",
    },
    Case {
        schedule: b"0 go\n0 go\ntext\r\n",
        text: ONE,
        status: Status::BadSchedule(3),
        output: b"bad schedule 3\n",
    },
    // No call is pending.
    Case {
        schedule: b"0 go\ntext\n",
        text: ENDS,
        status: Status::BadStep(1),
        output: b"bad step 1\n",
    },
    // One is pending already.
    Case {
        schedule: b"0 call contains 1\n0 call contains 1\ntext\n",
        text: ENDS,
        status: Status::BadStep(2),
        output: b"bad step 2\n",
    },
    // There is no such method.
    Case {
        schedule: b"0 call contains 1\n1 call missing 1\ntext\n",
        text: ENDS,
        status: Status::BadStep(2),
        output: b"bad step 2\n",
    },
    // The call has ended.
    Case {
        schedule: b"0 call contains 1\n0 go\n0 go\ntext\n",
        text: ONE,
        status: Status::BadStep(3),
        output: b"bad step 3\n",
    },
];

#[test]
fn schedules_are_run_or_tell_their_first_fault(rt: HostRuntime) {
    for case in &CASES {
        assert!(rt; is_answered(&rt, rt.alloc(), case) == Ok(true));
    }
}

/// Lines of neither form.
const OTHER_LINES: [&[u8]; 12] = [
    b"",
    b"64 go",
    b"00 go",
    b"-1 go",
    b"0  go",
    b"0 gone",
    b"0 call contains",
    b"0 call contains -0",
    b"0 call contains +5",
    b"0 call contains 9223372036854775808",
    b"0 call if 5",
    b"0 call 5 contains",
];

fn is_no_line<R: Threads + Sync>(rt: &R, alloc: Global, line: &[u8]) -> Result<bool, OutOfMemory> {
    let mut input = Vec::from_slice(alloc, line)?;
    input.extend_from_slice(b"\ntext\n")?;
    input.extend_from_slice(ONE)?;
    writes(rt, alloc, &["trace"], &input, b"bad schedule 1\n")
}

#[test]
fn lines_of_neither_form_are_refused(rt: HostRuntime) {
    for line in OTHER_LINES {
        assert!(rt; is_no_line(&rt, rt.alloc(), line) == Ok(true));
    }
}

/// So many lines that are a thread's steps without a call, what stands behind them, and what is written.
type Excess = (usize, &'static [u8], &'static [u8]);

/// More than one thing is wrong with each: the first in this order is told.
const ORDER: [Excess; 7] = [
    // A line of neither form, behind too many steps.
    (257, b"go\ntext\n", b"bad schedule 258\n"),
    // Too many steps, with too many keys.
    (
        257,
        b"0 call c 1\n0 call c 2\n0 call c 3\n0 call c 4\n0 call c 5\n0 call c 6\n0 call c 7\n0 call c 8\n0 call c 9\ntext\n",
        b"too large steps 266 256\n",
    ),
    // Too many steps, with a text that is malformed.
    (257, b"text\nstructure", b"too large steps 257 256\n"),
    // Too many keys, with a text that is malformed.
    (
        1,
        b"0 call c 1\n0 call c 2\n0 call c 3\n0 call c 4\n0 call c 5\n0 call c 6\n0 call c 7\n0 call c 8\n0 call c 9\ntext\nstructure",
        b"too large keys 9 8\n",
    ),
    // A text that is malformed, with a step that cannot be made.
    (256, b"text\nstructure", b"malformed at 1:10\n"),
    // A text that is ill-typed, with a step that cannot be made.
    (
        1,
        b"text\nstructure one;\nroot a;\nstart a { key = MIN; }\nholds x.up;\nmethod contains(k) { return false; }\n",
        b"ill-typed unknown at 4:9\n",
    ),
    // A text that is too large, with a step that cannot be made.
    (
        1,
        b"text\nstructure one;\nptr a free;\nptr b free;\nptr c free;\nroot a;\nstart a { key = MIN; }\nholds false;\nmethod contains(k) { return false; }\n",
        b"too large pointers 3 2\n",
    ),
];

fn is_told<R: Threads + Sync>(rt: &R, alloc: Global, excess: Excess) -> Result<bool, OutOfMemory> {
    let (steps, behind, output) = excess;
    let mut input = Vec::new(alloc);
    for _ in 0..steps {
        input.extend_from_slice(b"0 go\n")?;
    }
    input.extend_from_slice(behind)?;
    writes(rt, alloc, &["trace"], &input, output)
}

#[test]
fn what_is_wrong_is_told_in_order(rt: HostRuntime) {
    for excess in ORDER {
        assert!(rt; is_told(&rt, rt.alloc(), excess) == Ok(true));
    }
}

/// The status where thread 0 makes so many steps, with its call.
fn status_of_steps<R: Threads + Sync>(
    rt: &R,
    alloc: Global,
    steps: usize,
) -> Result<Status, OutOfMemory> {
    let mut input = Vec::from_slice(alloc, b"0 call contains 1\n")?;
    for _ in 1..steps {
        input.extend_from_slice(b"0 go\n")?;
    }
    input.extend_from_slice(b"text\n")?;
    input.extend_from_slice(ROUND)?;
    status_of(rt, alloc, &["trace"], &input)
}

/// The status where so many threads, up to ten, begin a call at a key of their own, and the first one's key is told
/// once more.
fn status_of_keys<R: Threads + Sync>(
    rt: &R,
    alloc: Global,
    keys: u8,
) -> Result<Status, OutOfMemory> {
    let mut input = Vec::from_slice(alloc, b"10 call contains 0\n")?;
    for key in 0..keys {
        let digit = [b'0' + key % 10];
        input.extend_from_slice(&digit)?;
        input.extend_from_slice(b" call contains ")?;
        input.extend_from_slice(&digit)?;
        input.extend_from_slice(b"\n")?;
    }
    input.extend_from_slice(b"text\n")?;
    input.extend_from_slice(ONE)?;
    status_of(rt, alloc, &["trace"], &input)
}

#[test]
fn a_schedule_may_have_256_steps_and_8_keys(rt: HostRuntime) {
    let too_many_steps = Status::TooLong(Measure::Steps, 257, 256);
    assert!(rt; status_of_steps(&rt, rt.alloc(), 256) == Ok(Status::Done));
    assert!(rt; status_of_steps(&rt, rt.alloc(), 257) == Ok(too_many_steps));
    let too_many_keys = Status::TooLong(Measure::Keys, 9, 8);
    assert!(rt; status_of_keys(&rt, rt.alloc(), 8) == Ok(Status::Done));
    assert!(rt; status_of_keys(&rt, rt.alloc(), 9) == Ok(too_many_keys));
}
