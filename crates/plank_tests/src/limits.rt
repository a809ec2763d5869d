//! Structures at a limit and above it.
use crate::calls::writes;
use plank_base::OutOfMemory;
use std::alloc::Global;
use std::marker::Sync;
use std::thread::Threads;

/// A text that has one part several times, and what is said of it.
struct Case {
    before: &'static [u8],
    part: &'static [u8],
    times: usize,
    after: &'static [u8],
    output: &'static [u8],
}

const ACCEPTED: &[u8] = b"structure one\neffects 0\naccepted\n";

/// What follows the fields of a structure whose one method is one return.
const REST: &[u8] =
    b"root a;\nstart a { key = MIN; }\nholds false;\nmethod contains(k) { return false; }\n";

const CASES: [Case; 15] = [
    Case {
        before: b"structure one;\nflag a; flag b; flag c; flag d; flag e; ",
        part: b"flag f; ",
        times: 1,
        after: REST,
        output: ACCEPTED,
    },
    Case {
        before: b"structure one;\nflag a; flag b; flag c; flag d; flag e; flag f; ",
        part: b"flag g; ",
        times: 1,
        after: REST,
        output: b"too large flags 7 6\n",
    },
    Case {
        before: b"structure one;\nptr a1 free; ",
        part: b"ptr a2 free; ",
        times: 1,
        after: REST,
        output: ACCEPTED,
    },
    Case {
        before: b"structure one;\nptr a1 free; ptr a2 free; ",
        part: b"ptr a3 free; ",
        times: 1,
        after: REST,
        output: b"too large pointers 3 2\n",
    },
    Case {
        before: b"structure one;\nroot a;\nstart a { key = MIN; }\nholds false;\nmethod contains(k) { var p; ",
        part: b"p = root; ",
        times: 192,
        after: b"return false; }\n",
        output: b"too large locations 193 192\n",
    },
    Case {
        before: b"structure one;\nflag up;\nroot a;\nstart a { key = MIN; }\nholds false;\nmethod contains(k) { ",
        part: b"atomic { write root.up = false; } ",
        times: 49,
        after: b"return false; }\n",
        output: b"too large sites 49 48\n",
    },
    Case {
        before: b"structure one;\nroot a;\nstart a { key = MIN; }\nholds false;\nmethod contains(k) { var v1, v2, v3, v4, v5, v6",
        part: b", v7",
        times: 1,
        after: b"; return false; }\n",
        output: ACCEPTED,
    },
    Case {
        before: b"structure one;\nroot a;\nstart a { key = MIN; }\nholds false;\nmethod contains(k) { var v1, v2, v3, v4, v5, v6, v7",
        part: b", v8",
        times: 1,
        after: b"; return false; }\n",
        output: b"too large variables 8 7\n",
    },
    Case {
        before: b"structure one;\nroot a;\nstart a { key = MIN; }\nholds false;\nfreeze true;\nmethod contains(k) { var v1, v2, v3, v4, v5",
        part: b", v6",
        times: 1,
        after: b"; return false; }\n",
        output: ACCEPTED,
    },
    Case {
        before: b"structure one;\nroot a;\nstart a { key = MIN; }\nholds false;\nfreeze true;\nmethod contains(k) { var v1, v2, v3, v4, v5, v6",
        part: b", v7",
        times: 1,
        after: b"; return false; }\n",
        output: b"too large variables 7 6\n",
    },
    Case {
        before: b"structure one;\nroot a;\nstart a { key = MIN; } start b { key = MIN; } start c { key = MIN; } start d { key = MIN; } start e { key = MIN; } start f { key = MIN; } start g { key = MIN; } start h { key = MIN; } start i { key = MIN; } start j { key = MIN; } start k { key = MIN; } start l { key = MIN; } start m { key = MIN; } start n { key = MIN; } start o { key = MIN; } ",
        part: b"start p { key = MIN; }\n",
        times: 1,
        after: b"holds false;\nmethod contains(k) { return false; }\n",
        output: ACCEPTED,
    },
    Case {
        before: b"structure one;\nroot a;\nstart a { key = MIN; } start b { key = MIN; } start c { key = MIN; } start d { key = MIN; } start e { key = MIN; } start f { key = MIN; } start g { key = MIN; } start h { key = MIN; } start i { key = MIN; } start j { key = MIN; } start k { key = MIN; } start l { key = MIN; } start m { key = MIN; } start n { key = MIN; } start o { key = MIN; } start p { key = MIN; } ",
        part: b"start q { key = MIN; }\n",
        times: 1,
        after: b"holds false;\nmethod contains(k) { return false; }\n",
        output: b"too large nodes 17 16\n",
    },
    Case {
        before: b"structure one;\nroot a;\nstart a { key = MIN; }\nholds false;\nmethod contains(k) { return false; } method f2 as contains(k) { return false; } method f3 as contains(k) { return false; } method f4 as contains(k) { return false; } method f5 as contains(k) { return false; } method f6 as contains(k) { return false; } method f7 as contains(k) { return false; } method f8 as contains(k) { return false; } method f9 as contains(k) { return false; } method f10 as contains(k) { return false; } method f11 as contains(k) { return false; } method f12 as contains(k) { return false; } method f13 as contains(k) { return false; } method f14 as contains(k) { return false; } method f15 as contains(k) { return false; } ",
        part: b"method f16 as contains(k) { return false; }\n",
        times: 1,
        after: b"",
        output: ACCEPTED,
    },
    Case {
        before: b"structure one;\nroot a;\nstart a { key = MIN; }\nholds false;\nmethod contains(k) { return false; } method f2 as contains(k) { return false; } method f3 as contains(k) { return false; } method f4 as contains(k) { return false; } method f5 as contains(k) { return false; } method f6 as contains(k) { return false; } method f7 as contains(k) { return false; } method f8 as contains(k) { return false; } method f9 as contains(k) { return false; } method f10 as contains(k) { return false; } method f11 as contains(k) { return false; } method f12 as contains(k) { return false; } method f13 as contains(k) { return false; } method f14 as contains(k) { return false; } method f15 as contains(k) { return false; } method f16 as contains(k) { return false; } ",
        part: b"method f17 as contains(k) { return false; }\n",
        times: 1,
        after: b"",
        output: b"too large methods 17 16\n",
    },
    Case {
        before: b"structure one;\nflag a; flag b; flag c; flag d; flag e; flag f; ptr l free; ptr r free;\nroot a;\nstart a { key = MIN; }\nholds false;\nmethod contains(k) { var v1, v2, v3, v4, v5, v6, v7; ",
        part: b"atomic { with v1, v2, v3, v4, v5, v6, v7; write root.l = null; } ",
        times: 1,
        after: b"return false; }\n",
        output: b"too large effect-facts 514 512\n",
    },
];

fn is_said<R: Threads + Sync>(rt: &R, alloc: Global, case: &Case) -> Result<bool, OutOfMemory> {
    let mut text = Vec::from_slice(alloc, case.before)?;
    for _ in 0..case.times {
        text.extend_from_slice(case.part)?;
    }
    text.extend_from_slice(case.after)?;
    writes(rt, alloc, &["verify"], &text, case.output)
}

#[test]
fn structures_above_a_limit_are_too_large(rt: HostRuntime) {
    for case in &CASES {
        assert!(rt; is_said(&rt, rt.alloc(), case) == Ok(true));
    }
}
