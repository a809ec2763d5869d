//! The texts of `large`, and what is told of them.
use crate::calls::writes;
use crate::programs::program_of;
use plank_judge::Verdict;
use plank_large::{large_text, summary};
use std::alloc::Global;

/// The summary of the large text of so many methods, were it accepted without an effect.
fn summary_of(alloc: Global, methods: u32) -> Option<Vec<u8>> {
    if methods < 2 || 16 < methods {
        return None;
    }
    let text = large_text(alloc, methods).ok()?;
    let program = program_of(alloc, &text)?;
    summary(alloc, methods, &program, &[], Verdict::Accepted).ok()
}

/// What is told of the texts of 2 to 16 methods, effects aside: each find has ten locations.
const SUMMARIES: [&[u8]; 15] = [
    b"large 2\nmethods 2 locations 36 effects 0\naccepted\n",
    b"large 3\nmethods 3 locations 46 effects 0\naccepted\n",
    b"large 4\nmethods 4 locations 56 effects 0\naccepted\n",
    b"large 5\nmethods 5 locations 66 effects 0\naccepted\n",
    b"large 6\nmethods 6 locations 76 effects 0\naccepted\n",
    b"large 7\nmethods 7 locations 86 effects 0\naccepted\n",
    b"large 8\nmethods 8 locations 96 effects 0\naccepted\n",
    b"large 9\nmethods 9 locations 106 effects 0\naccepted\n",
    b"large 10\nmethods 10 locations 116 effects 0\naccepted\n",
    b"large 11\nmethods 11 locations 126 effects 0\naccepted\n",
    b"large 12\nmethods 12 locations 136 effects 0\naccepted\n",
    b"large 13\nmethods 13 locations 146 effects 0\naccepted\n",
    b"large 14\nmethods 14 locations 156 effects 0\naccepted\n",
    b"large 15\nmethods 15 locations 166 effects 0\naccepted\n",
    b"large 16\nmethods 16 locations 176 effects 0\naccepted\n",
];

#[test]
fn large_texts_are_in_order_and_each_find_has_ten_locations(rt: HostRuntime) {
    let mut methods = 2;
    for wanted in SUMMARIES {
        let told = summary_of(rt.alloc(), methods).expect(&rt, "a program");
        assert!(rt; told.as_slice() == wanted);
        methods = if methods < 16 { methods + 1 } else { 2 };
    }
}

#[test]
fn a_large_text_is_judged(rt: HostRuntime) {
    let output = b"large 8\nmethods 8 locations 96 effects 6\naccepted\n";
    assert!(rt; writes(&rt, rt.alloc(), &["large", "8"], b"", output) == Ok(true));
}
