//! Walks of the key 7 through start heaps.
use crate::texts::program_of;
use plank_base::NodeId;
use plank_heap::{Heap, WalkEnd};
use std::alloc::Global;
use std::test::Fail;

/// A text, where the walk ends, and whether the key is in the set.
struct Case {
    text: &'static [u8],
    end: WalkEnd,
    held: bool,
}

const CASES: [Case; 6] = [
    Case {
        text: b"structure list; ptr next asc; root a; start a { key = MIN; next = b; } start b { key = MAX; }
edge next : x.key < j; holds x.key == j; method contains(k) { return false; }",
        end: WalkEnd::At(NodeId(1)),
        held: false,
    },
    Case {
        text: b"structure no_edge; ptr next asc; root a; start a { key = MIN; next = b; } start b { key = MAX; }
holds x.key == j; method contains(k) { return false; }",
        end: WalkEnd::At(NodeId(0)),
        held: false,
    },
    Case {
        text: b"structure ring; ptr next free; root a; start a { key = MIN; next = b; } start b { key = MAX; next = a; }
edge next : true; holds true; method contains(k) { return false; }",
        end: WalkEnd::Cycles,
        held: false,
    },
    Case {
        text: b"structure fork; ptr left free; ptr right free; root a;
start a { key = MIN; left = b; right = c; } start b { key = MAX; } start c { key = MAX; }
edge left : x.key < j; edge right : x.key < j; holds true; method contains(k) { return false; }",
        end: WalkEnd::At(NodeId(1)),
        held: true,
    },
    Case {
        text: b"structure fork; ptr left free; ptr right free; root a;
start a { key = MIN; right = c; } start b { key = MAX; } start c { key = MAX; }
edge left : x.key < j; edge right : x.key < j; holds true; method contains(k) { return false; }",
        end: WalkEnd::At(NodeId(2)),
        held: true,
    },
    Case {
        text: b"structure fork; ptr left free; ptr right free; root a;
start a { key = MIN; } start b { key = MAX; } start c { key = MAX; }
edge left : x.key < j; edge right : x.key < j; holds true; method contains(k) { return false; }",
        end: WalkEnd::At(NodeId(0)),
        held: true,
    },
];

fn is_as_told(alloc: Global, case: &Case) -> Result<bool, Fail> {
    let program = program_of(alloc, case.text).ok_or("no program")?;
    let heap = Heap::start(alloc, &program)?;
    Ok(
        heap.walk(&program, 7) == case.end
            && heap.in_set(&program, 7) == case.held
            && heap.visits(&program, 7, NodeId(0)),
    )
}

#[test]
fn walks_end_where_no_field_admits(rt: HostRuntime) -> Result<(), Fail> {
    for (i, case) in CASES.iter().enumerate() {
        assert!(rt; is_as_told(rt.alloc(), case)?, "case {i}");
    }
    Ok(())
}
