//! Verdicts on structures whose methods are one return each.
use crate::calls::writes;
use plank_base::OutOfMemory;
use std::alloc::Global;
use std::marker::Sync;
use std::thread::Threads;

/// A header, its methods, and the last line of the report on the structure of both.
type Case = (&'static [u8], &'static [u8], &'static [u8]);

/// Whether the structure that begins so has this verdict. The methods begin in its third line.
fn has_verdict<R: Threads + Sync>(rt: &R, alloc: Global, case: Case) -> Result<bool, OutOfMemory> {
    let (header, methods, last) = case;
    let mut text = Vec::from_slice(alloc, b"structure s;\n")?;
    text.extend_from_slice(header)?;
    text.extend_from_slice(b"\n")?;
    text.extend_from_slice(methods)?;
    let mut output = Vec::from_slice(alloc, b"structure s\neffects 0\n")?;
    output.extend_from_slice(last)?;
    output.extend_from_slice(b"\n")?;
    writes(rt, alloc, &["verify"], &text, &output)
}

/// A set that stays empty.
const EMPTY: &[u8] = b"flag up; root a; start a { key = MIN; } holds false;";

const ONE_RETURN: &[u8] = b"method contains(k) { return false; }";

const IN_SET: &[u8] = b"rejected answer in contains at 3:22";

const DELETE_TRUE: &[u8] = b"method delete(k) { return true; }";

const NO_CHANGE: &[u8] = b"rejected answer in delete at 3:20";

/// Answers of a set that stays empty; roots, which may be what the keeps allow; two edges of one key; and start nodes
/// that keep the rules of the header, or do not.
const CASES: [Case; 37] = [
    (EMPTY, b"method contains(k) { return false; }", b"accepted"),
    (
        EMPTY,
        b"method contains(k) { return true; }",
        b"rejected answer in contains at 3:22",
    ),
    (
        EMPTY,
        b"method insert(k) { return false; }",
        b"rejected answer in insert at 3:20",
    ),
    (
        EMPTY,
        b"method insert(k) { return true; }",
        b"rejected answer in insert at 3:20",
    ),
    (EMPTY, b"method delete(k) { return false; }", b"accepted"),
    (
        EMPTY,
        b"method delete(k) { return true; }",
        b"rejected answer in delete at 3:20",
    ),
    (
        EMPTY,
        b"method contains(k) { return false; }\nmethod delete(k) { return false; }\nmethod has as contains(k) { return false; }",
        b"accepted",
    ),
    (
        EMPTY,
        b"method contains(k) { return false; }\nmethod delete(k) { return false; }\nmethod insert(k) { return false; }",
        b"rejected answer in insert at 5:20",
    ),
    (
        EMPTY,
        b"method contains(k) { return false; }\nmethod insert(k) { return false; }\nmethod add as insert(k) { return false; }",
        b"rejected answer in insert at 4:20",
    ),
    // an upkeep answers nothing
    (EMPTY, b"method upkeep(k) { return true; }", b"accepted"),
    (EMPTY, b"method upkeep(k) { return false; }", b"accepted"),
    (
        EMPTY,
        b"method tidy as upkeep(k) { return true; }\nmethod contains(k) { return true; }",
        b"rejected answer in contains at 4:22",
    ),
    (
        b"root a; start a { key = MIN; } holds false; keep no : x.key < x.key;",
        b"method contains(k) { return true; }",
        b"rejected start",
    ),
    // some lawful root has the flag
    (
        b"flag up; root a; start a { key = MIN; } holds x.up;",
        ONE_RETURN,
        IN_SET,
    ),
    // a keep says that the flag is down
    (
        b"flag up; root a; start a { key = MIN; } holds x.up; keep down : !x.up;",
        ONE_RETURN,
        b"accepted",
    ),
    // the set of the start heap is not empty
    (
        b"flag up; root a; start a { key = MIN; up = true; } holds x.up;",
        ONE_RETURN,
        b"rejected start",
    ),
    // a walk that leaves the root may end in the set
    (
        b"ptr next free; root a; start a { key = MIN; } edge next : x.key < j; holds false;",
        ONE_RETURN,
        IN_SET,
    ),
    (
        b"ptr next asc; root a; start a { key = MIN; } edge next : x.key < j; holds false;",
        ONE_RETURN,
        IN_SET,
    ),
    // no node lies below the root
    (
        b"ptr next desc; root a; start a { key = MIN; } edge next : x.key < j; holds false;",
        ONE_RETURN,
        b"accepted",
    ),
    // the walk ends at the root
    (
        b"ptr next free; root a; start a { key = MIN; } edge next : x.key < j; holds false; keep last : x.next == null;",
        ONE_RETURN,
        b"accepted",
    ),
    (
        b"root a; start a { key = MIN; } holds false; keep no : x.key < x.key;",
        ONE_RETURN,
        b"rejected start",
    ),
    (
        b"ptr l free; ptr r free; root a; start a { key = MIN; } edge l : x.key < j; edge r : x.key < j; holds false;",
        DELETE_TRUE,
        b"rejected edges",
    ),
    // null pointers count
    (
        b"ptr l free; ptr r free; root a; start a { key = MIN; } edge l : x.key < j; edge r : x.key < j; holds false; keep one : x.l == null || x.r == null;",
        DELETE_TRUE,
        b"rejected edges",
    ),
    // no key goes both ways
    (
        b"ptr l free; ptr r free; root a; start a { key = MIN; } edge l : x.key < j; edge r : j <= x.key; holds false;",
        DELETE_TRUE,
        NO_CHANGE,
    ),
    // no ordinary key is the least
    (
        b"ptr l free; ptr r free; root a; start a { key = MIN; } edge l : j == MIN; edge r : j == MIN; holds false;",
        DELETE_TRUE,
        NO_CHANGE,
    ),
    (
        b"ptr l free; ptr r free; root a; start a { key = MIN; } edge l : x.key == j; edge r : x.key == j; holds false;",
        DELETE_TRUE,
        b"rejected edges",
    ),
    // no node has the walked key
    (
        b"ptr l free; ptr r free; root a; start a { key = MIN; } edge l : x.key == j; edge r : x.key == j; holds false; keep below : x.key < j;",
        DELETE_TRUE,
        NO_CHANGE,
    ),
    (
        b"ptr next asc; root a; start a { key = MIN; next = b; } start b { key = MAX; } edge next : x.key < j; holds x.key == j;",
        DELETE_TRUE,
        NO_CHANGE,
    ),
    (
        b"ptr next desc; root a; start a { key = MIN; next = b; } start b { key = MAX; } edge next : x.key < j; holds x.key == j;",
        DELETE_TRUE,
        b"rejected start",
    ),
    (
        b"ptr next asc; root a; start a { key = MIN; } start b { key = MAX; next = a; } edge next : x.key < j; holds x.key == j;",
        DELETE_TRUE,
        b"rejected start",
    ),
    (
        b"ptr next desc; root a; start a { key = MIN; } start b { key = MAX; next = a; } edge next : x.key < j; holds x.key == j;",
        DELETE_TRUE,
        NO_CHANGE,
    ),
    (
        b"ptr next free; root a; start a { key = MIN; next = b; } start b { key = MAX; next = a; } edge next : x.key < j; holds x.key == j;",
        DELETE_TRUE,
        NO_CHANGE,
    ),
    (
        b"ptr next asc; root a; start a { key = MIN; next = a; } start b { key = MAX; } edge next : x.key < j; holds x.key == j;",
        DELETE_TRUE,
        b"rejected start",
    ),
    // a keep may ask for visits
    (
        b"ptr next free; root a; start a { key = MIN; next = b; } start b { key = MAX; } edge next : x.key < j; holds x.key == j; keep inset : j in x;",
        DELETE_TRUE,
        NO_CHANGE,
    ),
    (
        b"ptr next free; root a; start a { key = MIN; } start b { key = MAX; } edge next : x.key < j; holds x.key == j; keep inset : j in x;",
        DELETE_TRUE,
        b"rejected start",
    ),
    (
        b"ptr next free; root a; start a { key = MIN; next = a; } start b { key = MAX; } edge next : x.key < j; holds x.key == j; keep inset : j in x;",
        DELETE_TRUE,
        b"rejected start",
    ),
    // a node that is not the root may break a keep
    (
        b"ptr next free; root a; start a { key = MIN; } start b { key = MAX; } edge next : x.key < j; holds x.key == j; keep low : x.key < MAX;",
        DELETE_TRUE,
        b"rejected start",
    ),
];

#[test]
fn structures_of_one_return_are_judged(rt: HostRuntime) {
    for case in CASES {
        assert!(rt; has_verdict(&rt, rt.alloc(), case) == Ok(true));
    }
}
