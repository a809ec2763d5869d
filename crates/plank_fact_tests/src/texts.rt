//! Structures with one method each, and their programs.
use plank_base::BYTES_LIMIT;
use plank_lex::lex;
use plank_parse::parse;
use plank_prog::Program;
use plank_type::check;
use std::alloc::Global;

/// A method without variables, in a structure without fields.
pub const SMALLEST: &[u8] =
    b"structure one; root a; start a { key = MIN; } holds false; method contains(k) { return false; }";

/// A sorted list with two ends, which is only looked through.
pub const ENDS: &[u8] =
    b"structure ends; ptr next asc; root head; start head { key = MIN; next = tail; }
    start tail { key = MAX; } edge next : x.key < j; holds x.key == j;
    keep linked : x.key == MAX || x.next != null;
    method contains(k) { var p, c; p = root; c = p.next;
    while (c.key < k) { p = c; c = p.next; }
    if (c.key == k) { return true; } else { return false; } }";

/// A sorted list.
pub const SORTED: &[u8] =
    b"structure sorted; ptr next asc; root h; start h { key = MIN; } edge next : x.key < j;
    holds x.key == j; method insert(k) { var p, c, n; return false; }";

/// A sorted list with marks and locks.
pub const LAZY: &[u8] =
    b"structure lazy; flag marked; ptr next asc; lock; root h; start h { key = MIN; }
    edge next : x.key < j; holds x.key == j && !x.marked;
    method insert(k) { var p, c, n; return false; }";

/// A search tree with a flag for deleted nodes.
pub const TREE: &[u8] =
    b"structure tree; flag gone; ptr left desc; ptr right asc; root r; start r { key = MIN; }
    edge left : j < x.key; edge right : x.key < j; holds x.key == j && !x.gone;
    method insert(k) { var p, c, n; return false; }";

/// Nodes that may be frozen in chains, and six variables, the most that such a text may have.
pub const FROZEN: &[u8] =
    b"structure frozen; flag up; ptr next asc; root a; start a { key = MIN; } edge next : x.key < j;
    holds x.key == j; freeze x.up; method contains(k) { var p, q, r, s, t, u; return false; }";

/// Two pointers, six flags, locks and seven variables, the most that a text may have.
pub const GREATEST: &[u8] =
    b"structure greatest; flag a; flag b; flag c; flag d; flag e; flag f; ptr left asc; ptr right desc;
    lock; root n; start n { key = MIN; } edge left : x.key < j; edge right : j < x.key;
    holds x.key == j; method contains(k) { var p, q, r, s, t, u, v; return false; }";

/// The program of a text, where it has one.
pub fn program_of(alloc: Global, text: &[u8]) -> Option<Program> {
    if text.len() > BYTES_LIMIT as usize {
        return None;
    }
    let tokens = lex(alloc, text).ok()?;
    let text = parse(alloc, &tokens).ok()?;
    check(alloc, &text).ok()
}
