//! Texts that break rules of typing: a case for each rule, and for each kind of statement at its places.
use crate::calls::{Case, first_wrong, writes};
use plank_base::OutOfMemory;
use std::alloc::Global;
use std::marker::Sync;
use std::thread::Threads;

/// Whether a text of these three pieces is refused so.
fn is_refused<R: Threads + Sync>(
    rt: &R,
    alloc: Global,
    before: &[u8],
    case: Case,
    after: &[u8],
) -> Result<bool, OutOfMemory> {
    let (part, output) = case;
    let mut text = Vec::from_slice(alloc, before)?;
    text.extend_from_slice(part)?;
    text.extend_from_slice(after)?;
    writes(rt, alloc, &["verify"], &text, output)
}

/// The place of the first part that is not refused so between these pieces.
fn first_taken<R: Threads + Sync>(
    rt: &R,
    alloc: Global,
    before: &[u8],
    cases: &[Case],
    after: &[u8],
) -> Result<Option<usize>, OutOfMemory> {
    for (i, case) in cases.iter().enumerate() {
        if !is_refused(rt, alloc, before, *case, after)? {
            return Ok(Some(i));
        }
    }
    Ok(None)
}

/// Texts that break one rule of typing, and what is said of them.
const ILL_TYPED: [Case; 6] = [
    (
        b"structure ends;\nptr next asc;\nroot head;\nstart head { key = MIN; next = tail; }\nstart tail { key = MAX; }\nedge next : x.key < j;\nholds x.key == j;\nkeep linked : x.key == MAX || x.next != null;\nmethod contains(k) {\n  var p, c;\n  q = root;\n  c = p.next;\n  while (c.key < k) {\n    p = c;\n    c = p.next;\n  }\n  if (c.key == k) { return true; } else { return false; }\n}\n",
        b"ill-typed unknown at 11:3\n",
    ),
    (
        b"structure ends;\nptr next asc;\nroot head;\nstart head { key = MIN; next = tail; }\nstart tail { key = MAX; }\nedge next : x.key < j;\nholds x.key == j;\nkeep linked : x.key == MAX || x.next != null;\nmethod contains(k) {\n  var p, p;\n  p = root;\n  c = p.next;\n  while (c.key < k) {\n    p = c;\n    c = p.next;\n  }\n  if (c.key == k) { return true; } else { return false; }\n}\n",
        b"ill-typed twice at 10:10\n",
    ),
    (
        b"structure ends;\nptr next asc;\nroot head;\nstart head { key = MIN; next = tail; }\nstart tail { key = MAX; }\nedge next : x.key < j;\nholds x.key == null;\nkeep linked : x.key == MAX || x.next != null;\nmethod contains(k) {\n  var p, c;\n  p = root;\n  c = p.next;\n  while (c.key < k) {\n    p = c;\n    c = p.next;\n  }\n  if (c.key == k) { return true; } else { return false; }\n}\n",
        b"ill-typed wrong-kind at 7:16\n",
    ),
    (
        b"structure ends;\nptr next asc;\nroot head;\nstart head { key = MIN; next = tail; }\nstart tail { key = MAX; }\nedge next : x.key < j;\nholds x.key == j;\nkeep linked : x.key == MAX || x.next != null;\nmethod contains(k) {\n  var p, c;\n  p = root;\n  c = p.next;\n  while (c.key < k) {\n    p = c;\n    p = p.next;\n  }\n  if (c.key == k) { return true; } else { return false; }\n}\n",
        b"ill-typed bind-reused at 15:9\n",
    ),
    (
        b"structure ends;\nptr next asc;\nroot head;\nstart head { key = MIN; next = tail; }\nstart tail { key = MAX; }\nedge next : x.key < j;\nholds x.key == j;\nkeep linked : x.key == MAX || x.next != null;\nmethod contains(k) {\n  var p, c;\n  p = root;\n  c = p.next;\n  while (c.key < k) {\n    p = c;\n    c = p.next;\n  }\n  if (c.key == k) { return true; }\n}\n",
        b"ill-typed no-return at 18:1\n",
    ),
    (
        b"structure ends;\nptr next asc;\nroot head;\nroot tail;\nstart head { key = MIN; next = tail; }\nstart tail { key = MAX; }\nedge next : x.key < j;\nholds x.key == j;\nkeep linked : x.key == MAX || x.next != null;\nmethod contains(k) {\n  var p, c;\n  p = root;\n  c = p.next;\n  while (c.key < k) {\n    p = c;\n    c = p.next;\n  }\n  if (c.key == k) { return true; } else { return false; }\n}\n",
        b"ill-typed not-one-root at 4:6\n",
    ),
];

/// Lines of a header that break a rule.
const HEADERS: [Case; 18] = [
    // a flag is declared twice
    (
        b"flag a; flag a; root h; start h { key = MIN; }",
        b"ill-typed twice at 2:14\n",
    ),
    // a flag and a pointer have one name
    (
        b"flag a; ptr a asc; root h; start h { key = MIN; }",
        b"ill-typed twice at 2:13\n",
    ),
    // every later repetition counts
    (
        b"flag a; flag b; flag a; flag b; root h; start h { key = MIN; }",
        b"ill-typed twice at 2:22\n",
    ),
    // there is no root
    (
        b"start h { key = MIN; }",
        b"ill-typed not-one-root at 1:1\n",
    ),
    // there is a second root
    (
        b"root h; root h; start h { key = MIN; }",
        b"ill-typed not-one-root at 2:14\n",
    ),
    // the root is no start node
    (
        b"root a; start h { key = MIN; }",
        b"ill-typed unknown at 2:6\n",
    ),
    // a second root that is unknown is unknown first
    (
        b"root h; root a; start h { key = MIN; }",
        b"ill-typed unknown at 2:14\n",
    ),
    // a start node is declared twice
    (
        b"root h; start h { key = MIN; } start h { key = MAX; }",
        b"ill-typed twice at 2:38\n",
    ),
    // a field of a start node is unknown
    (
        b"root h; start h { key = MIN; a = null; }",
        b"ill-typed unknown at 2:30\n",
    ),
    // a field of a start node is given twice
    (
        b"flag a; root h; start h { key = MIN; a = true; a = true; }",
        b"ill-typed twice at 2:48\n",
    ),
    // a flag is given null
    (
        b"flag a; root h; start h { key = MIN; a = null; }",
        b"ill-typed wrong-kind at 2:42\n",
    ),
    // a flag is given a start node
    (
        b"flag a; root h; start h { key = MIN; a = h; }",
        b"ill-typed wrong-kind at 2:42\n",
    ),
    // a flag is given an unknown node
    (
        b"flag a; root h; start h { key = MIN; a = b; }",
        b"ill-typed unknown at 2:42\n",
    ),
    // a pointer is given a truth value
    (
        b"ptr a asc; root h; start h { key = MIN; a = true; }",
        b"ill-typed wrong-kind at 2:45\n",
    ),
    // a pointer is given an unknown node
    (
        b"ptr a asc; root h; start h { key = MIN; a = b; }",
        b"ill-typed unknown at 2:45\n",
    ),
    // an edge of an unknown pointer
    (
        b"root h; start h { key = MIN; } edge a : x.key < j;",
        b"ill-typed unknown at 2:37\n",
    ),
    // an edge of a flag
    (
        b"flag a; root h; start h { key = MIN; } edge a : x.key < j;",
        b"ill-typed wrong-kind at 2:45\n",
    ),
    // two edges of one pointer
    (
        b"ptr a asc; root h; start h { key = MIN; } edge a : false; edge a : false;",
        b"ill-typed twice at 2:64\n",
    ),
];

/// Conditions of a header that break a rule.
const CONDITIONS: [Case; 27] = [
    // a name before a dot is unknown
    (b"holds q.key == j;", b"ill-typed unknown at 3:7\n"),
    // a name alone is unknown
    (b"holds x.key == q;", b"ill-typed unknown at 3:16\n"),
    // a name after in is unknown
    (
        b"holds true; keep a : j in q;",
        b"ill-typed unknown at 3:27\n",
    ),
    // a field is unknown
    (b"holds x.a;", b"ill-typed unknown at 3:9\n"),
    // a field after ! is unknown
    (b"holds !x.a;", b"ill-typed unknown at 3:10\n"),
    // a keep is declared twice
    (
        b"holds true; keep a : true; keep a : true;",
        b"ill-typed twice at 3:33\n",
    ),
    // ! before a pointer
    (b"holds !x.next;", b"ill-typed wrong-kind at 3:8\n"),
    // a key alone
    (b"holds x.key;", b"ill-typed wrong-kind at 3:7\n"),
    // the node alone
    (b"holds x;", b"ill-typed wrong-kind at 3:7\n"),
    // a key against null
    (b"holds x.key == null;", b"ill-typed wrong-kind at 3:16\n"),
    // a flag against a key
    (b"holds x.gone == j;", b"ill-typed wrong-kind at 3:17\n"),
    // an order of flags
    (b"holds x.gone < x.gone;", b"ill-typed wrong-kind at 3:16\n"),
    // an order of pointers
    (
        b"holds true; keep a : x.next <= null;",
        b"ill-typed wrong-kind at 3:32\n",
    ),
    // the key name before a dot
    (b"holds j.gone;", b"ill-typed wrong-kind at 3:7\n"),
    // root in a condition
    (b"holds root.gone;", b"ill-typed wrong-kind at 3:7\n"),
    // root alone in a condition
    (
        b"holds true; keep a : x.next == root;",
        b"ill-typed wrong-kind at 3:32\n",
    ),
    // a pointer field against another
    (
        b"holds true; keep a : x.next == x.next;",
        b"ill-typed wrong-kind at 3:22\n",
    ),
    // a pointer field where a key is needed
    (
        b"holds true; keep a : x.key == x.next;",
        b"ill-typed wrong-kind at 3:31\n",
    ),
    // in outside a keep
    (b"holds j in x;", b"ill-typed wrong-kind at 3:9\n"),
    // in of another key than j
    (
        b"holds true; keep a : x.key in x;",
        b"ill-typed wrong-kind at 3:28\n",
    ),
    // in of what is no node
    (
        b"holds true; keep a : j in j;",
        b"ill-typed wrong-kind at 3:24\n",
    ),
    // a pointer field in an edge
    (
        b"edge next : x.next == null; holds true;",
        b"ill-typed wrong-kind at 3:13\n",
    ),
    // a pointer field in holds
    (b"holds x.next == null;", b"ill-typed wrong-kind at 3:7\n"),
    // a pointer field in a freeze
    (
        b"holds true; freeze x.next == null;",
        b"ill-typed wrong-kind at 3:20\n",
    ),
    // j in a freeze
    (
        b"holds true; freeze x.key == j;",
        b"ill-typed wrong-kind at 3:29\n",
    ),
    // a fault in parentheses
    (
        b"holds (x.gone && (x.key));",
        b"ill-typed wrong-kind at 3:19\n",
    ),
    // a fault after or
    (
        b"holds x.gone || x.next == null;",
        b"ill-typed wrong-kind at 3:17\n",
    ),
];

/// Methods that break a rule.
const METHODS: [Case; 6] = [
    // a method has no kind
    (
        b"method find(k) { return false; }",
        b"ill-typed unknown at 4:8\n",
    ),
    // the word after as is no kind
    (
        b"method contains as find(k) { return false; }",
        b"ill-typed unknown at 4:20\n",
    ),
    // a method is declared twice
    (
        b"method contains(k) { return false; } method contains(k) { return false; }",
        b"ill-typed twice at 4:45\n",
    ),
    // a variable is declared twice
    (
        b"method contains(k) { var p, c, p; return false; }",
        b"ill-typed twice at 4:32\n",
    ),
    // a variable has the name of the argument
    (
        b"method contains(k) { var p, k; return false; }",
        b"ill-typed twice at 4:29\n",
    ),
    // the first of two methods counts
    (
        b"method contains(k) { return false; } method insert(k) { p = k; } method delete(k) { q = k; return true; }",
        b"ill-typed unknown at 4:57\n",
    ),
];

/// Statements that break a rule.
const STATEMENTS: [Case; 69] = [
    // an assigned variable is unknown
    (b"q = null; return false;", b"ill-typed unknown at 5:1\n"),
    // the argument is assigned
    (b"k = null; return false;", b"ill-typed wrong-kind at 5:1\n"),
    // an unknown value
    (b"p = q; return false;", b"ill-typed unknown at 5:5\n"),
    // a start node is no variable
    (b"p = h; return false;", b"ill-typed unknown at 5:5\n"),
    // the argument as a value
    (b"p = k; return false;", b"ill-typed wrong-kind at 5:5\n"),
    // a read of an unknown field
    (b"p = c.a; return false;", b"ill-typed unknown at 5:7\n"),
    // a read of a flag
    (
        b"p = c.gone; return false;",
        b"ill-typed wrong-kind at 5:5\n",
    ),
    // a read after the argument
    (
        b"p = k.next; return false;",
        b"ill-typed wrong-kind at 5:5\n",
    ),
    // a read into its own variable
    (
        b"p = p.next; return false;",
        b"ill-typed bind-reused at 5:5\n",
    ),
    // a read of an unknown field into its own variable
    (b"p = p.a; return false;", b"ill-typed bind-reused at 5:5\n"),
    // lock without a lock line
    (b"lock p; return false;", b"ill-typed unknown at 5:1\n"),
    // unlock without a lock line
    (b"unlock p; return false;", b"ill-typed unknown at 5:1\n"),
    // a test of an unknown name
    (
        b"if (q.gone) { } return false;",
        b"ill-typed unknown at 5:5\n",
    ),
    // a test of an unknown field
    (
        b"if (!p.a) { } return false;",
        b"ill-typed unknown at 5:8\n",
    ),
    // ! before a pointer in a test
    (
        b"if (!p.next) { } return false;",
        b"ill-typed wrong-kind at 5:6\n",
    ),
    // a node alone in a test
    (
        b"while (p) { } return false;",
        b"ill-typed wrong-kind at 5:8\n",
    ),
    // MIN alone in a test
    (
        b"if (MIN) { } return false;",
        b"ill-typed wrong-kind at 5:5\n",
    ),
    // a pointer against a key
    (
        b"if (p == k) { } return false;",
        b"ill-typed wrong-kind at 5:10\n",
    ),
    // a key against a pointer
    (
        b"if (k == p.next) { } return false;",
        b"ill-typed wrong-kind at 5:10\n",
    ),
    // an order of nodes
    (
        b"if (p < c) { } return false;",
        b"ill-typed wrong-kind at 5:9\n",
    ),
    // two pointer fields
    (
        b"if (p.next == p.next) { } return false;",
        b"ill-typed wrong-kind at 5:15\n",
    ),
    // in in a test
    (
        b"if (k in p) { } return false;",
        b"ill-typed wrong-kind at 5:7\n",
    ),
    // in of an unknown name
    (
        b"if (k.key in q) { } return false;",
        b"ill-typed unknown at 5:14\n",
    ),
    // a second node in one test
    (
        b"if (p.key < c.key) { } return false;",
        b"ill-typed wrong-kind at 5:13\n",
    ),
    // a second node in one while
    (
        b"while (p.gone && !c.gone) { } return false;",
        b"ill-typed wrong-kind at 5:19\n",
    ),
    // root is a second node
    (
        b"while (p.gone && root.gone) { } return false;",
        b"ill-typed wrong-kind at 5:18\n",
    ),
    // a second node with an unknown field
    (
        b"while (p.gone && c.a) { } return false;",
        b"ill-typed unknown at 5:20\n",
    ),
    // a name twice in one with
    (
        b"atomic { with p, c, p; } return false;",
        b"ill-typed twice at 5:21\n",
    ),
    // root twice in one with
    (
        b"atomic { with root, root; } return false;",
        b"ill-typed twice at 5:21\n",
    ),
    // the argument in a with
    (
        b"atomic { with k; } return false;",
        b"ill-typed wrong-kind at 5:15\n",
    ),
    // an unknown name in a with
    (
        b"atomic { with q; } return false;",
        b"ill-typed unknown at 5:15\n",
    ),
    // a fault in a test of a block
    (
        b"atomic { test p.key; } return false;",
        b"ill-typed wrong-kind at 5:15\n",
    ),
    // two pointer fields in a block
    (
        b"atomic { test p.next == c.next; } return false;",
        b"ill-typed wrong-kind at 5:25\n",
    ),
    // a bind of a flag
    (
        b"atomic { p = c.gone; } return false;",
        b"ill-typed wrong-kind at 5:14\n",
    ),
    // a bind of the argument
    (
        b"atomic { k = c.next; } return false;",
        b"ill-typed wrong-kind at 5:10\n",
    ),
    // a bound variable in a with
    (
        b"atomic { with p; p = c.next; } return false;",
        b"ill-typed bind-reused at 5:18\n",
    ),
    // a bound variable in a test
    (
        b"atomic { test p.gone; p = c.next; } return false;",
        b"ill-typed bind-reused at 5:23\n",
    ),
    // a variable is bound twice
    (
        b"atomic { p = c.next; p = n.next; } return false;",
        b"ill-typed bind-reused at 5:22\n",
    ),
    // a bound variable in a bind
    (
        b"atomic { p = c.next; n = p.next; } return false;",
        b"ill-typed bind-reused at 5:26\n",
    ),
    // a bound variable is written
    (
        b"atomic { p = c.next; write c.next = p; } return false;",
        b"ill-typed bind-reused at 5:37\n",
    ),
    // a bound variable that stands twice before
    (
        b"atomic { with p; test p.gone; p = c.next; } return false;",
        b"ill-typed bind-reused at 5:23\n",
    ),
    // a write to an unknown field
    (
        b"atomic { write p.a = null; } return false;",
        b"ill-typed unknown at 5:18\n",
    ),
    // a write to the argument
    (
        b"atomic { write k.next = null; } return false;",
        b"ill-typed wrong-kind at 5:16\n",
    ),
    // null is written to a flag
    (
        b"atomic { write p.gone = null; } return false;",
        b"ill-typed wrong-kind at 5:25\n",
    ),
    // a node is written to a flag
    (
        b"atomic { write p.gone = c; } return false;",
        b"ill-typed wrong-kind at 5:25\n",
    ),
    // an unknown node is written to a flag
    (
        b"atomic { write p.gone = q; } return false;",
        b"ill-typed unknown at 5:25\n",
    ),
    // a truth value is written to a pointer
    (
        b"atomic { write p.next = true; } return false;",
        b"ill-typed wrong-kind at 5:25\n",
    ),
    // the argument is written to a pointer
    (
        b"atomic { write p.next = k; } return false;",
        b"ill-typed wrong-kind at 5:25\n",
    ),
    // a field is written twice
    (
        b"atomic { write p.next = c; write p.next = n; } return false;",
        b"ill-typed twice at 5:36\n",
    ),
    // a write to another name
    (
        b"atomic { write p.next = c; write c.gone = true; } return false;",
        b"ill-typed wrong-kind at 5:34\n",
    ),
    // a write to root after another name
    (
        b"atomic { write p.next = c; write root.gone = true; } return false;",
        b"ill-typed wrong-kind at 5:34\n",
    ),
    // a write to another name with an unknown field
    (
        b"atomic { write p.next = c; write c.a = null; } return false;",
        b"ill-typed unknown at 5:36\n",
    ),
    // a fault in the else of a block
    (
        b"atomic { } else { q = p; } return false;",
        b"ill-typed unknown at 5:19\n",
    ),
    // a fault in the else of an if
    (
        b"if (p == c) { } else { q = p; } return false;",
        b"ill-typed unknown at 5:24\n",
    ),
    // a fault in a loop
    (b"loop { q = p; }", b"ill-typed unknown at 5:8\n"),
    // break outside a loop
    (b"break; return false;", b"ill-typed wrong-kind at 5:1\n"),
    // continue outside a loop
    (
        b"if (p == c) { continue; } return false;",
        b"ill-typed wrong-kind at 5:15\n",
    ),
    // break in an else outside a loop
    (
        b"atomic { } else { break; } return false;",
        b"ill-typed wrong-kind at 5:19\n",
    ),
    // an empty loop
    (b"loop { }", b"ill-typed wrong-kind at 5:1\n"),
    // a loop that begins with break
    (
        b"while (p == c) { loop { break; } } return false;",
        b"ill-typed wrong-kind at 5:18\n",
    ),
    // a loop that begins with continue
    (b"loop { continue; }", b"ill-typed wrong-kind at 5:1\n"),
    // no statement
    (b"", b"ill-typed no-return at 6:1\n"),
    // an if without an else
    (
        b"if (p == c) { return false; }",
        b"ill-typed no-return at 6:1\n",
    ),
    // a branch that can be completed
    (
        b"if (p == c) { return false; } else { p = c; }",
        b"ill-typed no-return at 6:1\n",
    ),
    // a while
    (
        b"while (p == c) { return false; }",
        b"ill-typed no-return at 6:1\n",
    ),
    // a loop with a break of its own
    (
        b"loop { if (p == c) { break; } }",
        b"ill-typed no-return at 6:1\n",
    ),
    // a loop with a break that no step reaches
    (
        b"loop { return false; break; }",
        b"ill-typed no-return at 6:1\n",
    ),
    // a block whose else returns
    (
        b"atomic { } else { return false; }",
        b"ill-typed no-return at 6:1\n",
    ),
    // a break in the else of a block
    (
        b"loop { atomic { } else { break; } }",
        b"ill-typed no-return at 6:1\n",
    ),
];

/// Statements where nodes have locks that break a rule.
const LOCKED: [Case; 2] = [
    // lock of an unknown name
    (b"lock q; return false;", b"ill-typed unknown at 5:6\n"),
    // unlock of the argument
    (b"unlock k; return false;", b"ill-typed wrong-kind at 5:8\n"),
];

/// Texts that break no rule, and what is said of them.
const WELL_TYPED: [Case; 7] = [
    // a plain text
    (
        b"structure s;\nroot h; start h { key = MIN; }\nholds false;\nmethod contains(k) { return false; }\n",
        b"structure s\neffects 0\naccepted\n",
    ),
    // names of fields, start nodes and variables may agree
    (
        b"structure s; root h;\nstart h { key = MIN; }\nholds true;\nmethod contains(h) { var s, x, j, contains; return false; }\n",
        b"structure s\neffects 0\nrejected start\n",
    ),
    // a loop without a break of its own is the end
    (
        b"structure s; flag gone; ptr next asc; root h;\nstart h { key = MIN; }\nholds true;\nmethod contains(k) { var p, c, n;\nloop { p = c; while (p == c) { break; } loop { p = c; break; } }\n}\n",
        b"structure s\neffects 0\nrejected start\n",
    ),
    // statements after a return
    (
        b"structure s; flag gone; ptr next asc; root h;\nstart h { key = MIN; }\nholds true;\nmethod contains(k) { var p, c, n;\nreturn false; p = c;\n}\n",
        b"structure s\neffects 0\nrejected start\n",
    ),
    // j in x in a keep
    (
        b"structure s; flag gone; ptr next asc; root h;\nstart h { key = MIN; }\nholds true; keep a : j in x || x.key < j;\nmethod contains(k) { return false; }\n",
        b"structure s\neffects 0\nrejected start\n",
    ),
    // a pointer field against null in a keep
    (
        b"structure s; flag gone; ptr next asc; root h;\nstart h { key = MIN; }\nholds true; keep a : null == x.next || x.next != null;\nmethod contains(k) { return false; }\n",
        b"structure s\neffects 0\nrejected start\n",
    ),
    // a name of a block may occur twice if it is not bound
    (
        b"structure s; flag gone; ptr next asc; root h;\nstart h { key = MIN; }\nholds true;\nmethod contains(k) { var p, c, n;\natomic { with p; test p.gone; c = p.next; } return false;\n}\n",
        b"structure s\neffects 0\nrejected start\n",
    ),
];

/// What stands before parts that break a rule, the parts, and what stands after them.
const BETWEEN: [(&[u8], &[Case], &[u8]); 5] = [
    (
        b"structure s;\n",
        &HEADERS,
        b"\nholds false;\nmethod contains(k) { return false; }\n",
    ),
    (
        b"structure s; flag gone; ptr next asc; root h;\nstart h { key = MIN; }\n",
        &CONDITIONS,
        b"\nmethod contains(k) { return false; }\n",
    ),
    (
        b"structure s; root h;\nstart h { key = MIN; }\nholds true;\n",
        &METHODS,
        b"\n",
    ),
    (
        b"structure s; flag gone; ptr next asc; root h;\nstart h { key = MIN; }\nholds true;\nmethod contains(k) { var p, c, n;\n",
        &STATEMENTS,
        b"\n}\n",
    ),
    (
        b"structure s; flag gone; ptr next asc; lock; root h;\nstart h { key = MIN; }\nholds true;\nmethod contains(k) { var p, c, n;\n",
        &LOCKED,
        b"\n}\n",
    ),
];

#[test]
fn parts_of_texts_break_their_rules(rt: HostRuntime) {
    for (before, cases, after) in BETWEEN {
        assert_eq!(rt;
            first_taken(&rt, rt.alloc(), before, cases, after),
            Ok(None)
        );
    }
}

#[test]
fn texts_are_typed_or_tell_the_first_broken_rule(rt: HostRuntime) {
    assert_eq!(rt;
        first_wrong(&rt, rt.alloc(), &["verify"], &ILL_TYPED),
        Ok(None)
    );
    assert_eq!(rt;
        first_wrong(&rt, rt.alloc(), &["verify"], &WELL_TYPED),
        Ok(None)
    );
}
