//! Verdicts on whole structures: lists and trees after published ones, and texts with a fault.
use crate::calls::{Case, ENDS, first_wrong, reports};

/// A sorted list whose upkeep unlinks the first marked node on its way.
pub(crate) const SWEEP: &[u8] =
    b"structure michael;\nflag marked;\nptr next asc;\nroot head;\nstart head { key = MIN; next = tail; }\nstart tail { key = MAX; }\nedge next : x.key < j;\nholds x.key == j && !x.marked;\nkeep linked : x.key == MAX || x.next != null;\nkeep ends : !x.marked || MIN < x.key && x.key < MAX;\nkeep inset : x.marked || j < x.key || j in x;\nmethod insert(k) {\n  var p, c, s, n;\n  n = new; p = root; c = p.next;\n  loop {\n    if (c.marked) {\n      s = c.next;\n      atomic { test p.next == c; test !p.marked; write p.next = s; }\n      else { p = root; s = p.next; }\n      c = s;\n    } else { if (c.key < k) { p = c; c = p.next; }\n    else { if (c.key == k) { return false; }\n    else {\n      atomic { write n.next = c; }\n      atomic { test p.next == c; test !p.marked; write p.next = n; }\n      else { p = root; c = p.next; continue; }\n      return true;\n    } } }\n  }\n}\nmethod delete(k) {\n  var p, c, s;\n  p = root; c = p.next;\n  loop {\n    if (c.marked) {\n      s = c.next;\n      atomic { test p.next == c; test !p.marked; write p.next = s; }\n      else { p = root; s = p.next; }\n      c = s;\n    } else { if (c.key < k) { p = c; c = p.next; }\n    else { if (c.key == k) {\n      atomic { test !c.marked; write c.marked = true; } else { continue; }\n      s = c.next;\n      atomic { test p.next == c; test !p.marked; write p.next = s; }\n      return true;\n    } else { return false; } } }\n  }\n}\nmethod contains(k) {\n  var p, c;\n  p = root; c = p.next;\n  while (c.key < k) { p = c; c = p.next; }\n  if (c.key == k) { if (c.marked) { return false; } else { return true; } }\n  else { return false; }\n}\nmethod sweep as upkeep(k) {\n  var p, c, s;\n  p = root; c = p.next;\n  loop {\n    if (c.marked) {\n      s = c.next;\n      atomic { test p.next == c; test !p.marked; write p.next = s; }\n      return true;\n    }\n    if (k <= c.key) { return true; }\n    p = c; c = p.next;\n  }\n}\n";

/// A test that reads a field of null.
const GAP: &[u8] =
    b"structure gap;\nroot a;\nstart a { key = MIN; }\nholds false;\nmethod contains(k) {\n  var p;\n  if (p.key < k) { return false; }\n  return false;\n}\n";

/// An insert that can lose the insert of another thread.
pub(crate) const LOST: &[u8] =
    b"structure lost;\nptr next asc;\nroot head;\nstart head { key = MIN; next = tail; }\nstart tail { key = MAX; }\nedge next : x.key < j;\nholds x.key == j;\nkeep linked : x.key == MAX || x.next != null;\nmethod insert(k) {\n  var p, c, n;\n  p = root;\n  c = p.next;\n  while (c.key < k) {\n    p = c;\n    c = p.next;\n  }\n  if (k < c.key) {\n    n = new;\n    atomic { write n.next = c; }\n    atomic { write p.next = n; }\n    return true;\n  }\n  return false;\n}\n";

/// A method of upkeep that puts every key in.
pub(crate) const LAMP: &[u8] =
    b"structure lamp;\nflag up;\nroot a;\nstart a { key = MIN; }\nholds x.up;\nmethod light as upkeep(k) { atomic { write root.up = true; } return true; }\n";

/// A set with runs that no set explains: a node is unlinked and forgotten in one step.
const STALE_SLOT: &[u8] =
    b"structure slot;\nflag gone;\nptr next asc;\nlock;\nroot head;\nstart head { key = MIN; }\nedge next : x.key < j;\nholds x.key == j && !x.gone;\nkeep leaf : x.key == MIN || x.next == null;\nkeep inset : x.key != j || j in x;\nmethod insert(k) {\n  var n;\n  n = new;\n  loop {\n    atomic { test root.next == null; write root.next = n; } else { continue; }\n    return true;\n  }\n}\nmethod delete(k) {\n  var c;\n  loop {\n    atomic { test root.next != null; c = root.next; } else { continue; }\n    if (c.key == k) {\n      lock root;\n      atomic { with root; test !c.gone; write c.gone = true; } else { unlock root; continue; }\n      unlock root;\n      return true;\n    }\n  }\n}\nmethod remove as delete(k) {\n  var c, n;\n  n = new;\n  loop {\n    lock root;\n    atomic { test root.next != null; c = root.next; } else { unlock root; continue; }\n    if (c.key == k && !c.gone) {\n      atomic { c = n.next; write root.next = null; }\n      unlock root;\n      return true;\n    }\n    unlock root;\n  }\n}\n";

/// One bucket of a hash set, whose insert puts the new node before all others.
const UNORDERED: &[u8] =
    b"structure bucket;\nptr next free;\nlock;\nroot head;\nstart head { key = MIN; }\nedge next : x.key != j;\nholds x.key == j;\nmethod insert(k) {\n  var p, c, n;\n  lock root;\n  p = root;\n  loop {\n    if (p.key == k) { unlock root; return false; }\n    atomic { test p.key != k; test p.next != null; c = p.next; } else { break; }\n    p = c;\n  }\n  atomic { test p.key != k; test p.next == null; } else { loop { p = root; } }\n  n = new;\n  c = root.next;\n  atomic { write n.next = c; }\n  atomic { with c; write root.next = n; }\n  unlock root; return true;\n}\nmethod contains(k) {\n  var p, c;\n  lock root;\n  p = root;\n  loop {\n    if (p.key == k) { unlock root; return true; }\n    atomic { test p.key != k; test p.next != null; c = p.next; } else { break; }\n    p = c;\n  }\n  atomic { test p.key != k; test p.next == null; } else { loop { p = root; } }\n  unlock root; return false;\n}\n";

/// The same without the keep that says where pointers lead.
const UNLINKED: &[u8] =
    b"structure ends;\nptr next asc;\nroot head;\nstart head { key = MIN; next = tail; }\nstart tail { key = MAX; }\nedge next : x.key < j;\nholds x.key == j;\nmethod contains(k) {\n  var p, c;\n  p = root;\n  c = p.next;\n  while (c.key < k) {\n    p = c;\n    c = p.next;\n  }\n  if (c.key == k) { return true; } else { return false; }\n}\n";

/// What `verify` writes of the effects and the verdict of a text.
pub(crate) const LOST_REPORT: &[u8] =
    b"structure lost\neffects 2\neffect 1 insert 19:5\n  write n.next = c;\n  c != n\n  c != null\n  n != null\n  n.key < c.key\n  n.key <= c.key\n  n.key <= k\n  k < c.key\n  k <= c.key\n  k <= n.key\n  MIN < c.key\n  MIN < n.key\n  n.key < MAX\n  n.next == null\n  n owned\n  c shared\neffect 2 insert 20:5\n  write p.next = n;\n  p != n\n  p != null\n  n != null\n  p.key < n.key\n  p.key <= n.key\n  p.key < k\n  p.key <= k\n  n.key <= k\n  k <= n.key\n  MIN < n.key\n  p.key < MAX\n  n.key < MAX\n  n owned\n  p shared\nrejected footprint in insert at 20:5\n";

pub(crate) const LAMP_REPORT: &[u8] =
    b"structure lamp\neffects 1\neffect 1 light 6:29\n  write root.up = true;\n  root != null\n  root.key < k\n  root.key <= k\n  root.key == MIN\n  root.key < MAX\n  root shared\n  k in root\nrejected change in light at 6:29\n";

/// The same without the verdict.
pub(crate) const LAMP_EFFECTS: &[u8] =
    b"structure lamp\neffects 1\neffect 1 light 6:29\n  write root.up = true;\n  root != null\n  root.key < k\n  root.key <= k\n  root.key == MIN\n  root.key < MAX\n  root shared\n  k in root\n";

/// Texts and whole reports.
const REPORTS: [Case; 5] = [
    // a list that is only read
    (ENDS, b"structure ends\neffects 0\naccepted\n"),
    // a walk that may come to null
    (
        UNLINKED,
        b"structure ends\neffects 0\nrejected null in contains at 12:3\n",
    ),
    // a read of null
    (
        GAP,
        b"structure gap\neffects 0\nrejected null in contains at 7:3\n",
    ),
    (LOST, LOST_REPORT),
    // an upkeep that changes the set
    (LAMP, LAMP_REPORT),
];

/// Texts and their effects alone.
const EFFECTS: [Case; 2] = [(ENDS, b"structure ends\neffects 0\n"), (LAMP, LAMP_EFFECTS)];

#[test]
fn reports_are_told_whole(rt: HostRuntime) {
    assert_eq!(rt;
        first_wrong(&rt, rt.alloc(), &["verify"], &REPORTS),
        Ok(None)
    );
    assert_eq!(rt;
        first_wrong(&rt, rt.alloc(), &["effects"], &EFFECTS),
        Ok(None)
    );
}

/// Texts, and how the report on each begins and ends: each form of a test, a bind and a write, the statements on locks,
/// all kinds of statements, and an effect with as many facts as it may have.
const BOTH_ENDS: [(&[u8], &[u8], &[u8]); 5] = [
    (
        b"structure forms;\nflag a;\nflag b;\nptr next free;\nptr back free;\nlock;\nroot r;\nstart r { key = MIN; }\nholds false;\nmethod contains(k) {\n  var p, c, n;\n  atomic {\n    with c; test root.a; test !root.b; test root.a == p.b; test root.a != p.b;\n    test p.key == k; test MIN != p.key; test p.key < root.key; test k <= MAX;\n    test p == c; test c != null; test root.next == p; test null != root.back;\n    n = root.next; write root.a = true; write root.b = false; write root.next = null; write root.back = p;\n  }\n  return false;\n}\n",
        b"structure forms\neffects 1\neffect 1 contains 12:3\n  test root.a;\n  test !root.b;\n  test root.a == p.b;\n  test root.a != p.b;\n  test p.key == k;\n  test MIN != p.key;\n  test p.key < root.key;\n  test k <= MAX;\n  test p == c;\n  test c != null;\n  test root.next == p;\n  test null != root.back;\n  n = root.next;\n  write root.a = true;\n  write root.b = false;\n  write root.next = null;\n  write root.back = p;\n  p == c\n",
        b"\nrejected null in contains at 12:3\n",
    ),
    (
        b"structure one;\nlock;\nroot a;\nstart a { key = MIN; }\nholds false;\nmethod contains(k) {\n  lock root;\n  return false;\n}\n",
        b"structure one\neffects 1\neffect 1 contains 7:3\n  lock root;\n  root != null\n",
        b"\naccepted\n",
    ),
    (
        b"structure one;\nlock;\nroot a;\nstart a { key = MIN; }\nholds false;\nmethod contains(k) {\n  unlock root;\n  return false;\n}\n",
        b"structure one\neffects 1\neffect 1 contains 7:3\n  unlock root;\n  root != null\n",
        b"\naccepted\n",
    ),
    (
        b"structure s; flag gone; ptr next asc; lock; root h;\nstart h { key = MIN; }\nholds true;\nmethod contains(k) { var p, c, n;\nlock p; unlock root; loop { p = new; c = null; n = root; p = n; c = n.next; while (p.gone && p.key < k) { continue; } atomic { with c; test p.next == c; test !root.gone; n = root.next; write p.next = c; write p.gone = true; } else { break; } if (p == c) { return true; } else { continue; } } return false;\n}\n",
        b"structure s\neffects 1\n",
        b"\nrejected start\n",
    ),
    (
        b"structure one;\nflag a; flag b; flag c; flag d; flag e; ptr l free; ptr r free;\nlock;\nroot a;\nstart a { key = MIN; }\nholds false;\nmethod contains(k) { var v1, v2, v3, v4, v5, v6, v7; atomic { with v1, v2, v3, v4, v5, v6, v7; write root.l = null; } return false; }\n",
        b"structure one\neffects 1\n",
        b"\naccepted\n",
    ),
];

#[test]
fn steps_are_told_as_their_statements_stand(rt: HostRuntime) {
    for (text, first, last) in BOTH_ENDS {
        assert!(rt; reports(&rt, rt.alloc(), text, first, last) == Ok(true));
    }
}

/// Texts with locks, and how the report on each begins and ends.
const LOCKED: [(&[u8], &[u8], &[u8]); 2] = [
    // a node is forgotten as it is unlinked
    (
        STALE_SLOT,
        b"structure slot\neffects 10\n",
        b"\nrejected keep in remove at 38:7\n",
    ),
    // the walk of the new key ends at a node that no name was of
    (
        UNORDERED,
        b"structure bucket\neffects 8\n",
        b"\nrejected footprint in insert at 21:3\n",
    ),
];

#[test]
fn structures_with_locks_are_judged(rt: HostRuntime) {
    for (text, first, last) in LOCKED {
        assert!(rt; reports(&rt, rt.alloc(), text, first, last) == Ok(true));
    }
}
