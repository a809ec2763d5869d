//! Structures after published ones, each judged whole. They take longer than all other tests, so each stands alone.
use crate::calls::reports;
use crate::structures::SWEEP;
use crate::workers::by_two;

/// A search tree whose deleted nodes stay, with a flag.
const TREE: &[u8] =
    b"structure tree;\nflag gone;\nptr left desc;\nptr right asc;\nroot top;\nstart top { key = MIN; }\nedge left : j < x.key;\nedge right : x.key < j;\nholds x.key == j && !x.gone;\nmethod insert(k) {\n  var p, c, n;\n  n = new; p = root;\n  loop {\n    if (k < p.key) {\n      atomic { test p.left != null; c = p.left; }\n      else {\n        atomic { test p.left == null; write p.left = n; } else { continue; }\n        return true;\n      }\n      p = c;\n    } else { if (p.key < k) {\n      atomic { test p.right != null; c = p.right; }\n      else {\n        atomic { test p.right == null; write p.right = n; } else { continue; }\n        return true;\n      }\n      p = c;\n    } else {\n      atomic { test p.gone; write p.gone = false; } else { return false; }\n      return true;\n    } }\n  }\n}\nmethod delete(k) {\n  var p, c;\n  p = root;\n  loop {\n    if (k < p.key) {\n      atomic { test p.left != null; c = p.left; } else { return false; }\n      p = c;\n    } else { if (p.key < k) {\n      atomic { test p.right != null; c = p.right; } else { return false; }\n      p = c;\n    } else {\n      atomic { test !p.gone; write p.gone = true; } else { return false; }\n      return true;\n    } }\n  }\n}\nmethod contains(k) {\n  var p, c;\n  p = root;\n  loop {\n    if (k < p.key) {\n      atomic { test p.left != null; c = p.left; } else { return false; }\n      p = c;\n    } else { if (p.key < k) {\n      atomic { test p.right != null; c = p.right; } else { return false; }\n      p = c;\n    } else { if (p.gone) { return false; } else { return true; } } }\n  }\n}\n";

/// A sorted list with locks taken hand over hand.
const COUPLING: &[u8] =
    b"structure coupling;\nptr next asc;\nlock;\nroot head;\nstart head { key = MIN; next = tail; }\nstart tail { key = MAX; }\nedge next : x.key < j;\nholds x.key == j;\nkeep linked : x.key == MAX || x.next != null;\nmethod insert(k) {\n  var p, c, n;\n  p = root; lock p;\n  loop {\n    c = p.next; lock c;\n    if (c.key < k) { unlock p; p = c; } else { break; }\n  }\n  if (c.key == k) { unlock p; unlock c; return false; }\n  n = new;\n  atomic { write n.next = c; }\n  atomic { with c; write p.next = n; }\n  unlock p; unlock c; return true;\n}\nmethod delete(k) {\n  var p, c, s;\n  p = root; lock p;\n  loop {\n    c = p.next; lock c;\n    if (c.key < k) { unlock p; p = c; } else { break; }\n  }\n  if (c.key == k) {\n    s = c.next;\n    atomic { with c; write p.next = s; }\n    unlock p; unlock c; return true;\n  }\n  unlock p; unlock c; return false;\n}\nmethod contains(k) {\n  var p, c;\n  p = root; lock p;\n  loop {\n    c = p.next; lock c;\n    if (c.key < k) { unlock p; p = c; } else { break; }\n  }\n  unlock p;\n  if (c.key == k) { unlock c; return true; }\n  unlock c; return false;\n}\n";

/// A sorted list after the lazy list: marks, locks for writes, reads without locks.
const LAZY: &[u8] =
    b"structure lazy;\nflag marked;\nptr next asc;\nlock;\nroot head;\nstart head { key = MIN; next = tail; }\nstart tail { key = MAX; }\nedge next : x.key < j;\nholds x.key == j && !x.marked;\nkeep linked : x.key == MAX || x.next != null;\nkeep ends : !x.marked || MIN < x.key && x.key < MAX;\nkeep inset : x.marked || j < x.key || j in x;\nmethod insert(k) {\n  var p, c, n;\n  n = new;\n  loop {\n    p = root; c = p.next;\n    while (c.key < k) { p = c; c = p.next; }\n    lock p; lock c;\n    atomic { test !p.marked; test !c.marked; test p.next == c; }\n    else { unlock p; unlock c; continue; }\n    if (c.key == k) { unlock p; unlock c; return false; }\n    atomic { write n.next = c; }\n    atomic { with c; write p.next = n; }\n    unlock p; unlock c; return true;\n  }\n}\nmethod delete(k) {\n  var p, c, s;\n  loop {\n    p = root; c = p.next;\n    while (c.key < k) { p = c; c = p.next; }\n    lock p; lock c;\n    atomic { test !p.marked; test !c.marked; test p.next == c; }\n    else { unlock p; unlock c; continue; }\n    if (c.key == k) {\n      atomic { write c.marked = true; }\n      s = c.next;\n      atomic { with c; write p.next = s; }\n      unlock p; unlock c; return true;\n    }\n    unlock p; unlock c; return false;\n  }\n}\nmethod contains(k) {\n  var p, c;\n  p = root; c = p.next;\n  while (c.key < k) { p = c; c = p.next; }\n  if (c.key == k) { if (c.marked) { return false; } else { return true; } }\n  else { return false; }\n}\n";

/// A sorted list after Michael's: marks, no locks, one marked node unlinked at a time.
const MICHAEL: &[u8] =
    b"structure michael;\nflag marked;\nptr next asc;\nroot head;\nstart head { key = MIN; next = tail; }\nstart tail { key = MAX; }\nedge next : x.key < j;\nholds x.key == j && !x.marked;\nkeep linked : x.key == MAX || x.next != null;\nkeep ends : !x.marked || MIN < x.key && x.key < MAX;\nkeep inset : x.marked || j < x.key || j in x;\nmethod insert(k) {\n  var p, c, s, n;\n  n = new; p = root; c = p.next;\n  loop {\n    if (c.marked) {\n      s = c.next;\n      atomic { test p.next == c; test !p.marked; write p.next = s; }\n      else { p = root; s = p.next; }\n      c = s;\n    } else { if (c.key < k) { p = c; c = p.next; }\n    else { if (c.key == k) { return false; }\n    else {\n      atomic { write n.next = c; }\n      atomic { test p.next == c; test !p.marked; write p.next = n; }\n      else { p = root; c = p.next; continue; }\n      return true;\n    } } }\n  }\n}\nmethod delete(k) {\n  var p, c, s;\n  p = root; c = p.next;\n  loop {\n    if (c.marked) {\n      s = c.next;\n      atomic { test p.next == c; test !p.marked; write p.next = s; }\n      else { p = root; s = p.next; }\n      c = s;\n    } else { if (c.key < k) { p = c; c = p.next; }\n    else { if (c.key == k) {\n      atomic { test !c.marked; write c.marked = true; } else { continue; }\n      s = c.next;\n      atomic { test p.next == c; test !p.marked; write p.next = s; }\n      return true;\n    } else { return false; } } }\n  }\n}\nmethod contains(k) {\n  var p, c;\n  p = root; c = p.next;\n  while (c.key < k) { p = c; c = p.next; }\n  if (c.key == k) { if (c.marked) { return false; } else { return true; } }\n  else { return false; }\n}\n";

#[test]
fn a_tree_with_deletion_flags_is_accepted(rt: HostRuntime) {
    let first = b"structure tree\neffects 4\n";
    assert!(rt; reports(&rt, rt.alloc(), TREE, first, b"\naccepted\n") == Ok(true));
}

#[test]
fn a_list_with_locks_taken_hand_over_hand_is_accepted(rt: HostRuntime) {
    let first = b"structure coupling\neffects 23\n";
    assert!(rt; reports(&rt, rt.alloc(), COUPLING, first, b"\naccepted\n") == Ok(true));
}

#[test]
fn a_list_after_the_lazy_list_is_accepted(rt: HostRuntime) {
    let first = b"structure lazy\neffects 20\n";
    assert!(rt; reports(&rt, rt.alloc(), LAZY, first, b"\naccepted\n") == Ok(true));
}

#[test]
fn a_list_after_michaels_is_accepted(rt: HostRuntime) {
    let first = b"structure michael\neffects 6\n";
    assert!(rt; reports(&rt, rt.alloc(), MICHAEL, first, b"\naccepted\n") == Ok(true));
}

#[test]
fn a_list_after_michaels_is_accepted_by_two_workers_at_once(rt: HostRuntime) {
    let (report, met) = by_two(&rt, rt.alloc(), MICHAEL).expect(&rt, "memory");
    assert!(rt; met);
    assert!(rt;
        report
            .as_slice()
            .starts_with(b"structure michael\neffects 6\n")
    );
    assert!(rt; report.as_slice().ends_with(b"\naccepted\n"));
}

#[test]
fn a_list_after_michaels_with_an_upkeep_is_accepted(rt: HostRuntime) {
    let first = b"structure michael\neffects 7\n";
    assert!(rt; reports(&rt, rt.alloc(), SWEEP, first, b"\naccepted\n") == Ok(true));
}
