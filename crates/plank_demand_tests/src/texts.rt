//! Texts in which a keep may break at a node that no name is of. Each has the marks of the location that writes, as an unverified
//! prover finds them.
use plank_base::BYTES_LIMIT;
use plank_lex::lex;
use plank_parse::parse;
use plank_prog::Program;
use plank_type::check;
use std::alloc::Global;

/// A set with room for one key. A delete takes the node off in one block with the bind that takes its last
/// name.
pub const SLOT: &[u8] =
    b"structure slot;\nflag gone;\nptr next asc;\nlock;\nroot head;\nstart head { key = MIN; }\nedge next : x.key < j;\nholds x.key == j && !x.gone;\nkeep leaf : x.key == MIN || x.next == null;\nkeep inset : x.key != j || j in x;\nmethod insert(k) {\n  var n;\n  n = new;\n  loop {\n    atomic { test root.next == null; write root.next = n; } else { continue; }\n    return true;\n  }\n}\nmethod delete(k) {\n  var c;\n  loop {\n    atomic { test root.next != null; c = root.next; } else { continue; }\n    if (c.key == k) {\n      lock root;\n      atomic { with root; test !c.gone; write c.gone = true; } else { unlock root; continue; }\n      unlock root;\n      return true;\n    }\n  }\n}\nmethod remove as delete(k) {\n  var c, n;\n  n = new;\n  loop {\n    lock root;\n    atomic { test root.next != null; c = root.next; } else { unlock root; continue; }\n    if (c.key == k && !c.gone) {\n      atomic { c = n.next; write root.next = null; }\n      unlock root;\n      return true;\n    }\n    unlock root;\n  }\n}";

pub const SLOT_MARKS: &[u64] = &[0xff4fe0e3c653c1c7, 0xd7ca478];

/// An upkeep does the same to a node that a key may be at.
pub const SWEEP: &[u8] =
    b"structure vanish;\nflag on;\nptr next free;\nlock;\nroot head;\nstart head { key = MIN; }\nedge next : x.key < j;\nholds x.key == j && x.on;\nkeep leaf : x.key == MIN || x.next == null;\nkeep seen : j != x.key || j in x;\nmethod insert(k) {\n  var c, n;\n  n = new;\n  lock root;\n  c = root.next;\n  if (c == null) {\n    atomic { write n.on = true; }\n    atomic { write root.next = n; }\n    unlock root;\n    return true;\n  }\n  unlock root;\n  lock c;\n  if (c.key == k) {\n    atomic { test !c.on; write c.on = true; } else { unlock c; return false; }\n    unlock c;\n    return true;\n  }\n  loop { n = root; }\n}\nmethod delete(k) {\n  var c;\n  lock root;\n  c = root.next;\n  if (c == null) { return false; }\n  unlock root;\n  lock c;\n  if (c.key == k) {\n    atomic { test c.on; write c.on = false; } else { unlock c; return false; }\n    unlock c;\n    return true;\n  }\n  loop { c = root; }\n}\nmethod contains(k) {\n  var c;\n  lock root;\n  c = root.next;\n  if (c == null) { unlock root; return false; }\n  loop { c = root; }\n}\nmethod sweep as contains(k) {\n  var c, d, e;\n  d = new;\n  e = new;\n  lock root;\n  c = root.next;\n  if (c == null) { loop { c = root; } }\n  if (c.key != k) { loop { c = root; } }\n  lock c;\n  if (c.on) { loop { c = root; } }\n  atomic { write d.next = c; }\n  atomic { c = e.next; write root.next = null; }\n  c = d.next;\n  if (c == null) { loop { c = root; } }\n  if (c == d) { loop { c = root; } }\n  unlock c;\n  unlock root;\n  loop { c = root; }\n}";

pub const SWEEP_MARKS: &[u64] = &[0xe1f0e248ff80f03f, 0xf1cc3c5fdfd1ff01, 0x177];

/// An upkeep takes a run of marked nodes off a list; those between its first and its last lose their visits, which
/// a keep asks for.
pub const RUN: &[u8] =
    b"structure runs;\nflag marked;\nflag top;\nptr next asc;\nroot head;\nstart head { key = MIN; next = tail; }\nstart tail { key = MAX; }\nedge next : x.key < j;\nholds x.key == j && !x.marked;\nkeep linked : x.key == MAX || x.next != null;\nkeep ends : !x.marked || MIN < x.key && x.key < MAX;\nkeep seen : x.key != j || j in x || x.top;\nfreeze x.marked;\nmethod skip as upkeep(k) {\n  var c, s, t;\n  c = root.next;\n  if (c.marked) {\n    s = c.next;\n    if (s.marked) {\n      t = s.next;\n      s = t;\n      if (!s.marked) {\n        atomic { test root.next == c; test c.top; write root.next = s; } else { return true; }\n      }\n    }\n  }\n  return true;\n}";

/// The same, with a keep that asks for visits of nodes alone that are not marked.
pub const SAFE_RUN: &[u8] =
    b"structure runs;\nflag marked;\nflag top;\nptr next asc;\nroot head;\nstart head { key = MIN; next = tail; }\nstart tail { key = MAX; }\nedge next : x.key < j;\nholds x.key == j && !x.marked;\nkeep linked : x.key == MAX || x.next != null;\nkeep ends : !x.marked || MIN < x.key && x.key < MAX;\nkeep seen : x.key != j || j in x || x.marked;\nfreeze x.marked;\nmethod skip as upkeep(k) {\n  var c, s, t;\n  c = root.next;\n  if (c.marked) {\n    s = c.next;\n    if (s.marked) {\n      t = s.next;\n      s = t;\n      if (!s.marked) {\n        atomic { test root.next == c; test c.top; write root.next = s; } else { return true; }\n      }\n    }\n  }\n  return true;\n}";

pub const RUN_MARKS: &[u64] = &[0xeffee6c8fc80f81f, 0xfe0ffffffaefbfc1, 0x1ebbef1b3];

/// The program of a text, where it has one.
pub fn program_of(alloc: Global, text: &[u8]) -> Option<Program> {
    if text.len() > BYTES_LIMIT as usize {
        return None;
    }
    let tokens = lex(alloc, text).ok()?;
    let text = parse(alloc, &tokens).ok()?;
    check(alloc, &text).ok()
}
