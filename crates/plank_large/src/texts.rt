//! The text: a list after Michael's, with an insert, a delete, and any number of finds.
ghost use Rattle.std.specs.Prelude.{◌≡◌, ◌≤◌, ◌*◌, ◌++◌, length, OnOk, IfOk};
ghost use Rattle.plank_base.specs.declared.limits.TheConstants.{BYTES_LIMIT};
ghost use Rattle.plank_large.specs.Texts.{header_text, insert_text, delete_text, find_steps, find_name, find_text, finds_text, large_text};

use plank_base::OutOfMemory;
use plank_report::{append, append_decimal};
use std::alloc::Global;

const HEADER: &[u8] = b"structure michael;
flag marked;
ptr next asc;
root head;
start head { key = MIN; next = tail; }
start tail { key = MAX; }
edge next : x.key < j;
holds x.key == j && !x.marked;
keep linked : x.key == MAX || x.next != null;
keep ends : !x.marked || MIN < x.key && x.key < MAX;
keep inset : x.marked || j < x.key || j in x;
";

const INSERT: &[u8] = b"method insert(k) {
  var p, c, s, n;
  n = new; p = root; c = p.next;
  loop {
    if (c.marked) {
      s = c.next;
      atomic { test p.next == c; test !p.marked; write p.next = s; }
      else { p = root; s = p.next; }
      c = s;
    } else { if (c.key < k) { p = c; c = p.next; }
    else { if (c.key == k) { return false; }
    else {
      atomic { write n.next = c; }
      atomic { test p.next == c; test !p.marked; write p.next = n; }
      else { p = root; c = p.next; continue; }
      return true;
    } } }
  }
}
";

const DELETE: &[u8] = b"method delete(k) {
  var p, c, s;
  p = root; c = p.next;
  loop {
    if (c.marked) {
      s = c.next;
      atomic { test p.next == c; test !p.marked; write p.next = s; }
      else { p = root; s = p.next; }
      c = s;
    } else { if (c.key < k) { p = c; c = p.next; }
    else { if (c.key == k) {
      atomic { test !c.marked; write c.marked = true; } else { continue; }
      s = c.next;
      atomic { test p.next == c; test !p.marked; write p.next = s; }
      return true;
    } else { return false; } } }
  }
}
";

const FIND_STEPS: &[u8] = b"  var p, c;
  p = root; c = p.next;
  while (c.key < k) { p = c; c = p.next; }
  if (c.key == k) { if (c.marked) { return false; } else { return true; } }
  else { return false; }
}
";

#[tactic(auto, unfolding(crate::specs::Texts::header_text))]
fn append_header(out: &mut Vec<u8>) -> Result<(), OutOfMemory>
    ensures { OnOk result (out.new.items ≡ out.old.items ++ header_text) }
{
    append(out, HEADER)
}

#[tactic(auto, unfolding(crate::specs::Texts::insert_text))]
fn append_insert(out: &mut Vec<u8>) -> Result<(), OutOfMemory>
    ensures { OnOk result (out.new.items ≡ out.old.items ++ insert_text) }
{
    append(out, INSERT)
}

#[tactic(auto, unfolding(crate::specs::Texts::delete_text))]
fn append_delete(out: &mut Vec<u8>) -> Result<(), OutOfMemory>
    ensures { OnOk result (out.new.items ≡ out.old.items ++ delete_text) }
{
    append(out, DELETE)
}

#[tactic(auto, unfolding(crate::specs::Texts::find_steps))]
fn append_find_steps(out: &mut Vec<u8>) -> Result<(), OutOfMemory>
    ensures { OnOk result (out.new.items ≡ out.old.items ++ find_steps) }
{
    append(out, FIND_STEPS)
}

// The first find is named after its kind, the others are numbered.
fn append_find_name(alloc: Global, out: &mut Vec<u8>, number: u32) -> Result<(), OutOfMemory>
    ensures { OnOk result (out.new.items ≡ out.old.items ++ find_name number) }
{
    if number == 1 {
        return append(out, b"contains");
    }
    append(out, b"find")?;
    append_decimal(alloc, out, number)?;
    append(out, b" as contains")
}

fn append_find(alloc: Global, out: &mut Vec<u8>, number: u32) -> Result<(), OutOfMemory>
    ensures { OnOk result (out.new.items ≡ out.old.items ++ find_text number) }
{
    append(out, b"method ")?;
    append_find_name(alloc, out, number)?;
    append(out, b"(k) {\n")?;
    append_find_steps(out)
}

fn append_finds(alloc: Global, out: &mut Vec<u8>, count: u32) -> Result<(), OutOfMemory>
    requires { count ≤ 14 }
    ensures { OnOk result (out.new.items ≡ out.old.items ++ finds_text count) }
{
    for before in 0..count {
        append_find(alloc, out, before + 1)?;
    }
    Ok(())
}

/// The text of so many methods.
pub fn large_text(alloc: Global, methods: u32) -> Result<Vec<u8>, OutOfMemory>
    requires { (2 ≤ methods) × (methods ≤ 16) }
    ensures text { IfOk result (λ text. text.items ≡ large_text methods) }
    ensures few { IfOk result (λ text. length text.items ≤ BYTES_LIMIT) }
{
    let mut out = Vec::new(alloc);
    append_header(&mut out)?;
    append_insert(&mut out)?;
    append_delete(&mut out)?;
    append_finds(alloc, &mut out, methods - 2)?;
    Ok(out)
}
