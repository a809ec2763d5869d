ghost use Rattle.std.specs.Prelude.{◌≡◌, ◌≤◌, ◌<◌, ◌+◌, ◌^◌, true, [], length, IfOk, OnOk, slice_get, slice_index_or};
ghost use Rattle.plank_parts.specs.Codes.{part_code, part_of};
ghost use Rattle.plank_parts.specs.Numbers.{Covers, number, with_code, is_coded};
ghost use Rattle.plank_parts.specs.Shapes.{frame_of};

use crate::codes::{CODES, part_code, part_of};
use crate::shapes::Shape;
use crate::sides::{Keeps, Numbered, Side};
use plank_base::OutOfMemory;
use plank_pic::Part;
use std::alloc::Global;
use std::marker::Model;

/// Numbers by the codes of parts, and what each number is of.
#[derive(Debug, Drop)]
pub(crate) struct Table {
    before: Vec<u16>,
    after: Vec<u16>,
    parts: Vec<Numbered>,
}

impl Model for Table {
    ghost use Rattle.plank_parts.specs.Numbers.{Table};

    ghost Value = { Table };

    ghost view = { λ table. record { before = table.before.items; after = table.after.items; parts = table.parts.items } };
}

impl Table {
    ghost use Rattle.plank_parts.specs.Numbers as numbers;

    fn new(alloc: Global) -> Table
        ensures before { result.before ≡ [] }
        ensures after { result.after ≡ [] }
        ensures parts { result.parts ≡ [] }
    {
        Table {
            before: Vec::new(alloc),
            after: Vec::new(alloc),
            parts: Vec::new(alloc),
        }
    }

    /// How many numbers there are.
    #[inline(always)]
    pub(crate) fn len(&self) -> usize
        ensures { result ≡ length self.now.parts }
    {
        self.parts.len()
    }

    /// What a number is of.
    #[inline(always)]
    pub(crate) fn at(&self, number: usize) -> Option<Numbered>
        ensures { result ≡ slice_get self.now.parts number }
    {
        self.parts.get(number).copied()
    }

    /// The number of a part of the picture before or after.
    #[inline(always)]
    pub(crate) fn number(&self, side: Side, part: Part) -> usize
        ensures { result ≡ number self.now side part }
    {
        match side {
            Side::Before => read(self.before.as_slice(), part_code(part)),
            Side::After => read(self.after.as_slice(), part_code(part)),
        }
    }

    // One more code.
    fn add(&mut self, part: Part, is_coded: bool, is_kept: bool) -> Result<(), OutOfMemory>
        requires { length self.old.parts + 2 ≤ 2 ^ 16 }
        ensures { OnOk result (self.new ≡ with_code self.old part is_coded is_kept) }
    {
        if !is_coded {
            self.before.push(0)?;
            self.after.push(0)?;
            return Ok(());
        }
        self.before.push(self.parts.len() as u16)?;
        if is_kept {
            self.after.push(self.parts.len() as u16)?;
        }
        self.parts.push(Numbered {
            part,
            side: Side::Before,
        })?;
        if !is_kept {
            self.after.push(self.parts.len() as u16)?;
            self.parts.push(Numbered {
                part,
                side: Side::After,
            })?;
        }
        Ok(())
    }
}

#[inline(always)]
fn read(numbers: &[u16], code: usize) -> usize
    ensures { result ≡ slice_index_or numbers.now code 0 }
{
    if code < numbers.len() {
        numbers[code] as usize
    } else {
        0
    }
}

// Whether a code is that of a part of the frame.
fn is_coded(shape: &Shape<'_>, part: Part, code: usize) -> bool
    requires { part ≡ part_of code }
    ensures { result ≡ is_coded (frame_of shape.now) code }
{
    shape.fits(part) && part_code(part) == code
}

// Whether a part is kept, asked only where it is one of the frame's.
fn is_kept<K: Keeps>(keeps: &K, part: Part, is_coded: bool) -> bool
    ensures { is_coded ≡ true → result ≡ K.keeps keeps.now part }
{
    !is_coded || keeps.keeps(part)
}

// One more code.
fn add_code<K: Keeps>(
    table: &mut Table,
    shape: &Shape<'_>,
    keeps: &K,
    code: usize,
) -> Result<(), OutOfMemory>
    requires code { code < 8704 }
    requires so_far { Covers (frame_of shape.now) (K.keeps keeps.now) code table.old }
    ensures { OnOk result (Covers (frame_of shape.now) (K.keeps keeps.now) (code + 1) table.new) }
{
    let part = part_of(code);
    let there = is_coded(shape, part, code);
    table.add(part, there, is_kept(keeps, part, there))
}

/// The table of a frame, in which a part that is kept has one number for both pictures.
#[tactic(auto, using(crate::proofs::Covering::covers_none))]
pub(crate) fn table_of<K: Keeps>(
    alloc: Global,
    shape: &Shape<'_>,
    keeps: &K,
) -> Result<Table, OutOfMemory>
    ensures { IfOk result (Covers (frame_of shape.now) (K.keeps keeps.now) 8704) }
{
    let mut table = Table::new(alloc);
    for code in 0..CODES {
        add_code(&mut table, shape, keeps, code)?;
    }
    Ok(table)
}
