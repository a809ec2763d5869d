ghost use Rattle.std.specs.Prelude.{◌≡◌, length, IfOk, not, true, slice_get};
ghost use Rattle.plank_pic.specs.declared.parts.Part.{Part};
ghost use Rattle.plank_pic.specs.Lawful.{part_fits};
ghost use Rattle.plank_parts.specs.Numbers.{number, is_moved, HasAssignments, IsNumbering};
ghost use Rattle.plank_parts.specs.Shapes.{frame_of};

use crate::shapes::Shape;
use crate::sides::{Keeps, Numbered, Side};
use crate::tables::{Table, table_of};
use plank_base::OutOfMemory;
use plank_pic::Part;
use std::alloc::Global;
use std::marker::Model;

/// The numbers of the parts of two pictures of one frame, one before a step and one after it. Parts
/// have the numbers below `len`; a part that the step keeps has one number for both pictures.
#[derive(Drop)]
pub struct Numbering<'a> {
    shape: Shape<'a>,
    table: Table,
}

impl<'a> Model for Numbering<'a> {
    ghost use Rattle.plank_parts.specs.Numbers.{Numbers, IsNumbering, numbers_code};
    ghost use Rattle.plank_parts.specs.Shapes.{frame_of};

    ghost Value = { Numbers };

    ghost coded = { numbers_code };

    ghost view = { λ numbering. record { frame = frame_of numbering.shape; table = numbering.table } };

    ghost invariant = { λ numbering. IsNumbering (frame_of numbering.shape) numbering.table };
}

impl<'a> Numbering<'a> {
    /// The numbers for a step that keeps these parts.
    pub fn new<K: Keeps>(
        alloc: Global,
        shape: Shape<'a>,
        keeps: &K,
    ) -> Result<Numbering<'a>, OutOfMemory>
        ensures frame { IfOk result (λ numbers. numbers.frame ≡ frame_of shape.entry) }
        ensures moved { IfOk result (λ numbers. (part : Part) → part_fits (frame_of shape.entry) part ≡ true → is_moved numbers.table part ≡ not (K.keeps keeps.now part)) }
    {
        let table = table_of(alloc, &shape, keeps)?;
        Ok(Numbering { shape, table })
    }

    /// The structure, the names and the root.
    #[inline(always)]
    pub fn shape(&self) -> Shape<'a>
        ensures { frame_of result ≡ self.now.frame }
    {
        self.shape
    }

    /// How many numbers parts have.
    #[inline(always)]
    pub fn len(&self) -> usize
        ensures { result ≡ length self.now.table.parts }
    {
        self.table.len()
    }

    /// What a number is of.
    #[inline(always)]
    pub fn at(&self, number: usize) -> Option<Numbered>
        ensures { result ≡ slice_get self.now.table.parts number }
    {
        self.table.at(number)
    }

    /// The number of a part of the picture before or after.
    #[inline(always)]
    pub fn number(&self, side: Side, part: Part) -> usize
        ensures { result ≡ number self.now.table side part }
    {
        self.table.number(side, part)
    }

    /// Whether a part has a number of its own after the step.
    pub fn is_moved(&self, part: Part) -> bool
        ensures { result ≡ is_moved self.now.table part }
    {
        self.number(Side::After, part) != self.number(Side::Before, part)
    }

    /// Whether a part is one of the frame's.
    #[inline(always)]
    pub fn fits(&self, part: Part) -> bool
        ensures { result ≡ part_fits self.now.frame part }
    {
        self.shape.fits(part)
    }

    /// A law of numberings: what every number is of, and that two pictures which agree at the parts
    /// that are not moved are the pictures of an assignment, with any values past their parts. It
    /// does nothing.
    #[tactic(auto, using(crate::proofs::Assigning::has_assignments))]
    pub fn pictures(&self)
        ensures numbered { IsNumbering self.now.frame self.now.table }
        ensures assigned { HasAssignments self.now }
    {
        let _ = &self.shape;
    }
}
