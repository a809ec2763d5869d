// Cells of whole pictures that say no, many at a look.
ghost use Rattle.std.specs.Prelude.{◌≡◌, ◌<◌, ◌&&◌, false, slice_index_or};
ghost use Rattle.plank_pic.specs.declared.parts.Part.{Part};
ghost use Rattle.plank_parts.specs.Codes.{part_code};
ghost use Rattle.plank_whole.specs.Cells.{is_unsaid, row_is_unsaid, are_unsaid, chain_picks_neither};

use crate::wholes::Picture;
use plank_parts::part_code;
use plank_pic::{KeyName, Part};

// The code of the first of the parts that a chain from a name has the stop node of a slot.
fn picks_row(key: KeyName, from: u8, slot: u8) -> usize
    ensures code { result ≡ part_code (Part.Picks key from 0 slot) }
    ensures small { result < 500_000 }
{
    part_code(Part::Picks {
        key,
        from,
        to: 0,
        slot,
    })
}

impl<'a> Picture<'a> {
    /// Whether the cell of a code says yes.
    pub(crate) fn is_said(&self, code: usize) -> bool
        ensures { result ≡ slice_index_or self.now.said code false }
    {
        self.said.get(code).copied().unwrap_or(false)
    }

    /// Whether the cell so far behind a code says no.
    pub(crate) fn is_unsaid(&self, base: usize, step: u8) -> bool
        requires { base < 1_000_000 }
        ensures { result ≡ is_unsaid self.now.said base step }
    {
        !self.is_said(base + step as usize)
    }

    // Whether as many cells as there are names say no.
    #[tactic(auto, using(plank_lawful::proofs::Asked::all_of_none, plank_lawful::proofs::Asked::all_more))]
    fn row_is_unsaid(&self, base: usize) -> bool
        requires { base < 1_000_000 }
        ensures { result ≡ row_is_unsaid self.now.said self.now.shape.names base }
    {
        for step in 0..self.shape.names {
            if !self.is_unsaid(base, step) {
                return false;
            }
        }
        true
    }

    // Whether as many rows do.
    #[tactic(auto, using(plank_lawful::proofs::Asked::all_of_none, plank_lawful::proofs::Asked::all_more))]
    fn are_unsaid(&self, base: usize) -> bool
        requires { base < 500_000 }
        ensures { result ≡ are_unsaid self.now.said self.now.shape.names base }
    {
        for row in 0..self.shape.names {
            if !self.row_is_unsaid(base + 32 * row as usize) {
                return false;
            }
        }
        true
    }

    /// Whether no chain has the stop node of a slot.
    pub(crate) fn picks_none(&self, key: KeyName, slot: u8) -> bool
        ensures { result ≡ are_unsaid self.now.said self.now.shape.names (part_code (Part.Picks key 0 0 slot)) }
    {
        self.are_unsaid(picks_row(key, 0, slot))
    }

    /// Whether no chain from a name has one for a key.
    pub(crate) fn chain_picks_neither(&self, key: KeyName, from: u8) -> bool
        ensures { result ≡ chain_picks_neither self.now.said self.now.shape.names key from }
    {
        self.row_is_unsaid(picks_row(key, from, 0)) && self.row_is_unsaid(picks_row(key, from, 1))
    }
}
