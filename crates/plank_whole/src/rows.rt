// Rows of cells of whole pictures: where rules ask of the second index before all else whether one
// part is said, and nothing where it is not.
ghost use Rattle.std.specs.Prelude.{◌≡◌, ◌<◌, IfSome};
ghost use Rattle.plank_pic.specs.declared.parts.Part.{Part};
ghost use Rattle.plank_lawful.specs.Indexes.{place_at};
ghost use Rattle.plank_parts.specs.Codes.{part_code};
ghost use Rattle.plank_whole.specs.Wholes.{frame_of};
ghost use Rattle.plank_whole.specs.Rows.{name_row, pointer_row, walk_row, chain_row, kept_row, row_of, is_idle};

use crate::wholes::Picture;
use plank_lawful::{ChainRule, Family, KeptRule, NameRule, PointerRule, WalkRule, place_at};
use plank_parts::part_code;
use plank_pic::Part;

fn row_of_same(left: u8) -> usize
    ensures code { result ≡ part_code (Part.Same left 0) }
    ensures small { result < 1_000_000 }
{
    part_code(Part::Same { left, right: 0 })
}

fn row_of_chains(from: u8) -> usize
    ensures code { result ≡ part_code (Part.Chain from 0) }
    ensures small { result < 1_000_000 }
{
    part_code(Part::Chain { from, to: 0 })
}

fn name_row(rule: NameRule, first: u8) -> Option<usize>
    ensures row { result ≡ name_row rule first }
    ensures small { IfSome result (λ base. base < 1_000_000) }
{
    match rule {
        NameRule::Together => Some(row_of_same(first)),
        _ => None,
    }
}

fn chain_row(rule: ChainRule, first: u8) -> Option<usize>
    ensures row { result ≡ chain_row rule first }
    ensures small { IfSome result (λ base. base < 1_000_000) }
{
    match rule {
        ChainRule::Itself => Some(row_of_same(first)),
        ChainRule::Begins | ChainRule::GoesOn | ChainRule::Grows => Some(row_of_chains(first)),
        ChainRule::Picks => None,
    }
}

impl<'a> Picture<'a> {
    fn row_of_leads(&self, first: u8) -> usize
        ensures code { result ≡ part_code (Part.Leads (place_at (frame_of self.now) first) 0) }
        ensures small { result < 1_000_000 }
    {
        let at = place_at(self, first);
        part_code(Part::Leads { at, to: 0 })
    }

    fn pointer_row(&self, rule: PointerRule, first: u8) -> Option<usize>
        ensures row { result ≡ pointer_row (frame_of self.now) rule first }
        ensures small { IfSome result (λ base. base < 1_000_000) }
    {
        match rule {
            PointerRule::OneTarget => Some(self.row_of_leads(first)),
            _ => None,
        }
    }

    fn walk_row(&self, rule: WalkRule, first: u8) -> Option<usize>
        ensures row { result ≡ walk_row (frame_of self.now) rule first }
        ensures small { IfSome result (λ base. base < 1_000_000) }
    {
        match rule {
            WalkRule::Unreached => Some(self.row_of_leads(first)),
            _ => None,
        }
    }

    fn kept_row(&self, rule: KeptRule, first: u8) -> Option<usize>
        ensures row { result ≡ kept_row (frame_of self.now) rule first }
        ensures small { IfSome result (λ base. base < 1_000_000) }
    {
        match rule {
            KeptRule::Published | KeptRule::Edges => Some(self.row_of_leads(first)),
            KeptRule::Chains => Some(row_of_chains(first)),
            _ => None,
        }
    }

    /// Where the row of a family and a first index begins, if it has one.
    pub(crate) fn row_of(&self, family: Family, first: u8) -> Option<usize>
        ensures row { result ≡ row_of (frame_of self.now) family first }
        ensures small { IfSome result (λ base. base < 1_000_000) }
    {
        match family {
            Family::Names(rule) => name_row(rule, first),
            Family::Nodes(_) => Some(row_of_same(first)),
            Family::Pointers(rule) => self.pointer_row(rule, first),
            Family::Walks(rule) => self.walk_row(rule, first),
            Family::Chains(rule) => chain_row(rule, first),
            Family::Kept(rule) => self.kept_row(rule, first),
            Family::Keys(_) => None,
        }
    }

    /// Whether a row says no of a second index.
    pub(crate) fn is_idle(&self, row: Option<usize>, second: u8) -> bool
        requires { IfSome row (λ base. base < 1_000_000) }
        ensures { result ≡ is_idle self.now.said row second }
    {
        match row {
            Some(base) => self.is_unsaid(base, second),
            None => false,
        }
    }
}
