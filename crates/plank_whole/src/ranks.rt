// The order of keys of whole pictures, as that of numbers.
ghost use Rattle.std.specs.Prelude.{◌≡◌, ◌<◌, slice_index_or};
ghost use Rattle.plank_pic.specs.declared.parts.Part.{Part};
ghost use Rattle.plank_lawful.specs.Indexes.{term_at};
ghost use Rattle.plank_whole.specs.Wholes.{frame_of, shown};
ghost use Rattle.plank_whole.specs.Ranks.{term_count, fixed_column, order_column, is_ranked, row_is_ranked, order_is_ranked};

use crate::wholes::Picture;
use plank_lawful::{Index, count};

// How many terms a picture has at most.
const TERMS: usize = 32;

/// A rank for each term.
pub(crate) type Ranks = [u8; TERMS];

// Where the rows of the order begin, one for each term.
const ORDER: usize = 4608;

fn rank_of(ranks: &Ranks, term: u8) -> u8
    ensures { result ≡ slice_index_or ranks.now term 0 }
{
    ranks.get(term as usize).copied().unwrap_or(0)
}

// The column of a term that is no name's, by its index: those of a key's stop nodes stand together.
fn fixed_column(index: u8) -> usize
    ensures number { result ≡ fixed_column index }
    ensures small { result < 1000 }
{
    if index < 5 {
        16 + index as usize
    } else {
        21 + 2 * ((index - 5) % 3) as usize + ((index - 5) / 3) as usize
    }
}

impl<'a> Picture<'a> {
    // The column of a term, and its row.
    fn order_column(&self, term: u8) -> usize
        ensures number { result ≡ order_column (frame_of self.now) term }
        ensures small { result < 1000 }
    {
        let names = self.shape.names;
        if term < names {
            term as usize
        } else {
            fixed_column(term - names)
        }
    }

    // Whether one term lies at or below another, by their numbers.
    fn is_at_most(&self, left: u8, right: u8) -> bool
        requires left { left < term_count (frame_of self.now) }
        requires right { right < term_count (frame_of self.now) }
        ensures { result ≡ shown self.now (Part.AtMost (term_at (frame_of self.now) left) (term_at (frame_of self.now) right)) }
    {
        let row = self.order_column(left);
        let column = self.order_column(right);
        self.is_said(ORDER + 32 * row + column)
    }

    // How many terms lie at or below one.
    fn rank(&self, term: u8) -> u8
        requires { term < term_count (frame_of self.now) }
    {
        let mut rank: u8 = 0;
        for other in 0..count(self, Index::Term, 0) {
            if self.is_at_most(other, term) {
                rank = rank.saturating_add(1);
            }
        }
        rank
    }

    /// The rank of each term. Where the order of keys is one, it is that of these numbers.
    pub(crate) fn ranks(&self) -> Ranks {
        let mut ranks = [0; TERMS];
        for term in 0..count(self, Index::Term, 0) {
            if let Some(rank) = ranks.get_mut(term as usize) {
                *rank = self.rank(term);
            }
        }
        ranks
    }

    fn is_ranked(&self, ranks: &Ranks, left: u8, right: u8) -> bool
        requires left { left < term_count (frame_of self.now) }
        requires right { right < term_count (frame_of self.now) }
        ensures { result ≡ is_ranked (frame_of self.now) (shown self.now) ranks.now left right }
    {
        self.is_at_most(left, right) != (rank_of(ranks, right) < rank_of(ranks, left))
    }

    #[tactic(auto, using(plank_lawful::proofs::Asked::all_of_none, plank_lawful::proofs::Asked::all_more))]
    fn row_is_ranked(&self, ranks: &Ranks, left: u8) -> bool
        requires { left < term_count (frame_of self.now) }
        ensures { result ≡ row_is_ranked (frame_of self.now) (shown self.now) ranks.now left }
    {
        for right in 0..count(self, Index::Term, 0) {
            if !self.is_ranked(ranks, left, right) {
                return false;
            }
        }
        true
    }

    /// Whether the order of terms is that of their ranks.
    #[tactic(auto, using(plank_lawful::proofs::Asked::all_of_none, plank_lawful::proofs::Asked::all_more))]
    pub(crate) fn order_is_ranked(&self, ranks: &Ranks) -> bool
        ensures { result ≡ order_is_ranked (frame_of self.now) (shown self.now) ranks.now }
    {
        for left in 0..count(self, Index::Term, 0) {
            if !self.row_is_ranked(ranks, left) {
                return false;
            }
        }
        true
    }
}
