ghost use Rattle.std.specs.Prelude.{◌≡◌, ◌≤◌, ℕ, Bool, true};
ghost use Rattle.std.specs.List.{list_all};
ghost use Rattle.plank_solve.specs.Pictured.{holds_under, shows_pictures};
ghost use Rattle.plank_query.specs.Situations.{names, root};

use crate::asks::Ask;
use crate::views::Views;
use plank_close::close;
use plank_parts::{Numbering, Side, look_of};
use plank_query::Situation;
use plank_search::{Look, Reads, Rules, Values};

/// All that is asked of the pictures of a question, as rules of a search.
#[derive(Clone, Copy)]
pub struct Ruling<'r, 'q> {
    pub numbering: &'r Numbering<'q>,
    pub situation: Situation<'q>,
    pub asks: &'r [Ask],
    /// Whether there are two pictures. A hint.
    pub is_step: bool,
    pub ghost few: { numbering.now.frame.names ≤ 16 },
    pub ghost names: { numbering.now.frame.names ≡ names situation },
    pub ghost root: { numbering.now.frame.root ≡ root situation },
    pub ghost pictures: { (full : ℕ → Bool) → list_all (holds_under numbering.now situation full) asks.now ≡ true → shows_pictures numbering.now full ≡ true },
}

impl<'r, 'q> Ruling<'r, 'q> {
    ghost use Rattle.std.specs.Prelude.{◌≡◌, ◌<◌, length, slice_index_or};
    ghost use Rattle.plank_search.specs.Meanings.{MeetsRules};
    ghost use Rattle.plank_search.specs.Answers.{Propagates};
    ghost use Rattle.plank_solve.specs.Rulings.{ruled};

    // The ask of a number.
    fn ask(&self, number: usize) -> Ask
        requires { number < length self.now.asks.now }
        ensures { result ≡ slice_index_or self.now.asks.now number Ask.Runs }
    {
        self.asks[number]
    }

    // Puts what follows in the picture of a side.
    fn close_side(&self, side: Side, part: usize, values: &mut Values, reads: &mut Reads) -> bool
        ensures { Propagates (MeetsRules (ruled self.now) (length self.now.asks.now)) values.old values.new result }
    {
        close(self.numbering, side, part, values, reads)
    }
}

impl<'r, 'q> Rules for Ruling<'r, 'q> {
    ghost use Rattle.std.specs.Prelude.{length};
    ghost use Rattle.plank_solve.specs.Rulings.{ruled};

    ghost constraint_count = { λ r. length r.asks.now };

    ghost meaning = { ruled };

    fn constraints(&self) -> usize {
        self.asks.len()
    }

    #[tactic(auto, using(crate::proofs::Rounds::framed_by))]
    fn look(&self, constraint: usize, values: &Values, reads: &mut Reads) -> Look {
        let views = Views {
            numbering: self.numbering,
            values,
        };
        look_of(views.answer(&self.situation, self.ask(constraint), reads))
    }

    fn is_watched(&self, constraint: usize) -> bool {
        match self.asks.get(constraint) {
            Some(ask) => ask.is_watched(),
            None => true,
        }
    }

    fn apply(&self, part: usize, values: &mut Values, reads: &mut Reads) -> bool {
        self.close_side(Side::Before, part, values, reads)
            && (!self.is_step || self.close_side(Side::After, part, values, reads))
    }
}
