// Whether a whole picture is lawful: each rule of its frame is asked, and no list of them is made.
ghost use Rattle.std.specs.Prelude.{◌≡◌, ◌↔◌, ◌<◌, true, IfSome};
ghost use Rattle.std.specs.List.{list_all};
ghost use Rattle.plank_pic.specs.Lawful.{IsPossible, IsLawful};
ghost use Rattle.plank_lawful.specs.Lists.{rules_by_third, rules_by_second, rules_of, rules_of_all, rules_of_possible, rules_of_lawful};
ghost use Rattle.plank_whole.specs.Wholes.{frame_of, shown};
ghost use Rattle.plank_whole.specs.Judging.{meets};
ghost use Rattle.plank_whole.specs.Rows.{row_of};

use crate::answers::is_true;
use crate::wholes::Picture;
use plank_lawful::{
    Family, Rule, chain_families, count, holds, kept_families, key_families, name_families,
    node_families, pointer_families, shape_of, walk_families,
};

impl<'a> Picture<'a> {
    // Whether a rule holds.
    fn meets(&self, rule: Rule) -> bool
        ensures { result ≡ meets self.now rule }
    {
        is_true(holds(self, rule, &mut ()))
    }

    // Whether the rules of a family with these first indexes hold.
    #[tactic(auto, using(crate::proofs::Meeting::all_joined_none))]
    fn meets_by_third(&self, family: Family, first: u8, second: u8) -> bool
        requires { first < 255 }
        ensures { result ≡ list_all (meets self.now) (rules_by_third (frame_of self.now) family first second) }
    {
        if self.passes_by_third(family, first, second) {
            return true;
        }
        for third in 0..count(self, shape_of(family).third, first) {
            let rule = Rule {
                family,
                first,
                second,
                third,
            };
            if !self.meets(rule) {
                return false;
            }
        }
        true
    }

    // The same, where a row tells which of them ask nothing.
    fn meets_by_row(&self, row: Option<usize>, family: Family, first: u8, second: u8) -> bool
        requires first { first < 255 }
        requires row { row ≡ row_of (frame_of self.now) family first }
        requires small { IfSome row (λ base. base < 1_000_000) }
        ensures { result ≡ list_all (meets self.now) (rules_by_third (frame_of self.now) family first second) }
    {
        if self.is_idle(row, second) {
            return true;
        }
        self.meets_by_third(family, first, second)
    }

    // Whether those with this first index hold.
    #[tactic(auto, using(crate::proofs::Meeting::all_joined_none))]
    fn meets_by_second(&self, family: Family, first: u8) -> bool
        requires { first < 255 }
        ensures { result ≡ list_all (meets self.now) (rules_by_second (frame_of self.now) family first) }
    {
        let row = self.row_of(family, first);
        for second in 0..count(self, shape_of(family).second, first) {
            if !self.meets_by_row(row, family, first, second) {
                return false;
            }
        }
        true
    }

    // Whether the rules of a family hold.
    #[tactic(auto, using(crate::proofs::Meeting::all_joined_none))]
    fn meets_family(&self, family: Family) -> bool
        ensures { result ≡ list_all (meets self.now) (rules_of (frame_of self.now) family) }
    {
        if self.passes_by_rank(family) {
            return true;
        }
        for first in 0..count(self, shape_of(family).first, 0) {
            if !self.meets_by_second(family, first) {
                return false;
            }
        }
        true
    }

    // Whether the rules of families hold.
    fn meets_all(&self, families: &[Family]) -> bool
        ensures { result ≡ list_all (meets self.now) (rules_of_all (frame_of self.now) families.now) }
    {
        for family in families {
            if !self.meets_family(*family) {
                return false;
            }
        }
        true
    }

    fn meets_possible(&self) -> bool
        ensures { result ≡ list_all (meets self.now) (rules_of_possible (frame_of self.now)) }
    {
        self.meets_all(&name_families())
            && self.meets_all(&node_families())
            && self.meets_all(&pointer_families())
            && self.meets_all(&key_families())
            && self.meets_all(&walk_families())
            && self.meets_all(&chain_families())
    }

    fn meets_lawful(&self) -> bool
        ensures { result ≡ list_all (meets self.now) (rules_of_lawful (frame_of self.now)) }
    {
        self.meets_possible() && self.meets_all(&kept_families())
    }

    /// Whether it is possible: all that is true of the picture of a heap after any step.
    pub fn possible(&self) -> bool
        ensures { (result ≡ true) ↔ IsPossible (frame_of self.now) (shown self.now) }
    {
        self.meets_possible()
    }

    /// Whether it is lawful.
    pub fn lawful(&self) -> bool
        ensures { (result ≡ true) ↔ IsLawful (frame_of self.now) (shown self.now) }
    {
        self.meets_lawful()
    }
}
