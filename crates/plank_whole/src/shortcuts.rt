// Short cuts through the rules of whole pictures: many of them hold where the order of keys is that
// of numbers, and where no chain has a stop node.
ghost use Rattle.std.specs.Prelude.{◌≡◌, true};
ghost use Rattle.std.specs.List.{list_all};
ghost use Rattle.plank_lawful.specs.declared.families.Family.{Family};
ghost use Rattle.plank_lawful.specs.Lists.{rules_by_third, rules_of};
ghost use Rattle.plank_whole.specs.Wholes.{frame_of};
ghost use Rattle.plank_whole.specs.Judging.{meets};

use crate::wholes::Picture;
use plank_lawful::{ChainRule, Family, KeptRule, KeyRule, WalkRule, key_at};

impl<'a> Picture<'a> {
    fn walks_pass(&self, rule: WalkRule, first: u8, second: u8) -> bool
        ensures { result ≡ true → list_all (meets self.now) (rules_by_third (frame_of self.now) (Family.Walks rule) first second) ≡ true }
    {
        match rule {
            WalkRule::Stops => self.picks_none(key_at(first), second),
            _ => false,
        }
    }

    fn chains_pass(&self, rule: ChainRule, first: u8, second: u8) -> bool
        ensures { result ≡ true → list_all (meets self.now) (rules_by_third (frame_of self.now) (Family.Chains rule) first second) ≡ true }
    {
        match rule {
            ChainRule::Picks => self.chain_picks_neither(key_at(first), second),
            _ => false,
        }
    }

    fn keeps_pass(&self, rule: KeptRule, first: u8, second: u8) -> bool
        ensures { result ≡ true → list_all (meets self.now) (rules_by_third (frame_of self.now) (Family.Kept rule) first second) ≡ true }
    {
        match rule {
            KeptRule::StopKeeps => self.picks_none(key_at(first), second),
            KeptRule::StopKeepsOn => self.picks_none(key_at(first), second),
            KeptRule::Picks => self.chain_picks_neither(key_at(first), second),
            _ => false,
        }
    }

    fn keys_pass(&self, rule: KeyRule) -> bool
        ensures { result ≡ true → list_all (meets self.now) (rules_of (frame_of self.now) (Family.Keys rule)) ≡ true }
    {
        match rule {
            KeyRule::Total => self.order_is_ranked(&self.ranks()),
            KeyRule::InOrder => self.order_is_ranked(&self.ranks()),
            _ => false,
        }
    }

    /// Whether the rules of a family with these first indexes hold for the want of stop nodes.
    pub(crate) fn passes_by_third(&self, family: Family, first: u8, second: u8) -> bool
        ensures { result ≡ true → list_all (meets self.now) (rules_by_third (frame_of self.now) family first second) ≡ true }
    {
        match family {
            Family::Walks(rule) => self.walks_pass(rule, first, second),
            Family::Chains(rule) => self.chains_pass(rule, first, second),
            Family::Kept(rule) => self.keeps_pass(rule, first, second),
            _ => false,
        }
    }

    /// Whether the rules of a family hold since keys are ordered as numbers are.
    pub(crate) fn passes_by_rank(&self, family: Family) -> bool
        ensures { result ≡ true → list_all (meets self.now) (rules_of (frame_of self.now) family) ≡ true }
    {
        match family {
            Family::Keys(rule) => self.keys_pass(rule),
            _ => false,
        }
    }
}
