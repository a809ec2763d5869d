// Whether a rule holds.
ghost use Rattle.std.specs.Prelude.{◌≡◌};
ghost use Rattle.plank_lawful.specs.Rules.{rule_holds};
ghost use Rattle.plank_walk.specs.Settles.{Settles};

use crate::chains::chain_rule;
use crate::families::{Family, Rule};
use crate::kept::kept_rule;
use crate::names::name_rule;
use crate::nodes::node_rule;
use crate::orders::key_rule;
use crate::pointers::pointer_rule;
use crate::walks::walk_rule;
use plank_walk::Reader;

/// Whether a rule holds in the picture, or the number of a thing that is open.
pub fn holds<S: Reader>(source: &S, rule: Rule, log: &mut S::Log) -> Result<bool, usize>
    ensures { Settles (λ full. rule_holds (S.frame source.now) rule (S.picture source.now full)) (S.known source.now) result }
{
    let (first, second, third) = (rule.first, rule.second, rule.third);
    match rule.family {
        Family::Names(rule) => name_rule(source, rule, first, second, log),
        Family::Nodes(rule) => node_rule(source, rule, first, second, third, log),
        Family::Pointers(rule) => pointer_rule(source, rule, first, second, third, log),
        Family::Keys(rule) => key_rule(source, rule, first, second, log),
        Family::Walks(rule) => walk_rule(source, rule, first, second, log),
        Family::Chains(rule) => chain_rule(source, rule, first, second, third, log),
        Family::Kept(rule) => kept_rule(source, rule, first, second, third, log),
    }
}
