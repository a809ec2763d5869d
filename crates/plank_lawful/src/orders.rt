// The order of keys.
ghost use Rattle.std.specs.Prelude.{◌≡◌};
ghost use Rattle.plank_lawful.specs.Rules.{order_goes_on, key_rule_holds};
ghost use Rattle.plank_walk.specs.Settles.{Settles};

use crate::asking::{Asked, all_below, each_name};
use crate::families::KeyRule;
use crate::indexes::{fixed_count, key_at, term_at};
use plank_pic::{Part, Term};
use plank_walk as rules;
use plank_walk::Reader;

// What lies at or above a key lies at or above those below it.
fn order_goes_on<S: Reader>(
    source: &S,
    left: Term,
    right: Term,
    log: &mut S::Log,
) -> Result<bool, usize>
    ensures { Settles (λ full. order_goes_on (S.frame source.now) (S.picture source.now full) left right) (S.known source.now) result }
{
    if !source.says(Part::AtMost { left, right }, log)? {
        return Ok(true);
    }
    Ok(
        each_name(source, Asked::NodeFollows { left, right }, log)?
            && all_below(
                source,
                Asked::TermFollows { left, right },
                fixed_count(source),
                log,
            )?,
    )
}

/// Whether a rule of the order of keys holds.
pub(crate) fn key_rule<S: Reader>(
    source: &S,
    rule: KeyRule,
    first: u8,
    second: u8,
    log: &mut S::Log,
) -> Result<bool, usize>
    ensures { Settles (λ full. key_rule_holds (S.frame source.now) (S.picture source.now full) rule first second) (S.known source.now) result }
{
    match rule {
        KeyRule::Total => {
            rules::order_is_total(source, term_at(source, first), term_at(source, second), log)
        }
        KeyRule::InOrder => {
            order_goes_on(source, term_at(source, first), term_at(source, second), log)
        }
        KeyRule::Ends => rules::lies_between_ends(source, term_at(source, first), log),
        KeyRule::Ordinary => rules::is_ordinary_key(source, key_at(first), log),
    }
}
