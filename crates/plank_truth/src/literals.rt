// Whether a literal is true of a call.
ghost use Rattle.std.specs.Prelude.{not};
ghost use Rattle.plank_pic.specs.Pictures.{holds_lock};
ghost use Rattle.plank_pic.specs.Truths.{truth, of_node, has_value, is_owned};
ghost use Rattle.plank_walk.specs.Settles.{Settles};

use crate::callers::{Calls, argument};
use crate::keys::{
    are_so, is_node, key_above, key_at_least, key_at_most, key_below, key_is, keys_rise,
};
use crate::values::{has_value, is_owned, same_value};
use plank_pic::{Literal, Part, Place, Term};
use plank_step::holds_lock;
use plank_walk::Reader;

// Whether a part is so that speaks of a node.
fn is_so<S: Reader>(source: &S, name: u8, part: Part, log: &mut S::Log) -> Result<bool, usize>
    ensures { Settles (λ full. of_node (S.picture source.now full) name (S.picture source.now full part)) (S.known source.now) result }
{
    Ok(is_node(source, name, log)? && source.says(part, log)?)
}

// Whether it is not so.
fn is_not_so<S: Reader>(source: &S, name: u8, part: Part, log: &mut S::Log) -> Result<bool, usize>
    ensures { Settles (λ full. of_node (S.picture source.now full) name (not (S.picture source.now full part))) (S.known source.now) result }
{
    Ok(is_node(source, name, log)? && !source.says(part, log)?)
}

// Whether a pointer of a node has the value of a name.
fn leads<S: Reader>(source: &S, at: Place, to: u8, log: &mut S::Log) -> Result<bool, usize>
    ensures { Settles (λ full. of_node (S.picture source.now full) at.name (has_value (S.picture source.now full) at to)) (S.known source.now) result }
{
    Ok(is_node(source, at.name, log)? && has_value(source, at, to, log)?)
}

// Whether the own thread, or else the other, has the lock of a node.
fn has_lock<S: Reader>(source: &S, own: bool, name: u8, log: &mut S::Log) -> Result<bool, usize>
    ensures { Settles (λ full. of_node (S.picture source.now full) name (holds_lock (S.picture source.now full) own name)) (S.known source.now) result }
{
    Ok(is_node(source, name, log)? && holds_lock(source, own, name, log)?)
}

// Whether the own thread, or else another, made a node that is not shared.
fn has_made<S: Reader>(source: &S, own: bool, name: u8, log: &mut S::Log) -> Result<bool, usize>
    ensures { Settles (λ full. of_node (S.picture source.now full) name (is_owned (S.picture source.now full) own name)) (S.known source.now) result }
{
    Ok(is_node(source, name, log)? && is_owned(source, own, name, log)?)
}

/// Whether a literal is true of a call.
pub fn truth<S: Reader, C: Calls>(
    source: &S,
    caller: &C,
    literal: Literal,
    log: &mut S::Log,
) -> Result<bool, usize>
    ensures { Settles (λ full. truth (S.picture source.now full) (C.caller caller.now) literal) (S.known source.now) result }
{
    let (key, own) = (argument(caller), caller.is_own());
    let walked = Term::Walked(key);
    match literal {
        Literal::Same { left, right } => {
            same_value(source, caller.name_of(left), caller.name_of(right), log)
        }
        Literal::Apart { left, right } => {
            Ok(!same_value(source, caller.name_of(left), caller.name_of(right), log)?)
        }
        Literal::Null { name } => {
            let name = caller.name_of(name);
            source.says(Part::Null { name }, log)
        }
        Literal::NotNull { name } => is_node(source, caller.name_of(name), log),
        Literal::KeyBelow { left, right } => {
            keys_rise(source, caller.name_of(left), caller.name_of(right), log)
        }
        Literal::KeyAtMost { left, right } => {
            let (lower, upper) = (caller.name_of(left), caller.name_of(right));
            let (left, right) = (Term::Node(lower), Term::Node(upper));
            are_so(source, lower, upper, Part::AtMost { left, right }, log)
        }
        Literal::BelowArgument { name } => key_below(source, caller.name_of(name), walked, log),
        Literal::AtMostArgument { name } => key_at_most(source, caller.name_of(name), walked, log),
        Literal::AboveArgument { name } => key_above(source, caller.name_of(name), walked, log),
        Literal::AtLeastArgument { name } => {
            key_at_least(source, caller.name_of(name), walked, log)
        }
        Literal::KeyIsMin { name } => key_is(source, caller.name_of(name), Term::Min, log),
        Literal::AboveMin { name } => key_above(source, caller.name_of(name), Term::Min, log),
        Literal::BelowMax { name } => key_below(source, caller.name_of(name), Term::Max, log),
        Literal::KeyIsMax { name } => key_is(source, caller.name_of(name), Term::Max, log),
        Literal::Flag { name, flag } => {
            let name = caller.name_of(name);
            is_so(source, name, Part::Flag { name, flag }, log)
        }
        Literal::NoFlag { name, flag } => {
            let name = caller.name_of(name);
            is_not_so(source, name, Part::Flag { name, flag }, log)
        }
        Literal::Leads { name, pointer, to } => {
            let name = caller.name_of(name);
            leads(source, Place { name, pointer }, caller.name_of(to), log)
        }
        Literal::LeadsNowhere { name, pointer } => {
            let name = caller.name_of(name);
            let at = Place { name, pointer };
            is_so(source, name, Part::PointerNull { at }, log)
        }
        Literal::Locked { name } => has_lock(source, own, caller.name_of(name), log),
        Literal::Owned { name } => has_made(source, own, caller.name_of(name), log),
        Literal::Shared { name } => {
            let name = caller.name_of(name);
            is_so(source, name, Part::Shared { name }, log)
        }
        Literal::Visited { name } => {
            let name = caller.name_of(name);
            is_so(source, name, Part::Visits { key, name }, log)
        }
        Literal::InSet => source.says(Part::InSet { key }, log),
        Literal::NotInSet => Ok(!source.says(Part::InSet { key }, log)?),
        Literal::Chain { from, to } => {
            let (from, to) = (caller.name_of(from), caller.name_of(to));
            are_so(source, from, to, Part::Chain { from, to }, log)
        }
        Literal::Spent => source.says(Part::Spent, log),
        Literal::Unspent => Ok(!source.says(Part::Spent, log)?),
    }
}
