// What goals look for in the picture before a write, and how keys move there.
ghost use Rattle.std.specs.Prelude.{◌≡◌, ◌≤◌};
ghost use Rattle.plank_pic.specs.declared.parts.KeyName.{KeyName};
ghost use Rattle.plank_pic.specs.Keeps.{chain_of, enters_chain};
ghost use Rattle.plank_pic.specs.Outcomes.{passes};
ghost use Rattle.plank_fact.specs.Writes.{moves, is_apart, is_first_of_call, may_turn, turns_wrongly};
ghost use Rattle.plank_walk.specs.Settles.{Settles};
ghost use Rattle.plank_step.specs.Turns.{change_over};
ghost use Rattle.plank_query.specs.Goals.{turn_comes_to_null, enters_between};
ghost use Rattle.plank_reach.specs.Steps.{leads_into, enters_either};

use plank_base::Op;
use plank_pic::{KeyName, Moved, Part, Target, Term};
use plank_prog::{Action, MethodKind, Write};
use plank_step::{Mixed, TakesTurn, comes_to_null, footprint_of, moved_along, written_name};
use plank_walk::{Reader, has_same_key, is_below, is_on, target, walk_from};

/// Whether the turn's block comes to a read or a write of a field of null.
pub fn turn_comes_to_null<S: Reader, T: TakesTurn>(
    source: &S,
    turn: &T,
    log: &mut S::Log,
) -> Result<bool, usize>
    ensures { Settles (λ full. turn_comes_to_null (S.frame source.now) (T.turn turn.now) (T.turn turn.now).action (S.picture source.now full)) (S.known source.now) result }
{
    match turn.action() {
        Action::Block(block) => comes_to_null(source, turn, block, log),
        Action::Copy { .. } | Action::New { .. } | Action::Return(_) => Ok(false),
    }
}

/// How the walk of any key moves at writes of a turn.
pub fn moves<S: Reader, T: TakesTurn>(
    before: &S,
    turn: &T,
    writes: &[Write],
    log: &mut S::Log,
) -> Result<Moved, usize>
    requires { (S.frame before.now).names ≤ 16 }
    ensures { Settles (λ full. moves (S.frame before.now) (change_over (T.turn turn.now) writes.now) (S.picture before.now full)) (S.known before.now) result }
{
    let mixed = Mixed {
        before,
        turn,
        writes,
    };
    let at = written_name(turn, writes);
    let footprint = footprint_of(before, &mixed, KeyName::Any, at, log)?;
    moved_along(before, &mixed, KeyName::Any, at, &footprint, log)
}

/// Whether nothing is known of a key that moves so.
pub fn is_apart(moved: Moved) -> bool
    ensures { result ≡ is_apart moved }
{
    match moved {
        Moved::Untouched | Moved::Same | Moved::BothEnd { .. } => false,
        Moved::Apart => true,
    }
}

// Whether the key is the call's own, before the call has changed the set.
fn is_first_of_call<S: Reader>(before: &S, log: &mut S::Log) -> Result<bool, usize>
    ensures { Settles (λ full. is_first_of_call (S.picture before.now full)) (S.known before.now) result }
{
    let (any, own) = (Term::Walked(KeyName::Any), Term::Walked(KeyName::Own));
    Ok(has_same_key(before, any, own, log)? && !before.says(Part::Spent, log)?)
}

// Whether a method may turn the key's membership from what it was.
fn may_turn<S: Reader>(
    before: &S,
    kind: MethodKind,
    was: bool,
    log: &mut S::Log,
) -> Result<bool, usize>
    ensures { Settles (λ full. may_turn kind (S.picture before.now full) was) (S.known before.now) result }
{
    match kind {
        MethodKind::Set(Op::Insert) => Ok(is_first_of_call(before, log)? && !was),
        MethodKind::Set(Op::Delete) => Ok(is_first_of_call(before, log)? && was),
        MethodKind::Set(Op::Contains) => Ok(false),
        MethodKind::Upkeep => Ok(false),
    }
}

/// Whether a key that moves so changes whether it is in the set where a method may not.
pub fn turns_wrongly<S: Reader>(
    before: &S,
    kind: MethodKind,
    moved: Moved,
    log: &mut S::Log,
) -> Result<bool, usize>
    ensures { Settles (λ full. turns_wrongly kind (S.picture before.now full) moved) (S.known before.now) result }
{
    match moved {
        Moved::Untouched => Ok(false),
        Moved::Same => Ok(false),
        Moved::BothEnd { now, .. } => {
            let was = before.says(Part::InSet { key: KeyName::Any }, log)?;
            Ok(was != now && !may_turn(before, kind, was, log)?)
        }
        Moved::Apart => Ok(true),
    }
}

// Whether a walk goes on from a node into the chain to this end.
fn leads_into<S: Reader>(source: &S, from: u8, to: u8, log: &mut S::Log) -> Result<bool, usize>
    ensures { Settles (λ full. leads_into (S.frame source.now) (S.picture source.now full) from to) (S.known source.now) result }
{
    match target(source, KeyName::Any, from, log)? {
        Target::Stops { to: end, .. } => Ok(end == to),
        Target::Jumps(end) => Ok(end == to),
        Target::Ends => Ok(false),
        Target::To(_) => Ok(false),
        Target::Out(_) => Ok(false),
    }
}

// Whether the walk of any key passes a node.
fn passes<S: Reader>(source: &S, at: u8, name: u8, log: &mut S::Log) -> Result<bool, usize>
    requires { (S.frame source.now).names ≤ 16 }
    ensures { Settles (λ full. passes (S.frame source.now) (S.picture source.now full) KeyName.Any at name) (S.known source.now) result }
{
    let walk = walk_from(source, KeyName::Any, at, log)?;
    is_on(source, walk.path.as_slice(), name, log)
}

fn enters_chain<S: Reader>(
    source: &S,
    at: u8,
    from: u8,
    to: u8,
    log: &mut S::Log,
) -> Result<bool, usize>
    requires { (S.frame source.now).names ≤ 16 }
    ensures { Settles (λ full. enters_chain (S.frame source.now) (S.picture source.now full) KeyName.Any at from to) (S.known source.now) result }
{
    Ok(passes(source, at, from, log)? && leads_into(source, from, to, log)?)
}

/// A chain, and two terms between which a key may lie.
#[derive(Clone, Copy)]
pub struct Between {
    pub from: u8,
    pub to: u8,
    pub above: Term,
    pub below: Term,
}

// Whether the walk of any key enters a chain, before writes of a turn or after them.
fn enters_either<S: Reader, T: TakesTurn>(
    before: &S,
    turn: &T,
    writes: &[Write],
    chain: Between,
    log: &mut S::Log,
) -> Result<bool, usize>
    requires { (S.frame before.now).names ≤ 16 }
    ensures { Settles (λ full. enters_either (S.frame before.now) (S.picture before.now full) chain.from chain.to (change_over (T.turn turn.now) writes.now)) (S.known before.now) result }
{
    let mixed = Mixed {
        before,
        turn,
        writes,
    };
    let at = written_name(turn, writes);
    Ok(
        enters_chain(before, at, chain.from, chain.to, log)?
            || enters_chain(&mixed, at, chain.from, chain.to, log)?,
    )
}

/// Whether the walk of a key that lies strictly between two terms enters a chain, before writes of a
/// turn or after them.
pub fn enters_between<S: Reader, T: TakesTurn>(
    before: &S,
    turn: &T,
    writes: &[Write],
    chain: Between,
    log: &mut S::Log,
) -> Result<bool, usize>
    requires { (S.frame before.now).names ≤ 16 }
    ensures { Settles (λ full. enters_between (S.frame before.now) (S.picture before.now full) chain.from chain.to chain.above chain.below (change_over (T.turn turn.now) writes.now)) (S.known before.now) result }
{
    let any = Term::Walked(KeyName::Any);
    Ok(
        is_below(before, chain.above, any, log)?
            && is_below(before, any, chain.below, log)?
            && enters_either(before, turn, writes, chain, log)?,
    )
}
