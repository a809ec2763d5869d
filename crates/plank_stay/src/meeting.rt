ghost use Rattle.std.specs.Prelude.{◌≡◌, false};
ghost use Rattle.std.specs.Option.{option_map_or};
ghost use Rattle.plank_pic.specs.declared.parts.Part.{Part};
ghost use Rattle.plank_walk.specs.Settles.{Settles};
ghost use Rattle.plank_step.specs.Turns.{change_over};
ghost use Rattle.plank_stay.specs.Stays.{leads_on, meets_by, meets_at, meets_after, meets_again, meets_behind, meets_slowly, is_met};

use crate::ways::Way;
use plank_pic::{KeyName, Part, Place};
use plank_prog::Write;
use plank_step::{Mixed, TakesTurn, put_pointer};
use plank_walk::{Reader, edge, is_fast};

// Whether the edge of a key leads from one name's node to the other's.
fn leads_on<S: Reader>(
    before: &S,
    key: KeyName,
    name: u8,
    to: u8,
    log: &mut S::Log,
) -> Result<bool, usize>
    ensures { Settles (λ full. leads_on (S.frame before.now) (S.picture before.now full) key name to) (S.known before.now) result }
{
    match edge(before, key, name, log)? {
        Some(pointer) => {
            let at = Place { name, pointer };
            before.says(Part::Leads { at, to }, log)
        }
        None => Ok(false),
    }
}

// Whether what is put at the written node meets the walk of before.
fn meets_by<S: Reader>(
    before: &S,
    at: u8,
    way: Way,
    put: u8,
    log: &mut S::Log,
) -> Result<bool, usize>
    ensures { Settles (λ full. meets_by (S.frame before.now) (S.picture before.now full) at way put) (S.known before.now) result }
{
    let same = Part::Same {
        left: put,
        right: way.out,
    };
    let itself = Part::Same {
        left: put,
        right: at,
    };
    let cut = Part::Same {
        left: way.out,
        right: way.name,
    };
    Ok(
        before.says(same, log)?
            || (!before.says(itself, log)? && leads_on(before, way.key, put, way.out, log)?)
            || (leads_on(before, way.key, way.out, put, log)? && !before.says(cut, log)?),
    )
}

// The same of what is put, if it is a node.
fn meets_by_put<S: Reader>(
    before: &S,
    at: u8,
    way: Way,
    put: Option<u8>,
    log: &mut S::Log,
) -> Result<bool, usize>
    ensures { Settles (λ full. option_map_or (meets_by (S.frame before.now) (S.picture before.now full) at way) put false) (S.known before.now) result }
{
    match put {
        Some(put) => meets_by(before, at, way, put, log),
        None => Ok(false),
    }
}

// Whether a pointer that is the edge after the write meets the walk of before.
fn meets_at<S: Reader, T: TakesTurn>(
    written: &Mixed<'_, S, T>,
    at: u8,
    way: Way,
    pointer: u8,
    log: &mut S::Log,
) -> Result<bool, usize>
    ensures { Settles (λ full. meets_at (S.frame written.now.before.now) (S.picture written.now.before.now full) (change_over (T.turn written.now.turn.now) written.now.writes.now) at way pointer) (S.known written.now.before.now) result }
{
    match put_pointer(written.turn, written.writes, pointer) {
        Some(put) => meets_by_put(written.before, at, way, put, log),
        None => {
            let at = Place { name: at, pointer };
            written.before.says(Part::Leads { at, to: way.out }, log)
        }
    }
}

// The same of whichever pointer is the edge, where there is one.
fn meets_after<S: Reader, T: TakesTurn>(
    written: &Mixed<'_, S, T>,
    at: u8,
    way: Way,
    log: &mut S::Log,
) -> Result<bool, usize>
    ensures { Settles (λ full. meets_after (S.frame written.now.before.now) (S.picture written.now.before.now full) (change_over (T.turn written.now.turn.now) written.now.writes.now) at way) (S.known written.now.before.now) result }
{
    match edge(written, way.key, at, log)? {
        Some(pointer) => meets_at(written, at, way, pointer, log),
        None => Ok(false),
    }
}

// Whether both walks from the written node meet again.
fn meets_again<S: Reader, T: TakesTurn>(
    written: &Mixed<'_, S, T>,
    at: u8,
    way: Way,
    log: &mut S::Log,
) -> Result<bool, usize>
    ensures { Settles (λ full. meets_again (S.frame written.now.before.now) (S.picture written.now.before.now full) (change_over (T.turn written.now.turn.now) written.now.writes.now) at way) (S.known written.now.before.now) result }
{
    Ok(leads_on(written.before, way.key, at, way.out, log)? && meets_after(written, at, way, log)?)
}

// The same of a node that is not fast.
fn meets_behind<S: Reader, T: TakesTurn>(
    written: &Mixed<'_, S, T>,
    at: u8,
    way: Way,
    log: &mut S::Log,
) -> Result<bool, usize>
    ensures { Settles (λ full. meets_behind (S.frame written.now.before.now) (S.picture written.now.before.now full) (change_over (T.turn written.now.turn.now) written.now.writes.now) at way) (S.known written.now.before.now) result }
{
    Ok(!is_fast(written.before, way.name, log)? && meets_again(written, at, way, log)?)
}

// The same where the written node is not fast.
fn meets_slowly<S: Reader, T: TakesTurn>(
    written: &Mixed<'_, S, T>,
    at: u8,
    way: Way,
    log: &mut S::Log,
) -> Result<bool, usize>
    ensures { Settles (λ full. meets_slowly (S.frame written.now.before.now) (S.picture written.now.before.now full) (change_over (T.turn written.now.turn.now) written.now.writes.now) at way) (S.known written.now.before.now) result }
{
    Ok(!is_fast(written.before, at, log)? && meets_behind(written, at, way, log)?)
}

/// Whether a node stays visited since both walks of the key from the written node, which `at` names, meet
/// again.
pub fn is_met<S: Reader, T: TakesTurn>(
    written: &Mixed<'_, S, T>,
    at: u8,
    way: Way,
    log: &mut S::Log,
) -> Result<bool, usize>
    ensures { Settles (λ full. is_met (S.frame written.now.before.now) (S.picture written.now.before.now full) (change_over (T.turn written.now.turn.now) written.now.writes.now) at way) (S.known written.now.before.now) result }
{
    let visits = Part::Visits {
        key: way.key,
        name: way.name,
    };
    Ok(written.before.says(visits, log)? && meets_slowly(written, at, way, log)?)
}
