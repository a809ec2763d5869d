ghost use Rattle.std.specs.Prelude.{◌≡◌, ◌≤◌, length};
ghost use Rattle.plank_pic.specs.Below.{least_below};
ghost use Rattle.plank_pic.specs.Pictures.{target};
ghost use Rattle.plank_pic.specs.Outcomes.{is_same, first_name};
ghost use Rattle.plank_walk.specs.Settles.{Settles};
ghost use Rattle.plank_walk.specs.Walks.{SettlesWalk, is_on};

use crate::edges::target;
use crate::readers::Reader;
use arrayvec::ArrayVec;
use plank_pic::{KeyName, Outcome, Part, Target};

/// The walk of a key from a named node, as far as the picture tells.
#[derive(Debug, Drop)]
pub struct Walk {
    /// The names that it passes, in order; in a circle as many as there are names.
    pub path: ArrayVec<u8, 16>,
    /// Where it comes to.
    pub end: Outcome,
    /// Whether it enters a chain.
    pub entered: bool,
}

/// The first name of the node that a name names.
#[tactic(auto, using(plank_pic::proofs::Below::no_least, plank_pic::proofs::Below::least_more, plank_pic::proofs::Below::least_step))]
pub fn first_name<S: Reader>(source: &S, name: u8, log: &mut S::Log) -> Result<u8, usize>
    ensures { Settles (λ full. first_name (S.frame source.now) (S.picture source.now full) name) (S.known source.now) result }
{
    for other in 0..source.names() {
        let part = Part::Same {
            left: name,
            right: other,
        };
        if source.says(part, log)? {
            return Ok(other);
        }
    }
    Ok(name)
}

/// The walk of a key from a named node: the names that it passes, where it comes to, and whether it
/// enters a chain.
pub fn walk_from<S: Reader>(
    source: &S,
    key: KeyName,
    name: u8,
    log: &mut S::Log,
) -> Result<Walk, usize>
    requires { (S.frame source.now).names ≤ 16 }
    ensures { SettlesWalk (S.frame source.now) (S.picture source.now) (S.known source.now) key name result }
{
    let mut path = ArrayVec::new();
    let mut entered = false;
    let mut at = first_name(source, name, log)?;
    for moved in 0..source.names() {
        let _ = moved;
        path.push(at);
        let end = match target(source, key, at, log)? {
            Target::To(next) => {
                at = next;
                continue;
            }
            Target::Jumps(next) => {
                at = next;
                entered = true;
                continue;
            }
            Target::Ends => Outcome::EndsAt(at),
            Target::Out(place) => Outcome::Leaves(place),
            Target::Stops { from, to, slot } => {
                entered = true;
                Outcome::StopsIn { from, to, slot }
            }
        };
        return Ok(Walk { path, end, entered });
    }
    Ok(Walk {
        path,
        end: Outcome::Cycles,
        entered,
    })
}

/// Whether a walk passes the node that a name names.
pub fn is_on<S: Reader>(source: &S, path: &[u8], name: u8, log: &mut S::Log) -> Result<bool, usize>
    ensures { Settles (λ full. is_on (S.picture source.now full) path.now name) (S.known source.now) result }
{
    for passed in path {
        let part = Part::Same {
            left: *passed,
            right: name,
        };
        if source.says(part, log)? {
            return Ok(true);
        }
    }
    Ok(false)
}
