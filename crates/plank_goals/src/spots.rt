// Nodes inside chains, which no name names: where their keys may lie to a walked key, and whether a keep
// tells there whether the walk visits them.
ghost use Rattle.std.specs.Prelude.{◌≡◌};
ghost use Rattle.plank_pic.specs.Lawful.{keeps_hold};
ghost use Rattle.plank_goals.specs.Spots.{spot_key, room, inner_view, tells, some_tell, spot_at};

use plank_base::{FLAGS_LIMIT, Key};
use plank_pic::Term;
use plank_prog::{KeyOrder, NodeView, Program};

/// How the key of a node lies to a walked key, as far as conditions tell.
#[derive(Clone, Copy, PartialEq, Eq, Debug)]
pub(crate) enum Spot {
    AtMin,
    /// Above the least key, and below the walked one.
    Lower,
    Equal,
    /// Above the walked key, and below the greatest one.
    Higher,
    AtMax,
}

/// The spot of a number.
pub(crate) fn spot_at(number: u8) -> Spot
    ensures { result ≡ spot_at number }
{
    match number {
        0 => Spot::AtMin,
        1 => Spot::Lower,
        2 => Spot::Equal,
        3 => Spot::Higher,
        _ => Spot::AtMax,
    }
}

impl Spot {
    // A key that lies so to the walked key 0.
    fn key(self) -> Key
        ensures { result ≡ spot_key self }
    {
        match self {
            Spot::AtMin => Key::Min,
            Spot::Lower => Key::Num(-1),
            Spot::Equal => Key::Num(0),
            Spot::Higher => Key::Num(1),
            Spot::AtMax => Key::Max,
        }
    }
}

/// The terms strictly between which a walked key has to lie, so that a node inside the chain may have its
/// key there; none where no node may.
pub(crate) fn room(order: KeyOrder, spot: Spot, from: u8, to: u8) -> Option<(Term, Term)>
    ensures { result ≡ room order spot from to }
{
    let (low, high) = match order {
        KeyOrder::Ascending => (from, to),
        KeyOrder::Descending => (to, from),
        KeyOrder::Free => return Some((Term::Min, Term::Max)),
    };
    match spot {
        Spot::Lower => Some((Term::Node(low), Term::Max)),
        Spot::Equal => Some((Term::Node(low), Term::Node(high))),
        Spot::Higher => Some((Term::Min, Term::Node(high))),
        Spot::AtMin | Spot::AtMax => None,
    }
}

// Whether a node of this key and these flags meets every keep, its pointer not null, by whether the walk of
// the key 0 visits it.
fn keeps_hold(program: &Program, key: Key, flags: u8, visited: bool) -> bool
    ensures { result ≡ keeps_hold program.now.header (inner_view key flags visited) }
{
    let node = NodeView {
        key,
        flags,
        nulls: [false, false],
    };
    program
        .header
        .keeps
        .as_slice()
        .iter()
        .all(|keep| keep.is_met(&node, 0, visited))
}

// Whether such a node is frozen, and meets every keep where it is visited and breaks one where it is not, or
// the other way round.
fn tells(program: &Program, key: Key, flags: u8) -> bool
    ensures { result ≡ tells program.now.header key flags }
{
    program.frozen(key, flags)
        && keeps_hold(program, key, flags, true) != keeps_hold(program, key, flags, false)
}

/// Whether that is so for some flags.
pub(crate) fn some_tell(program: &Program, spot: Spot) -> bool
    ensures { result ≡ some_tell program.now.header spot }
{
    let key = spot.key();
    for flags in 0..1 << FLAGS_LIMIT {
        if tells(program, key, flags) {
            return true;
        }
    }
    false
}
