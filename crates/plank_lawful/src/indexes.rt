// What the indexes of rules stand for.
ghost use Rattle.std.specs.Prelude.{◌≡◌, ◌%◌, ◌/◌};
ghost use Rattle.plank_pic.specs.Pictures.{place};
ghost use Rattle.plank_lawful.specs.Indexes.{key_at, place_at, fixed_term, fixed_count, term_at};

use plank_pic::{KeyName, Place, Term};
use plank_walk::{Reader, slots};

/// The key of an index.
pub fn key_at(index: u8) -> KeyName
    ensures { result ≡ key_at index }
{
    if index == 0 {
        KeyName::Own
    } else if index == 1 {
        KeyName::Other
    } else {
        KeyName::Any
    }
}

// The first field of each of so many names, then the second.
#[tactic(auto, using(crate::proofs::Places::place_of_none))]
fn nth_place(index: u8, names: u8) -> Place
    ensures { result ≡ place (index % names) (index / names) }
{
    if names == 0 {
        return Place {
            name: index,
            pointer: 0,
        };
    }
    Place {
        name: index % names,
        pointer: index / names,
    }
}

/// The pointer field of a named node of an index.
pub fn place_at<S: Reader>(source: &S, index: u8) -> Place
    ensures { result ≡ place_at (S.frame source.now) index }
{
    nth_place(index, source.names())
}

/// The term, no name's, of an index.
pub(crate) fn fixed_term(index: u8) -> Term
    ensures { result ≡ fixed_term index }
{
    if index == 0 {
        return Term::Min;
    }
    if index == 1 {
        return Term::Max;
    }
    if index < 5 {
        return Term::Walked(key_at(index - 2));
    }
    Term::Stop {
        key: key_at((index - 5) % 3),
        slot: (index - 5) / 3,
    }
}

/// How many terms are no names'.
pub(crate) fn fixed_count<S: Reader>(source: &S) -> u8
    ensures { result ≡ fixed_count (S.frame source.now) }
{
    if slots(source) == 0 { 5 } else { 11 }
}

/// The term of an index.
pub fn term_at<S: Reader>(source: &S, index: u8) -> Term
    ensures { result ≡ term_at (S.frame source.now) index }
{
    let names = source.names();
    if index < names {
        Term::Node(index)
    } else {
        fixed_term(index - names)
    }
}
