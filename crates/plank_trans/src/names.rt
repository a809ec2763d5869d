// Names by their numbers, and what is said of them.
ghost use Rattle.std.specs.Prelude.{◌≡◌, ◌<◌, suc};
ghost use Rattle.plank_fact.specs.Literals.{said_of};
ghost use Rattle.plank_fact.specs.Tables.{name_at};
ghost use Rattle.plank_fact.specs.Places.{number_of};

use plank_pic::Literal;
use plank_prog::Reference;

// The name of a number: that of the root, and then those of the variables.
pub(crate) fn name_at(number: u8) -> Reference
    ensures { result ≡ name_at number }
{
    if number == 0 {
        Reference::Root
    } else {
        Reference::Variable(number - 1)
    }
}

pub(crate) fn number_of(name: Reference) -> u32
    ensures { result ≡ number_of name }
{
    match name {
        Reference::Root => 0,
        Reference::Variable(variable) => u32::from(variable) + 1,
    }
}

// The same, said of what another name names.
pub(crate) fn said_of(name: Reference, literal: Literal) -> Literal
    ensures { result ≡ said_of name literal }
{
    match literal {
        Literal::Visited { .. } => Literal::Visited { name },
        Literal::Flag { flag, .. } => Literal::Flag { name, flag },
        Literal::NoFlag { flag, .. } => Literal::NoFlag { name, flag },
        _ => literal,
    }
}
