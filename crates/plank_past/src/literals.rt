ghost use Rattle.std.specs.Prelude.{◌≡◌};
ghost use Rattle.plank_fact.specs.Literals.{is_lasting, is_field_of, past_name};
ghost use Rattle.plank_fact.specs.Hindsight.{may_be_now};

use plank_pic::Literal;
use plank_prog::Reference;

/// The name of the node that a past fact is of; none where it is of the set.
pub fn past_name(literal: &Literal) -> Option<Reference>
    ensures { result ≡ past_name literal.now }
{
    match *literal {
        Literal::Visited { name } | Literal::Flag { name, .. } | Literal::NoFlag { name, .. } => {
            Some(name)
        }
        _ => None,
    }
}

/// Whether it is said of names and keys alone, and so never changes.
pub fn is_lasting(literal: &Literal) -> bool
    ensures { result ≡ is_lasting literal.now }
{
    match literal {
        Literal::Same { .. }
        | Literal::Apart { .. }
        | Literal::Null { .. }
        | Literal::NotNull { .. }
        | Literal::KeyBelow { .. }
        | Literal::KeyAtMost { .. }
        | Literal::BelowArgument { .. }
        | Literal::AtMostArgument { .. }
        | Literal::AboveArgument { .. }
        | Literal::AtLeastArgument { .. }
        | Literal::KeyIsMin { .. }
        | Literal::AboveMin { .. }
        | Literal::BelowMax { .. }
        | Literal::KeyIsMax { .. } => true,
        _ => false,
    }
}

/// Whether it is said of a flag or a pointer of the node that the name names.
pub fn is_field_of(name: Reference, literal: &Literal) -> bool
    ensures { result ≡ is_field_of name literal.now }
{
    match *literal {
        Literal::Flag { name: other, .. }
        | Literal::NoFlag { name: other, .. }
        | Literal::Leads { name: other, .. }
        | Literal::LeadsNowhere { name: other, .. } => name.is_same(other),
        _ => false,
    }
}

/// Whether the rule of hindsight takes it as what is true now.
pub fn may_be_now(past: &Literal, present: Option<Literal>) -> bool
    ensures { result ≡ may_be_now past.now present }
{
    match present {
        None => true,
        Some(present) => match past_name(past) {
            Some(name) => is_field_of(name, &present),
            None => false,
        },
    }
}
