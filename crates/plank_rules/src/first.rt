//! Which of two broken rules is first.
ghost use Rattle.std.specs.Prelude.{◌≡◌};
ghost use Rattle.plank_rules.specs.FirstOf as spec;

use crate::broken::Broken;
use plank_base::TypeKind;

/// The order of kinds at one place.
fn kind_rank(kind: TypeKind) -> u32
    ensures { result ≡ spec.kind_rank kind }
{
    match kind {
        TypeKind::Unknown => 0,
        TypeKind::Twice => 1,
        TypeKind::WrongKind => 2,
        TypeKind::BindReused => 3,
        TypeKind::NoReturn => 4,
        TypeKind::NotOneRoot => 5,
    }
}

/// Less, or equal and the rest decides.
fn less_or(a: u32, b: u32, rest: bool) -> bool
    ensures { result ≡ spec.less_or a b rest }
{
    a < b || a == b && rest
}

/// By line, column, byte and kind.
fn stands_before(a: Broken, b: Broken) -> bool
    ensures { result ≡ spec.stands_before a b }
{
    let kind = kind_rank(a.kind) < kind_rank(b.kind);
    let byte = less_or(a.place.byte, b.place.byte, kind);
    let column = less_or(a.place.column, b.place.column, byte);
    less_or(a.place.line, b.place.line, column)
}

/// The one with the least place, and at one place the first kind.
pub(crate) fn earlier(first: Option<Broken>, next: Broken) -> Option<Broken>
    ensures { result ≡ spec.earlier first next }
{
    match first {
        None => Some(next),
        Some(first) if stands_before(next, first) => Some(next),
        Some(first) => Some(first),
    }
}
