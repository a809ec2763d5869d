ghost use Rattle.std.specs.Prelude.{◌≡◌, Bool};
ghost use Rattle.std.specs.List.{list_all};
ghost use Rattle.plank_prog.specs.Names.{all_pairs};

use crate::blocks::{Bind, Reference, Write};
use crate::headers::{Keep, Pointer, StartNode};
use crate::methods::Method;
use plank_base::Label;

/// What may stand in one list only beside what it differs from.
pub trait Apart {
    ghost is_apart: { Self → Self → Bool };

    /// Whether the two may stand in one list.
    fn is_apart(&self, other: &Self) -> bool
        ensures { result ≡ is_apart self.now other.now };
}

// Whether an item may stand beside each of the others.
fn is_apart_from_all<T: Apart>(item: &T, others: &[T]) -> bool
    ensures { result ≡ list_all (T.is_apart item.now) others.now }
{
    others.iter().all(|other| item.is_apart(other))
}

/// Whether each two of the items may stand in one list.
pub fn all_apart<T: Apart>(items: &[T]) -> bool
    ensures { result ≡ all_pairs T.is_apart items.now }
{
    for (i, item) in items.iter().enumerate() {
        if !is_apart_from_all(item, &items[i + 1..]) {
            return false;
        }
    }
    true
}

impl Apart for Label {
    ghost use Rattle.plank_prog.specs.Names.{names_differ};

    ghost is_apart = { names_differ };

    fn is_apart(&self, other: &Label) -> bool {
        *self != *other
    }
}

impl Apart for Pointer {
    ghost use Rattle.plank_prog.specs.Names.{names_differ};

    ghost is_apart = { λ p q. names_differ p.name q.name };

    fn is_apart(&self, other: &Pointer) -> bool {
        self.name != other.name
    }
}

impl Apart for StartNode {
    ghost use Rattle.plank_prog.specs.Names.{names_differ};

    ghost is_apart = { λ n m. names_differ n.name m.name };

    fn is_apart(&self, other: &StartNode) -> bool {
        self.name != other.name
    }
}

impl Apart for Keep {
    ghost use Rattle.plank_prog.specs.Names.{names_differ};

    ghost is_apart = { λ k l. names_differ k.name l.name };

    fn is_apart(&self, other: &Keep) -> bool {
        self.name != other.name
    }
}

impl Apart for Method {
    ghost use Rattle.plank_prog.specs.Names.{names_differ};

    ghost is_apart = { λ m n. names_differ m.name n.name };

    fn is_apart(&self, other: &Method) -> bool {
        self.name != other.name
    }
}

impl Apart for Reference {
    ghost use Rattle.std.specs.Prelude.{not};
    ghost use Rattle.plank_prog.specs.Blocks.{same_reference};

    ghost is_apart = { λ q r. not (same_reference q r) };

    fn is_apart(&self, other: &Reference) -> bool {
        !self.is_same(*other)
    }
}

impl Apart for Bind {
    ghost use Rattle.std.specs.Prelude.{not, ◌==◌};

    ghost is_apart = { λ d e. not (d.to == e.to) };

    fn is_apart(&self, other: &Bind) -> bool {
        self.to != other.to
    }
}

impl Apart for Write {
    ghost use Rattle.plank_prog.specs.Blocks.{writes_agree};

    ghost is_apart = { writes_agree };

    fn is_apart(&self, other: &Write) -> bool {
        self.node().is_same(other.node()) && !self.is_same_field(*other)
    }
}
