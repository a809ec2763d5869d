ghost use Rattle.std.specs.Prelude.{◌≡◌, ◌↔◌, true, IsSome, IfSome};
ghost use Rattle.plank_prog.specs.Headers.{is_lawful_header};
ghost use Rattle.plank_prog.specs.Methods.{are_lawful_methods};
ghost use Rattle.plank_prog.specs.Views.{value_at};

use crate::conditions::Condition;
use crate::headers::{Header, Keep, Pointer};
use crate::method_rules::are_lawful;
use crate::methods::Method;
use crate::views::NodeView;
use plank_base::{Key, Label};
use sqlite_items::Items;

/// A judged structure, with numbers in the order of declaration in the place of names.
///
/// It is within the limits, each number names a part that is there, names of one kind differ, start
/// keys are the least or the greatest key, and no block breaks a typing rule.
#[derive(Debug, Drop)]
pub struct Program {
    pub name: Label,
    pub header: Header,
    pub methods: Items<Method>,
    pub ghost header_is_lawful: { is_lawful_header header ≡ true },
    pub ghost methods_are_lawful: { are_lawful_methods header methods ≡ true },
}

impl Program {
    ghost use Rattle.plank_prog.specs.Views.{edge_admits, holds_at, is_frozen, meets_keep};

    /// The program of these parts, or none where they break what every program keeps.
    pub fn new(name: Label, header: Header, methods: Items<Method>) -> Option<Program>
        ensures lawful { IsSome result ↔
            ((is_lawful_header header ≡ true) × (are_lawful_methods header methods ≡ true)) }
        ensures parts { IfSome result (λ p. (p.name ≡ name) × (p.header ≡ header) × (p.methods ≡ methods)) }
    {
        if !header.is_lawful() {
            return None;
        }
        if !are_lawful(&header, methods.as_slice()) {
            return None;
        }
        Some(Program {
            name,
            header,
            methods,
        })
    }

    /// Whether the pointer field of this number admits a walked key, at a node with a key and flags. A
    /// field that is not there admits none.
    pub fn edge(&self, f: u32, key: Key, flags: u8, j: i64) -> bool
        ensures { result ≡ edge_admits self.now.header f key flags j }
    {
        match self.header.pointers.get(f as usize) {
            Some(pointer) => pointer.admits(key, flags, j),
            None => false,
        }
    }

    /// Whether a walk that ends at a node with a key and flags ends at the walked key.
    pub fn holds(&self, key: Key, flags: u8, j: i64) -> bool
        ensures { result ≡ holds_at self.now.header key flags j }
    {
        value_at(&self.header.holds, key, flags, j)
    }

    /// Whether a node with a key and flags is frozen.
    pub fn frozen(&self, key: Key, flags: u8) -> bool
        ensures { result ≡ is_frozen self.now.header key flags }
    {
        match &self.header.freeze {
            Some(condition) => value_at(condition, key, flags, 0),
            None => false,
        }
    }

    /// Whether a node meets the keep of this number for a walked key, by whether its walk visits the
    /// node. No node meets a keep that is not there.
    pub fn keep(&self, i: u32, node: &NodeView, j: i64, visited: bool) -> bool
        ensures { result ≡ meets_keep self.now.header i node.now j visited }
    {
        match self.header.keeps.get(i as usize) {
            Some(keep) => keep.is_met(node, j, visited),
            None => false,
        }
    }
}

impl Pointer {
    ghost use Rattle.plank_prog.specs.Views.{admits};

    /// Whether the field admits a walked key, at a node with a key and flags.
    pub fn admits(&self, key: Key, flags: u8, j: i64) -> bool
        ensures { result ≡ admits self.now key flags j }
    {
        match &self.edge {
            Some(condition) => value_at(condition, key, flags, j),
            None => false,
        }
    }
}

impl Keep {
    ghost use Rattle.plank_base.specs.declared.keys.Key.{Key};
    ghost use Rattle.plank_prog.specs.Conditions.{value};
    ghost use Rattle.plank_prog.specs.Views.{view_of};

    /// Whether a node meets the condition for a walked key, by whether its walk visits the node.
    pub fn is_met(&self, node: &NodeView, j: i64, visited: bool) -> bool
        ensures { result ≡ value (view_of node.now.key node.now.flags node.now.nulls (Key.Num j) visited) self.now.condition }
    {
        self.condition
            .value(node.key, node.flags, &node.nulls, Key::Num(j), visited)
    }
}

// The value of a condition that asks for keys and flags alone.
fn value_at(condition: &Condition, key: Key, flags: u8, j: i64) -> bool
    ensures { result ≡ value_at condition.now key flags j }
{
    condition.value(key, flags, &[], Key::Num(j), false)
}
