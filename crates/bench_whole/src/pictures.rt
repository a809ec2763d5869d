// Pictures of thirteen names, and a step from one.
use plank_base::{Key, Label, OutOfMemory};
use plank_parts::{CODES, Shape, part_of};
use plank_pic::{KeyName, Part, Term};
use plank_prog::{
    Action, Block, Condition, Header, Keep, KeyOrder, KeyRelation, KeyTerm, Pointer, Reference,
    StartNode, Write,
};
use plank_step::TakesTurn;
use plank_whole::Picture;
use sqlite_items::Items;
use std::alloc::Global;

/// How many names a picture has.
const NAMES: u8 = 13;

fn keys(relation: KeyRelation, left: KeyTerm, right: KeyTerm) -> Condition {
    Condition::Keys {
        left,
        relation,
        right,
    }
}

fn marked(set: bool) -> Condition {
    Condition::Flag { flag: 0, set }
}

// x.key == j && !x.marked
fn holds(alloc: Global) -> Result<Condition, OutOfMemory> {
    let mut parts = Items::new(alloc);
    parts.push(keys(KeyRelation::Equal, KeyTerm::Node, KeyTerm::Walked))?;
    parts.push(marked(false))?;
    Ok(Condition::All(parts))
}

// x.marked || j < x.key || j in x
fn live(alloc: Global) -> Result<Condition, OutOfMemory> {
    let mut parts = Items::new(alloc);
    parts.push(marked(true))?;
    parts.push(keys(KeyRelation::Less, KeyTerm::Walked, KeyTerm::Node))?;
    parts.push(Condition::Visited)?;
    Ok(Condition::Any(parts))
}

fn head(alloc: Global) -> Result<StartNode, OutOfMemory> {
    Ok(StartNode {
        name: Label::new(alloc, b"head")?,
        key: Key::Min,
        flags: 0,
        pointers: Items::new(alloc),
    })
}

/// A sorted list whose nodes are frozen when they are marked.
pub fn list(alloc: Global) -> Result<Header, OutOfMemory> {
    let mut flags = Items::new(alloc);
    flags.push(Label::new(alloc, b"marked")?)?;
    let mut pointers = Items::new(alloc);
    pointers.push(Pointer {
        name: Label::new(alloc, b"next")?,
        order: KeyOrder::Ascending,
        edge: Some(keys(KeyRelation::Less, KeyTerm::Node, KeyTerm::Walked)),
    })?;
    let mut nodes = Items::new(alloc);
    nodes.push(head(alloc)?)?;
    let mut keeps = Items::new(alloc);
    keeps.push(Keep {
        name: Label::new(alloc, b"live")?,
        condition: live(alloc)?,
    })?;
    Ok(Header {
        flags,
        pointers,
        has_lock: true,
        nodes,
        root: 0,
        holds: holds(alloc)?,
        keeps,
        freeze: Some(marked(true)),
    })
}

/// Nodes in a row, and which names are whose. The place of a node in the order of keys is twice its
/// number.
#[derive(Clone, Copy)]
pub struct Row {
    /// How many names each node has but the last, which has the others.
    pub span: u8,
    /// The node whose pointer leads outside, into a chain to the next.
    pub cut: u8,
    /// Which are marked besides.
    pub marked: [u8; 3],
    /// The places of the walked keys.
    pub keys: [u8; 3],
}

/// Thirteen nodes with a name each.
pub const THIRTEEN: Row = Row {
    span: 1,
    cut: 8,
    marked: [4, 5, 4],
    keys: [7, 12, 17],
};

/// Seven nodes with two names each but the last.
pub const SEVEN: Row = Row {
    span: 2,
    cut: 4,
    marked: [2, 2, 2],
    keys: [3, 6, 9],
};

fn is_stop(key: KeyName, slot: u8) -> bool {
    matches!(key, KeyName::Any) && slot == 0
}

impl Row {
    /// The same with one node more that is marked.
    pub fn marking(self, node: u8) -> Row {
        let [first, second, _] = self.marked;
        Row {
            marked: [first, second, node],
            ..self
        }
    }

    fn node(self, name: u8) -> u8 {
        name.checked_div(self.span).unwrap_or(0)
    }

    fn last(self) -> u8 {
        self.node(NAMES - 1)
    }

    fn key_place(self, key: KeyName) -> u8 {
        let [own, other, any] = self.keys;
        match key {
            KeyName::Own => own,
            KeyName::Other => other,
            KeyName::Any => any,
        }
    }

    fn place(self, term: Term) -> u8 {
        match term {
            Term::Node(name) => self.node(name).saturating_mul(2),
            Term::Min => 0,
            Term::Max => 30,
            Term::Walked(key) => self.key_place(key),
            Term::Stop { key, slot } => if is_stop(key, slot) {
                self.key_place(key)
            } else {
                0
            },
        }
    }

    fn has(self, node: u8) -> bool {
        let [first, second, third] = self.marked;
        node == first || node == second || node == third || node == self.cut
    }

    // Whether the nodes from one up to another are marked.
    fn is_chain(self, from: u8, to: u8) -> bool {
        for node in from..to {
            if !self.has(node) {
                return false;
            }
        }
        from <= to
    }

    // Whether a walk comes to a node: the greatest key below it lies below the walked one.
    fn visits(self, key: KeyName, node: u8) -> bool {
        node == 0 || (node - 1).saturating_mul(2) < self.key_place(key)
    }

    fn says(self, part: Part) -> bool {
        match part {
            Part::Same { left, right } => self.node(left) == self.node(right),
            Part::Flag { name, .. } => self.has(self.node(name)),
            Part::Shared { .. } => true,
            Part::PointerNull { at } => self.node(at.name) == self.last(),
            Part::Beyond { at } => self.node(at.name) == self.cut,
            Part::Leads { at, to } => {
                let from = self.node(at.name);
                from != self.cut && from.saturating_add(1) == self.node(to)
            }
            Part::SameBeyond { left, right } => {
                self.node(left.name) == self.cut && self.node(right.name) == self.cut
            }
            Part::AtMost { left, right } => self.place(left) <= self.place(right),
            Part::Visits { key, name } => self.visits(key, self.node(name)),
            Part::InSet { key } => matches!(key, KeyName::Other),
            Part::Chain { from, to } => self.is_chain(self.node(from), self.node(to)),
            Part::Picks {
                key,
                from,
                to,
                slot,
            } => {
                let from = self.node(from);
                from == self.cut && self.node(to) == from.saturating_add(1) && is_stop(key, slot)
            }
            Part::StopFlag { key, slot, .. } | Part::StopVisited { key, slot } => {
                is_stop(key, slot)
            }
            _ => false,
        }
    }

    /// The picture. The walk of the own key ends at a marked node, that of the other at its key, and
    /// that of any key at a stop node.
    pub fn picture<'a>(self, header: &'a Header) -> Option<Picture<'a>> {
        if header.pointers.len() > 2 || header.flags.len() > 32 {
            return None;
        }
        let mut picture = Picture::new(Shape {
            header,
            names: NAMES,
            root: Some(0),
        });
        for code in 0..CODES {
            let part = part_of(code);
            if self.says(part) {
                picture.put(part);
            }
        }
        Some(picture)
    }
}

/// The own call's turn at an action.
#[derive(Clone, Copy)]
pub struct Turn<'a> {
    pub action: &'a Action,
}

impl<'a> TakesTurn for Turn<'a> {
    ghost use Rattle.plank_pic.specs.Calls.{own_name};
    ghost use Rattle.std.specs.Prelude.{true};

    ghost turn = { λ t. record { action = t.action.now; yes = true; mine = true; name_of = own_name 12; read_by = λ v. v } };

    fn action(&self) -> &Action {
        self.action
    }

    fn is_yes(&self) -> bool {
        true
    }

    fn is_mine(&self) -> bool {
        true
    }

    fn name_of(&self, reference: Reference) -> Option<u8> {
        match reference {
            Reference::Root => Some(0),
            Reference::Variable(variable) => if variable < 12 {
                Some(variable + 1)
            } else {
                None
            },
        }
    }

    fn read_by(&self, variable: u8) -> u8 {
        variable
    }
}

/// A block that marks the node that a variable names.
pub fn marking(alloc: Global, variable: u8) -> Result<Action, OutOfMemory> {
    let mut writes = Items::new(alloc);
    writes.push(Write::Flag {
        node: Reference::Variable(variable),
        flag: 0,
        value: true,
    })?;
    Ok(Action::Block(Block {
        with: Items::new(alloc),
        tests: Items::new(alloc),
        binds: Items::new(alloc),
        writes,
        yes: 0,
        no: 0,
    }))
}
