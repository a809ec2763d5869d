//! Structures whose nodes have pointers, and a flag that freezes them.
use plank_base::{Key, Label, OutOfMemory};
use plank_prog::{Condition, Header, Keep, KeyOrder, KeyRelation, KeyTerm, Pointer, StartNode};
use sqlite_items::Items;
use std::alloc::Global;

/// A structure: its pointers and their order, whether nodes may be frozen and have locks, and what a
/// walk that ends asks.
pub struct Structure {
    pub pointers: u8,
    pub order: KeyOrder,
    pub freezes: bool,
    /// Whether a walk finds its key where it ends at a node of that key, or at any node; unmarked each.
    pub by_key: bool,
}

/// A sorted list of which every node but the greatest leads on.
pub const ENDS: Structure = Structure {
    pointers: 1,
    order: KeyOrder::Ascending,
    freezes: false,
    by_key: true,
};

/// A sorted list whose nodes are frozen when they are marked.
pub const LIST: Structure = Structure {
    freezes: true,
    ..ENDS
};

/// Nodes in any order.
pub const LOOSE: Structure = Structure {
    pointers: 1,
    order: KeyOrder::Free,
    freezes: true,
    by_key: false,
};

/// Two pointers, and a walk may take either.
pub const FORK: Structure = Structure {
    pointers: 2,
    order: KeyOrder::Free,
    freezes: true,
    by_key: false,
};

fn keys(relation: KeyRelation, right: KeyTerm) -> Condition {
    Condition::Keys {
        left: KeyTerm::Node,
        relation,
        right,
    }
}

fn marked(set: bool) -> Condition {
    Condition::Flag { flag: 0, set }
}

// x.key < j
fn pointer(alloc: Global, order: KeyOrder) -> Result<Pointer, OutOfMemory> {
    Ok(Pointer {
        name: Label::new(alloc, b"next")?,
        order,
        edge: Some(keys(KeyRelation::Less, KeyTerm::Walked)),
    })
}

// x.key == j && !x.marked, or !x.marked
fn holds(alloc: Global, by_key: bool) -> Result<Condition, OutOfMemory> {
    let mut parts = Items::new(alloc);
    if by_key {
        parts.push(keys(KeyRelation::Equal, KeyTerm::Walked))?;
    }
    parts.push(marked(false))?;
    Ok(Condition::All(parts))
}

// x.marked || j < x.key || j in x where nodes may be frozen, and x.key == MAX || x.next != null where
// they may not
fn keep(alloc: Global, freezes: bool) -> Result<Keep, OutOfMemory> {
    let mut parts = Items::new(alloc);
    if freezes {
        parts.push(marked(true))?;
        parts.push(Condition::Keys {
            left: KeyTerm::Walked,
            relation: KeyRelation::Less,
            right: KeyTerm::Node,
        })?;
        parts.push(Condition::Visited)?;
    } else {
        parts.push(keys(KeyRelation::Equal, KeyTerm::Max))?;
        parts.push(Condition::Pointer {
            pointer: 0,
            null: false,
        })?;
    }
    Ok(Keep {
        name: Label::new(alloc, b"kept")?,
        condition: Condition::Any(parts),
    })
}

impl Structure {
    pub fn header(&self, alloc: Global) -> Result<Header, OutOfMemory> {
        let mut flags = Items::new(alloc);
        flags.push(Label::new(alloc, b"marked")?)?;
        let mut pointers = Items::new(alloc);
        for _ in 0..self.pointers {
            pointers.push(pointer(alloc, self.order)?)?;
        }
        let mut nodes = Items::new(alloc);
        nodes.push(StartNode {
            name: Label::new(alloc, b"head")?,
            key: Key::Min,
            flags: 0,
            pointers: Items::new(alloc),
        })?;
        let mut keeps = Items::new(alloc);
        if self.by_key {
            keeps.push(keep(alloc, self.freezes)?)?;
        }
        Ok(Header {
            flags,
            pointers,
            has_lock: true,
            nodes,
            root: 0,
            holds: holds(alloc, self.by_key)?,
            keeps,
            freeze: if self.freezes {
                Some(marked(true))
            } else {
                None
            },
        })
    }
}
