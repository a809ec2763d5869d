use crate::conditions::Condition;
use plank_base::{Key, Label};
use sqlite_items::Items;

/// How the keys along a pointer field are ordered.
#[derive(Clone, Copy, Debug, PartialEq, Eq)]
pub enum KeyOrder {
    /// The key of a node lies below that of the node that the field leads to.
    Ascending,
    /// It lies above it.
    Descending,
    /// Nothing is said.
    Free,
}

/// A declared pointer field.
#[derive(Debug, Drop)]
pub struct Pointer {
    pub name: Label,
    pub order: KeyOrder,
    /// Which keys the field admits; none where it is not given.
    pub edge: Option<Condition>,
}

/// A node of the start heap.
#[derive(Debug, Drop)]
pub struct StartNode {
    pub name: Label,
    pub key: Key,
    /// Bit i for the i-th declared flag.
    pub flags: u8,
    /// For each declared pointer field the number of the start node that it leads to, or null.
    pub pointers: Items<Option<u32>>,
}

/// A condition that every shared node is to meet, for every key.
#[derive(Debug, Drop)]
pub struct Keep {
    pub name: Label,
    pub condition: Condition,
}

/// What a structure declares before its methods.
#[derive(Debug, Drop)]
pub struct Header {
    pub flags: Items<Label>,
    pub pointers: Items<Pointer>,
    /// Whether each node has a lock.
    pub has_lock: bool,
    /// The nodes of the start heap.
    pub nodes: Items<StartNode>,
    /// The number of the start node at which each walk begins.
    pub root: u32,
    /// Whether a walk that ends at a node ends at its key.
    pub holds: Condition,
    pub keeps: Items<Keep>,
    /// Which nodes are frozen; none where it is not given.
    pub freeze: Option<Condition>,
}
