use crate::conditions::KeyRelation;
use sqlite_items::Items;

/// A name for a node in a method.
#[derive(Clone, Copy, Debug, PartialEq, Eq)]
pub enum Reference {
    /// The root of the heap.
    Root,
    /// A variable, by its number in the order of declaration.
    Variable(u8),
}

/// What is put into a variable or a pointer field.
#[derive(Clone, Copy, Debug, PartialEq, Eq)]
pub enum Value {
    Null,
    /// What the name names, which may be null.
    Node(Reference),
}

/// A flag of a node.
#[derive(Clone, Copy, Debug, PartialEq, Eq)]
pub struct FlagOperand {
    pub node: Reference,
    pub flag: u8,
}

/// A key that a test compares.
#[derive(Clone, Copy, Debug, PartialEq, Eq)]
pub enum KeyOperand {
    /// The key of a node.
    Node(Reference),
    /// The argument of the call.
    Argument,
    /// The least key.
    Min,
    /// The greatest key.
    Max,
}

/// A node or null, as a test compares it.
#[derive(Clone, Copy, Debug, PartialEq, Eq)]
pub enum PointerOperand {
    Null,
    /// What the name names.
    Node(Reference),
    /// Where a pointer field leads.
    Field { node: Reference, pointer: u8 },
}

/// A test of a block.
#[derive(Clone, Copy, Debug, PartialEq, Eq)]
pub enum Test {
    /// The node has the flag, or, where `set` is false, has it not.
    Flag {
        flag: FlagOperand,
        set: bool,
    },
    /// Two flags are equal, or, where `equal` is false, differ.
    Flags {
        left: FlagOperand,
        right: FlagOperand,
        equal: bool,
    },
    /// Two keys compare so.
    Keys {
        left: KeyOperand,
        relation: KeyRelation,
        right: KeyOperand,
    },
    /// Two pointers are equal, or, where `equal` is false, differ.
    Pointers {
        left: PointerOperand,
        right: PointerOperand,
        equal: bool,
    },
    /// Nobody has the node's lock; the one test of a `lock` statement.
    LockFree {
        node: Reference,
    },
    /// The thread has the node's lock; the one test of an `unlock` statement.
    LockOwn {
        node: Reference,
    },
}

/// A variable that takes the value of a pointer field.
#[derive(Clone, Copy, Debug, PartialEq, Eq)]
pub struct Bind {
    /// The variable.
    pub to: u8,
    /// The node that is read.
    pub from: Reference,
    pub pointer: u8,
}

/// A write of a block.
#[derive(Clone, Copy, Debug, PartialEq, Eq)]
pub enum Write {
    Flag {
        node: Reference,
        flag: u8,
        value: bool,
    },
    Pointer {
        node: Reference,
        pointer: u8,
        value: Value,
    },
    /// The thread takes the node's lock; the one write of a `lock` statement.
    TakeLock {
        node: Reference,
    },
    /// The lock becomes free; the one write of an `unlock` statement.
    FreeLock {
        node: Reference,
    },
}

/// Tests, and then binds and writes that all read the values before the block, in one step.
///
/// The tests are made in order, and the first that is false takes the exit `no` without any bind or
/// write. Otherwise the exit is `yes`.
#[derive(Debug, Drop)]
pub struct Block {
    /// Further names that facts about the block may speak of; they do nothing when it runs.
    pub with: Items<Reference>,
    pub tests: Items<Test>,
    pub binds: Items<Bind>,
    /// All of one node.
    pub writes: Items<Write>,
    /// The location after the block where each test is true.
    pub yes: u32,
    /// The location after the block where a test is false.
    pub no: u32,
}
