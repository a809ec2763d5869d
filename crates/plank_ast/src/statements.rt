use crate::conditions::Atom;
use crate::names::{Name, Reference, Truth};
use plank_base::Place;
use sqlite_items::Items;

/// The statements between two braces: `body = "{" {stmt} "}"`.
#[derive(Debug, Drop)]
#[cycle(statement)]
pub struct Body {
    pub place: Place,
    pub statements: Items<Statement>,
}

/// `["else" body]`.
#[derive(Debug, Drop)]
#[cycle(statement)]
pub enum Else {
    Nothing,
    Body { place: Place, body: Body },
}

/// A statement of a method.
#[derive(Debug, Drop)]
#[cycle(statement)]
pub enum Statement {
    /// `name "=" ("new" | "null" | ref ["." name]) ";"`.
    Assign {
        variable: Name,
        value: Assigned,
    },
    /// `"atomic" "{" block "}" [else]`.
    Atomic {
        place: Place,
        block: Block,
        otherwise: Else,
    },
    /// `"lock" ref ";"`.
    Lock {
        place: Place,
        node: Reference,
    },
    /// `"unlock" ref ";"`.
    Unlock {
        place: Place,
        node: Reference,
    },
    /// `"if" "(" tests ")" body [else]`.
    If {
        place: Place,
        tests: Tests,
        body: Body,
        otherwise: Else,
    },
    /// `"while" "(" tests ")" body`.
    While {
        place: Place,
        tests: Tests,
        body: Body,
    },
    /// `"loop" body`.
    Loop {
        place: Place,
        body: Body,
    },
    /// `"break" ";"`.
    Break(Place),
    /// `"continue" ";"`.
    Continue(Place),
    /// `"return" ("true"|"false") ";"`.
    Return {
        place: Place,
        answer: Truth,
    },
}

/// What an assignment gives its variable.
#[derive(Debug, Drop)]
pub enum Assigned {
    New(Place),
    Null(Place),
    /// A node, or the node that one of its pointers leads to.
    Node {
        node: Reference,
        field: Option<Name>,
    },
}

/// What stands between the braces of an atomic block: `[with] {test} {bind} {write}`.
#[derive(Debug, Drop)]
pub struct Block {
    pub with: Option<With>,
    pub tests: Items<TestLine>,
    pub binds: Items<Bind>,
    pub writes: Items<Write>,
}

/// `"with" ref {"," ref} ";"`.
#[derive(Debug, Drop)]
pub struct With {
    pub place: Place,
    pub first: Reference,
    pub others: Items<Reference>,
}

/// `"test" test ";"`.
#[derive(Debug, Drop)]
pub struct TestLine {
    pub place: Place,
    pub test: Test,
}

/// `test {"&&" test}`.
#[derive(Debug, Drop)]
pub struct Tests {
    pub first: Test,
    pub others: Items<Test>,
}

/// `test = "!" ref "." name | atom`.
#[derive(Debug, Drop)]
pub enum Test {
    Not {
        place: Place,
        node: Reference,
        field: Name,
    },
    Atom(Atom),
}

/// `name "=" ref "." name ";"`, a read of a block.
#[derive(Debug, Drop)]
pub struct Bind {
    pub variable: Name,
    pub node: Reference,
    pub field: Name,
}

/// `"write" ref "." name "=" ("true"|"false"|"null"|ref) ";"`.
#[derive(Debug, Drop)]
pub struct Write {
    pub place: Place,
    pub node: Reference,
    pub field: Name,
    pub value: Written,
}

/// What a write gives its field.
#[derive(Debug, Drop)]
pub enum Written {
    Flag(Truth),
    Null(Place),
    Node(Reference),
}
