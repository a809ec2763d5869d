use crate::conditions::Condition;
use crate::names::{Name, Truth};
use plank_base::Place;
use sqlite_items::Items;

/// `"flag" name ";"`.
#[derive(Debug, Drop)]
pub struct FlagLine {
    pub place: Place,
    pub name: Name,
}

/// How the keys lie along a pointer: `asc`, `desc` or `free`.
#[derive(Clone, Copy, Debug, PartialEq, Eq)]
pub enum Direction {
    Ascending,
    Descending,
    Free,
}

/// `"ptr" name ("asc"|"desc"|"free") ";"`.
#[derive(Debug, Drop)]
pub struct PointerLine {
    pub place: Place,
    pub name: Name,
    pub direction: Direction,
    pub direction_place: Place,
}

/// `"root" name ";"`.
#[derive(Debug, Drop)]
pub struct RootLine {
    pub place: Place,
    pub name: Name,
}

/// `"MIN"` or `"MAX"`, the key of a start node.
#[derive(Clone, Copy, Debug, PartialEq, Eq)]
pub enum StartKey {
    Min,
    Max,
}

/// `start = "start" name "{" "key" "=" ("MIN"|"MAX") ";" {item} "}"`.
#[derive(Debug, Drop)]
pub struct StartLine {
    pub place: Place,
    pub name: Name,
    pub key: StartKey,
    pub key_place: Place,
    pub items: Items<StartItem>,
}

/// `name "=" ("true"|"false"|"null"|name) ";"`, a field of a start node.
#[derive(Debug, Drop)]
pub struct StartItem {
    pub field: Name,
    pub value: StartValue,
}

/// What a field of a start node is given.
#[derive(Debug, Drop)]
pub enum StartValue {
    Flag(Truth),
    Null(Place),
    Node(Name),
}

/// A condition with its word before it, as `"holds" cond ";"` and `"freeze" cond ";"`.
#[derive(Debug, Drop)]
pub struct ConditionLine {
    pub place: Place,
    pub condition: Condition,
}

/// A named condition with its word before it, as `"edge" name ":" cond ";"` and `"keep" name ":" cond ";"`.
#[derive(Debug, Drop)]
pub struct NamedCondition {
    pub place: Place,
    pub name: Name,
    pub condition: Condition,
}
