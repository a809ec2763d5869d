//! Parts that the tree has in another part, on their way to it.
use plank_ast::{
    ConditionLine, FlagLine, Name, NamedCondition, PointerLine, RootLine, StartLine, Statement,
    Variables,
};
use plank_base::Place;
use sqlite_items::Items;

/// What stands before the braces of a method.
#[derive(Debug, Drop)]
pub(crate) struct Signature {
    pub place: Place,
    pub name: Name,
    pub kind: Option<Name>,
    pub argument: Name,
}

/// What a method has in its braces, and the place of the last brace.
#[derive(Debug, Drop)]
pub(crate) struct Contents {
    pub variables: Option<Variables>,
    pub statements: Items<Statement>,
    pub end: Place,
}

/// The lines that declare the fields, the root and the start nodes.
#[derive(Debug, Drop)]
pub(crate) struct Declarations {
    pub place: Place,
    pub structure: Name,
    pub flags: Items<FlagLine>,
    pub pointers: Items<PointerLine>,
    pub lock: Option<Place>,
    pub roots: Items<RootLine>,
    pub starts: Items<StartLine>,
}

/// The lines of the conditions.
#[derive(Debug, Drop)]
pub(crate) struct Conditions {
    pub edges: Items<NamedCondition>,
    pub holds: ConditionLine,
    pub keeps: Items<NamedCondition>,
    pub freeze: Option<ConditionLine>,
}
