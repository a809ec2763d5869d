use crate::names::Name;
use crate::statements::Statement;
use plank_base::Place;
use sqlite_items::Items;

/// `"method" name ["as" name] "(" name ")" "{" [variables] {stmt} "}"`.
#[derive(Debug, Drop)]
pub struct Method {
    pub place: Place,
    pub name: Name,
    /// The name after `as`.
    pub kind: Option<Name>,
    pub argument: Name,
    pub variables: Option<Variables>,
    pub statements: Items<Statement>,
    /// The last brace.
    pub end: Place,
}

/// `"var" name {"," name} ";"`.
#[derive(Debug, Drop)]
pub struct Variables {
    pub place: Place,
    pub first: Name,
    pub others: Items<Name>,
}

/// `method {method}`.
#[derive(Debug, Drop)]
pub struct Methods {
    pub first: Method,
    pub others: Items<Method>,
}
