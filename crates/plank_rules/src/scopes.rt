use crate::names::Names;

/// Where a condition or a test stands.
#[derive(Clone, Copy, Debug, PartialEq, Eq)]
pub enum Setting {
    Edge,
    Holds,
    Keep,
    Freeze,
    Method,
}

/// What names mean in a condition or a method.
#[derive(Debug, Drop)]
pub struct Scope<'a> {
    pub setting: Setting,
    pub nodes: Names<'a>,
    pub keys: Names<'a>,
}
