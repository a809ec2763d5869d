/// Which fields and keys a condition may ask for, where it stands.
#[derive(Clone, Copy, Debug, PartialEq, Eq)]
pub struct Scope {
    /// How many flags there are.
    pub flags: usize,
    /// How many pointer fields may be asked for.
    pub pointers: usize,
    /// Whether the walked key may be asked for.
    pub walked: bool,
    /// Whether visits may be asked for.
    pub visited: bool,
}
