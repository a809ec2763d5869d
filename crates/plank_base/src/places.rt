/// A place in a text. Lines and columns count from 1, bytes from 0, and a column counts bytes.
#[derive(Clone, Copy, Debug, PartialEq, Eq, PartialOrd, Ord)]
pub struct Place {
    pub line: u32,
    pub column: u32,
    pub byte: u32,
}
