/// What a method does to the set of keys, and so how its answer is read.
#[derive(Clone, Copy, Debug, PartialEq, Eq)]
pub enum Op {
    /// Answers whether the key is present.
    Contains,
    /// Adds the key, and answers whether it was absent.
    Insert,
    /// Removes the key, and answers whether it was present.
    Delete,
}
