use crate::places::Place;

/// What an obligation demands, in the order in which obligations are judged.
#[derive(Clone, Copy, Debug, PartialEq, Eq, PartialOrd, Ord)]
pub enum Kind {
    /// The start heap meets every keep and every order, and its set is empty.
    Start,
    /// No two edge conditions of a node admit one key.
    Edges,
    /// No field of null is read or written.
    Null,
    /// The written node is known to be the thread's own, or known to be shared.
    Target,
    /// A node that becomes shared points to shared nodes.
    Publish,
    /// After a write every shared node meets every keep.
    Keep,
    /// After a write the pointers respect their order of keys.
    Order,
    /// A write leaves the walks of all keys alone but where they end.
    Footprint,
    /// A write changes the set by the call's own key at most.
    Change,
    /// An answer is justified by the facts at its return.
    Answer,
}

/// One obligation of a text. `Start` and `Edges` stand for the whole text: their method and location
/// are 0, and their place is the text's first byte.
#[derive(Clone, Copy, Debug, PartialEq, Eq)]
pub struct Obligation {
    pub kind: Kind,
    /// The number of the method, from 0, as the text declares them.
    pub method: u32,
    /// The number of the location in its method, from 0.
    pub location: u32,
    /// The first token of the statement.
    pub place: Place,
}
