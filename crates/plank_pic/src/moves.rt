/// How a write moves the walk of a key, by where the walk comes to from the written node before and after.
///
/// The idea is the footprint of Krishna, Shasha and Wies (2018): a write that leaves each key at the same
/// end changes nothing for the nodes that it does not look at.
#[derive(Clone, Copy, PartialEq, Eq, Debug)]
pub enum Moved {
    /// The walk did not visit the written node: all that is said of the key stays.
    Untouched,
    /// It leaves the named nodes by a pointer to one outside node before and after, or turns in a circle before
    /// and after: the key stays in the set, or out of it.
    Same,
    /// It ends at a named node or at a stop node before and after. `was` and `now` say what `holds` answers there.
    BothEnd { was: bool, now: bool },
    /// Nothing is known of the key any more.
    Apart,
}
