/// What names and nodes that are null ask.
#[derive(Clone, Copy)]
pub enum NameRule {
    /// A name that is not null names its own node, and a name that is null none.
    Itself,
    /// Whether two names are one node does not go by their order.
    BothWays,
    /// Two names of one node are the same for each name.
    Together,
    /// A name that is null has no owner and no lock, and no chain leads to it.
    NullNode,
    /// It has no flag.
    NullFlag,
    /// It has no pointer.
    NullPointer,
    /// A node that is shared is nobody's own.
    Owned,
    /// A lock that is free is nobody's, and the own thread's is not the other's.
    Held,
}

/// What names of one node have in common.
#[derive(Clone, Copy)]
pub enum NodeRule {
    /// Its owner, its lock and its key.
    Node,
    Flags,
    Visits,
    Pointers,
    Chains,
    /// The stop nodes of its chains.
    Picks,
}

/// Where pointers lead.
#[derive(Clone, Copy)]
pub enum PointerRule {
    /// To null, outside or to a named node.
    Somewhere,
    /// And to no two of these.
    Once,
    /// To one node.
    OneTarget,
    /// A pointer that leads outside leads where itself does.
    BeyondItself,
    /// Whether two lead to one outside node does not go by their order.
    BeyondBothWays,
    /// Two that do are the same for each third.
    BeyondTogether,
}

/// The order of keys.
#[derive(Clone, Copy)]
pub enum KeyRule {
    /// Any two keys compare.
    Total,
    /// What lies at or above a key lies at or above those below it.
    InOrder,
    /// Each key lies between the ends.
    Ends,
    /// A walked key strictly.
    Ordinary,
}

/// The root, what is reached, and where walks go on.
#[derive(Clone, Copy)]
pub enum WalkRule {
    /// The root is a shared node with its start key.
    Root,
    RootVisited,
    /// No walk visits a node that is not shared.
    Unvisited,
    /// No other node leads to it.
    Unreached,
    /// A visited node sends its key on, or gives the set bit.
    GoesOn,
    /// A stop node is frozen, does not admit its key, and gives the set bit where it is visited.
    Stops,
}

/// Chains of shared frozen nodes.
#[derive(Clone, Copy)]
pub enum ChainRule {
    Itself,
    Begins,
    GoesOn,
    Grows,
    /// Which chains have stop nodes, one for a key.
    Picks,
}

/// What lawful pictures have besides what is possible.
#[derive(Clone, Copy)]
pub enum KeptRule {
    /// Pointers of shared nodes lead to shared nodes.
    Published,
    /// A shared node meets the keeps.
    Keeps,
    /// A stop node meets the keeps for its own key.
    StopKeeps,
    /// It meets them for each key, visited or not.
    StopKeepsOn,
    /// Pointers, chains and stop nodes are in the order of keys.
    Edges,
    Room,
    Chains,
    Picks,
}

/// Rules that ask the same of other names, keys or pointers.
#[derive(Clone, Copy)]
pub enum Family {
    Names(NameRule),
    Nodes(NodeRule),
    Pointers(PointerRule),
    Keys(KeyRule),
    Walks(WalkRule),
    Chains(ChainRule),
    Kept(KeptRule),
}

/// A rule of lawful pictures: a family, and which of it.
///
/// What an index stands for is said by the family's shape. One that the family does not have is 0.
#[derive(Clone, Copy)]
pub struct Rule {
    pub family: Family,
    pub first: u8,
    pub second: u8,
    pub third: u8,
}
