/// What a text may have too much of, in the order in which limits are tested.
#[derive(Clone, Copy, Debug, PartialEq, Eq)]
pub enum Thing {
    Bytes,
    Nesting,
    Methods,
    Variables,
    Flags,
    Pointers,
    Nodes,
    Locations,
    Sites,
    EffectFacts,
}

/// Bytes of a text.
pub const BYTES_LIMIT: u32 = 131_072;

/// Braces and parentheses that are open at once.
pub const NESTING_LIMIT: u32 = 32;

/// Methods of a text.
pub const METHODS_LIMIT: u32 = 16;

/// Variables of one method, in a text without a `freeze` line; so many each call has room for.
pub const VARIABLES_LIMIT: u32 = 7;

/// Variables of one method, in a text with a `freeze` line.
pub const FROZEN_VARIABLES_LIMIT: u32 = 6;

/// Flags of a node.
pub const FLAGS_LIMIT: u32 = 6;

/// Pointer fields of a node.
pub const POINTERS_LIMIT: u32 = 2;

/// Nodes of the start heap.
pub const NODES_LIMIT: u32 = 16;

/// Locations of a whole text.
pub const LOCATIONS_LIMIT: u32 = 192;

/// Locations that write, `lock` and `unlock` among them.
pub const SITES_LIMIT: u32 = 48;

/// Facts that one effect may claim.
pub const EFFECT_FACTS_LIMIT: u32 = 512;

/// Words of 64 marks that each location has.
pub const MARK_WORDS_PER_LOCATION: u32 = 16;

/// Names of a picture, in a text without a `freeze` line.
pub const NAMES_LIMIT: u32 = 16;

/// Names of a picture, in a text with a `freeze` line, where each pair of names may have a chain.
pub const FROZEN_NAMES_LIMIT: u32 = 13;

/// Workers that may judge one text.
pub const WORKERS_LIMIT: u32 = 64;
