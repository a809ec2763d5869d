//! Walks of pictures: where the walk of a key goes on from a named node, and each rule on pictures,
//! written once over a reader of what is known of a picture.
#![tactic(auto)]

mod chains;
mod conditions;
mod edges;
mod fits;
mod heaps;
mod laws;
mod naming;
mod readers;
mod seen;
mod walks;

pub use chains::{
    chain_begins, chain_goes_on, chain_grows, chain_is_ordered, chain_of_itself, pick_is_ordered,
    pick_is_right, picks_once, stop_is_right, stop_keeps, stop_keeps_on,
};
pub use conditions::{compare, has_same_key, value};
pub use edges::{admits, chains_on, edge, goes, is_fast, is_frozen_seen, is_picked, target};
pub use fits::{part_fits, slots};
pub use heaps::{
    arrives, beyond_has_room, edge_is_ordered, is_below, is_ordinary_key, is_root, keep_holds,
    keeps_hold, key_leaves_room, keys_ordered, leads_to_shared, lies_between_ends, node_keeps,
    order_of, own_is_unreached, own_is_unvisited, root_is_right, root_is_visited, root_term,
    visit_goes_on,
};
pub use laws::{frames_law, names_law, outcomes_law};
pub use naming::{
    agrees, beyond_is_symmetric, beyond_is_transitive, beyond_itself, held_once, leads_once,
    leads_somewhere, leads_to_one, leads_to_some, names_itself, null_is_bare, order_is_total,
    order_is_transitive, owned_once, read_as, same_is_symmetric, same_is_transitive,
};
pub use readers::Reader;
pub use seen::Seen;
pub use walks::{Walk, first_name, is_on, walk_from};
