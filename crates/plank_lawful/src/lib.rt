//! The rules of lawful pictures as families with indexes: what each rule asks of a picture, an
//! evaluator over readers, the list of all rules of a frame, and the laws that they say the whole.
#![tactic(auto)]

mod asking;
mod chains;
mod families;
mod holding;
mod indexes;
mod kept;
mod laws;
mod listing;
mod names;
mod nodes;
mod orders;
mod pointers;
mod shapes;
mod walks;

pub use families::{
    ChainRule, Family, KeptRule, KeyRule, NameRule, NodeRule, PointerRule, Rule, WalkRule,
};
pub use holding::holds;
pub use indexes::{key_at, place_at, term_at};
pub use laws::{lists_law, rules_law};
pub use listing::{
    chain_families, kept_families, kept_rules, key_families, lawful_rules, name_families,
    node_families, pointer_families, possible_rules, walk_families,
};
pub use shapes::{Index, Shape, count, shape_of};
