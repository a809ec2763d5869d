//! Plain types and limits of the judged structures, which every other crate speaks of.
#![tactic(auto)]

mod keys;
mod label;
mod laws;
mod limits;
mod memory;
mod obligations;
mod operations;
mod places;
mod typing;

pub use keys::{Key, NodeId, ThreadId};
pub use label::Label;
pub use laws::{bounded_path_laws, key_laws, path_laws};
pub use limits::{
    BYTES_LIMIT, EFFECT_FACTS_LIMIT, FLAGS_LIMIT, FROZEN_NAMES_LIMIT, FROZEN_VARIABLES_LIMIT,
    LOCATIONS_LIMIT, MARK_WORDS_PER_LOCATION, METHODS_LIMIT, NAMES_LIMIT, NESTING_LIMIT,
    NODES_LIMIT, POINTERS_LIMIT, SITES_LIMIT, Thing, VARIABLES_LIMIT, WORKERS_LIMIT,
};
pub use memory::OutOfMemory;
pub use obligations::{Kind, Obligation};
pub use operations::Op;
pub use places::Place;
pub use typing::TypeKind;

#[cfg(test)]
mod tests;
