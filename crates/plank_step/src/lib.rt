//! Steps of pictures: what a write leaves of each part, and what a turn makes of a picture, written
//! once over readers of what is known.
#![tactic(auto)]

mod blocks;
mod footprints;
mod mixing;
mod renaming;
mod stepping;
mod turns;
mod writes;

pub use blocks::{
    all_hold, bind_is_read, block_runs, comes_to_null, holds_lock, one_fails, runs, test_holds,
    test_reads_null, written_node,
};
pub use footprints::{
    Footprint, end_value, footprint_of, go_alike, moved_along, set_left, stop_left, visit_left,
};
pub use mixing::{Mixed, chain_left, is_published, pick_left, stop_flag_left};
pub use renaming::{beyond_after, leads_after, named_as, origin};
pub use stepping::{Settled, left, stepped};
pub use turns::{Origin, TakesTurn, argument, has_name, key_term, name, source, writes_of};
pub use writes::{put_flag, put_lock, put_pointer, written_name};
