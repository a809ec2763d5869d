//! What a write leaves visited where the walks before and after it meet again at once.
#![tactic(auto)]

mod laws;
mod meeting;
mod ways;

pub use laws::stays_law;
pub use meeting::is_met;
pub use ways::Way;
