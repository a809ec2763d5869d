//! The typing rules: which of them a text breaks, and where.
#![tactic(auto)]

mod accesses;
mod atoms;
mod block_names;
mod blocks;
mod broken;
mod conditions;
mod findings;
mod first;
mod flow;
mod headers;
mod laws;
mod loops;
mod meanings;
mod method_rules;
mod method_tests;
mod names;
mod occurrences;
mod scopes;
mod statements;
mod text_rules;
mod typed;

pub use broken::Broken;
pub use laws::{first_is_least, looks_up_what_is_declared};
pub use meanings::{FieldMeaning, Meaning, NodeMeaning};
pub use names::{Declared, Names};
pub use scopes::{Scope, Setting};
pub use typed::{Typed, Untyped, checked};
