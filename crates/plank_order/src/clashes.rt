use thiserror::Error;

/// Nothing meets what was assumed together with the new assumption, so it was not assumed and
/// nothing changed.
#[derive(Clone, Copy, Debug, PartialEq, Eq, Error)]
#[error("nothing meets this together with what was assumed before")]
pub struct Clash;
