use plank_prog::Program;

/// Whoever decides which obligations of a program fail, by asking an oracle.
#[derive_where(Clone, Copy)]
pub struct Asking<'a, Q> {
    pub oracle: &'a Q,
    pub program: &'a Program,
}
