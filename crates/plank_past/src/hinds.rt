use plank_pic::Literal;

/// Uses of the rule of hindsight, for the calls of a method, that differ in their conclusions alone.
#[derive(Clone, Copy)]
pub struct Hinds<'l, 'c> {
    /// The number of the method.
    pub method: u32,
    /// What was true at some moment.
    pub past: Literal,
    /// What is true now, of a field of the node that `past` is said of, where the rule takes it.
    pub present: Option<Literal>,
    /// What is true, and never changes.
    pub lasting: &'l [Literal],
    /// What is asked to have been true at some moment.
    pub conclusions: &'c [Literal],
}
