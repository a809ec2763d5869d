/// How a text breaks the typing rules; of several at one place, the first in this order is reported.
#[derive(Clone, Copy, Debug, PartialEq, Eq, PartialOrd, Ord)]
pub enum TypeKind {
    /// A name that is not declared.
    Unknown,
    /// A name that is declared twice.
    Twice,
    /// A name or an operand of another kind than its place needs.
    WrongKind,
    /// A variable that is bound by a statement and occurs there once more.
    BindReused,
    /// A method body that can be completed without a return.
    NoReturn,
    /// No root, or a second one.
    NotOneRoot,
}
