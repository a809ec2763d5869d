use crate::predicates::Predicate;
use plank_pic::Term;
use plank_prog::MethodKind;

/// The two pictures of a step.
#[derive(Clone, Copy)]
pub enum Moment {
    Before,
    After,
}

/// What a question looks for.
#[derive(Clone, Copy)]
pub enum Goal {
    /// Whether there are such pictures at all.
    Anything,
    /// What is said of one of the pictures is false there.
    Fails {
        moment: Moment,
        predicate: Predicate,
    },
    /// The block of the turn comes to a read or a write of a field of null.
    ComesToNull,
    /// The pointer of a node that is written, or that becomes shared, leads to another against the order
    /// of the pointer.
    LeadsAgainst {
        name: u8,
        pointer: u8,
        to: u8,
    },
    /// After the write nothing is known of the walk of some key.
    MovesApart,
    /// The write changes whether some key is in the set where a method of this kind may not.
    TurnsWrongly(MethodKind),
    /// Before the write or after it the walk of a key that lies strictly between the two terms enters the
    /// chain.
    EntersChain {
        from: u8,
        to: u8,
        above: Term,
        below: Term,
    },
}
