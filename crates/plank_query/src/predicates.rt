use plank_pic::{Literal, Part};
use plank_step::Origin;

/// The calls that a situation sees.
#[derive(Clone, Copy)]
pub enum Speaker {
    Own,
    /// The call that takes the turn, where the own call does not.
    Other,
}

/// What may be said of a picture.
#[derive(Clone, Copy)]
pub enum Predicate {
    /// The part is true.
    Says(Part),
    /// The literal is true of a call.
    IsTrue { of: Speaker, literal: Literal },
    /// The literal is true of the own call, and the node that it says something of is shared.
    IsWitnessed(Literal),
    /// That node is shared.
    IsNodeShared(Literal),
    /// The name names what another name has from there after a step.
    NamedBefore { origin: Origin, name: u8 },
    /// The name is null, or its node is shared or the own thread's.
    IsUsable(u8),
    /// The node is not shared, and it is the own thread's.
    IsOwned(u8),
    /// The node meets the keep of this number for any key, if it is shared.
    Keeps { name: u8, keep: u32 },
    /// The pointer field of this number admits any key at the node.
    Admits { name: u8, pointer: u8 },
}

/// That a predicate is true, or that it is false.
#[derive(Clone, Copy)]
pub struct Claim {
    pub predicate: Predicate,
    pub value: bool,
}
