//! Laws of projection. Each function is empty: what it ensures is the law.
ghost use Rattle.plank_scene.specs.Projection.{WorldsShowPossible, WorldsShowLawful, WritesAreShown, KeepsStay};

/// What a world of a run shows, of any names for its nodes and at any walked keys, is a possible picture,
/// and a lawful one where its shared nodes meet every keep and its pointers their order.
pub fn pictures_law()
    ensures possible { WorldsShowPossible }
    ensures lawful { WorldsShowLawful }
{}

/// A write of a world is a write of the picture that it shows, under the same names: each part of the
/// picture after it is as the picture before it determines, or free.
pub fn writes_law()
    ensures { WritesAreShown }
{}

/// Keeps and orders stay, also of nodes that no name is of, where nothing fails at the picture's write.
pub fn keeps_law()
    ensures { KeepsStay }
{}
