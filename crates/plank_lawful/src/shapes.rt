// What the indexes of each family run over.
ghost use Rattle.std.specs.Prelude.{◌≡◌, ◌<◌};
ghost use Rattle.plank_lawful.specs.Families.{count, over, name_shape, node_shape, pointer_shape, key_shape, walk_shape, chain_shape, kept_shape, shape_of, IsSmall};

use crate::families::{
    ChainRule, Family, KeptRule, KeyRule, NameRule, NodeRule, PointerRule, WalkRule,
};
use crate::indexes::fixed_count;
use plank_walk::{Reader, slots};

/// What an index of a rule runs over.
#[derive(Clone, Copy)]
pub enum Index {
    /// It is 0.
    One,
    Name,
    /// Names, where nodes have locks.
    LockedName,
    /// Names, where there are chains to other nodes.
    ChainedName,
    /// The numbers below the first index.
    Lower,
    /// Those and the first index.
    UpTo,
    Flag,
    Pointer,
    /// Pointer fields of named nodes.
    Place,
    Term,
    Key,
    Slot,
}

/// What the indexes of a family run over.
#[derive(Clone, Copy)]
pub struct Shape {
    pub first: Index,
    pub second: Index,
    pub third: Index,
}

fn over(first: Index, second: Index, third: Index) -> Shape
    ensures { result ≡ over first second third }
{
    Shape {
        first,
        second,
        third,
    }
}

fn name_shape(rule: NameRule) -> Shape
    ensures { result ≡ name_shape rule }
{
    match rule {
        NameRule::Itself => over(Index::Name, Index::One, Index::One),
        NameRule::BothWays => over(Index::Name, Index::Lower, Index::One),
        NameRule::Together => over(Index::Name, Index::Lower, Index::One),
        NameRule::NullNode => over(Index::Name, Index::One, Index::One),
        NameRule::NullFlag => over(Index::Name, Index::Flag, Index::One),
        NameRule::NullPointer => over(Index::Place, Index::One, Index::One),
        NameRule::Owned => over(Index::Name, Index::One, Index::One),
        NameRule::Held => over(Index::LockedName, Index::One, Index::One),
    }
}

fn node_shape(rule: NodeRule) -> Shape
    ensures { result ≡ node_shape rule }
{
    match rule {
        NodeRule::Node => over(Index::Name, Index::Lower, Index::One),
        NodeRule::Flags => over(Index::Name, Index::Lower, Index::Flag),
        NodeRule::Visits => over(Index::Name, Index::Lower, Index::Key),
        NodeRule::Pointers => over(Index::Name, Index::Lower, Index::Pointer),
        NodeRule::Chains => over(Index::ChainedName, Index::Lower, Index::One),
        NodeRule::Picks => over(Index::ChainedName, Index::Lower, Index::Key),
    }
}

fn pointer_shape(rule: PointerRule) -> Shape
    ensures { result ≡ pointer_shape rule }
{
    match rule {
        PointerRule::Somewhere => over(Index::Place, Index::One, Index::One),
        PointerRule::Once => over(Index::Place, Index::One, Index::One),
        PointerRule::OneTarget => over(Index::Place, Index::Name, Index::One),
        PointerRule::BeyondItself => over(Index::Place, Index::One, Index::One),
        PointerRule::BeyondBothWays => over(Index::Place, Index::Lower, Index::One),
        PointerRule::BeyondTogether => over(Index::Place, Index::Lower, Index::Pointer),
    }
}

fn key_shape(rule: KeyRule) -> Shape
    ensures { result ≡ key_shape rule }
{
    match rule {
        KeyRule::Total => over(Index::Term, Index::UpTo, Index::One),
        KeyRule::InOrder => over(Index::Term, Index::Term, Index::One),
        KeyRule::Ends => over(Index::Term, Index::One, Index::One),
        KeyRule::Ordinary => over(Index::Key, Index::One, Index::One),
    }
}

fn walk_shape(rule: WalkRule) -> Shape
    ensures { result ≡ walk_shape rule }
{
    match rule {
        WalkRule::Root => over(Index::Name, Index::One, Index::One),
        WalkRule::RootVisited => over(Index::Key, Index::Name, Index::One),
        WalkRule::Unvisited => over(Index::Key, Index::Name, Index::One),
        WalkRule::Unreached => over(Index::Place, Index::Name, Index::One),
        WalkRule::GoesOn => over(Index::Key, Index::Name, Index::One),
        WalkRule::Stops => over(Index::Key, Index::Slot, Index::One),
    }
}

fn chain_shape(rule: ChainRule) -> Shape
    ensures { result ≡ chain_shape rule }
{
    match rule {
        ChainRule::Itself => over(Index::Name, Index::Name, Index::One),
        ChainRule::Begins => over(Index::Name, Index::Name, Index::One),
        ChainRule::GoesOn => over(Index::ChainedName, Index::Name, Index::One),
        ChainRule::Grows => over(Index::ChainedName, Index::Name, Index::One),
        ChainRule::Picks => over(Index::Key, Index::ChainedName, Index::Name),
    }
}

fn kept_shape(rule: KeptRule) -> Shape
    ensures { result ≡ kept_shape rule }
{
    match rule {
        KeptRule::Published => over(Index::Place, Index::Name, Index::One),
        KeptRule::Keeps => over(Index::Key, Index::Name, Index::One),
        KeptRule::StopKeeps => over(Index::Key, Index::Slot, Index::One),
        KeptRule::StopKeepsOn => over(Index::Key, Index::Slot, Index::Key),
        KeptRule::Edges => over(Index::Place, Index::Name, Index::One),
        KeptRule::Room => over(Index::Place, Index::One, Index::One),
        KeptRule::Chains => over(Index::ChainedName, Index::Name, Index::One),
        KeptRule::Picks => over(Index::Key, Index::ChainedName, Index::Name),
    }
}

/// What the indexes of a family run over.
pub fn shape_of(family: Family) -> Shape
    ensures { result ≡ shape_of family }
{
    match family {
        Family::Names(rule) => name_shape(rule),
        Family::Nodes(rule) => node_shape(rule),
        Family::Pointers(rule) => pointer_shape(rule),
        Family::Keys(rule) => key_shape(rule),
        Family::Walks(rule) => walk_shape(rule),
        Family::Chains(rule) => chain_shape(rule),
        Family::Kept(rule) => kept_shape(rule),
    }
}

/// How many values an index has, in a rule whose first index is given.
pub fn count<S: Reader>(source: &S, index: Index, first: u8) -> u8
    requires small { IsSmall (S.frame source.now) }
    requires first { first < 255 }
    ensures { result ≡ count (S.frame source.now) index first }
{
    let names = source.names();
    match index {
        Index::One => 1,
        Index::Name => names,
        Index::LockedName => if source.header().has_lock { names } else { 0 },
        Index::ChainedName => if slots(source) == 0 { 0 } else { names },
        Index::Lower => first,
        Index::UpTo => first + 1,
        Index::Flag => source.header().flags.len() as u8,
        Index::Pointer => source.pointers(),
        Index::Place => source.pointers() * names,
        Index::Term => names + fixed_count(source),
        Index::Key => 3,
        Index::Slot => slots(source),
    }
}
