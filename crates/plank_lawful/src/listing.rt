// The list of all rules of a frame, family by family.
ghost use Rattle.std.specs.Prelude.{◌≡◌, ◌++◌, ◌<◌, IfOk};
ghost use Rattle.plank_lawful.specs.Families.{IsSmall};
ghost use Rattle.plank_lawful.specs.Lists.{rules_by_third, rules_by_second, rules_of, rules_of_all, rules_of_possible, rules_of_lawful, name_families, node_families, pointer_families, key_families, walk_families, chain_families, kept_families};

use crate::families::{
    ChainRule, Family, KeptRule, KeyRule, NameRule, NodeRule, PointerRule, Rule, WalkRule,
};
use crate::shapes::{count, shape_of};
use plank_base::OutOfMemory;
use plank_walk::Reader;
use std::alloc::Global;

/// The families of what names and nodes that are null ask.
pub fn name_families() -> [Family; 8]
    ensures { result ≡ name_families }
{
    [
        Family::Names(NameRule::Itself),
        Family::Names(NameRule::BothWays),
        Family::Names(NameRule::Together),
        Family::Names(NameRule::NullNode),
        Family::Names(NameRule::NullFlag),
        Family::Names(NameRule::NullPointer),
        Family::Names(NameRule::Owned),
        Family::Names(NameRule::Held),
    ]
}

/// Those of what names of one node have in common.
pub fn node_families() -> [Family; 6]
    ensures { result ≡ node_families }
{
    [
        Family::Nodes(NodeRule::Node),
        Family::Nodes(NodeRule::Flags),
        Family::Nodes(NodeRule::Visits),
        Family::Nodes(NodeRule::Pointers),
        Family::Nodes(NodeRule::Chains),
        Family::Nodes(NodeRule::Picks),
    ]
}

/// Those of where pointers lead.
pub fn pointer_families() -> [Family; 6]
    ensures { result ≡ pointer_families }
{
    [
        Family::Pointers(PointerRule::Somewhere),
        Family::Pointers(PointerRule::Once),
        Family::Pointers(PointerRule::OneTarget),
        Family::Pointers(PointerRule::BeyondItself),
        Family::Pointers(PointerRule::BeyondBothWays),
        Family::Pointers(PointerRule::BeyondTogether),
    ]
}

/// Those of the order of keys.
pub fn key_families() -> [Family; 4]
    ensures { result ≡ key_families }
{
    [
        Family::Keys(KeyRule::Total),
        Family::Keys(KeyRule::InOrder),
        Family::Keys(KeyRule::Ends),
        Family::Keys(KeyRule::Ordinary),
    ]
}

/// Those of the root, of what is reached, and of where walks go on.
pub fn walk_families() -> [Family; 6]
    ensures { result ≡ walk_families }
{
    [
        Family::Walks(WalkRule::Root),
        Family::Walks(WalkRule::RootVisited),
        Family::Walks(WalkRule::Unvisited),
        Family::Walks(WalkRule::Unreached),
        Family::Walks(WalkRule::GoesOn),
        Family::Walks(WalkRule::Stops),
    ]
}

/// Those of chains.
pub fn chain_families() -> [Family; 5]
    ensures { result ≡ chain_families }
{
    [
        Family::Chains(ChainRule::Itself),
        Family::Chains(ChainRule::Begins),
        Family::Chains(ChainRule::GoesOn),
        Family::Chains(ChainRule::Grows),
        Family::Chains(ChainRule::Picks),
    ]
}

/// Those of what lawful pictures have besides what is possible.
pub fn kept_families() -> [Family; 8]
    ensures { result ≡ kept_families }
{
    [
        Family::Kept(KeptRule::Published),
        Family::Kept(KeptRule::Keeps),
        Family::Kept(KeptRule::StopKeeps),
        Family::Kept(KeptRule::StopKeepsOn),
        Family::Kept(KeptRule::Edges),
        Family::Kept(KeptRule::Room),
        Family::Kept(KeptRule::Chains),
        Family::Kept(KeptRule::Picks),
    ]
}

// The rules of a family with these first indexes.
#[tactic(auto, using(crate::proofs::Joined::joined_none))]
fn push_by_third<S: Reader>(
    source: &S,
    family: Family,
    first: u8,
    second: u8,
    rules: &mut Vec<Rule>,
) -> Result<(), OutOfMemory>
    requires small { IsSmall (S.frame source.now) }
    requires first { first < 255 }
    ensures { IfOk result (λ _. rules.new.items ≡ rules.old.items ++ rules_by_third (S.frame source.now) family first second) }
{
    for third in 0..count(source, shape_of(family).third, first) {
        rules.push(Rule {
            family,
            first,
            second,
            third,
        })?;
    }
    Ok(())
}

// The rules of a family with this first index.
#[tactic(auto, using(crate::proofs::Joined::joined_none))]
fn push_by_second<S: Reader>(
    source: &S,
    family: Family,
    first: u8,
    rules: &mut Vec<Rule>,
) -> Result<(), OutOfMemory>
    requires small { IsSmall (S.frame source.now) }
    requires first { first < 255 }
    ensures { IfOk result (λ _. rules.new.items ≡ rules.old.items ++ rules_by_second (S.frame source.now) family first) }
{
    for second in 0..count(source, shape_of(family).second, first) {
        push_by_third(source, family, first, second, rules)?;
    }
    Ok(())
}

// The rules of a family.
#[tactic(auto, using(crate::proofs::Joined::joined_none))]
fn push_rules<S: Reader>(
    source: &S,
    family: Family,
    rules: &mut Vec<Rule>,
) -> Result<(), OutOfMemory>
    requires small { IsSmall (S.frame source.now) }
    ensures { IfOk result (λ _. rules.new.items ≡ rules.old.items ++ rules_of (S.frame source.now) family) }
{
    for first in 0..count(source, shape_of(family).first, 0) {
        push_by_second(source, family, first, rules)?;
    }
    Ok(())
}

// The rules of families.
fn push_all<S: Reader>(
    source: &S,
    families: &[Family],
    rules: &mut Vec<Rule>,
) -> Result<(), OutOfMemory>
    requires small { IsSmall (S.frame source.now) }
    ensures { IfOk result (λ _. rules.new.items ≡ rules.old.items ++ rules_of_all (S.frame source.now) families.now) }
{
    for family in families {
        push_rules(source, *family, rules)?;
    }
    Ok(())
}

fn push_names<S: Reader>(source: &S, rules: &mut Vec<Rule>) -> Result<(), OutOfMemory>
    requires small { IsSmall (S.frame source.now) }
    ensures { IfOk result (λ _. rules.new.items ≡ rules.old.items ++ rules_of_all (S.frame source.now) name_families) }
{
    push_all(source, &name_families(), rules)
}

fn push_nodes<S: Reader>(source: &S, rules: &mut Vec<Rule>) -> Result<(), OutOfMemory>
    requires small { IsSmall (S.frame source.now) }
    ensures { IfOk result (λ _. rules.new.items ≡ rules.old.items ++ rules_of_all (S.frame source.now) node_families) }
{
    push_all(source, &node_families(), rules)
}

fn push_pointers<S: Reader>(source: &S, rules: &mut Vec<Rule>) -> Result<(), OutOfMemory>
    requires small { IsSmall (S.frame source.now) }
    ensures { IfOk result (λ _. rules.new.items ≡ rules.old.items ++ rules_of_all (S.frame source.now) pointer_families) }
{
    push_all(source, &pointer_families(), rules)
}

fn push_keys<S: Reader>(source: &S, rules: &mut Vec<Rule>) -> Result<(), OutOfMemory>
    requires small { IsSmall (S.frame source.now) }
    ensures { IfOk result (λ _. rules.new.items ≡ rules.old.items ++ rules_of_all (S.frame source.now) key_families) }
{
    push_all(source, &key_families(), rules)
}

fn push_walks<S: Reader>(source: &S, rules: &mut Vec<Rule>) -> Result<(), OutOfMemory>
    requires small { IsSmall (S.frame source.now) }
    ensures { IfOk result (λ _. rules.new.items ≡ rules.old.items ++ rules_of_all (S.frame source.now) walk_families) }
{
    push_all(source, &walk_families(), rules)
}

fn push_chains<S: Reader>(source: &S, rules: &mut Vec<Rule>) -> Result<(), OutOfMemory>
    requires small { IsSmall (S.frame source.now) }
    ensures { IfOk result (λ _. rules.new.items ≡ rules.old.items ++ rules_of_all (S.frame source.now) chain_families) }
{
    push_all(source, &chain_families(), rules)
}

fn push_kept<S: Reader>(source: &S, rules: &mut Vec<Rule>) -> Result<(), OutOfMemory>
    requires small { IsSmall (S.frame source.now) }
    ensures { IfOk result (λ _. rules.new.items ≡ rules.old.items ++ rules_of_all (S.frame source.now) kept_families) }
{
    push_all(source, &kept_families(), rules)
}

/// The rules of possible pictures of a frame.
pub fn possible_rules<S: Reader>(alloc: Global, source: &S) -> Result<Vec<Rule>, OutOfMemory>
    requires small { IsSmall (S.frame source.now) }
    ensures { IfOk result (λ rules. rules.items ≡ rules_of_possible (S.frame source.now)) }
{
    let mut rules = Vec::new(alloc);
    push_names(source, &mut rules)?;
    push_nodes(source, &mut rules)?;
    push_pointers(source, &mut rules)?;
    push_keys(source, &mut rules)?;
    push_walks(source, &mut rules)?;
    push_chains(source, &mut rules)?;
    Ok(rules)
}

/// The rules that lawful pictures of a frame meet besides.
pub fn kept_rules<S: Reader>(alloc: Global, source: &S) -> Result<Vec<Rule>, OutOfMemory>
    requires small { IsSmall (S.frame source.now) }
    ensures { IfOk result (λ rules. rules.items ≡ rules_of_all (S.frame source.now) kept_families) }
{
    let mut rules = Vec::new(alloc);
    push_kept(source, &mut rules)?;
    Ok(rules)
}

/// The rules of lawful pictures of a frame: first those of possible ones, then the others.
pub fn lawful_rules<S: Reader>(alloc: Global, source: &S) -> Result<Vec<Rule>, OutOfMemory>
    requires small { IsSmall (S.frame source.now) }
    ensures { IfOk result (λ rules. rules.items ≡ rules_of_lawful (S.frame source.now)) }
{
    let mut rules = possible_rules(alloc, source)?;
    push_kept(source, &mut rules)?;
    Ok(rules)
}
