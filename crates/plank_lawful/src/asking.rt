// What rules ask of each name, or of each term, in turn.
ghost use Rattle.std.specs.Prelude.{◌≡◌};
ghost use Rattle.plank_lawful.specs.Asked.{all_below, same_as, lead_alike, led_alike, chains_alike, chained_alike, picks_alike, picked_alike, beyond_as, follows, led_has, passes};
ghost use Rattle.plank_lawful.specs.Rules.{each_name};
ghost use Rattle.plank_walk.specs.Settles.{Settles};

use crate::indexes::fixed_term;
use plank_pic::{KeyName, Part, Place, Term};
use plank_walk::Reader;

/// Two names.
#[derive(Clone, Copy)]
pub(crate) struct Pair {
    pub left: u8,
    pub right: u8,
}

/// What is asked of each.
#[derive(Clone, Copy)]
pub(crate) enum Asked {
    /// It is one node with both or with none.
    SameAs {
        left: u8,
        right: u8,
    },
    LeadsNowhere {
        at: Place,
    },
    NoChainTo {
        to: u8,
    },
    /// Pointers of both lead to it or none, and its pointers to both or none.
    LeadsAlike {
        left: u8,
        right: u8,
        pointer: u8,
    },
    ChainsAlike {
        left: u8,
        right: u8,
    },
    PicksAlike {
        key: KeyName,
        pair: Pair,
        slot: u8,
    },
    /// If the pointer leads to it, it is this node.
    LeadsTo {
        at: Place,
        to: u8,
    },
    /// Its pointer leads outside to where both do, or to where none does.
    BeyondAs {
        left: Place,
        right: Place,
        pointer: u8,
    },
    /// If the pointer leads to it, the walk visits it.
    VisitedFrom {
        key: KeyName,
        at: Place,
    },
    ChainGoesOn {
        from: u8,
        to: u8,
    },
    ChainGrows {
        from: u8,
        to: u8,
    },
    /// Its key lies at or above the first where it does the second.
    NodeFollows {
        left: Term,
        right: Term,
    },
    /// The same of a term that is no name's.
    TermFollows {
        left: Term,
        right: Term,
    },
}

// Whether two names are one node with a third both or none.
fn same_as<S: Reader>(
    source: &S,
    left: u8,
    right: u8,
    third: u8,
    log: &mut S::Log,
) -> Result<bool, usize>
    ensures { Settles (λ full. same_as (S.picture source.now full) left right third) (S.known source.now) result }
{
    Ok(
        source.says(Part::Same { left, right: third }, log)?
            == source.says(
                Part::Same {
                    left: right,
                    right: third,
                },
                log,
            )?,
    )
}

// Whether two pointers lead to a name both or none.
fn lead_alike<S: Reader>(
    source: &S,
    left: Place,
    right: Place,
    to: u8,
    log: &mut S::Log,
) -> Result<bool, usize>
    ensures { Settles (λ full. lead_alike (S.picture source.now full) left right to) (S.known source.now) result }
{
    Ok(
        source.says(Part::Leads { at: left, to }, log)?
            == source.says(Part::Leads { at: right, to }, log)?,
    )
}

// Whether a pointer leads to both names or none.
fn led_alike<S: Reader>(
    source: &S,
    at: Place,
    left: u8,
    right: u8,
    log: &mut S::Log,
) -> Result<bool, usize>
    ensures { Settles (λ full. led_alike (S.picture source.now full) at left right) (S.known source.now) result }
{
    Ok(
        source.says(Part::Leads { at, to: left }, log)?
            == source.says(Part::Leads { at, to: right }, log)?,
    )
}

// Whether there are chains from both names or from none.
fn chains_alike<S: Reader>(
    source: &S,
    left: u8,
    right: u8,
    to: u8,
    log: &mut S::Log,
) -> Result<bool, usize>
    ensures { Settles (λ full. chains_alike (S.picture source.now full) left right to) (S.known source.now) result }
{
    Ok(
        source.says(Part::Chain { from: left, to }, log)?
            == source.says(Part::Chain { from: right, to }, log)?,
    )
}

// Whether there are chains to both names or to none.
fn chained_alike<S: Reader>(
    source: &S,
    from: u8,
    left: u8,
    right: u8,
    log: &mut S::Log,
) -> Result<bool, usize>
    ensures { Settles (λ full. chained_alike (S.picture source.now full) from left right) (S.known source.now) result }
{
    Ok(
        source.says(Part::Chain { from, to: left }, log)?
            == source.says(Part::Chain { from, to: right }, log)?,
    )
}

// Whether the chains from both names have the stop node or none.
fn picks_alike<S: Reader>(
    source: &S,
    key: KeyName,
    pair: Pair,
    to: u8,
    slot: u8,
    log: &mut S::Log,
) -> Result<bool, usize>
    ensures { Settles (λ full. picks_alike (S.picture source.now full) key pair.left pair.right to slot) (S.known source.now) result }
{
    Ok(
        source.says(
            Part::Picks {
                key,
                from: pair.left,
                to,
                slot,
            },
            log,
        )? == source.says(
            Part::Picks {
                key,
                from: pair.right,
                to,
                slot,
            },
            log,
        )?,
    )
}

// Whether the chains to both names have the stop node or none.
fn picked_alike<S: Reader>(
    source: &S,
    key: KeyName,
    from: u8,
    pair: Pair,
    slot: u8,
    log: &mut S::Log,
) -> Result<bool, usize>
    ensures { Settles (λ full. picked_alike (S.picture source.now full) key from pair.left pair.right slot) (S.known source.now) result }
{
    Ok(
        source.says(
            Part::Picks {
                key,
                from,
                to: pair.left,
                slot,
            },
            log,
        )? == source.says(
            Part::Picks {
                key,
                from,
                to: pair.right,
                slot,
            },
            log,
        )?,
    )
}

// Whether two pointers lead outside to the same as a third both or none.
fn beyond_as<S: Reader>(
    source: &S,
    left: Place,
    right: Place,
    third: Place,
    log: &mut S::Log,
) -> Result<bool, usize>
    ensures { Settles (λ full. beyond_as (S.picture source.now full) left right third) (S.known source.now) result }
{
    Ok(
        source.says(Part::SameBeyond { left, right: third }, log)?
            == source.says(
                Part::SameBeyond {
                    left: right,
                    right: third,
                },
                log,
            )?,
    )
}

// Whether a term at or above the one lies at or above the other.
fn follows<S: Reader>(
    source: &S,
    left: Term,
    right: Term,
    third: Term,
    log: &mut S::Log,
) -> Result<bool, usize>
    ensures { Settles (λ full. follows (S.picture source.now full) left right third) (S.known source.now) result }
{
    Ok(
        !source.says(
            Part::AtMost {
                left: right,
                right: third,
            },
            log,
        )? || source.says(Part::AtMost { left, right: third }, log)?,
    )
}

// Whether what leads to it also has something.
fn led_has<S: Reader>(
    source: &S,
    at: Place,
    to: u8,
    part: Part,
    log: &mut S::Log,
) -> Result<bool, usize>
    ensures { Settles (λ full. led_has (S.picture source.now full) at to part) (S.known source.now) result }
{
    Ok(!source.says(Part::Leads { at, to }, log)? || source.says(part, log)?)
}

// Whether a number is what is asked of it.
fn passes<S: Reader>(source: &S, asked: Asked, number: u8, log: &mut S::Log) -> Result<bool, usize>
    ensures { Settles (λ full. passes (S.picture source.now full) asked number) (S.known source.now) result }
{
    match asked {
        Asked::SameAs { left, right } => same_as(source, left, right, number, log),
        Asked::LeadsNowhere { at } => Ok(!source.says(Part::Leads { at, to: number }, log)?),
        Asked::NoChainTo { to } => Ok(!source.says(Part::Chain { from: number, to }, log)?),
        Asked::LeadsAlike {
            left,
            right,
            pointer,
        } => {
            let (one, other) = (
                Place {
                    name: left,
                    pointer,
                },
                Place {
                    name: right,
                    pointer,
                },
            );
            let back = Place {
                name: number,
                pointer,
            };
            Ok(
                lead_alike(source, one, other, number, log)?
                    && led_alike(source, back, left, right, log)?,
            )
        }
        Asked::ChainsAlike { left, right } => {
            Ok(
                chains_alike(source, left, right, number, log)?
                    && chained_alike(source, number, left, right, log)?,
            )
        }
        Asked::PicksAlike { key, pair, slot } => {
            Ok(
                picks_alike(source, key, pair, number, slot, log)?
                    && picked_alike(source, key, number, pair, slot, log)?,
            )
        }
        Asked::LeadsTo { at, to } => led_has(
            source,
            at,
            number,
            Part::Same {
                left: to,
                right: number,
            },
            log,
        ),
        Asked::BeyondAs {
            left,
            right,
            pointer,
        } => {
            beyond_as(
                source,
                left,
                right,
                Place {
                    name: number,
                    pointer,
                },
                log,
            )
        }
        Asked::VisitedFrom { key, at } => led_has(
            source,
            at,
            number,
            Part::Visits { key, name: number },
            log,
        ),
        Asked::ChainGoesOn { from, to } => {
            led_has(
                source,
                Place {
                    name: from,
                    pointer: 0,
                },
                number,
                Part::Chain { from: number, to },
                log,
            )
        }
        Asked::ChainGrows { from, to } => {
            led_has(
                source,
                Place {
                    name: to,
                    pointer: 0,
                },
                number,
                Part::Chain { from, to: number },
                log,
            )
        }
        Asked::NodeFollows { left, right } => follows(source, left, right, Term::Node(number), log),
        Asked::TermFollows { left, right } => follows(source, left, right, fixed_term(number), log),
    }
}

/// Whether each number below a count is what is asked of it.
#[tactic(auto, using(crate::proofs::Asked::all_of_none, crate::proofs::Asked::all_more))]
pub(crate) fn all_below<S: Reader>(
    source: &S,
    asked: Asked,
    count: u8,
    log: &mut S::Log,
) -> Result<bool, usize>
    ensures { Settles (λ full. all_below (passes (S.picture source.now full) asked) count) (S.known source.now) result }
{
    for number in 0..count {
        if !passes(source, asked, number, log)? {
            return Ok(false);
        }
    }
    Ok(true)
}

/// Whether each name is what is asked of it.
pub(crate) fn each_name<S: Reader>(
    source: &S,
    asked: Asked,
    log: &mut S::Log,
) -> Result<bool, usize>
    ensures { Settles (λ full. each_name (S.frame source.now) (S.picture source.now full) asked) (S.known source.now) result }
{
    all_below(source, asked, source.names(), log)
}
