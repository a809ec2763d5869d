ghost use Rattle.std.specs.Prelude.{◌≡◌, ◌++◌, ◌∷◌, ◌+◌, ◌^◌, ◌<◌, [], true, length, None, OnOk, OnErr};
ghost use Rattle.plank_search.specs.Answers.{Tells};
ghost use Rattle.plank_search.specs.Counting.{count_holds, count_at, TallyOf, tally_with, earlier_or};

use crate::rules::{Look, Rules};
use crate::values::{Reads, Values};
use plank_base::OutOfMemory;
use sqlite_items::Items;
use std::alloc::Global;
use std::marker::Model;

/// That at least `least` and at most `most` of some parts are yes. A part that stands twice counts
/// twice.
#[derive(Debug, Drop)]
pub struct Count {
    /// The parts that are counted.
    pub parts: Items<usize>,
    /// The least number that is allowed; more than there are parts allows nothing.
    pub least: usize,
    /// The greatest number that is allowed.
    pub most: usize,
}

/// Rules that count: each constraint is a `Count`. An example of a system of rules, and of use for
/// pigeonholes, covers and choices.
#[derive(Debug, Drop)]
pub struct Counts {
    counts: Vec<Count>,
}

impl Model for Counts {
    ghost use Rattle.std.specs.Prelude.{List};
    ghost use Rattle.plank_search.specs.declared.counts.Count.{Count};

    ghost Value = { List Count };

    ghost view = { λ counts. counts.counts.items };
}

// What is known of how many parts are yes.
#[derive(Clone, Copy, PartialEq, Eq, Debug)]
struct Tally {
    known_yes: usize,
    still_open: usize,
    first_open: Option<usize>,
}

impl Counts {
    /// No constraints; takes no memory.
    pub fn new(alloc: Global) -> Counts
        ensures { result ≡ [] }
    {
        Counts {
            counts: Vec::new(alloc),
        }
    }

    /// Adds a constraint. Where memory is refused nothing is added.
    pub fn add(&mut self, count: Count) -> Result<(), OutOfMemory>
        ensures added { OnOk result (self.new ≡ self.old ++ count ∷ []) }
        ensures refused { OnErr result (self.new ≡ self.old) }
    {
        self.counts.push(count)?;
        Ok(())
    }

    /// How many constraints there are.
    pub fn len(&self) -> usize
        ensures { result ≡ length self.now }
    {
        self.counts.len()
    }
}

impl Rules for Counts {
    ghost constraint_count = { λ counts. length counts };

    ghost meaning = { λ counts constraint full. count_holds full (count_at counts constraint) };

    fn constraints(&self) -> usize {
        self.len()
    }

    fn look(&self, constraint: usize, values: &Values, reads: &mut Reads) -> Look {
        look_at_count(&self.counts[constraint], values, reads)
    }
}

fn look_at_count(count: &Count, values: &Values, reads: &mut Reads) -> Look
    ensures { Tells (λ full. count_holds full count.now ≡ true) values.now result }
{
    let tally = tally_of(count.parts.as_slice(), values, reads);
    let possible = tally.known_yes + tally.still_open;
    if count.most < tally.known_yes || possible < count.least {
        return Look::Fails;
    }
    if count.least <= tally.known_yes && possible <= count.most {
        return Look::Holds;
    }
    match tally.first_open {
        Some(part) => Look::Needs(part),
        None => Look::Holds,
    }
}

fn tally_of(parts: &[usize], values: &Values, reads: &mut Reads) -> Tally
    ensures { TallyOf values.now parts.now result }
{
    let mut tally = Tally {
        known_yes: 0,
        still_open: 0,
        first_open: None,
    };
    for part in parts {
        let value = reads.read(values, *part);
        tally = with_part(tally, *part, value);
    }
    tally
}

fn with_part(tally: Tally, part: usize, value: Option<bool>) -> Tally
    requires { tally.known_yes + tally.still_open + 1 < 2 ^ 64 }
    ensures { result ≡ tally_with tally part value }
{
    match value {
        Some(false) => tally,
        Some(true) => Tally {
            known_yes: tally.known_yes + 1,
            still_open: tally.still_open,
            first_open: tally.first_open,
        },
        None => Tally {
            known_yes: tally.known_yes,
            still_open: tally.still_open + 1,
            first_open: first_or(tally.first_open, part),
        },
    }
}

fn first_or(first: Option<usize>, part: usize) -> Option<usize>
    ensures { result ≡ earlier_or first part }
{
    match first {
        Some(first) => Some(first),
        None => Some(part),
    }
}
