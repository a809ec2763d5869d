use crate::clauses::{Clauses, Literal};
use crate::values::Reads;
use plank_base::OutOfMemory;
use std::alloc::Global;

/// How much work a search did.
#[derive(Clone, Copy, PartialEq, Eq, Debug)]
pub struct Statistics {
    /// Parts that were split on.
    pub decisions: u64,
    /// Branches that were given up.
    pub conflicts: u64,
}

impl Statistics {
    /// No work yet.
    pub fn new() -> Statistics {
        Statistics {
            decisions: 0,
            conflicts: 0,
        }
    }
}

/// What guides the search: which constraints wait for which parts, in which clauses a literal
/// stands, how much each part was blamed. Nothing here has a contract: a wrong hint costs time alone.
#[derive(Debug, Drop)]
pub(crate) struct Hints {
    pub(crate) waiting: Waiting,
    pub(crate) occurrences: Occurrences,
    pub(crate) reads: Reads,
    pub(crate) statistics: Statistics,
    // The parts that the last pass over the constraints needed, to be split on before the next pass.
    postponed: Vec<usize>,
    // How often each part stood in something that failed.
    blame: Vec<u64>,
    // The parts that are tried yes first.
    goals: Vec<bool>,
}

impl Hints {
    /// Hints for a number of parts and of watched constraints, with no goals.
    pub(crate) fn new(
        alloc: Global,
        clauses: &Clauses,
        parts: usize,
        watched: usize,
    ) -> Result<Hints, OutOfMemory> {
        Ok(Hints {
            waiting: Waiting::new(alloc, parts, watched)?,
            occurrences: Occurrences::new(alloc, clauses, parts)?,
            reads: Reads::new(alloc, parts)?,
            statistics: Statistics::new(),
            postponed: Vec::new(alloc),
            blame: vec![in alloc; 0; parts]?,
            goals: vec![in alloc; false; parts]?,
        })
    }

    /// Keeps the waiting lists as they are, for the questions to come.
    pub(crate) fn keep(&mut self) {
        self.waiting.keep();
    }

    /// Before a question: its goals are tried yes first.
    pub(crate) fn begin(&mut self, goals: &[usize]) {
        self.postponed.clear();
        self.mark_goals(goals, true);
    }

    /// After a question: the waiting lists and the goals are as they were kept. Blame stays.
    pub(crate) fn end(&mut self, goals: &[usize]) {
        self.waiting.undo(0);
        self.mark_goals(goals, false);
    }

    fn mark_goals(&mut self, goals: &[usize], is_goal: bool) {
        for goal in goals {
            if *goal < self.goals.len() {
                self.goals[*goal] = is_goal;
            }
        }
    }

    /// Whether a part is a goal of the question.
    pub(crate) fn is_goal(&self, part: usize) -> bool {
        part < self.goals.len() && self.goals[part]
    }

    /// Notes a part that the pass over the constraints needs.
    pub(crate) fn postpone(&mut self, part: usize) {
        let _ = self.postponed.push(part);
    }

    /// A part that was postponed.
    pub(crate) fn take_postponed(&mut self) -> Option<usize> {
        self.postponed.pop()
    }

    /// How many parts are postponed.
    pub(crate) fn postponed_count(&self) -> usize {
        self.postponed.len()
    }

    /// How often a part was blamed.
    pub(crate) fn blame_of(&self, part: usize) -> u64 {
        if part < self.blame.len() {
            self.blame[part]
        } else {
            0
        }
    }

    /// Blames the parts read since the last clearing.
    pub(crate) fn blame_reads(&mut self) {
        for part in self.reads.parts() {
            bump(&mut self.blame, *part);
        }
    }

    /// Blames the parts of a clause.
    pub(crate) fn blame_clause(&mut self, clause: &[Literal]) {
        for literal in clause {
            bump(&mut self.blame, literal.part);
        }
    }

    pub(crate) fn count_decision(&mut self) {
        self.statistics.decisions = self.statistics.decisions.saturating_add(1);
    }

    pub(crate) fn count_conflict(&mut self) {
        self.statistics.conflicts = self.statistics.conflicts.saturating_add(1);
    }
}

fn bump(counts: &mut Vec<u64>, at: usize) {
    if at < counts.len() {
        counts[at] = counts[at].saturating_add(1);
    }
}

/// Lists of the constraints that wait for each part, linked through places: constraint c has the
/// places 3c, 3c + 1 and 3c + 2, for the part that it needs and the parts that it needs next.
#[derive(Debug, Drop)]
pub(crate) struct Waiting {
    constraints: usize,
    // The part that each place waits for, and its neighbors in that part's list.
    part: Vec<Option<usize>>,
    next: Vec<Option<usize>>,
    previous: Vec<Option<usize>>,
    // The first place of each part's list.
    first: Vec<Option<usize>>,
    // The constraints that need a part.
    needing: Numbers,
    // Places and what they waited for, oldest first, to be taken back after a failed branch.
    changes: Vec<(usize, Option<usize>)>,
}

impl Waiting {
    fn new(alloc: Global, parts: usize, constraints: usize) -> Result<Waiting, OutOfMemory> {
        let places = constraints.saturating_mul(3);
        Ok(Waiting {
            constraints,
            part: vec![in alloc; None; places]?,
            next: vec![in alloc; None; places]?,
            previous: vec![in alloc; None; places]?,
            first: vec![in alloc; None; parts]?,
            needing: Numbers::new(alloc, constraints)?,
            changes: Vec::new(alloc),
        })
    }

    /// How many constraints can wait.
    pub(crate) fn len(&self) -> usize {
        self.constraints
    }

    /// The part that a constraint needs.
    pub(crate) fn needed(&self, constraint: usize) -> Option<usize> {
        entry(&self.part, constraint.saturating_mul(3))
    }

    /// The first constraint from this number on that needs a part.
    pub(crate) fn next_needing(&self, from: usize) -> Option<usize> {
        self.needing.next_from(from)
    }

    /// The first place that waits for a part.
    pub(crate) fn first_for(&self, part: usize) -> Option<usize> {
        entry(&self.first, part)
    }

    /// The place after this one that waits for the same part.
    pub(crate) fn after(&self, place: usize) -> Option<usize> {
        entry(&self.next, place)
    }

    /// Lets a constraint wait for these parts and for no others.
    pub(crate) fn wait(&mut self, constraint: usize, parts: [Option<usize>; 3]) {
        let place = constraint.saturating_mul(3);
        let [needed, under_no, under_yes] = parts;
        self.change(place, needed);
        self.change(place.saturating_add(1), under_no);
        let last = if under_yes == under_no {
            None
        } else {
            under_yes
        };
        self.change(place.saturating_add(2), last);
    }

    /// Forgets the changes: what waits now waits for good.
    pub(crate) fn keep(&mut self) {
        self.changes.clear();
    }

    /// How many changes there were.
    pub(crate) fn mark(&self) -> usize {
        self.changes.len()
    }

    /// Takes back the changes since a mark.
    pub(crate) fn undo(&mut self, mark: usize) {
        for _ in mark..self.changes.len() {
            if let Some((place, part)) = self.changes.pop() {
                self.unlink(place);
                self.link(place, part);
            }
        }
    }

    fn change(&mut self, place: usize, part: Option<usize>) {
        let old = entry(&self.part, place);
        if old != part {
            let _ = self.changes.push((place, old));
            self.unlink(place);
            self.link(place, part);
        }
    }

    // Notes whether a constraint needs a part, at the first of its places.
    fn note_need(&mut self, place: usize, is_needing: bool) {
        if place % 3 == 0 {
            self.needing.set(place / 3, is_needing);
        }
    }

    fn link(&mut self, place: usize, part: Option<usize>) {
        set_entry(&mut self.part, place, part);
        self.note_need(place, part.is_some());
        let Some(part) = part else { return };
        let old = entry(&self.first, part);
        set_entry(&mut self.next, place, old);
        set_entry(&mut self.previous, place, None);
        if let Some(old) = old {
            set_entry(&mut self.previous, old, Some(place));
        }
        set_entry(&mut self.first, part, Some(place));
    }

    fn unlink(&mut self, place: usize) {
        let Some(part) = entry(&self.part, place) else {
            return;
        };
        let next = entry(&self.next, place);
        let previous = entry(&self.previous, place);
        match previous {
            Some(previous) => set_entry(&mut self.next, previous, next),
            None => set_entry(&mut self.first, part, next),
        }
        if let Some(next) = next {
            set_entry(&mut self.previous, next, previous);
        }
        set_entry(&mut self.part, place, None);
    }
}

/// A set of numbers, in order.
#[derive(Debug, Drop)]
struct Numbers {
    words: Vec<u64>,
}

impl Numbers {
    // The empty set, with room for the numbers below a bound.
    fn new(alloc: Global, bound: usize) -> Result<Numbers, OutOfMemory> {
        Ok(Numbers {
            words: vec![in alloc; 0; bound / 64 + 1]?,
        })
    }

    fn set(&mut self, number: usize, is_member: bool) {
        let word = number / 64;
        if word < self.words.len() {
            let bit = 1 << (number % 64) as u32;
            if is_member {
                self.words[word] |= bit;
            } else {
                self.words[word] &= !bit;
            }
        }
    }

    // The least number in the set that is at least this one.
    fn next_from(&self, number: usize) -> Option<usize> {
        let first = number / 64;
        for at in first..self.words.len() {
            let mut word = self.words[at];
            if at == first {
                word &= u64::MAX << (number % 64) as u32;
            }
            if word != 0 {
                return Some(
                    at.saturating_mul(64)
                        .saturating_add(word.trailing_zeros() as usize),
                );
            }
        }
        None
    }
}

fn entry(entries: &Vec<Option<usize>>, at: usize) -> Option<usize> {
    if at < entries.len() {
        entries[at]
    } else {
        None
    }
}

fn set_entry(entries: &mut Vec<Option<usize>>, at: usize, value: Option<usize>) {
    if at < entries.len() {
        entries[at] = value;
    }
}

/// The clauses in which each literal stands, as linked lists.
#[derive(Debug, Drop)]
pub(crate) struct Occurrences {
    first_no: Vec<Option<usize>>,
    first_yes: Vec<Option<usize>>,
    // A clause, and the next occurrence of the same literal.
    items: Vec<(usize, Option<usize>)>,
}

impl Occurrences {
    fn new(alloc: Global, clauses: &Clauses, parts: usize) -> Result<Occurrences, OutOfMemory> {
        let mut occurrences = Occurrences {
            first_no: vec![in alloc; None; parts]?,
            first_yes: vec![in alloc; None; parts]?,
            items: Vec::new(alloc),
        };
        for clause in 0..clauses.len() {
            for literal in clauses.get(clause) {
                occurrences.add(*literal, clause)?;
            }
        }
        Ok(occurrences)
    }

    fn add(&mut self, literal: Literal, clause: usize) -> Result<(), OutOfMemory> {
        let next = self.first_of(literal);
        let at = self.items.len();
        self.items.push((clause, next))?;
        if literal.value {
            set_entry(&mut self.first_yes, literal.part, Some(at));
        } else {
            set_entry(&mut self.first_no, literal.part, Some(at));
        }
        Ok(())
    }

    pub(crate) fn len(&self) -> usize {
        self.items.len()
    }

    /// The first occurrence of a literal.
    pub(crate) fn first_of(&self, literal: Literal) -> Option<usize> {
        if literal.value {
            entry(&self.first_yes, literal.part)
        } else {
            entry(&self.first_no, literal.part)
        }
    }

    /// The clause of an occurrence, and the next occurrence.
    pub(crate) fn item(&self, at: Option<usize>) -> Option<(usize, Option<usize>)> {
        self.items.get(at?).copied()
    }
}
