ghost use Rattle.std.specs.Prelude.{◌≡◌, ◌+◌, Bool, length, None, IfOk, slice_set};
ghost use Rattle.plank_search.specs.Assignments.{value_at, IsOpen, with_value, filled};

use plank_base::OutOfMemory;
use sqlite_items::Items;
use std::alloc::Global;
use std::marker::Model;

/// A partial assignment of two-valued parts, numbered from 0: each part is open, no or yes.
///
/// Contracts see the list of the values. A part past the last reads as no.
#[derive(Debug, Drop)]
pub struct Values {
    cells: Vec<Option<bool>>,
    // The parts put since the last restore, and how many of them propagation has seen. Hints alone.
    trail: Vec<usize>,
    seen_by_clauses: usize,
    seen_by_constraints: usize,
}

impl Model for Values {
    ghost use Rattle.std.specs.Prelude.{List, Option, Bool};

    ghost Value = { List (Option Bool) };

    ghost view = { λ values. values.cells.items };
}

impl Values {
    /// The values given. Each part that has a value counts as newly put.
    pub fn new(alloc: Global, given: &[Option<bool>]) -> Result<Values, OutOfMemory>
        ensures { IfOk result (λ values. values ≡ given.now) }
    {
        let cells = Vec::from_slice(alloc, given)?;
        let trail = decided_parts(alloc, given)?;
        Ok(Values {
            cells,
            trail,
            seen_by_clauses: 0,
            seen_by_constraints: 0,
        })
    }

    /// How many parts there are.
    #[inline(always)]
    pub fn len(&self) -> usize
        ensures { result ≡ length self.now }
    {
        self.cells.len()
    }

    /// The value of a part, None where it is open, without a note of the reading.
    #[inline(always)]
    pub fn get(&self, part: usize) -> Option<bool>
        ensures { result ≡ value_at self.now part }
    {
        if part < self.cells.len() {
            self.cells[part]
        } else {
            Some(false)
        }
    }

    /// Gives an open part a value.
    #[inline(always)]
    pub fn put(&mut self, part: usize, value: bool)
        requires { IsOpen self.old part }
        ensures written { self.new ≡ with_value self.old part value }
    {
        self.suppose(part, value);
        let _ = self.trail.push(part);
    }

    /// Gives an open part a value for a probe: nothing is propagated from it.
    #[inline(always)]
    pub(crate) fn suppose(&mut self, part: usize, value: bool)
        requires { IsOpen self.old part }
        ensures written { self.new ≡ with_value self.old part value }
    {
        if part < self.cells.len() {
            self.cells[part] = Some(value);
        }
    }

    /// Takes a value back.
    #[inline(always)]
    pub(crate) fn reopen(&mut self, part: usize)
        ensures { self.new ≡ slice_set self.old part None }
    {
        if part < self.cells.len() {
            self.cells[part] = None;
        }
    }

    /// The next newly put part that clauses and closures have not seen.
    pub(crate) fn next_for_clauses(&mut self) -> Option<usize>
        ensures { self.new ≡ self.old }
    {
        let part = self.trail.get(self.seen_by_clauses).copied()?;
        self.seen_by_clauses = self.seen_by_clauses.saturating_add(1);
        Some(part)
    }

    /// The next newly put part that the waiting constraints have not seen.
    pub(crate) fn next_for_constraints(&mut self) -> Option<usize>
        ensures { self.new ≡ self.old }
    {
        let part = self.trail.get(self.seen_by_constraints).copied()?;
        self.seen_by_constraints = self.seen_by_constraints.saturating_add(1);
        Some(part)
    }

    /// A copy of the values, without the trail.
    pub(crate) fn save(&self, alloc: Global) -> Result<Vec<Option<bool>>, OutOfMemory>
        ensures { IfOk result (λ saved. saved.items ≡ self.now) }
    {
        Ok(Vec::from_slice(alloc, self.cells.as_slice())?)
    }

    /// The values of a copy, all of them propagated.
    pub(crate) fn restore(&mut self, saved: Vec<Option<bool>>)
        ensures { self.new ≡ saved.items }
    {
        self.cells = saved;
        self.trail.clear();
        self.seen_by_clauses = 0;
        self.seen_by_constraints = 0;
    }

    /// The full assignment in which each open part is no.
    pub(crate) fn fill(&self, alloc: Global) -> Result<Items<bool>, OutOfMemory>
        ensures { IfOk result (λ full. full ≡ filled self.now) }
    {
        let mut full = Vec::with_capacity(alloc, self.cells.len())?;
        for value in self.cells.as_slice() {
            full.push(value.unwrap_or(false))?;
        }
        Ok(Items::from_vec(full))
    }
}

// The parts that have a value, in order.
fn decided_parts(alloc: Global, given: &[Option<bool>]) -> Result<Vec<usize>, OutOfMemory> {
    let mut parts = Vec::with_capacity(alloc, given.len())?;
    for (part, value) in given.iter().enumerate() {
        if value.is_some() {
            parts.push(part)?;
        }
    }
    Ok(parts)
}

/// The parts that a look has read, for the choice of the part to split on. Hints alone: no contract
/// speaks of them, and those past its size are not noted.
#[derive(Debug, Drop)]
pub struct Reads {
    parts: Vec<usize>,
    count: usize,
}

impl Reads {
    /// Nothing read yet, with room for a number of parts.
    pub fn new(alloc: Global, size: usize) -> Result<Reads, OutOfMemory> {
        Ok(Reads {
            parts: vec![in alloc; 0; size]?,
            count: 0,
        })
    }

    /// The value of a part, None where it is open; notes the part.
    #[inline(always)]
    pub fn read(&mut self, values: &Values, part: usize) -> Option<bool>
        ensures { result ≡ value_at values.now part }
    {
        if self.count < self.parts.len() {
            self.parts[self.count] = part;
            self.count += 1;
        }
        values.get(part)
    }

    /// Forgets what was read. A closure that answers a conflict may call it before it reads the
    /// parts that conflict.
    #[inline(always)]
    pub fn clear(&mut self) {
        self.count = 0;
    }

    pub(crate) fn parts(&self) -> &[usize] {
        let parts = self.parts.as_slice();
        if self.count <= parts.len() {
            &parts[..self.count]
        } else {
            parts
        }
    }
}
