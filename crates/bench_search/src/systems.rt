use plank_base::OutOfMemory;
use plank_search::{Clauses, Count, Counts, Literal};
use sqlite_items::Items;
use std::alloc::Global;

/// A system of counts and clauses over a number of parts.
#[derive(Drop)]
pub struct System {
    pub counts: Counts,
    pub clauses: Clauses,
    pub parts: usize,
}

/// Each pigeon is in a hole, and no hole has two.
pub fn pigeonholes(alloc: Global, pigeons: usize, holes: usize) -> Result<System, OutOfMemory> {
    let mut counts = Counts::new(alloc);
    for pigeon in 0..pigeons {
        counts.add(Count {
            parts: following(alloc, pigeon.saturating_mul(holes), holes)?,
            least: 1,
            most: holes,
        })?;
    }
    Ok(System {
        counts,
        clauses: exclusions(alloc, pigeons, holes)?,
        parts: pigeons.saturating_mul(holes),
    })
}

fn following(alloc: Global, first: usize, count: usize) -> Result<Items<usize>, OutOfMemory> {
    let mut parts = Vec::with_capacity(alloc, count)?;
    for step in 0..count {
        parts.push(first.saturating_add(step))?;
    }
    Ok(Items::from_vec(parts))
}

fn exclusions(alloc: Global, pigeons: usize, holes: usize) -> Result<Clauses, OutOfMemory> {
    let mut clauses = Clauses::new(alloc);
    for first in 0..pigeons {
        for second in 0..first {
            for hole in 0..holes {
                let not_both = [absent(first, holes, hole), absent(second, holes, hole)];
                clauses.add(alloc, &not_both)?;
            }
        }
    }
    Ok(clauses)
}

fn absent(pigeon: usize, holes: usize, hole: usize) -> Literal {
    Literal {
        part: pigeon.saturating_mul(holes).saturating_add(hole),
        value: false,
    }
}

/// Constraints on three to six parts each, drawn by a seed: one or two of the parts are yes.
pub fn random_system(
    alloc: Global,
    seed: u64,
    parts: usize,
    constraints: usize,
) -> Result<System, OutOfMemory> {
    let mut draws = Draws { state: seed };
    let mut counts = Counts::new(alloc);
    for _ in 0..constraints {
        let size = draws.below(4).saturating_add(3);
        counts.add(Count {
            parts: draws.parts(alloc, size, parts)?,
            least: 1,
            most: 2,
        })?;
    }
    Ok(System {
        counts,
        clauses: Clauses::new(alloc),
        parts,
    })
}

// Numbers drawn by a linear congruence.
#[derive(Drop)]
struct Draws {
    state: u64,
}

impl Draws {
    // A number below a bound; 0 where the bound is 0.
    fn below(&mut self, bound: usize) -> usize {
        self.state = self
            .state
            .wrapping_mul(6364136223846793005)
            .wrapping_add(1442695040888963407);
        let drawn = (self.state >> 33) as usize;
        if bound == 0 { 0 } else { drawn % bound }
    }

    fn parts(
        &mut self,
        alloc: Global,
        size: usize,
        bound: usize,
    ) -> Result<Items<usize>, OutOfMemory> {
        let mut parts = Vec::with_capacity(alloc, size)?;
        for _ in 0..size {
            parts.push(self.below(bound))?;
        }
        Ok(Items::from_vec(parts))
    }
}
