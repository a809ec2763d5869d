ghost use Rattle.std.specs.Prelude.{◌≡◌, ℕ, ◌+◌, ◌*◌, ◌^◌, ◌<◌, ◌≤◌, length, slice_get, IfOk};
ghost use Rattle.std.specs.Option.{option_map_or};
ghost use Rattle.plank_base.specs.declared.limits.TheConstants.{MARK_WORDS_PER_LOCATION};
ghost use Rattle.plank_bits.specs.Words.{has};
ghost use Rattle.plank_prog.specs.Methods.{location_count};
ghost use Rattle.plank_pic.specs.Below.{some_below};
ghost use Rattle.plank_fact.specs.Outlines.{location_number};
ghost use Rattle.plank_marks.specs.Marks.{mark_words};
ghost use Rattle.plank_unit.specs.Units.{IsRefutedBySteps, IsHadBySteps, IsBrokenFact, IsKept};
ghost use Rattle.plank_method.specs.Marks.{is_put};
ghost use Rattle.plank_method.specs.Runs.{IsSiftedAt, IsHadAtEntry, IsHadAfter, IsHadAfterBoth, IsHadFrom, AreFound};

use crate::deciding::Deciding;
use crate::leading::leads;
use crate::numbers::{facts_of, put, unmarked};
use plank_base::OutOfMemory;
use plank_bits::MarkWords;
use plank_fact::FactSet;
use plank_marks::{At, first_mark, location_count};
use plank_pic::Exit;
use std::alloc::Global;

// The locations of a method, asked at some marks.
#[derive(Drop)]
struct Locations<'a, D: Deciding> {
    deciding: &'a D,
    marks: &'a MarkWords,
    method: u32,
}

impl<'a, D: Deciding> Locations<'a, D> {
    // The facts that are left where a call may begin at the location.
    fn at_entry(
        &self,
        alloc: Global,
        location: u32,
        claimed: &FactSet,
    ) -> Result<FactSet, OutOfMemory>
        requires { length self.now.marks.now ≡ mark_words (D.program self.now.deciding.now).methods }
        ensures { IfOk result (λ left. IsSiftedAt (D.program self.now.deciding.now) self.now.marks.now
            self.now.method location claimed.now left (λ O x. IsHadAtEntry O x) (λ O x. IsRefutedBySteps O x)) }
    {
        if location != 0 {
            return Ok(*claimed);
        }
        let known = self
            .deciding
            .entry(alloc, self.method, claimed, self.marks)?;
        Ok(claimed.meet(&known))
    }

    // The facts that are left after the steps of another location, by one exit.
    fn after_exit(
        &self,
        alloc: Global,
        from: u32,
        exit: Exit,
        location: u32,
        claimed: &FactSet,
    ) -> Result<FactSet, OutOfMemory>
        requires { length self.now.marks.now ≡ mark_words (D.program self.now.deciding.now).methods }
        ensures { IfOk result (λ left. IsSiftedAt (D.program self.now.deciding.now) self.now.marks.now
            self.now.method location claimed.now left (λ O x. IsHadAfter from exit O x) (λ O x. IsRefutedBySteps O x)) }
    {
        if !leads(self.deciding.program(), self.method, from, exit, location) {
            return Ok(*claimed);
        }
        let at = At {
            method: self.method,
            location: from,
        };
        let known = self.deciding.after(alloc, at, exit, claimed, self.marks)?;
        Ok(claimed.meet(&known))
    }

    // By both exits.
    fn after_both(
        &self,
        alloc: Global,
        from: u32,
        location: u32,
        claimed: &FactSet,
    ) -> Result<FactSet, OutOfMemory>
        requires { length self.now.marks.now ≡ mark_words (D.program self.now.deciding.now).methods }
        ensures { IfOk result (λ left. IsSiftedAt (D.program self.now.deciding.now) self.now.marks.now
            self.now.method location claimed.now left (λ O x. IsHadAfterBoth from O x) (λ O x. IsRefutedBySteps O x)) }
    {
        let after_yes = self.after_exit(alloc, from, Exit::Yes, location, claimed)?;
        let after_no = self.after_exit(alloc, from, Exit::No, location, &after_yes)?;
        Ok(after_no)
    }

    // The facts that are left after the steps of each location before this one.
    fn after_steps(
        &self,
        alloc: Global,
        count: u32,
        location: u32,
        claimed: &FactSet,
    ) -> Result<FactSet, OutOfMemory>
        requires { length self.now.marks.now ≡ mark_words (D.program self.now.deciding.now).methods }
        ensures { IfOk result (λ left. IsSiftedAt (D.program self.now.deciding.now) self.now.marks.now
            self.now.method location claimed.now left (λ O x. IsHadFrom count O x) (λ O x. IsRefutedBySteps O x)) }
    {
        let mut left = *claimed;
        for from in 0..count {
            left = self.after_both(alloc, from, location, &left)?;
        }
        Ok(left)
    }

    // The facts that are left where steps of other calls break some.
    fn unbroken(
        &self,
        alloc: Global,
        location: u32,
        claimed: &FactSet,
    ) -> Result<FactSet, OutOfMemory>
        requires { length self.now.marks.now ≡ mark_words (D.program self.now.deciding.now).methods }
        ensures { IfOk result (λ left. IsSiftedAt (D.program self.now.deciding.now) self.now.marks.now
            self.now.method location claimed.now left (λ O x. IsKept O x) (λ O x. IsBrokenFact O x)) }
    {
        let at = At {
            method: self.method,
            location,
        };
        let broken = self.deciding.broken(alloc, at, claimed, self.marks)?;
        Ok(claimed.minus(&broken))
    }

    // The facts that are left where a call may begin at the location, and after the steps that lead there.
    fn had(&self, alloc: Global, location: u32, claimed: &FactSet) -> Result<FactSet, OutOfMemory>
        requires { length self.now.marks.now ≡ mark_words (D.program self.now.deciding.now).methods }
        ensures { IfOk result (λ left. IsSiftedAt (D.program self.now.deciding.now) self.now.marks.now
            self.now.method location claimed.now left (λ O x. IsHadBySteps O x) (λ O x. IsRefutedBySteps O x)) }
    {
        let count = location_count(self.deciding.program(), self.method);
        let begun = self.at_entry(alloc, location, claimed)?;
        let stepped = self.after_steps(alloc, count, location, &begun)?;
        Ok(stepped)
    }
}

// The marks of some facts, from the first on.
fn marks_of(
    alloc: Global,
    words: u32,
    first: u32,
    facts: &FactSet,
) -> Result<MarkWords, OutOfMemory>
    requires few { first < 2 ^ 24 }
    requires room { first + 64 * MARK_WORDS_PER_LOCATION ≤ 64 * words }
    ensures length { IfOk result (λ found. length found ≡ words) }
    ensures marks { IfOk result (λ found. (k : ℕ) → has found k ≡
        some_below (is_put (has facts.now) first k) (64 * MARK_WORDS_PER_LOCATION)) }
{
    let mut found = MarkWords::new(alloc, words)?;
    put(&mut found, first, facts);
    Ok(found)
}

/// The marks of a location that are set already, and those of the facts that a call does not have where it
/// begins there, or after a step that leads there.
pub(crate) fn forced_by_steps<D: Deciding>(
    alloc: Global,
    deciding: &D,
    at: At,
    marks: &MarkWords,
) -> Result<MarkWords, OutOfMemory>
    requires method { at.method < length (D.program deciding.now).methods }
    requires location { at.location < option_map_or location_count
        (slice_get (D.program deciding.now).methods at.method) 0 }
    requires marks { length marks.now ≡ mark_words (D.program deciding.now).methods }
    ensures { IfOk result (λ found. AreFound (D.program deciding.now) marks.now
        (location_number (D.program deciding.now).methods at.method at.location) found
        (λ O x. IsHadBySteps O x) (λ O x. IsRefutedBySteps O x)) }
{
    let first = first_mark(deciding.program(), at);
    let facts = facts_of(deciding.program(), at.method);
    let claimed = unmarked(&facts, first, marks);
    let locations = Locations {
        deciding,
        marks,
        method: at.method,
    };
    let left = locations.had(alloc, at.location, &claimed)?;
    let forced = facts.minus(&left);
    let found = marks_of(alloc, marks.len(), first, &forced)?;
    Ok(found)
}

/// The marks of a location that are set already, and those of the facts that a step of another call may break.
pub(crate) fn forced_by_others<D: Deciding>(
    alloc: Global,
    deciding: &D,
    at: At,
    marks: &MarkWords,
) -> Result<MarkWords, OutOfMemory>
    requires method { at.method < length (D.program deciding.now).methods }
    requires location { at.location < option_map_or location_count
        (slice_get (D.program deciding.now).methods at.method) 0 }
    requires marks { length marks.now ≡ mark_words (D.program deciding.now).methods }
    ensures { IfOk result (λ found. AreFound (D.program deciding.now) marks.now
        (location_number (D.program deciding.now).methods at.method at.location) found
        (λ O x. IsKept O x) (λ O x. IsBrokenFact O x)) }
{
    let first = first_mark(deciding.program(), at);
    let facts = facts_of(deciding.program(), at.method);
    let claimed = unmarked(&facts, first, marks);
    let locations = Locations {
        deciding,
        marks,
        method: at.method,
    };
    let left = locations.unbroken(alloc, at.location, &claimed)?;
    let forced = facts.minus(&left);
    let found = marks_of(alloc, marks.len(), first, &forced)?;
    Ok(found)
}
