ghost use Rattle.std.specs.Prelude.{◌≡◌, ◌↔◌, IsTrue, IfOk, IfSome, IfNone, length};
ghost use Rattle.plank_marks.specs.Marks.{mark_words};
ghost use Rattle.plank_fact.specs.Obligations.{Fails};
ghost use Rattle.plank_judge.specs.Verdicts.{outline_of, IsVerdict, IsFirstOf, NoneOf};

use crate::demands::Demands;
use crate::listing::obligations;
use plank_base::{Obligation, OutOfMemory};
use plank_bits::MarkWords;
use std::alloc::Global;

/// What is said of a program.
#[derive(Clone, Copy, Debug, PartialEq, Eq)]
pub enum Verdict {
    /// Every obligation holds.
    Accepted,
    /// This obligation fails, and each before it holds.
    Rejected(Obligation),
}

/// Whether an obligation holds at the marks.
pub fn holds<D: Demands>(
    alloc: Global,
    demands: &D,
    obligation: &Obligation,
    marks: &MarkWords,
) -> Result<bool, OutOfMemory>
    requires { length marks.now ≡ mark_words (D.program demands.now).methods }
    ensures { IfOk result (λ holds. IsTrue holds ↔
        (Fails (outline_of (D.program demands.now) marks.now) obligation.now → ⊥)) }
{
    let fails = demands.fails(alloc, obligation, marks)?;
    Ok(!fails)
}

// The first of some obligations that fails.
fn first_failing<D: Demands>(
    alloc: Global,
    demands: &D,
    list: &[Obligation],
    marks: &MarkWords,
) -> Result<Option<Obligation>, OutOfMemory>
    requires { length marks.now ≡ mark_words (D.program demands.now).methods }
    ensures found { IfOk result (λ first. IfSome first (λ o.
        IsFirstOf (outline_of (D.program demands.now) marks.now) list.now o)) }
    ensures none { IfOk result (λ first. IfNone first
        (NoneOf (outline_of (D.program demands.now) marks.now) list.now (length list.now))) }
{
    for i in 0..list.len() {
        let obligation = list[i];
        let fails = demands.fails(alloc, &obligation, marks)?;
        if fails {
            return Ok(Some(obligation));
        }
    }
    Ok(None)
}

/// Judges a program at marks: every obligation holds, or this is the first that fails.
pub fn judge<D: Demands>(
    alloc: Global,
    demands: &D,
    marks: &MarkWords,
) -> Result<Verdict, OutOfMemory>
    requires { length marks.now ≡ mark_words (D.program demands.now).methods }
    ensures { IfOk result (λ verdict. IsVerdict (outline_of (D.program demands.now) marks.now) verdict) }
{
    let list = obligations(alloc, demands.program())?;
    let first = first_failing(alloc, demands, list.as_slice(), marks)?;
    match first {
        Some(obligation) => Ok(Verdict::Rejected(obligation)),
        None => Ok(Verdict::Accepted),
    }
}
