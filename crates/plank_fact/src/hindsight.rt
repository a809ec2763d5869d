ghost use Rattle.std.specs.Prelude.{◌≡◌, ◌↔◌, ◌*◌, ◌<◌, length, sum_by, slice_get, Some, Contains, IsTrue, IfOk};
ghost use Rattle.plank_base.specs.declared.limits.TheConstants.{MARK_WORDS_PER_LOCATION};
ghost use Rattle.plank_bits.specs.Words.{has};
ghost use Rattle.plank_prog.specs.Methods.{location_count};
ghost use Rattle.plank_prog.specs.declared.methods.Method.{Method};
ghost use Rattle.plank_pic.specs.declared.literals.Literal.{Literal};
ghost use Rattle.plank_fact.specs.Forced.{outline};
ghost use Rattle.plank_fact.specs.Hindsight.{IsHindsight};

use plank_base::OutOfMemory;
use plank_bits::MarkWords;
use plank_pic::Literal;
use plank_prog::Program;
use std::alloc::Global;

/// A use of the rule of hindsight, for the calls of a method: from what was true at some moment of the
/// call, and what is true now, to what was true at some moment.
#[derive(Clone, Copy, Debug)]
pub struct Hind<'a> {
    /// The number of the method.
    pub method: u32,
    /// What was true at some moment.
    pub past: Literal,
    /// What is true now, of a field of the node that `past` is said of, where the rule takes it.
    pub present: Option<Literal>,
    /// What is true, and never changes.
    pub lasting: &'a [Literal],
    /// What then was true at some moment.
    pub conclusion: Literal,
}

/// Whoever decides the rule of hindsight at any marks.
pub trait Hindsight {
    /// Whether the rule gives the conclusion, where these marks are set.
    fn hindsight(
        &self,
        alloc: Global,
        program: &Program,
        hind: &Hind,
        marks: &MarkWords,
    ) -> Result<bool, OutOfMemory>
        requires method { hind.now.method < length program.now.methods }
        requires marks { length marks.now ≡ MARK_WORDS_PER_LOCATION * sum_by location_count program.now.methods }
        ensures { IfOk result (λ holds. (method : Method) →
            slice_get program.now.methods hind.now.method ≡ Some method →
            (IsTrue holds ↔ IsHindsight (outline program.now.header program.now.methods (has marks.now)) method
            (λ L. Contains hind.now.lasting.now L) hind.now.past hind.now.present hind.now.conclusion)) };
}
