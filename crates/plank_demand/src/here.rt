// A location, and what is claimed there.
ghost use Rattle.std.specs.Prelude.{◌≡◌, ◌<◌, length, slice_get, IfOk};
ghost use Rattle.std.specs.Option.{option_map_or};
ghost use Rattle.plank_prog.specs.Methods.{location_count};
ghost use Rattle.plank_marks.specs.Marks.{mark_words};

use plank_base::OutOfMemory;
use plank_bits::MarkWords;
use plank_claim::{Known, add_claims};
use plank_marks::At;
use plank_prog::{MethodKind, Program};
use plank_query::{Claim, Oracle, Speaker};
use std::alloc::Global;

/// A location of a program at marks, and whoever is asked about it.
#[derive(Drop)]
pub(crate) struct Here<'a, 'm, Q> {
    pub oracle: &'a Q,
    pub program: &'a Program,
    pub at: At,
    pub marks: &'m MarkWords,
    pub ghost method: { at.method < length program.now.methods },
    pub ghost location: { at.location < option_map_or location_count (slice_get program.now.methods at.method) 0 },
    pub ghost fit: { length marks.now ≡ mark_words program.now.methods },
}

impl<'a, 'm, Q: Oracle> Here<'a, 'm, Q> {
    ghost use Rattle.plank_demand.specs.Places.{AtPoint};
    ghost use Rattle.plank_demand.specs.Asked.{SayOf};

    /// The kind of the method.
    pub(crate) fn kind(&self) -> MethodKind
        ensures { AtPoint self.now.program.now self.now.marks.now self.now.at (λ O x. x.method.kind ≡ result) }
    {
        self.program.methods.as_slice()[self.at.method as usize].kind
    }

    /// That what is claimed at the location is true of the own call.
    pub(crate) fn claims(&self, alloc: Global) -> Result<Vec<Claim>, OutOfMemory>
        ensures { IfOk result (λ claims.
            AtPoint self.now.program.now self.now.marks.now self.now.at (λ O x. SayOf O x claims.items)) }
    {
        let mut claims = Vec::new(alloc);
        add_claims(
            &mut claims,
            self.program,
            self.at,
            Speaker::Own,
            &Known::All,
            self.marks,
        )?;
        Ok(claims)
    }
}
