ghost use Rattle.std.specs.Prelude.{◌≡◌, ◌+◌, ◌*◌, ◌^◌, ◌<◌, ◌≤◌, length, slice_get};
ghost use Rattle.std.specs.Option.{option_map_or};
ghost use Rattle.plank_base.specs.declared.limits.TheConstants.{LOCATIONS_LIMIT, MARK_WORDS_PER_LOCATION};
ghost use Rattle.plank_prog.specs.Methods.{location_count};
ghost use Rattle.plank_fact.specs.Outlines.{locations_before, mark_number};
ghost use Rattle.plank_marks.specs.Marks.{mark_words};

use plank_base::MARK_WORDS_PER_LOCATION;
use plank_prog::Program;

/// A location of a method, by their numbers.
#[derive(Clone, Copy, PartialEq, Eq, Debug)]
pub struct At {
    pub method: u32,
    pub location: u32,
}

/// How many locations a method has; none where there is no such method.
pub fn location_count(program: &Program, method: u32) -> u32
    ensures count { result ≡ option_map_or location_count (slice_get program.now.methods method) 0 }
    ensures few { result ≤ LOCATIONS_LIMIT }
{
    match program.methods.get(method as usize) {
        Some(method) => method.locations.len() as u32,
        None => 0,
    }
}

/// How many locations the methods before this one have.
pub fn locations_before(program: &Program, method: u32) -> u32
    requires { method ≤ length program.now.methods }
    ensures count { result ≡ locations_before program.now.methods method }
    ensures few { result ≤ LOCATIONS_LIMIT }
{
    let mut count = 0;
    for before in 0..method {
        count += location_count(program, before);
    }
    count
}

/// How many words of marks a program has.
pub fn mark_words(program: &Program) -> u32
    ensures { result ≡ mark_words program.now.methods }
{
    MARK_WORDS_PER_LOCATION * locations_before(program, program.methods.len() as u32)
}

/// The first mark of a location.
pub fn first_mark(program: &Program, at: At) -> u32
    requires method { at.method < length program.now.methods }
    requires location { at.location < option_map_or location_count (slice_get program.now.methods at.method) 0 }
    ensures first { result ≡ mark_number program.now.methods at.method at.location 0 }
    ensures few { result < 2 ^ 24 }
    ensures room { result + 64 * MARK_WORDS_PER_LOCATION ≤ 64 * mark_words program.now.methods }
{
    (locations_before(program, at.method) + at.location) * (64 * MARK_WORDS_PER_LOCATION)
}
