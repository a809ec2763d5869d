ghost use Rattle.std.specs.Prelude.{◌≡◌, ℕ, ◌+◌, ◌*◌, ◌<◌, cond, length, slice_get};
ghost use Rattle.std.specs.Option.{option_map_or};
ghost use Rattle.plank_prog.specs.Methods.{location_count};
ghost use Rattle.plank_fact.specs.Outlines.{location_number};
ghost use Rattle.plank_unit.specs.Units.{unit_count};

use plank_marks::{At, location_count, locations_before};
use plank_prog::Program;

/// A unit of a program: what it forces are marks of one location.
#[derive(Clone, Copy, PartialEq, Eq, Debug)]
pub struct Unit {
    pub at: At,
    /// By steps of other calls, and not by where calls begin and by their own.
    pub others: bool,
}

/// How many units a program has: two for each location.
pub fn unit_count(program: &Program) -> u32
    ensures { result ≡ unit_count program.now.methods }
{
    2 * locations_before(program, program.methods.len() as u32)
}

// The location of a number among those of all methods.
fn location_at(program: &Program, number: u32) -> At
    requires { 2 * number < unit_count program.now.methods }
    ensures method { result.method < length program.now.methods }
    ensures location { result.location < option_map_or location_count
        (slice_get program.now.methods result.method) 0 }
    ensures number { location_number program.now.methods result.method result.location ≡ number }
{
    let mut method = 0;
    let mut before = 0;
    loop {
        let count = location_count(program, method);
        if number - before < count {
            return At {
                method,
                location: number - before,
            };
        }
        before += count;
        method += 1;
    }
}

/// The unit of a number: those of a location follow one another, first the one by own steps.
pub fn unit_at(program: &Program, unit: u32) -> Unit
    requires { unit < unit_count program.now.methods }
    ensures method { result.at.method < length program.now.methods }
    ensures location { result.at.location < option_map_or location_count
        (slice_get program.now.methods result.at.method) 0 }
    ensures number { 2 * location_number program.now.methods result.at.method result.at.location
        + cond result.others 1 0 ≡ unit }
{
    Unit {
        at: location_at(program, unit / 2),
        others: unit % 2 == 1,
    }
}
