// Where the exits of locations lead.
ghost use Rattle.std.specs.Prelude.{◌≡◌};
ghost use Rattle.plank_fact.specs.OwnSteps.{location_after};
ghost use Rattle.plank_method.specs.Runs.{is_at, leads};

use plank_pic::Exit;
use plank_prog::{Action, Program};

// The location to which an exit of an action leads.
fn location_after(exit: Exit, action: &Action) -> Option<u32>
    ensures { result ≡ location_after exit action.now }
{
    match action {
        Action::Block(block) => match exit {
            Exit::Yes => Some(block.yes),
            Exit::No => Some(block.no),
        },
        Action::Copy { next, .. } | Action::New { next, .. } => match exit {
            Exit::Yes => Some(*next),
            Exit::No => None,
        },
        Action::Return(_) => None,
    }
}

fn is_at(to: u32, location: Option<u32>) -> bool
    ensures { result ≡ is_at to location }
{
    match location {
        Some(location) => location == to,
        None => false,
    }
}

// Whether the exit of a location of a method leads to a location.
pub(crate) fn leads(program: &Program, method: u32, from: u32, exit: Exit, to: u32) -> bool
    ensures { result ≡ leads program.now.methods method from exit to }
{
    let Some(method) = program.methods.get(method as usize) else {
        return false;
    };
    match method.locations.get(from as usize) {
        Some(location) => is_at(to, location_after(exit, &location.action)),
        None => false,
    }
}
