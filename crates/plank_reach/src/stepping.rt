ghost use Rattle.std.specs.Prelude.{◌≡◌};
ghost use Rattle.plank_reach.specs.Steps.{step_of};

use plank_query::{Actor, Situation};

/// The step of a turn: with its binds, or so that each variable keeps its node.
#[derive(Clone, Copy)]
pub struct Stepping<'a> {
    pub turn: Actor<'a>,
    pub kept: bool,
}

/// The step of a situation; none where it is asked of one picture.
pub fn step_of<'a>(situation: &Situation<'a>) -> Option<Stepping<'a>>
    ensures { result ≡ step_of situation.now }
{
    match *situation {
        Situation::Node | Situation::Names { .. } | Situation::Own(_) => None,
        Situation::Step(turn) => Some(Stepping {
            turn: Actor::Own(turn),
            kept: false,
        }),
        Situation::Write(turn) => Some(Stepping {
            turn: Actor::Own(turn),
            kept: true,
        }),
        Situation::Effect(turn) => Some(Stepping {
            turn: Actor::Other(turn),
            kept: true,
        }),
    }
}
