ghost use Rattle.std.specs.Prelude.{◌≡◌};
ghost use Rattle.plank_query.specs.Situations.{own_caller, other_names, own_variables};

use plank_prog::Reference;
use plank_query::{Situation, Speaker};
use plank_step::name;
use plank_truth::Calls;

/// A call that a situation sees.
#[derive(Clone, Copy)]
pub struct Voice<'a> {
    pub situation: Situation<'a>,
    pub of: Speaker,
}

// How many variables the own call has.
fn own_variables(situation: &Situation<'_>) -> u8
    ensures { result ≡ own_variables situation.now }
{
    match *situation {
        Situation::Node => 0,
        Situation::Names { variables } => variables,
        Situation::Own(turn) | Situation::Step(turn) | Situation::Write(turn) => turn.variables,
        Situation::Effect(turn) => turn.variables,
    }
}

// The name that the own call has for a reference; the least where it has none.
fn own_name(variables: u8, reference: Reference) -> u8
    ensures { result ≡ (own_caller variables).name reference }
{
    match reference {
        Reference::Root => 0,
        Reference::Variable(variable) => {
            if variable < variables {
                variable + 1
            } else {
                0
            }
        }
    }
}

fn other_name(situation: &Situation<'_>, reference: Reference) -> u8
    ensures { result ≡ other_names situation.now reference }
{
    match *situation {
        Situation::Effect(turn) => name(&turn, reference),
        Situation::Node
        | Situation::Names { .. }
        | Situation::Own(_)
        | Situation::Step(_)
        | Situation::Write(_) => 0,
    }
}

impl<'a> Calls for Voice<'a> {
    ghost use Rattle.plank_query.specs.Situations.{caller};

    ghost caller = { λ v. caller v.situation v.of };

    fn is_own(&self) -> bool {
        match self.of {
            Speaker::Own => true,
            Speaker::Other => false,
        }
    }

    fn name_of(&self, reference: Reference) -> u8 {
        match self.of {
            Speaker::Own => own_name(own_variables(&self.situation), reference),
            Speaker::Other => other_name(&self.situation, reference),
        }
    }
}
