ghost use Rattle.std.specs.Prelude.{◌≡◌, ◌++◌, ◌∷◌, [], OnOk};
ghost use Rattle.plank_goals.specs.Lists.{listed};

use plank_base::OutOfMemory;
use plank_query::Goal;

/// Adds a goal.
pub(crate) fn push(goals: &mut Vec<Goal>, goal: Goal) -> Result<(), OutOfMemory>
    ensures { OnOk result (goals.new.items ≡ goals.old.items ++ goal ∷ []) }
{
    match goals.push(goal) {
        Ok(_) => Ok(()),
        Err(_) => Err(OutOfMemory),
    }
}

/// Adds a goal, where there is one.
pub(crate) fn push_some(goals: &mut Vec<Goal>, goal: Option<Goal>) -> Result<(), OutOfMemory>
    ensures { OnOk result (goals.new.items ≡ goals.old.items ++ listed goal) }
{
    match goal {
        Some(goal) => push(goals, goal),
        None => Ok(()),
    }
}
