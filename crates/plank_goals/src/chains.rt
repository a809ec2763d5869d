// The goals of nodes inside chains: a walked key enters the chain, and lies as a keep tells.
ghost use Rattle.std.specs.Prelude.{◌≡◌, ◌++◌, OnOk};
ghost use Rattle.plank_goals.specs.Lists.{gathered};
ghost use Rattle.plank_goals.specs.Spots.{spot_at, first_order};
ghost use Rattle.plank_goals.specs.Hidden.{chain_goal, chains_to, chains_of, spot_goals, hidden_goals};

use crate::lists::push_some;
use crate::spots::{Spot, room, some_tell, spot_at};
use plank_base::OutOfMemory;
use plank_prog::{KeyOrder, Program};
use plank_query::Goal;

// How many spots there are.
const SPOTS: u8 = 5;

fn chain_goal(order: KeyOrder, spot: Spot, from: u8, to: u8) -> Option<Goal>
    ensures { result ≡ chain_goal order spot from to }
{
    match room(order, spot, from, to) {
        Some((above, below)) => Some(Goal::EntersChain {
            from,
            to,
            above,
            below,
        }),
        None => None,
    }
}

// Adds those of the chains from a name.
fn push_chains_to(
    goals: &mut Vec<Goal>,
    order: KeyOrder,
    spot: Spot,
    from: u8,
    names: u8,
) -> Result<(), OutOfMemory>
    ensures { OnOk result (goals.new.items ≡ goals.old.items ++ chains_to order spot names from) }
{
    for to in 0..names {
        push_some(goals, chain_goal(order, spot, from, to))?;
    }
    Ok(())
}

// Adds those of all chains.
fn push_chains(
    goals: &mut Vec<Goal>,
    order: KeyOrder,
    spot: Spot,
    names: u8,
) -> Result<(), OutOfMemory>
    ensures { OnOk result (goals.new.items ≡ goals.old.items ++ chains_of order spot names) }
{
    for from in 0..names {
        push_chains_to(goals, order, spot, from, names)?;
    }
    Ok(())
}

// Adds them where a keep tells there.
fn push_spot(
    goals: &mut Vec<Goal>,
    program: &Program,
    order: KeyOrder,
    spot: Spot,
    names: u8,
) -> Result<(), OutOfMemory>
    ensures { OnOk result (goals.new.items ≡ goals.old.items ++ spot_goals program.now.header order names spot) }
{
    if some_tell(program, spot) {
        push_chains(goals, order, spot, names)
    } else {
        Ok(())
    }
}

// The order of the first pointer field.
fn first_order(program: &Program) -> KeyOrder
    ensures { result ≡ first_order program.now.header }
{
    match program.header.pointers.get(0) {
        Some(pointer) => pointer.order,
        None => KeyOrder::Free,
    }
}

// Adds them for every spot.
fn push_spots(goals: &mut Vec<Goal>, program: &Program, names: u8) -> Result<(), OutOfMemory>
    ensures { OnOk result (goals.new.items ≡ goals.old.items ++
        gathered (λ n. spot_goals program.now.header (first_order program.now.header) names (spot_at n)) 5) }
{
    let order = first_order(program);
    for number in 0..SPOTS {
        push_spot(goals, program, order, spot_at(number), names)?;
    }
    Ok(())
}

/// Adds them where there are chains.
pub(crate) fn push_hidden(
    goals: &mut Vec<Goal>,
    program: &Program,
    names: u8,
) -> Result<(), OutOfMemory>
    ensures { OnOk result (goals.new.items ≡ goals.old.items ++ hidden_goals program.now.header names) }
{
    if program.header.pointers.len() == 1 {
        push_spots(goals, program, names)
    } else {
        Ok(())
    }
}
