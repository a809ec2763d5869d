// The goals of the obligation order: a pointer leads against its order.
ghost use Rattle.std.specs.Prelude.{◌≡◌, ◌++◌, ◌∷◌, [], length, OnOk, IfOk};
ghost use Rattle.plank_fact.specs.Writes.{BreaksOrder};
ghost use Rattle.plank_goals.specs.Lists.{gathered};
ghost use Rattle.plank_goals.specs.Named.{order_goal, orders_to, orders_of};
ghost use Rattle.plank_goals.specs.Wrongs.{SayOfWrites};

use crate::lists::push;
use plank_base::OutOfMemory;
use plank_prog::Program;
use plank_query::Goal;
use std::alloc::Global;

// The pointer of the node of a name leads to that of another against its order.
fn order_goal(name: u8, pointer: u8, to: u8) -> Goal
    ensures { result ≡ order_goal name pointer to }
{
    Goal::LeadsAgainst { name, pointer, to }
}

// Adds a goal for each name that a pointer may lead to.
fn push_orders_to(
    goals: &mut Vec<Goal>,
    name: u8,
    pointer: u8,
    names: u8,
) -> Result<(), OutOfMemory>
    ensures { OnOk result (goals.new.items ≡ goals.old.items ++ orders_to names name pointer) }
{
    for to in 0..names {
        push(goals, order_goal(name, pointer, to))?;
    }
    Ok(())
}

// Adds those of each pointer.
fn push_orders_of(
    goals: &mut Vec<Goal>,
    name: u8,
    pointers: u8,
    names: u8,
) -> Result<(), OutOfMemory>
    ensures { OnOk result (goals.new.items ≡ goals.old.items ++ orders_of names pointers name) }
{
    for pointer in 0..pointers {
        push_orders_to(goals, name, pointer, names)?;
    }
    Ok(())
}

/// The goals of a write by pictures with so many names, of which one is reached just where a pointer leads
/// against its order.
pub fn order_goals(alloc: Global, program: &Program, names: u8) -> Result<Vec<Goal>, OutOfMemory>
    ensures { IfOk result (λ goals. SayOfWrites program.now.header names goals.items BreaksOrder) }
{
    let pointers = program.header.pointers.len() as u8;
    let mut goals = Vec::new(alloc);
    for name in 0..names {
        push_orders_of(&mut goals, name, pointers, names)?;
    }
    Ok(goals)
}
