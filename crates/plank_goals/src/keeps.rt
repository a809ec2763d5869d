// The goals of the obligation keep: a named node breaks a keep, or one inside a chain does.
ghost use Rattle.std.specs.Prelude.{◌≡◌, ◌++◌, ◌∷◌, [], length, OnOk, IfOk};
ghost use Rattle.plank_fact.specs.Writes.{BreaksKeep};
ghost use Rattle.plank_goals.specs.Lists.{gathered};
ghost use Rattle.plank_goals.specs.Named.{keep_goal, keeps_of};
ghost use Rattle.plank_goals.specs.Wrongs.{SayOfWrites};

use crate::chains::push_hidden;
use crate::lists::push;
use plank_base::OutOfMemory;
use plank_prog::Program;
use plank_query::{Goal, Moment, Predicate};
use std::alloc::Global;

// After the write the node of the name breaks the keep.
fn keep_goal(name: u8, keep: u32) -> Goal
    ensures { result ≡ keep_goal name keep }
{
    Goal::Fails {
        moment: Moment::After,
        predicate: Predicate::Keeps { name, keep },
    }
}

// How many keeps there are. More than fit a number of 32 bits are no text's: they want of memory.
fn keep_count(program: &Program) -> Result<u32, OutOfMemory>
    ensures { IfOk result (λ count. count ≡ length program.now.header.keeps) }
{
    let count = program.header.keeps.len();
    if count > u32::MAX as usize {
        Err(OutOfMemory)
    } else {
        Ok(count as u32)
    }
}

// Adds a goal for each keep.
fn push_keeps_of(goals: &mut Vec<Goal>, name: u8, keeps: u32) -> Result<(), OutOfMemory>
    ensures { OnOk result (goals.new.items ≡ goals.old.items ++ keeps_of keeps name) }
{
    for keep in 0..keeps {
        push(goals, keep_goal(name, keep))?;
    }
    Ok(())
}

// Adds those of each name.
fn push_keeps(goals: &mut Vec<Goal>, names: u8, keeps: u32) -> Result<(), OutOfMemory>
    ensures { OnOk result (goals.new.items ≡ goals.old.items ++ gathered (keeps_of keeps) names) }
{
    for name in 0..names {
        push_keeps_of(goals, name, keeps)?;
    }
    Ok(())
}

/// The goals of a write by pictures with so many names, of which one is reached just where the write breaks
/// a keep.
pub fn keep_goals(alloc: Global, program: &Program, names: u8) -> Result<Vec<Goal>, OutOfMemory>
    ensures { IfOk result (λ goals. SayOfWrites program.now.header names goals.items BreaksKeep) }
{
    let keeps = keep_count(program)?;
    let mut goals = Vec::new(alloc);
    push_keeps(&mut goals, names, keeps)?;
    push_hidden(&mut goals, program, names)?;
    Ok(goals)
}
