//! From the lines of a header to the tokens that spell them.
ghost use Rattle.std.specs.Prelude.{◌≡◌, OnOk};
ghost use Rattle.std.specs.List.{flat_map};
ghost use Rattle.plank_ast.specs.Spelled.{Adds};
ghost use Rattle.plank_ast.specs.Spelling.{flag_tokens, direction_word, pointer_tokens, root_tokens, start_key_word, start_key_tokens, start_value_tokens, start_item_tokens, start_tokens, condition_line_tokens, named_condition_tokens};

use crate::condition_spelling::add_condition;
use crate::header::{
    ConditionLine, Direction, FlagLine, NamedCondition, PointerLine, RootLine, StartItem, StartKey,
    StartLine, StartValue,
};
use crate::spelling::{Spelled, add_mark, add_name, add_truth, add_word};
use plank_base::OutOfMemory;
use plank_lex::{Reserved, Symbol};

fn add_flag<'a>(out: &mut Vec<Spelled<'a>>, flag: &'a FlagLine) -> Result<(), OutOfMemory>
    ensures { OnOk result (Adds out.old.items out.new.items (flag_tokens flag.now)) }
{
    add_word(out, Reserved::Flag)?;
    add_name(out, &flag.name)?;
    add_mark(out, Symbol::Semicolon)
}

pub(crate) fn add_flags<'a>(
    out: &mut Vec<Spelled<'a>>,
    flags: &'a [FlagLine],
) -> Result<(), OutOfMemory>
    ensures { OnOk result (Adds out.old.items out.new.items (flat_map flag_tokens flags.now)) }
{
    for flag in flags {
        add_flag(out, flag)?;
    }
    Ok(())
}

fn direction_word(direction: Direction) -> Reserved
    ensures { result ≡ direction_word direction }
{
    match direction {
        Direction::Ascending => Reserved::Ascending,
        Direction::Descending => Reserved::Descending,
        Direction::Free => Reserved::Free,
    }
}

fn add_pointer<'a>(out: &mut Vec<Spelled<'a>>, pointer: &'a PointerLine) -> Result<(), OutOfMemory>
    ensures { OnOk result (Adds out.old.items out.new.items (pointer_tokens pointer.now)) }
{
    add_word(out, Reserved::Pointer)?;
    add_name(out, &pointer.name)?;
    add_word(out, direction_word(pointer.direction))?;
    add_mark(out, Symbol::Semicolon)
}

pub(crate) fn add_pointers<'a>(
    out: &mut Vec<Spelled<'a>>,
    pointers: &'a [PointerLine],
) -> Result<(), OutOfMemory>
    ensures { OnOk result (Adds out.old.items out.new.items (flat_map pointer_tokens pointers.now)) }
{
    for pointer in pointers {
        add_pointer(out, pointer)?;
    }
    Ok(())
}

fn add_root<'a>(out: &mut Vec<Spelled<'a>>, root: &'a RootLine) -> Result<(), OutOfMemory>
    ensures { OnOk result (Adds out.old.items out.new.items (root_tokens root.now)) }
{
    add_word(out, Reserved::Root)?;
    add_name(out, &root.name)?;
    add_mark(out, Symbol::Semicolon)
}

pub(crate) fn add_roots<'a>(
    out: &mut Vec<Spelled<'a>>,
    roots: &'a [RootLine],
) -> Result<(), OutOfMemory>
    ensures { OnOk result (Adds out.old.items out.new.items (flat_map root_tokens roots.now)) }
{
    for root in roots {
        add_root(out, root)?;
    }
    Ok(())
}

fn add_start_value<'a>(out: &mut Vec<Spelled<'a>>, value: &'a StartValue) -> Result<(), OutOfMemory>
    ensures { OnOk result (Adds out.old.items out.new.items (start_value_tokens value.now)) }
{
    match value {
        StartValue::Flag(truth) => add_truth(out, *truth),
        StartValue::Null(_) => add_word(out, Reserved::Null),
        StartValue::Node(name) => add_name(out, name),
    }
}

fn add_start_item<'a>(out: &mut Vec<Spelled<'a>>, item: &'a StartItem) -> Result<(), OutOfMemory>
    ensures { OnOk result (Adds out.old.items out.new.items (start_item_tokens item.now)) }
{
    add_name(out, &item.field)?;
    add_mark(out, Symbol::Assign)?;
    add_start_value(out, &item.value)?;
    add_mark(out, Symbol::Semicolon)
}

fn add_start_items<'a>(
    out: &mut Vec<Spelled<'a>>,
    items: &'a [StartItem],
) -> Result<(), OutOfMemory>
    ensures { OnOk result (Adds out.old.items out.new.items (flat_map start_item_tokens items.now)) }
{
    for item in items {
        add_start_item(out, item)?;
    }
    Ok(())
}

fn start_key_word(key: StartKey) -> Reserved
    ensures { result ≡ start_key_word key }
{
    match key {
        StartKey::Min => Reserved::Min,
        StartKey::Max => Reserved::Max,
    }
}

/// The line of a start node's key.
fn add_start_key(out: &mut Vec<Spelled<'_>>, key: StartKey) -> Result<(), OutOfMemory>
    ensures { OnOk result (Adds out.old.items out.new.items (start_key_tokens key)) }
{
    add_word(out, Reserved::Key)?;
    add_mark(out, Symbol::Assign)?;
    add_word(out, start_key_word(key))?;
    add_mark(out, Symbol::Semicolon)
}

fn add_start<'a>(out: &mut Vec<Spelled<'a>>, start: &'a StartLine) -> Result<(), OutOfMemory>
    ensures { OnOk result (Adds out.old.items out.new.items (start_tokens start.now)) }
{
    add_word(out, Reserved::Start)?;
    add_name(out, &start.name)?;
    add_mark(out, Symbol::OpenBrace)?;
    add_start_key(out, start.key)?;
    add_start_items(out, start.items.as_slice())?;
    add_mark(out, Symbol::CloseBrace)
}

pub(crate) fn add_starts<'a>(
    out: &mut Vec<Spelled<'a>>,
    starts: &'a [StartLine],
) -> Result<(), OutOfMemory>
    ensures { OnOk result (Adds out.old.items out.new.items (flat_map start_tokens starts.now)) }
{
    for start in starts {
        add_start(out, start)?;
    }
    Ok(())
}

/// A line of a condition, after its word.
pub(crate) fn add_condition_line<'a>(
    out: &mut Vec<Spelled<'a>>,
    word: Reserved,
    line: &'a ConditionLine,
) -> Result<(), OutOfMemory>
    ensures { OnOk result (Adds out.old.items out.new.items (condition_line_tokens word line.now)) }
{
    add_word(out, word)?;
    add_condition(out, &line.condition)?;
    add_mark(out, Symbol::Semicolon)
}

fn add_named_condition<'a>(
    out: &mut Vec<Spelled<'a>>,
    word: Reserved,
    line: &'a NamedCondition,
) -> Result<(), OutOfMemory>
    ensures { OnOk result (Adds out.old.items out.new.items (named_condition_tokens word line.now)) }
{
    add_word(out, word)?;
    add_name(out, &line.name)?;
    add_mark(out, Symbol::Colon)?;
    add_condition(out, &line.condition)?;
    add_mark(out, Symbol::Semicolon)
}

pub(crate) fn add_named_conditions<'a>(
    out: &mut Vec<Spelled<'a>>,
    word: Reserved,
    lines: &'a [NamedCondition],
) -> Result<(), OutOfMemory>
    ensures { OnOk result (Adds out.old.items out.new.items (flat_map (named_condition_tokens word) lines.now)) }
{
    for line in lines {
        add_named_condition(out, word, line)?;
    }
    Ok(())
}
