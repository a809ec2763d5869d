ghost use Rattle.std.specs.Prelude.{◌≡◌, None, Some, IfOk, IfErr, length};
ghost use Rattle.plank_base.specs.declared.limits.TheConstants.{FLAGS_LIMIT, POINTERS_LIMIT};
ghost use Rattle.plank_type.specs.Limits.{told, past_limit, first_given, variables_limit, variables_excess, header_excess, methods_excess, text_size, text_excess};

use crate::sizes::statements_size;
use plank_ast::{Method as MethodTree, Text};
use plank_base::{
    FLAGS_LIMIT, FROZEN_VARIABLES_LIMIT, LOCATIONS_LIMIT, METHODS_LIMIT, NODES_LIMIT,
    POINTERS_LIMIT, Thing, VARIABLES_LIMIT,
};
use plank_rules::Typed;

/// What a text has too much of, how many, and how many it may have.
#[derive(Clone, Copy, Debug, PartialEq, Eq)]
pub struct Excess {
    pub thing: Thing,
    /// A number past 32 bits is told as the greatest that fits.
    pub count: u32,
    pub limit: u32,
}

/// A length as it is told.
pub(crate) fn told(length: usize) -> u32
    ensures { result ≡ told length }
{
    if length <= u32::MAX as usize {
        length as u32
    } else {
        u32::MAX
    }
}

pub(crate) fn past_limit(thing: Thing, count: u32, limit: u32) -> Option<Excess>
    ensures { result ≡ past_limit thing count limit }
{
    if count <= limit {
        None
    } else {
        Some(Excess {
            thing,
            count,
            limit,
        })
    }
}

// How many variables a method of the text may have.
fn variables_limit(text: &Text) -> u32
    ensures { result ≡ variables_limit text.now }
{
    if text.freeze.is_some() {
        FROZEN_VARIABLES_LIMIT
    } else {
        VARIABLES_LIMIT
    }
}

fn variables_excess(limit: u32, method: &MethodTree) -> Option<Excess>
    ensures { result ≡ variables_excess limit method.now }
{
    let count = match &method.variables {
        Some(variables) => told(variables.others.len()).saturating_add(1),
        None => 0,
    };
    past_limit(Thing::Variables, count, limit)
}

// The variables of the first of these methods that has too many.
fn first_variables_excess(limit: u32, methods: &[MethodTree]) -> Option<Excess>
    ensures { result ≡ first_given (variables_excess limit) methods.now }
{
    for method in methods {
        if let Some(excess) = variables_excess(limit, method) {
            return Some(excess);
        }
    }
    None
}

fn methods_excess(text: &Text) -> Option<Excess>
    ensures { result ≡ methods_excess text.now }
{
    let others = text.methods.others.as_slice();
    let count = told(others.len()).saturating_add(1);
    if let Some(excess) = past_limit(Thing::Methods, count, METHODS_LIMIT) {
        return Some(excess);
    }
    let limit = variables_limit(text);
    if let Some(excess) = variables_excess(limit, &text.methods.first) {
        return Some(excess);
    }
    first_variables_excess(limit, others)
}

fn header_excess(text: &Text) -> Option<Excess>
    ensures { result ≡ header_excess text.now }
{
    if let Some(excess) = past_limit(Thing::Flags, told(text.flags.len()), FLAGS_LIMIT) {
        return Some(excess);
    }
    if let Some(excess) = past_limit(Thing::Pointers, told(text.pointers.len()), POINTERS_LIMIT) {
        return Some(excess);
    }
    past_limit(Thing::Nodes, told(text.starts.len()), NODES_LIMIT)
}

fn text_size(text: &Text) -> u32
    ensures { result ≡ told (text_size text.now) }
{
    let mut size = statements_size(text.methods.first.statements.as_slice());
    for method in text.methods.others.as_slice() {
        size = size.saturating_add(statements_size(method.statements.as_slice()));
    }
    size
}

// What a text has too much of, as its tree shows it.
fn text_excess(text: &Text) -> Option<Excess>
    ensures { result ≡ text_excess text.now }
{
    if let Some(excess) = methods_excess(text) {
        return Some(excess);
    }
    if let Some(excess) = header_excess(text) {
        return Some(excess);
    }
    past_limit(Thing::Locations, text_size(text), LOCATIONS_LIMIT)
}

/// A well typed text whose tree shows too much of nothing.
#[derive(Clone, Copy, Debug)]
pub(crate) struct Limited<'a> {
    pub(crate) typed: &'a Typed<'a>,
    pub(crate) ghost within: { text_excess typed.now.text.now ≡ None },
}

/// The same text, or what its tree shows too much of.
pub(crate) fn within_limits<'a>(typed: &'a Typed<'a>) -> Result<Limited<'a>, Excess>
    ensures typed { IfOk result (λ limited. limited.typed.now ≡ typed.now) }
    ensures excess { IfErr result (λ excess. text_excess typed.now.text.now ≡ Some excess) }
{
    match text_excess(typed.text) {
        None => Ok(Limited { typed }),
        Some(excess) => Err(excess),
    }
}
