ghost use Rattle.std.specs.Prelude.{◌≡◌, ◌<◌};
ghost use Rattle.plank_fact.specs.Tables.{name_at};
ghost use Rattle.plank_fact.specs.Places.{number_of, at, over, AreSmall, layout_of, fact_of, kind_of, kind_now, kind_past, parts_of, parts_of_literal};

use crate::facts::Fact;
use crate::layouts::{Layout, Parts, Seconds, Sizes};
use plank_pic::Literal;
use plank_prog::Reference;

/// The kinds of facts, in the order of the table.
#[derive(Clone, Copy, PartialEq, Eq, Debug)]
pub enum FactKind {
    Same,
    Apart,
    Null,
    NotNull,
    KeyBelow,
    KeyAtMost,
    BelowArgument,
    AtMostArgument,
    AboveArgument,
    AtLeastArgument,
    KeyIsMin,
    AboveMin,
    BelowMax,
    KeyIsMax,
    Flag,
    NoFlag,
    Leads,
    LeadsNowhere,
    Locked,
    Owned,
    Shared,
    Visited,
    InSet,
    NotInSet,
    Chain,
    PastVisited,
    PastFlag,
    PastNoFlag,
    PastInSet,
    PastNotInSet,
    Spent,
    Unspent,
}

/// Every kind once, in order.
pub const FACT_KINDS: [FactKind; 32] = [
    FactKind::Same,
    FactKind::Apart,
    FactKind::Null,
    FactKind::NotNull,
    FactKind::KeyBelow,
    FactKind::KeyAtMost,
    FactKind::BelowArgument,
    FactKind::AtMostArgument,
    FactKind::AboveArgument,
    FactKind::AtLeastArgument,
    FactKind::KeyIsMin,
    FactKind::AboveMin,
    FactKind::BelowMax,
    FactKind::KeyIsMax,
    FactKind::Flag,
    FactKind::NoFlag,
    FactKind::Leads,
    FactKind::LeadsNowhere,
    FactKind::Locked,
    FactKind::Owned,
    FactKind::Shared,
    FactKind::Visited,
    FactKind::InSet,
    FactKind::NotInSet,
    FactKind::Chain,
    FactKind::PastVisited,
    FactKind::PastFlag,
    FactKind::PastNoFlag,
    FactKind::PastInSet,
    FactKind::PastNotInSet,
    FactKind::Spent,
    FactKind::Unspent,
];

impl FactKind {
    // How the facts of the kind are counted out in a method of these sizes.
    pub(crate) fn layout(self, sizes: &Sizes) -> Layout
        ensures { result ≡ layout_of sizes.now self }
    {
        match self {
            FactKind::Same | FactKind::Apart => over(sizes.names, 1, Seconds::Later),
            FactKind::KeyBelow | FactKind::KeyAtMost => { over(sizes.names, 1, Seconds::Others) }
            FactKind::Flag | FactKind::NoFlag | FactKind::PastFlag | FactKind::PastNoFlag => {
                over(sizes.names, sizes.flags, Seconds::Absent)
            }
            FactKind::Leads => over(sizes.names, sizes.pointers, Seconds::Every),
            FactKind::LeadsNowhere => over(sizes.names, sizes.pointers, Seconds::Absent),
            FactKind::Locked => over(sizes.lockable, 1, Seconds::Absent),
            FactKind::Chain => over(sizes.chained, 1, Seconds::Others),
            FactKind::InSet
            | FactKind::NotInSet
            | FactKind::PastInSet
            | FactKind::PastNotInSet
            | FactKind::Spent
            | FactKind::Unspent => over(1, 1, Seconds::Absent),
            FactKind::Null
            | FactKind::NotNull
            | FactKind::BelowArgument
            | FactKind::AtMostArgument
            | FactKind::AboveArgument
            | FactKind::AtLeastArgument
            | FactKind::KeyIsMin
            | FactKind::AboveMin
            | FactKind::BelowMax
            | FactKind::KeyIsMax
            | FactKind::Owned
            | FactKind::Shared
            | FactKind::Visited
            | FactKind::PastVisited => over(sizes.names, 1, Seconds::Absent),
        }
    }

    // The fact of the kind that speaks of these parts.
    pub(crate) fn fact(self, parts: &Parts) -> Fact
        requires { AreSmall parts.now }
        ensures { result ≡ fact_of self parts.now }
    {
        let name = name_at(parts.first);
        let (left, right) = (name, name_at(parts.second));
        let field = parts.field as u8;
        match self {
            FactKind::Same => Fact::Now(Literal::Same { left, right }),
            FactKind::Apart => Fact::Now(Literal::Apart { left, right }),
            FactKind::Null => Fact::Now(Literal::Null { name }),
            FactKind::NotNull => Fact::Now(Literal::NotNull { name }),
            FactKind::KeyBelow => Fact::Now(Literal::KeyBelow { left, right }),
            FactKind::KeyAtMost => Fact::Now(Literal::KeyAtMost { left, right }),
            FactKind::BelowArgument => Fact::Now(Literal::BelowArgument { name }),
            FactKind::AtMostArgument => Fact::Now(Literal::AtMostArgument { name }),
            FactKind::AboveArgument => Fact::Now(Literal::AboveArgument { name }),
            FactKind::AtLeastArgument => Fact::Now(Literal::AtLeastArgument { name }),
            FactKind::KeyIsMin => Fact::Now(Literal::KeyIsMin { name }),
            FactKind::AboveMin => Fact::Now(Literal::AboveMin { name }),
            FactKind::BelowMax => Fact::Now(Literal::BelowMax { name }),
            FactKind::KeyIsMax => Fact::Now(Literal::KeyIsMax { name }),
            FactKind::Flag => Fact::Now(Literal::Flag { name, flag: field }),
            FactKind::NoFlag => Fact::Now(Literal::NoFlag { name, flag: field }),
            FactKind::Leads => Fact::Now(Literal::Leads {
                name,
                pointer: field,
                to: right,
            }),
            FactKind::LeadsNowhere => Fact::Now(Literal::LeadsNowhere {
                name,
                pointer: field,
            }),
            FactKind::Locked => Fact::Now(Literal::Locked { name }),
            FactKind::Owned => Fact::Now(Literal::Owned { name }),
            FactKind::Shared => Fact::Now(Literal::Shared { name }),
            FactKind::Visited => Fact::Now(Literal::Visited { name }),
            FactKind::InSet => Fact::Now(Literal::InSet),
            FactKind::NotInSet => Fact::Now(Literal::NotInSet),
            FactKind::Chain => Fact::Now(Literal::Chain {
                from: left,
                to: right,
            }),
            FactKind::PastVisited => Fact::Past(Literal::Visited { name }),
            FactKind::PastFlag => Fact::Past(Literal::Flag { name, flag: field }),
            FactKind::PastNoFlag => Fact::Past(Literal::NoFlag { name, flag: field }),
            FactKind::PastInSet => Fact::Past(Literal::InSet),
            FactKind::PastNotInSet => Fact::Past(Literal::NotInSet),
            FactKind::Spent => Fact::Now(Literal::Spent),
            FactKind::Unspent => Fact::Now(Literal::Unspent),
        }
    }
}

fn over(firsts: u8, fields: u8, seconds: Seconds) -> Layout
    ensures { result ≡ over firsts fields seconds }
{
    Layout {
        firsts,
        fields,
        seconds,
    }
}

fn at(first: u32, field: u32, second: u32) -> Parts
    ensures { result ≡ at first field second }
{
    Parts {
        first,
        field,
        second,
    }
}

// The name of this number: root, and then the variables.
fn name_at(number: u32) -> Reference
    requires { number < 256 }
    ensures { result ≡ name_at number }
{
    if number == 0 {
        Reference::Root
    } else {
        Reference::Variable((number - 1) as u8)
    }
}

fn number_of(name: Reference) -> u32
    ensures { result ≡ number_of name }
{
    match name {
        Reference::Root => 0,
        Reference::Variable(v) => u32::from(v) + 1,
    }
}

// Of a fact that says what is true now.
fn kind_now(literal: &Literal) -> FactKind
    ensures { result ≡ kind_now literal.now }
{
    match literal {
        Literal::Same { .. } => FactKind::Same,
        Literal::Apart { .. } => FactKind::Apart,
        Literal::Null { .. } => FactKind::Null,
        Literal::NotNull { .. } => FactKind::NotNull,
        Literal::KeyBelow { .. } => FactKind::KeyBelow,
        Literal::KeyAtMost { .. } => FactKind::KeyAtMost,
        Literal::BelowArgument { .. } => FactKind::BelowArgument,
        Literal::AtMostArgument { .. } => FactKind::AtMostArgument,
        Literal::AboveArgument { .. } => FactKind::AboveArgument,
        Literal::AtLeastArgument { .. } => FactKind::AtLeastArgument,
        Literal::KeyIsMin { .. } => FactKind::KeyIsMin,
        Literal::AboveMin { .. } => FactKind::AboveMin,
        Literal::BelowMax { .. } => FactKind::BelowMax,
        Literal::KeyIsMax { .. } => FactKind::KeyIsMax,
        Literal::Flag { .. } => FactKind::Flag,
        Literal::NoFlag { .. } => FactKind::NoFlag,
        Literal::Leads { .. } => FactKind::Leads,
        Literal::LeadsNowhere { .. } => FactKind::LeadsNowhere,
        Literal::Locked { .. } => FactKind::Locked,
        Literal::Owned { .. } => FactKind::Owned,
        Literal::Shared { .. } => FactKind::Shared,
        Literal::Visited { .. } => FactKind::Visited,
        Literal::InSet => FactKind::InSet,
        Literal::NotInSet => FactKind::NotInSet,
        Literal::Chain { .. } => FactKind::Chain,
        Literal::Spent => FactKind::Spent,
        Literal::Unspent => FactKind::Unspent,
    }
}

// Of a past fact, where it may be past.
fn kind_past(literal: &Literal) -> Option<FactKind>
    ensures { result ≡ kind_past literal.now }
{
    match literal {
        Literal::Visited { .. } => Some(FactKind::PastVisited),
        Literal::Flag { .. } => Some(FactKind::PastFlag),
        Literal::NoFlag { .. } => Some(FactKind::PastNoFlag),
        Literal::InSet => Some(FactKind::PastInSet),
        Literal::NotInSet => Some(FactKind::PastNotInSet),
        _ => None,
    }
}

// What a literal speaks of.
fn parts_of(literal: &Literal) -> Parts
    ensures { result ≡ parts_of_literal literal.now }
{
    match *literal {
        Literal::Same { left, right }
        | Literal::Apart { left, right }
        | Literal::KeyBelow { left, right }
        | Literal::KeyAtMost { left, right }
        | Literal::Chain {
            from: left,
            to: right,
        } => at(number_of(left), 0, number_of(right)),
        Literal::Flag { name, flag: field }
        | Literal::NoFlag { name, flag: field }
        | Literal::LeadsNowhere {
            name,
            pointer: field,
        } => at(number_of(name), u32::from(field), 0),
        Literal::Leads { name, pointer, to } => {
            at(number_of(name), u32::from(pointer), number_of(to))
        }
        Literal::Null { name }
        | Literal::NotNull { name }
        | Literal::BelowArgument { name }
        | Literal::AtMostArgument { name }
        | Literal::AboveArgument { name }
        | Literal::AtLeastArgument { name }
        | Literal::KeyIsMin { name }
        | Literal::AboveMin { name }
        | Literal::BelowMax { name }
        | Literal::KeyIsMax { name }
        | Literal::Locked { name }
        | Literal::Owned { name }
        | Literal::Shared { name }
        | Literal::Visited { name } => at(number_of(name), 0, 0),
        Literal::InSet | Literal::NotInSet | Literal::Spent | Literal::Unspent => { at(0, 0, 0) }
    }
}

impl Fact {
    // The kind of the fact; none where no table has it.
    pub(crate) fn kind(&self) -> Option<FactKind>
        ensures { result ≡ kind_of self.now }
    {
        match self {
            Fact::Now(literal) => Some(kind_now(literal)),
            Fact::Past(literal) => kind_past(literal),
        }
    }

    pub(crate) fn parts(&self) -> Parts
        ensures { result ≡ parts_of self.now }
    {
        match self {
            Fact::Now(literal) => parts_of(literal),
            Fact::Past(literal) => parts_of(literal),
        }
    }
}
