//! The header and the methods of a text, with numbers in the place of names.
ghost use Rattle.std.specs.Prelude.{◌≡◌, ◌≤◌, length, IfOk};
ghost use Rattle.plank_base.specs.declared.limits.TheConstants.{FLAGS_LIMIT, POINTERS_LIMIT};
ghost use Rattle.plank_type.specs.Headers.{header_of};
ghost use Rattle.plank_type.specs.Methods.{methods_of};
ghost use Rattle.plank_type.specs.Limits.{first_given, sites_excess, facts_excess, method_facts_excess, program_excess};

use crate::headers::header_of;
use crate::limits::{Excess, Limited, past_limit, told};
use crate::methods::methods_of;
use plank_base::{EFFECT_FACTS_LIMIT, OutOfMemory, SITES_LIMIT, Thing};
use plank_prog::{Action, Header, Method};
use sqlite_items::Items;
use std::alloc::Global;

/// The header and the methods of a well typed text within the limits of its tree.
#[derive(Debug, Drop)]
pub(crate) struct Lowered<'a> {
    pub(crate) limited: Limited<'a>,
    pub(crate) header: Header,
    pub(crate) methods: Items<Method>,
    pub(crate) ghost header_is: { header ≡ header_of limited.typed.now.text.now },
    pub(crate) ghost methods_are: { methods ≡ methods_of limited.typed.now.text.now },
    pub(crate) ghost few_flags: { length header.flags ≤ FLAGS_LIMIT },
    pub(crate) ghost few_pointers: { length header.pointers ≤ POINTERS_LIMIT },
}

pub(crate) fn lower(alloc: Global, limited: Limited<'_>) -> Result<Lowered<'_>, OutOfMemory>
    ensures { IfOk result (λ lowered. lowered.limited.typed.now ≡ limited.entry.typed.now) }
{
    let header = header_of(alloc, limited)?;
    let methods = methods_of(alloc, limited)?;
    Ok(Lowered {
        limited,
        header,
        methods,
    })
}

fn sites_excess(methods: &[Method]) -> Option<Excess>
    ensures { result ≡ sites_excess methods.now }
{
    let mut count: u32 = 0;
    for method in methods {
        count = count.saturating_add(told(method.site_count()));
    }
    past_limit(Thing::Sites, count, SITES_LIMIT)
}

impl Lowered<'_> {
    ghost use Rattle.plank_type.specs.Limits.{first_given, facts_excess, method_facts_excess, program_excess, first_excess};

    fn facts_excess(&self, action: &Action) -> Option<Excess>
        ensures { result ≡ facts_excess self.now.header action.now }
    {
        match action {
            Action::Block(block) => {
                if block.writes.is_empty() {
                    return None;
                }
                let count = self.header.effect_fact_count(block.name_count());
                past_limit(Thing::EffectFacts, count, EFFECT_FACTS_LIMIT)
            }
            Action::Copy { .. } => None,
            Action::New { .. } => None,
            Action::Return(_) => None,
        }
    }

    fn method_facts_excess(&self, method: &Method) -> Option<Excess>
        ensures { result ≡ method_facts_excess self.now.header method.now }
    {
        for location in method.locations.as_slice() {
            if let Some(excess) = self.facts_excess(&location.action) {
                return Some(excess);
            }
        }
        None
    }

    fn first_facts_excess(&self, methods: &[Method]) -> Option<Excess>
        ensures { result ≡ first_given (method_facts_excess self.now.header) methods.now }
    {
        for method in methods {
            if let Some(excess) = self.method_facts_excess(method) {
                return Some(excess);
            }
        }
        None
    }

    fn program_excess(&self) -> Option<Excess>
        ensures { result ≡ program_excess self.now.header self.now.methods }
    {
        let methods = self.methods.as_slice();
        if let Some(excess) = sites_excess(methods) {
            return Some(excess);
        }
        self.first_facts_excess(methods)
    }

    /// What the text has too much of.
    pub(crate) fn excess(&self) -> Option<Excess>
        ensures { result ≡ first_excess self.now.limited.typed.now.text.now }
    {
        self.program_excess()
    }
}
