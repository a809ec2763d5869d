ghost use Rattle.std.specs.Prelude.{◌≡◌, ◌≤◌, ◌+◌, ◌&&◌, nat_le, sum_by, length};
ghost use Rattle.std.specs.List.{list_all};
ghost use Rattle.plank_prog.specs.Names.{names_differ, all_pairs};
ghost use Rattle.plank_base.specs.declared.limits.TheConstants.{FLAGS_LIMIT, POINTERS_LIMIT, VARIABLES_LIMIT};
ghost use Rattle.plank_prog.specs.Methods.{is_lawful_action, is_site, variables_limit, effect_fact_count, has_few_facts, is_lawful_location, is_lawful_method, location_count, site_count, are_methods_within_limits, are_lawful_methods};

use crate::headers::Header;
use crate::methods::{Action, Location, Method};
use crate::names::{Apart, all_apart};
use plank_base::{
    EFFECT_FACTS_LIMIT, FROZEN_VARIABLES_LIMIT, LOCATIONS_LIMIT, METHODS_LIMIT, SITES_LIMIT,
    VARIABLES_LIMIT,
};

impl Action {
    // Whether the action may stand in a method with so many variables and locations.
    fn is_lawful(&self, header: &Header, variables: usize, locations: usize) -> bool
        ensures { result ≡ is_lawful_action header.now variables locations self.now }
    {
        match self {
            Action::Block(block) => block.is_lawful(header, variables, locations),
            Action::Copy { to, from, next } => {
                (*to as usize) < variables && from.fits(variables) && (*next as usize) < locations
            }
            Action::New { to, next } => (*to as usize) < variables && (*next as usize) < locations,
            Action::Return(_) => true,
        }
    }

    /// Whether the action writes.
    pub fn is_site(&self) -> bool
        ensures { result ≡ is_site self.now }
    {
        match self {
            Action::Block(block) => !block.writes.is_empty(),
            Action::Copy { .. } | Action::New { .. } | Action::Return(_) => false,
        }
    }
}

impl Action {
    // Whether an effect of the action claims few enough facts.
    fn has_few_facts(&self, header: &Header) -> bool
        requires flags { length header.now.flags ≤ FLAGS_LIMIT }
        requires pointers { length header.now.pointers ≤ POINTERS_LIMIT }
        ensures { result ≡ has_few_facts header.now self.now }
    {
        match self {
            Action::Block(block) => {
                block.writes.is_empty()
                    || header.effect_fact_count(block.name_count()) <= EFFECT_FACTS_LIMIT
            }
            Action::Copy { .. } | Action::New { .. } | Action::Return(_) => true,
        }
    }
}

impl Header {
    /// How many variables a method may have: fewer where there is a condition of frozen nodes, since
    /// then each pair of names may have a chain.
    pub fn variables_limit(&self) -> u32
        ensures { result ≡ variables_limit self.now }
    {
        if self.freeze.is_some() {
            FROZEN_VARIABLES_LIMIT
        } else {
            VARIABLES_LIMIT
        }
    }

    /// How many facts an effect with so many names may claim.
    pub fn effect_fact_count(&self, names: u32) -> u32
        requires flags { length self.now.flags ≤ FLAGS_LIMIT }
        requires pointers { length self.now.pointers ≤ POINTERS_LIMIT }
        requires names { names ≤ VARIABLES_LIMIT + 1 }
        ensures { result ≡ effect_fact_count self.now names }
    {
        let flags = self.flags.len() as u32;
        let pointers = self.pointers.len() as u32;
        let pairs = names * names.saturating_sub(1);
        let chains = u32::from(pointers == 1 && self.freeze.is_some());
        let of_name = 13 + 2 * flags + pointers * (names + 1) + u32::from(self.has_lock);
        (3 + chains) * pairs + of_name * names + 2
    }
}

impl Location {
    // Whether the location may stand in a method with so many variables and locations.
    fn is_lawful(&self, header: &Header, variables: usize, locations: usize) -> bool
        requires flags { length header.now.flags ≤ FLAGS_LIMIT }
        requires pointers { length header.now.pointers ≤ POINTERS_LIMIT }
        ensures { result ≡ is_lawful_location header.now variables locations self.now }
    {
        self.action.is_lawful(header, variables, locations) && self.action.has_few_facts(header)
    }
}

impl Method {
    /// How many locations the method has that write.
    pub fn site_count(&self) -> usize
        ensures { result ≡ site_count self.now }
    {
        let mut count = 0;
        for location in self.locations.as_slice() {
            if location.action.is_site() {
                count += 1;
            }
        }
        count
    }

    fn names_no_variable(&self) -> bool
        ensures { result ≡ list_all (names_differ self.now.arg) self.now.variables }
    {
        self.variables
            .as_slice()
            .iter()
            .all(|variable| self.arg.is_apart(variable))
    }

    fn has_distinct_variables(&self) -> bool
        ensures { result ≡ (list_all (names_differ self.now.arg) self.now.variables
            && all_pairs names_differ self.now.variables) }
    {
        self.names_no_variable() && all_apart(self.variables.as_slice())
    }

    fn has_lawful_locations(&self, header: &Header) -> bool
        requires flags { length header.now.flags ≤ FLAGS_LIMIT }
        requires pointers { length header.now.pointers ≤ POINTERS_LIMIT }
        ensures { result ≡ list_all
            (is_lawful_location header.now (length self.now.variables) (length self.now.locations))
            self.now.locations }
    {
        let variables = self.variables.len();
        let locations = self.locations.len();
        self.locations.as_slice().iter().all(|location| location.is_lawful(
            header, variables, locations,
        ))
    }

    // Whether the method may stand in a program with this header.
    fn is_lawful(&self, header: &Header) -> bool
        requires flags { length header.now.flags ≤ FLAGS_LIMIT }
        requires pointers { length header.now.pointers ≤ POINTERS_LIMIT }
        ensures { result ≡ is_lawful_method header.now self.now }
    {
        self.variables.len() <= header.variables_limit() as usize
            && self.has_distinct_variables()
            && self.locations.len() > 0
            && self.has_lawful_locations(header)
    }
}

// Whether the methods have no more locations together.
fn locations_are_within(methods: &[Method], limit: usize) -> bool
    ensures { result ≡ nat_le (sum_by location_count methods.now) limit }
{
    let mut left = limit;
    for method in methods {
        let count = method.locations.len();
        if count > left {
            return false;
        }
        left -= count;
    }
    true
}

// Whether the methods have no more locations together that write.
fn sites_are_within(methods: &[Method], limit: usize) -> bool
    ensures { result ≡ nat_le (sum_by site_count methods.now) limit }
{
    let mut left = limit;
    for method in methods {
        let count = method.site_count();
        if count > left {
            return false;
        }
        left -= count;
    }
    true
}

fn are_within_limits(methods: &[Method]) -> bool
    ensures { result ≡ are_methods_within_limits methods.now }
{
    methods.len() > 0
        && methods.len() <= METHODS_LIMIT as usize
        && locations_are_within(methods, LOCATIONS_LIMIT as usize)
        && sites_are_within(methods, SITES_LIMIT as usize)
}

fn each_is_lawful(header: &Header, methods: &[Method]) -> bool
    requires flags { length header.now.flags ≤ FLAGS_LIMIT }
    requires pointers { length header.now.pointers ≤ POINTERS_LIMIT }
    ensures { result ≡ list_all (is_lawful_method header.now) methods.now }
{
    methods.iter().all(|method| method.is_lawful(header))
}

/// Whether a program may have these methods beside a header that is within its limits: they are within
/// the limits, their names differ, and each step of a method stays in it and breaks no typing rule.
pub fn are_lawful(header: &Header, methods: &[Method]) -> bool
    requires flags { length header.now.flags ≤ FLAGS_LIMIT }
    requires pointers { length header.now.pointers ≤ POINTERS_LIMIT }
    ensures { result ≡ are_lawful_methods header.now methods.now }
{
    are_within_limits(methods) && all_apart(methods) && each_is_lawful(header, methods)
}
