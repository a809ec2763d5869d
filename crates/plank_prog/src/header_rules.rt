ghost use Rattle.std.specs.Prelude.{◌≡◌, ◌^◌, nat_lt, length};
ghost use Rattle.std.specs.List.{list_all};
ghost use Rattle.plank_prog.specs.Names.{names_differ};
ghost use Rattle.plank_prog.specs.Scopes.{condition_fits};
ghost use Rattle.plank_prog.specs.Headers.{is_header_within_limits, have_distinct_fields, have_distinct_names, leads_within, is_lawful_start_node, have_lawful_nodes, walk_scope, freeze_scope, keep_scope, optional_fits, have_lawful_conditions, is_lawful_header};

use crate::conditions::Condition;
use crate::headers::{Header, StartNode};
use crate::names::{Apart, all_apart};
use crate::scopes::Scope;
use plank_base::{FLAGS_LIMIT, Label, NODES_LIMIT, POINTERS_LIMIT};

// Whether a node has no flag but the first so many.
fn has_only_flags(flags: u8, count: usize) -> bool
    ensures { result ≡ nat_lt flags (2 ^ count) }
{
    count >= u8::BITS as usize || flags < 1 << count
}

// Whether a pointer is null or leads to one of so many nodes.
fn leads_within(count: usize, to: Option<u32>) -> bool
    ensures { result ≡ leads_within count to }
{
    match to {
        Some(node) => (node as usize) < count,
        None => true,
    }
}

// Whether each pointer is null or leads to one of so many nodes.
fn all_lead_within(count: usize, pointers: &[Option<u32>]) -> bool
    ensures { result ≡ list_all (leads_within count) pointers.now }
{
    pointers.iter().all(|to| leads_within(count, *to))
}

// Whether a condition that is given fits its scope.
fn optional_fits(scope: Scope, condition: &Option<Condition>) -> bool
    ensures { result ≡ optional_fits scope condition.now }
{
    match condition {
        Some(condition) => condition.fits(scope),
        None => true,
    }
}

impl Header {
    fn is_within_limits(&self) -> bool
        ensures { result ≡ is_header_within_limits self.now }
    {
        self.flags.len() <= FLAGS_LIMIT as usize
            && self.pointers.len() <= POINTERS_LIMIT as usize
            && self.nodes.len() <= NODES_LIMIT as usize
    }

    fn names_no_pointer(&self, flag: &Label) -> bool
        ensures { result ≡ list_all (λ p. names_differ flag.now p.name) self.now.pointers }
    {
        self.pointers
            .as_slice()
            .iter()
            .all(|pointer| flag.is_apart(&pointer.name))
    }

    fn flags_name_no_pointer(&self) -> bool
        ensures { result ≡ list_all (λ flag. list_all (λ p. names_differ flag p.name) self.now.pointers) self.now.flags }
    {
        self.flags
            .as_slice()
            .iter()
            .all(|flag| self.names_no_pointer(flag))
    }

    fn has_distinct_fields(&self) -> bool
        ensures { result ≡ have_distinct_fields self.now }
    {
        all_apart(self.flags.as_slice())
            && all_apart(self.pointers.as_slice())
            && self.flags_name_no_pointer()
    }

    fn has_distinct_names(&self) -> bool
        ensures { result ≡ have_distinct_names self.now }
    {
        self.has_distinct_fields()
            && all_apart(self.nodes.as_slice())
            && all_apart(self.keeps.as_slice())
    }

    fn is_lawful_node(&self, node: &StartNode) -> bool
        ensures { result ≡ is_lawful_start_node self.now node.now }
    {
        let count = self.nodes.len();
        !node.key.is_ordinary()
            && has_only_flags(node.flags, self.flags.len())
            && node.pointers.len() == self.pointers.len()
            && all_lead_within(count, node.pointers.as_slice())
    }

    fn each_node_is_lawful(&self) -> bool
        ensures { result ≡ list_all (is_lawful_start_node self.now) self.now.nodes }
    {
        self.nodes
            .as_slice()
            .iter()
            .all(|node| self.is_lawful_node(node))
    }

    fn has_lawful_nodes(&self) -> bool
        ensures { result ≡ have_lawful_nodes self.now }
    {
        (self.root as usize) < self.nodes.len() && self.each_node_is_lawful()
    }

    /// What conditions on edges and on ends of walks may ask for.
    pub fn walk_scope(&self) -> Scope
        ensures { result ≡ walk_scope self.now }
    {
        Scope {
            flags: self.flags.len(),
            pointers: 0,
            walked: true,
            visited: false,
        }
    }

    /// What the condition of frozen nodes may ask for.
    pub fn freeze_scope(&self) -> Scope
        ensures { result ≡ freeze_scope self.now }
    {
        Scope {
            flags: self.flags.len(),
            pointers: 0,
            walked: false,
            visited: false,
        }
    }

    /// What a keep may ask for.
    pub fn keep_scope(&self) -> Scope
        ensures { result ≡ keep_scope self.now }
    {
        Scope {
            flags: self.flags.len(),
            pointers: self.pointers.len(),
            walked: true,
            visited: true,
        }
    }

    fn has_lawful_edges(&self) -> bool
        ensures { result ≡ list_all (λ p. optional_fits (walk_scope self.now) p.edge) self.now.pointers }
    {
        let scope = self.walk_scope();
        self.pointers
            .as_slice()
            .iter()
            .all(|pointer| optional_fits(scope, &pointer.edge))
    }

    fn has_lawful_keeps(&self) -> bool
        ensures { result ≡ list_all (λ k. condition_fits (keep_scope self.now) k.condition) self.now.keeps }
    {
        let scope = self.keep_scope();
        self.keeps
            .as_slice()
            .iter()
            .all(|keep| keep.condition.fits(scope))
    }

    fn has_lawful_conditions(&self) -> bool
        ensures { result ≡ have_lawful_conditions self.now }
    {
        self.has_lawful_edges()
            && self.holds.fits(self.walk_scope())
            && self.has_lawful_keeps()
            && optional_fits(self.freeze_scope(), &self.freeze)
    }

    /// Whether a program may have this header: it is within the limits, names of one kind differ, and
    /// start nodes and conditions speak of parts that are there.
    pub fn is_lawful(&self) -> bool
        ensures { result ≡ is_lawful_header self.now }
    {
        self.is_within_limits()
            && self.has_distinct_names()
            && self.has_lawful_nodes()
            && self.has_lawful_conditions()
    }
}
