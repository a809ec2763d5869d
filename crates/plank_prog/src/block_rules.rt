ghost use Rattle.std.specs.Prelude.{◌≡◌, ◌≤◌, ◌+◌, length};
ghost use Rattle.std.specs.List.{list_any, list_all};
ghost use Rattle.plank_prog.specs.declared.blocks.Reference.{Reference};
ghost use Rattle.plank_prog.specs.Blocks.{same_reference, value_reads, key_reads, pointer_reads, test_reads, written_node, write_reads, block_reads, block_binds, block_names, name_count, reference_fits, value_fits, flag_fits, key_fits, pointer_fits, is_field, test_fits, bind_fits, write_fits, same_field, tests_lock, writes_lock, moves_lock, is_lock_statement, locks_stand_alone, binds_stand_alone, block_parts_fit, is_lawful_block};

use crate::blocks::{
    Bind, Block, FlagOperand, KeyOperand, PointerOperand, Reference, Test, Value, Write,
};
use crate::headers::Header;
use crate::names::all_apart;
use plank_base::VARIABLES_LIMIT;

impl Reference {
    /// Whether two names are the same.
    pub fn is_same(self, other: Reference) -> bool
        ensures { result ≡ same_reference self other }
    {
        match (self, other) {
            (Reference::Root, Reference::Root) => true,
            (Reference::Variable(v), Reference::Variable(w)) => v == w,
            _ => false,
        }
    }

    // Whether a method with so many variables has the name.
    fn fits(self, variables: usize) -> bool
        ensures { result ≡ reference_fits variables self }
    {
        match self {
            Reference::Root => true,
            Reference::Variable(v) => (v as usize) < variables,
        }
    }
}

impl Value {
    fn reads(self, name: Reference) -> bool
        ensures { result ≡ value_reads name self }
    {
        match self {
            Value::Null => false,
            Value::Node(node) => name.is_same(node),
        }
    }

    // Whether a method with so many variables has its name.
    pub(crate) fn fits(self, variables: usize) -> bool
        ensures { result ≡ value_fits variables self }
    {
        match self {
            Value::Null => true,
            Value::Node(node) => node.fits(variables),
        }
    }
}

impl FlagOperand {
    fn fits(self, header: &Header, variables: usize) -> bool
        ensures { result ≡ flag_fits header.now variables self }
    {
        self.node.fits(variables) && (self.flag as usize) < header.flags.len()
    }
}

impl KeyOperand {
    fn reads(self, name: Reference) -> bool
        ensures { result ≡ key_reads name self }
    {
        match self {
            KeyOperand::Node(node) => name.is_same(node),
            KeyOperand::Argument | KeyOperand::Min | KeyOperand::Max => false,
        }
    }

    fn fits(self, variables: usize) -> bool
        ensures { result ≡ key_fits variables self }
    {
        match self {
            KeyOperand::Node(node) => node.fits(variables),
            KeyOperand::Argument | KeyOperand::Min | KeyOperand::Max => true,
        }
    }
}

impl PointerOperand {
    fn reads(self, name: Reference) -> bool
        ensures { result ≡ pointer_reads name self }
    {
        match self {
            PointerOperand::Null => false,
            PointerOperand::Node(node) => name.is_same(node),
            PointerOperand::Field { node, pointer: _ } => name.is_same(node),
        }
    }

    fn fits(self, header: &Header, variables: usize) -> bool
        ensures { result ≡ pointer_fits header.now variables self }
    {
        match self {
            PointerOperand::Null => true,
            PointerOperand::Node(node) => node.fits(variables),
            PointerOperand::Field { node, pointer } => {
                node.fits(variables) && (pointer as usize) < header.pointers.len()
            }
        }
    }

    fn is_field(self) -> bool
        ensures { result ≡ is_field self }
    {
        match self {
            PointerOperand::Field { .. } => true,
            PointerOperand::Null => false,
            PointerOperand::Node(_) => false,
        }
    }
}

impl Test {
    fn reads(self, name: Reference) -> bool
        ensures { result ≡ test_reads name self }
    {
        match self {
            Test::Flag { flag, set: _ } => name.is_same(flag.node),
            Test::Flags { left, right, .. } => name.is_same(left.node) || name.is_same(right.node),
            Test::Keys { left, right, .. } => left.reads(name) || right.reads(name),
            Test::Pointers { left, right, .. } => left.reads(name) || right.reads(name),
            Test::LockFree { node } => name.is_same(node),
            Test::LockOwn { node } => name.is_same(node),
        }
    }

    fn fits(self, header: &Header, variables: usize) -> bool
        ensures { result ≡ test_fits header.now variables self }
    {
        match self {
            Test::Flag { flag, set: _ } => flag.fits(header, variables),
            Test::Flags { left, right, .. } => {
                left.fits(header, variables) && right.fits(header, variables)
            }
            Test::Keys { left, right, .. } => left.fits(variables) && right.fits(variables),
            Test::Pointers { left, right, .. } => {
                left.fits(header, variables)
                    && right.fits(header, variables)
                    && !(left.is_field() && right.is_field())
            }
            Test::LockFree { node } => header.has_lock && node.fits(variables),
            Test::LockOwn { node } => header.has_lock && node.fits(variables),
        }
    }

    fn tests_lock(self) -> bool
        ensures { result ≡ tests_lock self }
    {
        match self {
            Test::LockFree { .. } | Test::LockOwn { .. } => true,
            Test::Flag { .. } | Test::Flags { .. } | Test::Keys { .. } | Test::Pointers { .. } => {
                false
            }
        }
    }
}

impl Bind {
    fn fits(self, header: &Header, variables: usize) -> bool
        ensures { result ≡ bind_fits header.now variables self }
    {
        (self.to as usize) < variables
            && self.from.fits(variables)
            && (self.pointer as usize) < header.pointers.len()
    }
}

impl Write {
    /// The node that is written.
    pub fn node(self) -> Reference
        ensures { result ≡ written_node self }
    {
        match self {
            Write::Flag { node, .. } => node,
            Write::Pointer { node, .. } => node,
            Write::TakeLock { node } => node,
            Write::FreeLock { node } => node,
        }
    }

    fn reads(self, name: Reference) -> bool
        ensures { result ≡ write_reads name self }
    {
        match self {
            Write::Flag { node, .. } => name.is_same(node),
            Write::Pointer { node, value, .. } => name.is_same(node) || value.reads(name),
            Write::TakeLock { node } => name.is_same(node),
            Write::FreeLock { node } => name.is_same(node),
        }
    }

    fn fits(self, header: &Header, variables: usize) -> bool
        ensures { result ≡ write_fits header.now variables self }
    {
        match self {
            Write::Flag { node, flag, .. } => {
                node.fits(variables) && (flag as usize) < header.flags.len()
            }
            Write::Pointer {
                node,
                pointer,
                value,
            } => {
                node.fits(variables)
                    && (pointer as usize) < header.pointers.len()
                    && value.fits(variables)
            }
            Write::TakeLock { node } => header.has_lock && node.fits(variables),
            Write::FreeLock { node } => header.has_lock && node.fits(variables),
        }
    }

    pub(crate) fn is_same_field(self, other: Write) -> bool
        ensures { result ≡ same_field self other }
    {
        match (self, other) {
            (Write::Flag { flag, .. }, Write::Flag { flag: second, .. }) => flag == second,
            (
                Write::Pointer { pointer, .. },
                Write::Pointer {
                    pointer: second,
                    ..
                },
            ) => { pointer == second }
            (Write::TakeLock { .. }, Write::TakeLock { .. }) => true,
            (Write::TakeLock { .. }, Write::FreeLock { .. }) => true,
            (Write::FreeLock { .. }, Write::TakeLock { .. }) => true,
            (Write::FreeLock { .. }, Write::FreeLock { .. }) => true,
            _ => false,
        }
    }

    fn writes_lock(self) -> bool
        ensures { result ≡ writes_lock self }
    {
        match self {
            Write::TakeLock { .. } | Write::FreeLock { .. } => true,
            Write::Flag { .. } | Write::Pointer { .. } => false,
        }
    }
}

// Whether the two take a lock that is free, or free the thread's own.
fn moves_lock(test: Test, write: Write) -> bool
    ensures { result ≡ moves_lock test write }
{
    match (test, write) {
        (Test::LockFree { node }, Write::TakeLock { node: written }) => node.is_same(written),
        (Test::LockOwn { node }, Write::FreeLock { node: written }) => node.is_same(written),
        _ => false,
    }
}

impl Block {
    fn with_reads(&self, name: Reference) -> bool
        ensures { result ≡ list_any (λ q. same_reference name q) self.now.with }
    {
        self.with
            .as_slice()
            .iter()
            .any(|other| name.is_same(*other))
    }

    fn tests_read(&self, name: Reference) -> bool
        ensures { result ≡ list_any (λ t. test_reads name t) self.now.tests }
    {
        self.tests.as_slice().iter().any(|test| test.reads(name))
    }

    fn binds_read(&self, name: Reference) -> bool
        ensures { result ≡ list_any (λ d. same_reference name d.from) self.now.binds }
    {
        self.binds
            .as_slice()
            .iter()
            .any(|bind| name.is_same(bind.from))
    }

    fn writes_read(&self, name: Reference) -> bool
        ensures { result ≡ list_any (λ w. write_reads name w) self.now.writes }
    {
        self.writes.as_slice().iter().any(|write| write.reads(name))
    }

    /// Whether the name stands in the block other than as the variable of a bind.
    pub fn reads(&self, name: Reference) -> bool
        ensures { result ≡ block_reads self.now name }
    {
        self.with_reads(name)
            || self.tests_read(name)
            || self.binds_read(name)
            || self.writes_read(name)
    }

    /// Whether the block binds the variable of this number.
    pub fn binds_variable(&self, variable: u8) -> bool
        ensures { result ≡ block_binds self.now variable }
    {
        self.binds.as_slice().iter().any(|bind| bind.to == variable)
    }

    /// Whether the name stands in the block.
    pub fn names(&self, name: Reference) -> bool
        ensures { result ≡ block_names self.now name }
    {
        match name {
            Reference::Root => self.reads(name),
            Reference::Variable(v) => self.reads(name) || self.binds_variable(v),
        }
    }

    /// How many names stand in the block.
    pub fn name_count(&self) -> u32
        ensures count { result ≡ name_count self.now }
        ensures few { result ≤ VARIABLES_LIMIT + 1 }
    {
        let mut count = u32::from(self.names(Reference::Root));
        for variable in 0..VARIABLES_LIMIT as u8 {
            count += u32::from(self.names(Reference::Variable(variable)));
        }
        count
    }

    fn with_fits(&self, variables: usize) -> bool
        ensures { result ≡ list_all (reference_fits variables) self.now.with }
    {
        self.with.as_slice().iter().all(|name| name.fits(variables))
    }

    fn tests_fit(&self, header: &Header, variables: usize) -> bool
        ensures { result ≡ list_all (test_fits header.now variables) self.now.tests }
    {
        self.tests
            .as_slice()
            .iter()
            .all(|test| test.fits(header, variables))
    }

    fn binds_fit(&self, header: &Header, variables: usize) -> bool
        ensures { result ≡ list_all (bind_fits header.now variables) self.now.binds }
    {
        self.binds
            .as_slice()
            .iter()
            .all(|bind| bind.fits(header, variables))
    }

    fn writes_fit(&self, header: &Header, variables: usize) -> bool
        ensures { result ≡ list_all (write_fits header.now variables) self.now.writes }
    {
        self.writes
            .as_slice()
            .iter()
            .all(|write| write.fits(header, variables))
    }

    // Whether each part names parts that are there.
    fn has_fitting_parts(&self, header: &Header, variables: usize) -> bool
        ensures { result ≡ block_parts_fit header.now variables self.now }
    {
        self.with_fits(variables)
            && self.tests_fit(header, variables)
            && self.binds_fit(header, variables)
            && self.writes_fit(header, variables)
    }

    fn reads_bound_variable(&self) -> bool
        ensures { result ≡ list_any (λ d. block_reads self.now (Reference.Variable d.to)) self.now.binds }
    {
        self.binds
            .as_slice()
            .iter()
            .any(|bind| self.reads(Reference::Variable(bind.to)))
    }

    // Whether each bound variable occurs once.
    fn binds_stand_alone(&self) -> bool
        ensures { result ≡ binds_stand_alone self.now }
    {
        all_apart(self.binds.as_slice()) && !self.reads_bound_variable()
    }

    /// Whether the block is a `lock` or an `unlock` statement.
    pub fn is_lock_statement(&self) -> bool
        ensures { result ≡ is_lock_statement self.now }
    {
        self.with.is_empty()
            && self.binds.is_empty()
            && match (self.tests.as_slice(), self.writes.as_slice()) {
                ([test], [write]) => moves_lock(*test, *write),
                _ => false,
            }
    }

    fn tests_a_lock(&self) -> bool
        ensures { result ≡ list_any tests_lock self.now.tests }
    {
        self.tests.as_slice().iter().any(|test| test.tests_lock())
    }

    fn writes_a_lock(&self) -> bool
        ensures { result ≡ list_any writes_lock self.now.writes }
    {
        self.writes
            .as_slice()
            .iter()
            .any(|write| write.writes_lock())
    }

    // Whether locks are tested and written by `lock` and `unlock` statements alone.
    fn locks_stand_alone(&self) -> bool
        ensures { result ≡ locks_stand_alone self.now }
    {
        self.is_lock_statement() || !(self.tests_a_lock() || self.writes_a_lock())
    }

    // Whether the block may stand in a method with so many variables and locations.
    pub(crate) fn is_lawful(&self, header: &Header, variables: usize, locations: usize) -> bool
        ensures { result ≡ is_lawful_block header.now variables locations self.now }
    {
        self.has_fitting_parts(header, variables)
            && (self.yes as usize) < locations
            && (self.no as usize) < locations
            && all_apart(self.with.as_slice())
            && self.binds_stand_alone()
            && all_apart(self.writes.as_slice())
            && self.locks_stand_alone()
    }
}
