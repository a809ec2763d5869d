ghost use Rattle.std.specs.Prelude.{◌≡◌};
ghost use Rattle.plank_report.specs.Names.{node_name, flag_name, pointer_name};

use plank_prog::{Header, Method, Reference};

/// Where the names stand that the steps and the facts of a method are written with.
#[derive(Clone, Copy)]
pub struct Names<'a> {
    pub header: &'a Header,
    pub method: &'a Method,
}

impl<'a> Names<'a> {
    /// The root, or a variable of the method.
    pub fn node(&self, node: Reference) -> &'a [u8]
        ensures { result.now ≡ node_name self.now.method.now node }
    {
        match node {
            Reference::Root => b"root",
            Reference::Variable(variable) => match self.method.variables.get(variable as usize) {
                Some(name) => name.as_bytes(),
                None => &[],
            },
        }
    }

    pub fn flag(&self, flag: u8) -> &'a [u8]
        ensures { result.now ≡ flag_name self.now.header.now flag }
    {
        match self.header.flags.get(flag as usize) {
            Some(name) => name.as_bytes(),
            None => &[],
        }
    }

    pub fn pointer(&self, pointer: u8) -> &'a [u8]
        ensures { result.now ≡ pointer_name self.now.header.now pointer }
    {
        match self.header.pointers.get(pointer as usize) {
            Some(pointer) => pointer.name.as_bytes(),
            None => &[],
        }
    }

    /// The argument of the method.
    pub fn argument(&self) -> &'a [u8]
        ensures { result.now ≡ self.now.method.now.arg }
    {
        self.method.arg.as_bytes()
    }
}
