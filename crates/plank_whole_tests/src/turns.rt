//! Turns at actions that are made by hand.
use plank_base::OutOfMemory;
use plank_prog::{Action, Bind, Block, Reference, Test, Write};
use plank_step::TakesTurn;
use sqlite_items::Items;
use std::alloc::Global;

/// The first variable, whose name is 1.
pub const P: Reference = Reference::Variable(0);

/// The second, whose name is 2.
pub const Q: Reference = Reference::Variable(1);

/// A turn. The root has the name 0, and what a bind reads the name 3.
#[derive(Clone, Copy)]
pub struct Turn<'a> {
    pub action: &'a Action,
    pub yes: bool,
    pub mine: bool,
}

/// The own thread's turn by the exit yes.
pub fn own(action: &Action) -> Turn<'_> {
    Turn {
        action,
        yes: true,
        mine: true,
    }
}

impl<'a> Turn<'a> {
    /// The same by the exit no.
    pub fn no(self) -> Turn<'a> {
        Turn { yes: false, ..self }
    }

    /// The same of the other thread.
    pub fn of_other(self) -> Turn<'a> {
        Turn {
            mine: false,
            ..self
        }
    }
}

impl<'a> TakesTurn for Turn<'a> {
    ghost use Rattle.plank_pic.specs.Calls.{own_name};

    ghost turn = { λ t. record { action = t.action.now; yes = t.yes; mine = t.mine; name_of = own_name 2; read_by = λ v. 3 } };

    fn action(&self) -> &Action {
        self.action
    }

    fn is_yes(&self) -> bool {
        self.yes
    }

    fn is_mine(&self) -> bool {
        self.mine
    }

    fn name_of(&self, reference: Reference) -> Option<u8> {
        match reference {
            Reference::Root => Some(0),
            Reference::Variable(variable) => if variable < 2 {
                Some(variable + 1)
            } else {
                None
            },
        }
    }

    fn read_by(&self, _variable: u8) -> u8 {
        3
    }
}

/// A block of a test, a bind and a write, or of some of these.
pub fn block(
    alloc: Global,
    test: Option<Test>,
    bind: Option<Bind>,
    write: Option<Write>,
) -> Result<Action, OutOfMemory> {
    let mut tests = Items::new(alloc);
    if let Some(test) = test {
        tests.push(test)?;
    }
    let mut binds = Items::new(alloc);
    if let Some(bind) = bind {
        binds.push(bind)?;
    }
    let mut writes = Items::new(alloc);
    if let Some(write) = write {
        writes.push(write)?;
    }
    Ok(Action::Block(Block {
        with: Items::new(alloc),
        tests,
        binds,
        writes,
        yes: 0,
        no: 0,
    }))
}

/// A block that writes.
pub fn writing(alloc: Global, write: Write) -> Result<Action, OutOfMemory> {
    block(alloc, None, None, Some(write))
}

/// p reads its own pointer.
pub fn next_of_p() -> Bind {
    Bind {
        to: 0,
        from: P,
        pointer: 0,
    }
}
