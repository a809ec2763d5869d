ghost use Rattle.std.specs.Prelude.{◌≡◌, ◌≤◌, suc, ◌+◌, true, length};
ghost use Rattle.plank_prog.specs.Methods.{is_site};
ghost use Rattle.plank_pic.specs.Calls.{own_names, binds_of, bind_place};
ghost use Rattle.plank_fact.specs.Effects.{read_below, other_name};
ghost use Rattle.plank_query.specs.Sites.{action_reads_below, read_in_all, action_reads, site_name};

use plank_pic::Exit;
use plank_prog::{Action, Bind, Block, Reference};
use plank_step::TakesTurn;

/// The own call's turn at a location, by an exit.
#[derive(Clone, Copy)]
pub struct OwnTurn<'a> {
    /// How many variables its method has.
    pub variables: u8,
    pub action: &'a Action,
    pub exit: Exit,
    pub ghost few: { own_names variables action.now ≤ 16 },
}

/// The turn of another call at a location that writes, by the exit yes, as a call sees it.
#[derive(Clone, Copy)]
pub struct SiteTurn<'a> {
    /// How many variables the method of the own call has.
    pub variables: u8,
    /// How many the method of the other call has.
    pub others: u8,
    pub action: &'a Action,
    pub ghost few: { suc variables + action_reads action.now ≤ 16 },
    pub ghost writes: { is_site action.now ≡ true },
}

/// Whoever takes a turn.
#[derive(Clone, Copy)]
pub enum Actor<'a> {
    Own(OwnTurn<'a>),
    Other(SiteTurn<'a>),
}

fn binds_of(action: &Action) -> &[Bind]
    ensures { result.now ≡ binds_of action.now }
{
    match action {
        Action::Block(block) => block.binds.as_slice(),
        Action::Copy { .. } | Action::New { .. } | Action::Return(_) => &[],
    }
}

// The place of the bind of a variable, and that behind the last where none is of it.
fn bind_place(variable: u8, binds: &[Bind]) -> u8
    requires { length binds.now ≤ 16 }
    ensures place { result ≡ bind_place variable binds.now }
    ensures within { result ≤ length binds.now }
{
    let mut place = 0;
    for bind in binds {
        if bind.to == variable {
            return place;
        }
        place += 1;
    }
    place
}

// How many variables below one a block reads.
#[tactic(auto, using(crate::proofs::FewNames::read_few))]
fn read_below(block: &Block, variable: u8) -> u8
    ensures count { result ≡ read_below block.now variable }
    ensures few { result ≤ read_in_all block.now }
{
    let mut count = 0;
    for earlier in 0..variable {
        if block.reads(Reference::Variable(earlier)) {
            count += 1;
        }
    }
    count
}

// The same of an action, where it is a block.
fn action_reads_below(action: &Action, variable: u8) -> u8
    ensures count { result ≡ action_reads_below action.now variable }
    ensures few { result ≤ action_reads action.now }
{
    match action {
        Action::Block(block) => read_below(block, variable),
        Action::Copy { .. } | Action::New { .. } | Action::Return(_) => 0,
    }
}

// The name of what another call speaks of, after the n names of the own call.
fn other_name(n: u8, block: &Block, reference: Reference) -> Option<u8>
    requires { n + read_in_all block.now ≤ 16 }
    ensures { result ≡ other_name n block.now reference }
{
    match reference {
        Reference::Root => Some(0),
        Reference::Variable(variable) => {
            if block.reads(reference) {
                Some(n + read_below(block, variable))
            } else {
                None
            }
        }
    }
}

// The same of an action; of one that is no block none has a name.
fn site_name(n: u8, action: &Action, reference: Reference) -> Option<u8>
    requires { n + action_reads action.now ≤ 16 }
    ensures { result ≡ site_name n action.now reference }
{
    match action {
        Action::Block(block) => other_name(n, block, reference),
        Action::Copy { .. } | Action::New { .. } | Action::Return(_) => None,
    }
}

impl<'a> OwnTurn<'a> {
    /// How many names its pictures have: the root's, those of the variables, and one for what each bind
    /// reads.
    pub fn names(&self) -> u8
        ensures { result ≡ own_names self.now.variables self.now.action.now }
    {
        1 + self.variables + binds_of(self.action).len() as u8
    }
}

impl<'a> SiteTurn<'a> {
    /// How many names its pictures have: those of the own call, and those that the action reads.
    pub fn names(&self) -> u8
        ensures { result ≡ suc self.now.variables + action_reads_below self.now.action.now self.now.others }
    {
        1 + self.variables + action_reads_below(self.action, self.others)
    }
}

impl<'a> TakesTurn for OwnTurn<'a> {
    ghost use Rattle.plank_query.specs.Situations.{turn_of_own};

    ghost turn = { turn_of_own };

    fn action(&self) -> &Action {
        self.action
    }

    fn is_yes(&self) -> bool {
        match self.exit {
            Exit::Yes => true,
            Exit::No => false,
        }
    }

    fn is_mine(&self) -> bool {
        true
    }

    fn name_of(&self, reference: Reference) -> Option<u8> {
        match reference {
            Reference::Root => Some(0),
            Reference::Variable(variable) => {
                if variable < self.variables {
                    Some(variable + 1)
                } else {
                    None
                }
            }
        }
    }

    fn read_by(&self, variable: u8) -> u8 {
        1 + self.variables + bind_place(variable, binds_of(self.action))
    }
}

impl<'a> TakesTurn for SiteTurn<'a> {
    ghost use Rattle.plank_query.specs.Situations.{turn_of_site};

    ghost turn = { turn_of_site };

    fn action(&self) -> &Action {
        self.action
    }

    fn is_yes(&self) -> bool {
        true
    }

    fn is_mine(&self) -> bool {
        false
    }

    fn name_of(&self, reference: Reference) -> Option<u8> {
        site_name(1 + self.variables, self.action, reference)
    }

    fn read_by(&self, _variable: u8) -> u8 {
        0
    }
}

impl<'a> TakesTurn for Actor<'a> {
    ghost use Rattle.plank_query.specs.Situations.{turn_of_actor};

    ghost turn = { turn_of_actor };

    fn action(&self) -> &Action {
        match self {
            Actor::Own(turn) => turn.action(),
            Actor::Other(turn) => turn.action(),
        }
    }

    fn is_yes(&self) -> bool {
        match self {
            Actor::Own(turn) => turn.is_yes(),
            Actor::Other(turn) => turn.is_yes(),
        }
    }

    fn is_mine(&self) -> bool {
        match self {
            Actor::Own(turn) => turn.is_mine(),
            Actor::Other(turn) => turn.is_mine(),
        }
    }

    fn name_of(&self, reference: Reference) -> Option<u8> {
        match self {
            Actor::Own(turn) => turn.name_of(reference),
            Actor::Other(turn) => turn.name_of(reference),
        }
    }

    fn read_by(&self, variable: u8) -> u8 {
        match self {
            Actor::Own(turn) => turn.read_by(variable),
            Actor::Other(turn) => turn.read_by(variable),
        }
    }
}
