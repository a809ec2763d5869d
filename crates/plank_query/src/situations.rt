use crate::turns::{Actor, OwnTurn, SiteTurn};

/// What a question is asked of: a lawful picture, or the two pictures of a step from one.
#[derive(Clone, Copy)]
pub enum Situation<'a> {
    /// A picture with one name. It is not known whether its node is the root.
    Node,
    /// A picture with the names of a call that has so many variables.
    Names { variables: u8 },
    /// An own picture of a location.
    Own(OwnTurn<'a>),
    /// An own step from an own picture.
    Step(OwnTurn<'a>),
    /// The same, where the binds set no variable.
    Write(OwnTurn<'a>),
    /// A step of another call that writes, where the binds set no variable.
    Effect(SiteTurn<'a>),
}

impl<'a> Situation<'a> {
    ghost use Rattle.std.specs.Prelude.{◌≡◌, ◌≤◌, option_map};
    ghost use Rattle.plank_query.specs.Situations.{names, root, turn, turn_of_actor};

    /// How many names its pictures have.
    pub fn names(&self) -> u8
        requires { names self.now ≤ 16 }
        ensures { result ≡ names self.now }
    {
        match self {
            Situation::Node => 1,
            Situation::Names { variables } => *variables + 1,
            Situation::Own(turn) | Situation::Step(turn) | Situation::Write(turn) => turn.names(),
            Situation::Effect(turn) => turn.names(),
        }
    }

    /// Which name is the root's, where one is.
    pub fn root(&self) -> Option<u8>
        ensures { result ≡ root self.now }
    {
        match self {
            Situation::Node => None,
            _ => Some(0),
        }
    }

    /// Whose turn it is, where there is one.
    pub fn actor(&self) -> Option<Actor<'a>>
        ensures { option_map turn_of_actor result ≡ turn self.now }
    {
        match self {
            Situation::Node | Situation::Names { .. } => None,
            Situation::Own(turn) | Situation::Step(turn) | Situation::Write(turn) => {
                Some(Actor::Own(*turn))
            }
            Situation::Effect(turn) => Some(Actor::Other(*turn)),
        }
    }
}
