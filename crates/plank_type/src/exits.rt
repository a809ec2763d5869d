ghost use Rattle.std.specs.Prelude.{◌≡◌};
ghost use Rattle.plank_type.specs.Statements.{exit_within, loop_exits, exits_before};
ghost use Rattle.plank_type.specs.Methods.{end_exits};

/// Where the steps of statements lead that leave them.
#[derive(Clone, Copy, Debug, PartialEq, Eq)]
pub(crate) struct Exits {
    /// After the last of the statements.
    pub next: u32,
    /// At a `break`.
    pub of_break: u32,
    /// At a `continue`.
    pub of_continue: u32,
}

/// An exit past the end of the method leads back to its own location.
pub(crate) fn exit_within(count: u32, at: u32, exit: u32) -> u32
    ensures { result ≡ exit_within count at exit }
{
    if exit < count { exit } else { at }
}

impl Exits {
    /// The exits of the body of a loop that stands at a location.
    pub(crate) fn of_loop_body(self, at: u32) -> Exits
        ensures { result ≡ loop_exits at self }
    {
        Exits {
            next: at,
            of_break: self.next,
            of_continue: at,
        }
    }

    /// The exits of a statement after which others follow.
    pub(crate) fn before(self, next: u32) -> Exits
        ensures { result ≡ exits_before next self }
    {
        Exits {
            next,
            of_break: self.of_break,
            of_continue: self.of_continue,
        }
    }

    /// The exits of a method with so many locations: past the end there is none.
    pub(crate) fn of_method(count: u32) -> Exits
        ensures { result ≡ end_exits count }
    {
        Exits {
            next: count,
            of_break: count,
            of_continue: count,
        }
    }
}
