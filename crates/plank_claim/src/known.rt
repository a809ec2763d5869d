ghost use Rattle.std.specs.Prelude.{◌≡◌, not, ◌&&◌};
ghost use Rattle.plank_prog.specs.Blocks.{block_reads, block_names};
ghost use Rattle.plank_fact.specs.Literals.{is_over, is_of_call};
ghost use Rattle.plank_claim.specs.Claims.{passes};

use plank_pic::Literal;
use plank_prog::Block;

/// Which of the claims at a location are meant.
#[derive(Clone, Copy)]
pub enum Known<'a> {
    /// All of them.
    All,
    /// Those that another call may know, of the names that stand in the block other than as the variables
    /// of its binds.
    Read(&'a Block),
    /// Those that another call may know, of the names that stand in the block.
    Named(&'a Block),
}

// What the call itself has done, which other calls do not know.
fn is_of_call(literal: &Literal) -> bool
    ensures { result ≡ is_of_call literal.now }
{
    match literal {
        Literal::Spent | Literal::Unspent => true,
        _ => false,
    }
}

fn is_over_read(block: &Block, literal: &Literal) -> bool
    ensures { result ≡ is_over (block_reads block.now) literal.now }
{
    match *literal {
        Literal::Same { left, right }
        | Literal::Apart { left, right }
        | Literal::KeyBelow { left, right }
        | Literal::KeyAtMost { left, right }
        | Literal::Chain {
            from: left,
            to: right,
        }
        | Literal::Leads {
            name: left,
            to: right,
            ..
        } => block.reads(left) && block.reads(right),
        Literal::InSet | Literal::NotInSet | Literal::Spent | Literal::Unspent => true,
        Literal::Null { name }
        | Literal::NotNull { name }
        | Literal::BelowArgument { name }
        | Literal::AtMostArgument { name }
        | Literal::AboveArgument { name }
        | Literal::AtLeastArgument { name }
        | Literal::KeyIsMin { name }
        | Literal::AboveMin { name }
        | Literal::BelowMax { name }
        | Literal::KeyIsMax { name }
        | Literal::Flag { name, .. }
        | Literal::NoFlag { name, .. }
        | Literal::LeadsNowhere { name, .. }
        | Literal::Locked { name }
        | Literal::Owned { name }
        | Literal::Shared { name }
        | Literal::Visited { name } => block.reads(name),
    }
}

fn is_over_names(block: &Block, literal: &Literal) -> bool
    ensures { result ≡ is_over (block_names block.now) literal.now }
{
    match *literal {
        Literal::Same { left, right }
        | Literal::Apart { left, right }
        | Literal::KeyBelow { left, right }
        | Literal::KeyAtMost { left, right }
        | Literal::Chain {
            from: left,
            to: right,
        }
        | Literal::Leads {
            name: left,
            to: right,
            ..
        } => block.names(left) && block.names(right),
        Literal::InSet | Literal::NotInSet | Literal::Spent | Literal::Unspent => true,
        Literal::Null { name }
        | Literal::NotNull { name }
        | Literal::BelowArgument { name }
        | Literal::AtMostArgument { name }
        | Literal::AboveArgument { name }
        | Literal::AtLeastArgument { name }
        | Literal::KeyIsMin { name }
        | Literal::AboveMin { name }
        | Literal::BelowMax { name }
        | Literal::KeyIsMax { name }
        | Literal::Flag { name, .. }
        | Literal::NoFlag { name, .. }
        | Literal::LeadsNowhere { name, .. }
        | Literal::Locked { name }
        | Literal::Owned { name }
        | Literal::Shared { name }
        | Literal::Visited { name } => block.names(name),
    }
}

impl<'a> Known<'a> {
    /// Whether a claim is meant.
    pub fn passes(&self, literal: &Literal) -> bool
        ensures { result ≡ passes self.now literal.now }
    {
        match self {
            Known::All => true,
            Known::Read(block) => !is_of_call(literal) && is_over_read(block, literal),
            Known::Named(block) => !is_of_call(literal) && is_over_names(block, literal),
        }
    }
}
