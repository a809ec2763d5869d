ghost use Rattle.std.specs.Prelude.{◌≤◌, length, IfOk};
ghost use Rattle.plank_lex.specs.Tokens.{IsTokenList};
ghost use Rattle.plank_top.specs.Trees.{IsTreeOf};

use crate::status::Status;
use plank_ast::Text;
use plank_base::{BYTES_LIMIT, NESTING_LIMIT, OutOfMemory, Thing};
use plank_lex::{LexFault, lex};
use plank_parse::{ParseFault, parse};
use std::alloc::Global;

/// What a text is read as.
#[derive(Drop)]
pub enum Tree {
    Text(Text),
    /// It is not of the grammar, or nests too deep: the status that says so.
    Refused(Status),
}

/// Reads a text.
pub fn tree_of(alloc: Global, bytes: &[u8]) -> Result<Tree, OutOfMemory>
    requires { length bytes.now ≤ BYTES_LIMIT }
    ensures { IfOk result (IsTreeOf bytes.now) }
{
    let tokens = match lex(alloc, bytes) {
        Ok(tokens) => tokens,
        Err(LexFault::BadByte(place)) => return Ok(Tree::Refused(Status::Malformed(place))),
        Err(LexFault::OutOfMemory) => return Err(OutOfMemory),
    };
    match parse(alloc, &tokens) {
        Ok(text) => Ok(Tree::Text(text)),
        Err(ParseFault::Unexpected(place)) => Ok(Tree::Refused(Status::Malformed(place))),
        Err(ParseFault::TooDeep(_)) => {
            let too_deep = Status::TooLarge(Thing::Nesting, NESTING_LIMIT + 1, NESTING_LIMIT);
            Ok(Tree::Refused(too_deep))
        }
        Err(ParseFault::OutOfMemory) => Err(OutOfMemory),
    }
}
