ghost use Rattle.std.specs.Prelude.{◌≡◌, ◌↔◌, IsTrue};
ghost use Rattle.std.specs.Option.{option_copied};
ghost use Rattle.plank_lex.specs.Kinds.{is_symbol, is_reserved, name_of};

use crate::symbols::Symbol;
use crate::words::Reserved;
use plank_base::{Label, Place};

/// What a token is; the grammar speaks of nothing else.
#[derive(Debug, Drop, PartialEq)]
pub enum TokenKind {
    Symbol(Symbol),
    Reserved(Reserved),
    /// A word that is not reserved, with its bytes.
    Name(Label),
    /// The end of the text.
    End,
}

impl TokenKind {
    /// Whether this is that symbol.
    pub fn is_symbol(&self, symbol: Symbol) -> bool
        ensures value { result ≡ is_symbol self.now symbol }
        ensures same { IsTrue result ↔ (self.now ≡ TokenKind.Symbol symbol) }
    {
        match self {
            TokenKind::Symbol(own) => *own == symbol,
            _ => false,
        }
    }

    /// Whether this is that reserved word.
    pub fn is_reserved(&self, word: Reserved) -> bool
        ensures value { result ≡ is_reserved self.now word }
        ensures same { IsTrue result ↔ (self.now ≡ TokenKind.Reserved word) }
    {
        match self {
            TokenKind::Reserved(own) => *own == word,
            _ => false,
        }
    }

    /// The name's bytes, where this is a name.
    pub fn as_name(&self) -> Option<&Label>
        ensures { option_copied result ≡ name_of self.now }
    {
        match self {
            TokenKind::Name(label) => Some(label),
            _ => None,
        }
    }
}

/// A token of a text, with the place of its first byte.
#[derive(Debug, Drop, PartialEq)]
pub struct Token {
    pub kind: TokenKind,
    pub place: Place,
    /// How many bytes it takes; none at the end of the text.
    pub length: u32,
}
