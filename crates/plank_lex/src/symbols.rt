ghost use Rattle.std.specs.Prelude.{◌≡◌, [], ◌∷◌};
ghost use Rattle.plank_lex.specs.Spelling.{spelling_of, symbol_of};

/// A symbol of the language: a token of one or two bytes that are no letters.
#[derive(Clone, Copy, Debug, PartialEq, Eq)]
pub enum Symbol {
    OpenBrace,
    CloseBrace,
    OpenParenthesis,
    CloseParenthesis,
    Colon,
    Semicolon,
    Comma,
    Dot,
    Assign,
    Equal,
    NotEqual,
    Less,
    AtMost,
    And,
    Or,
    Not,
}

impl Symbol {
    /// The bytes that spell this symbol.
    pub fn spelling(self) -> &'static [u8]
        ensures { result.now ≡ spelling_of self }
    {
        match self {
            Symbol::OpenBrace => b"{",
            Symbol::CloseBrace => b"}",
            Symbol::OpenParenthesis => b"(",
            Symbol::CloseParenthesis => b")",
            Symbol::Colon => b":",
            Symbol::Semicolon => b";",
            Symbol::Comma => b",",
            Symbol::Dot => b".",
            Symbol::Assign => b"=",
            Symbol::Equal => b"==",
            Symbol::NotEqual => b"!=",
            Symbol::Less => b"<",
            Symbol::AtMost => b"<=",
            Symbol::And => b"&&",
            Symbol::Or => b"||",
            Symbol::Not => b"!",
        }
    }
}

/// The symbol that one byte spells.
pub(crate) fn single(byte: u8) -> Option<Symbol>
    ensures { result ≡ symbol_of (byte ∷ []) }
{
    match byte {
        b'{' => Some(Symbol::OpenBrace),
        b'}' => Some(Symbol::CloseBrace),
        b'(' => Some(Symbol::OpenParenthesis),
        b')' => Some(Symbol::CloseParenthesis),
        b':' => Some(Symbol::Colon),
        b';' => Some(Symbol::Semicolon),
        b',' => Some(Symbol::Comma),
        b'.' => Some(Symbol::Dot),
        b'=' => Some(Symbol::Assign),
        b'<' => Some(Symbol::Less),
        b'!' => Some(Symbol::Not),
        _ => None,
    }
}

/// The symbol that two bytes spell together.
pub(crate) fn double(first: u8, second: u8) -> Option<Symbol>
    ensures { result ≡ symbol_of (first ∷ second ∷ []) }
{
    match (first, second) {
        (b'=', b'=') => Some(Symbol::Equal),
        (b'!', b'=') => Some(Symbol::NotEqual),
        (b'<', b'=') => Some(Symbol::AtMost),
        (b'&', b'&') => Some(Symbol::And),
        (b'|', b'|') => Some(Symbol::Or),
        _ => None,
    }
}
