ghost use Rattle.std.specs.Prelude.{◌≡◌, find, nat_eq};
ghost use lib.Pointwise.{pointwise};
ghost use Rattle.plank_lex.specs.Spelling.{word_of, reserved_of};

/// A reserved word of the language: a word that is no name.
#[derive(Clone, Copy, Debug, PartialEq, Eq)]
pub enum Reserved {
    Structure,
    Flag,
    Pointer,
    Ascending,
    Descending,
    Free,
    Lock,
    Unlock,
    Root,
    Start,
    Edge,
    Holds,
    Keep,
    Freeze,
    Method,
    As,
    Variable,
    New,
    Atomic,
    Else,
    With,
    Test,
    Write,
    If,
    While,
    Loop,
    Break,
    Continue,
    Return,
    True,
    False,
    Null,
    In,
    Key,
    Min,
    Max,
}

/// Every reserved word once.
pub const RESERVED_WORDS: [Reserved; 36] = [
    Reserved::Structure,
    Reserved::Flag,
    Reserved::Pointer,
    Reserved::Ascending,
    Reserved::Descending,
    Reserved::Free,
    Reserved::Lock,
    Reserved::Unlock,
    Reserved::Root,
    Reserved::Start,
    Reserved::Edge,
    Reserved::Holds,
    Reserved::Keep,
    Reserved::Freeze,
    Reserved::Method,
    Reserved::As,
    Reserved::Variable,
    Reserved::New,
    Reserved::Atomic,
    Reserved::Else,
    Reserved::With,
    Reserved::Test,
    Reserved::Write,
    Reserved::If,
    Reserved::While,
    Reserved::Loop,
    Reserved::Break,
    Reserved::Continue,
    Reserved::Return,
    Reserved::True,
    Reserved::False,
    Reserved::Null,
    Reserved::In,
    Reserved::Key,
    Reserved::Min,
    Reserved::Max,
];

impl Reserved {
    /// The bytes that spell this word.
    pub fn spelling(self) -> &'static [u8]
        ensures { result.now ≡ word_of self }
    {
        match self {
            Reserved::Structure => b"structure",
            Reserved::Flag => b"flag",
            Reserved::Pointer => b"ptr",
            Reserved::Ascending => b"asc",
            Reserved::Descending => b"desc",
            Reserved::Free => b"free",
            Reserved::Lock => b"lock",
            Reserved::Unlock => b"unlock",
            Reserved::Root => b"root",
            Reserved::Start => b"start",
            Reserved::Edge => b"edge",
            Reserved::Holds => b"holds",
            Reserved::Keep => b"keep",
            Reserved::Freeze => b"freeze",
            Reserved::Method => b"method",
            Reserved::As => b"as",
            Reserved::Variable => b"var",
            Reserved::New => b"new",
            Reserved::Atomic => b"atomic",
            Reserved::Else => b"else",
            Reserved::With => b"with",
            Reserved::Test => b"test",
            Reserved::Write => b"write",
            Reserved::If => b"if",
            Reserved::While => b"while",
            Reserved::Loop => b"loop",
            Reserved::Break => b"break",
            Reserved::Continue => b"continue",
            Reserved::Return => b"return",
            Reserved::True => b"true",
            Reserved::False => b"false",
            Reserved::Null => b"null",
            Reserved::In => b"in",
            Reserved::Key => b"key",
            Reserved::Min => b"MIN",
            Reserved::Max => b"MAX",
        }
    }
}

/// Whether these bytes spell that word.
fn spells(candidate: Reserved, word: &[u8]) -> bool
    ensures { result ≡ pointwise nat_eq (word_of candidate) word.now }
{
    candidate.spelling() == word
}

/// The first of these words that the bytes spell.
fn find_word(candidates: &[Reserved], word: &[u8]) -> Option<Reserved>
    ensures { result ≡ find (λ r. pointwise nat_eq (word_of r) word.now) candidates.now }
{
    candidates
        .iter()
        .copied()
        .find(|candidate| spells(*candidate, word))
}

/// The reserved word that these bytes spell. None has less than two bytes, as most variables do.
#[tactic(auto, using(crate::proofs::Spelled::reserved_of_short), unfolding(crate::specs::Spelling::reserved_of))]
pub(crate) fn reserved_word(word: &[u8]) -> Option<Reserved>
    ensures { result ≡ reserved_of word.now }
{
    if word.len() < 2 {
        return None;
    }
    find_word(&RESERVED_WORDS, word)
}
