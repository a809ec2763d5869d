ghost use Rattle.std.specs.Prelude.{◌≡◌, not, ◌==◌, length};
ghost use Rattle.std.specs.List.{prefix_len, list_all};
ghost use Rattle.plank_lex.specs.Bytes as spec;
ghost use Rattle.plank_lex.specs.Spelling as spelling;
ghost use Rattle.plank_lex.specs.Lexemes.{line_length, symbol_lexeme, word_lexeme, lexeme_of};

use crate::symbols::{Symbol, double, single};
use crate::words::{Reserved, reserved_word};

/// What stands at the front of a text.
#[derive(Clone, Copy, Debug, PartialEq, Eq)]
pub(crate) enum LexemeKind {
    /// A separator or a comment.
    Gap,
    Symbol(Symbol),
    Reserved(Reserved),
    /// A word that is not reserved.
    Name,
}

/// What stands at the front of a text, and how many bytes it takes.
#[derive(Clone, Copy, Debug, PartialEq, Eq)]
pub(crate) struct Lexeme {
    pub(crate) kind: LexemeKind,
    pub(crate) length: usize,
}

fn is_separator(byte: u8) -> bool
    ensures { result ≡ spec.is_separator byte }
{
    byte == b' ' || byte == b'\t' || byte == b'\r' || byte == b'\n'
}

fn is_name_byte(byte: u8) -> bool
    ensures { result ≡ spec.is_name_byte byte }
{
    byte.is_ascii_lowercase() || byte.is_ascii_digit() || byte == b'_'
}

fn is_run_byte(byte: u8) -> bool
    ensures { result ≡ spec.is_run_byte byte }
{
    is_name_byte(byte) || byte.is_ascii_uppercase()
}

/// How many bytes stand before the next line feed.
fn line_length(text: &[u8]) -> usize
    ensures { result ≡ line_length text.now }
{
    let mut end = 0;
    while end < text.len() && text[end] != b'\n' {
        end += 1;
    }
    end
}

/// How many letters, digits and `_` stand at the front.
fn run_length(text: &[u8]) -> usize
    ensures { result ≡ prefix_len spec.is_run_byte text.now }
{
    let mut end = 0;
    while end < text.len() && is_run_byte(text[end]) {
        end += 1;
    }
    end
}

/// Whether these are letters, digits and `_` alone.
fn are_name_bytes(bytes: &[u8]) -> bool
    ensures { result ≡ list_all spec.is_name_byte bytes.now }
{
    bytes.iter().all(|byte| is_name_byte(*byte))
}

/// Whether a run is a letter, and then letters, digits and `_`.
fn is_word(run: &[u8]) -> bool
    ensures { result ≡ spelling.is_word run.now }
{
    match run {
        [] => false,
        [first, rest @ ..] => first.is_ascii_lowercase() && are_name_bytes(rest),
    }
}

/// What a run of letters, digits and `_` is.
fn word_lexeme(run: &[u8]) -> Option<Lexeme>
    ensures { result ≡ word_lexeme run.now }
{
    let kind = match reserved_word(run) {
        Some(word) => LexemeKind::Reserved(word),
        None if is_word(run) => LexemeKind::Name,
        None => return None,
    };
    Some(Lexeme {
        kind,
        length: run.len(),
    })
}

/// The symbol at the front, the longer of two.
fn symbol_lexeme(text: &[u8]) -> Option<Lexeme>
    ensures { result ≡ symbol_lexeme text.now }
{
    let symbol = match text {
        [] => None,
        [only] => single(*only),
        [first, second, ..] => double(*first, *second).or(single(*first)),
    }?;
    Some(Lexeme {
        kind: LexemeKind::Symbol(symbol),
        length: symbol.spelling().len(),
    })
}

/// The lexeme at the front of a text, or none where its first byte begins none.
#[tactic(auto, using(crate::proofs::Front::lexeme_of_first, crate::proofs::Front::lexeme_of_empty))]
pub(crate) fn front(text: &[u8]) -> Option<Lexeme>
    ensures { result ≡ lexeme_of text.now }
{
    let [first, ..] = text else {
        return None;
    };
    if is_separator(*first) {
        return Some(Lexeme {
            kind: LexemeKind::Gap,
            length: 1,
        });
    }
    if text.starts_with(b"//") {
        return Some(Lexeme {
            kind: LexemeKind::Gap,
            length: line_length(text),
        });
    }
    if is_run_byte(*first) {
        word_lexeme(&text[..run_length(text)])
    } else {
        symbol_lexeme(text)
    }
}
