//! Tokens and bad bytes at their places.
use plank_base::{BYTES_LIMIT, Place};
use plank_lex::{LexFault, Token, TokenKind, lex};
use std::alloc::Global;
use std::process::Abort;
use std::test::Fail;

/// Which sort of token it is, and the bytes that spell it.
fn spelled(kind: &TokenKind) -> (char, &[u8]) {
    match kind {
        TokenKind::Symbol(symbol) => ('s', symbol.spelling()),
        TokenKind::Reserved(word) => ('r', word.spelling()),
        TokenKind::Name(label) => ('n', label.as_bytes()),
        TokenKind::End => ('e', b""),
    }
}

fn same_tokens(tokens: &[Token], wanted: &[(char, &str, u32, u32, u32)]) -> bool {
    if tokens.len() != wanted.len() {
        return false;
    }
    for (token, want) in tokens.iter().zip(wanted) {
        let (sort, bytes) = spelled(&token.kind);
        let place = Place {
            line: want.2,
            column: want.3,
            byte: want.4,
        };
        if sort != want.0 || bytes != want.1.as_bytes() || token.place != place {
            return false;
        }
        if token.length as usize != bytes.len() {
            return false;
        }
    }
    true
}

#[test]
fn tokens_have_places(rt: HostRuntime) -> Result<(), Fail> {
    let rows: [(&str, &[(char, &str, u32, u32, u32)]); 6] = [
        ("", &[('e', "", 1, 1, 0)]),
        (
            "ptr\tnext asc;\r\nx.k<=j",
            &[
                ('r', "ptr", 1, 1, 0),
                ('n', "next", 1, 5, 4),
                ('r', "asc", 1, 10, 9),
                ('s', ";", 1, 13, 12),
                ('n', "x", 2, 1, 15),
                ('s', ".", 2, 2, 16),
                ('n', "k", 2, 3, 17),
                ('s', "<=", 2, 4, 18),
                ('n', "j", 2, 6, 20),
                ('e', "", 2, 7, 21),
            ],
        ),
        (
            "a < b//x\n//\n=== !!=",
            &[
                ('n', "a", 1, 1, 0),
                ('s', "<", 1, 3, 2),
                ('n', "b", 1, 5, 4),
                ('s', "==", 3, 1, 12),
                ('s', "=", 3, 3, 14),
                ('s', "!", 3, 5, 16),
                ('s', "!=", 3, 6, 17),
                ('e', "", 3, 8, 19),
            ],
        ),
        ("// §&", &[('e', "", 1, 7, 6)]),
        (
            "MIN MAX min a1_",
            &[
                ('r', "MIN", 1, 1, 0),
                ('r', "MAX", 1, 5, 4),
                ('n', "min", 1, 9, 8),
                ('n', "a1_", 1, 13, 12),
                ('e', "", 1, 16, 15),
            ],
        ),
        (
            "inn in&&key",
            &[
                ('n', "inn", 1, 1, 0),
                ('r', "in", 1, 5, 4),
                ('s', "&&", 1, 7, 6),
                ('r', "key", 1, 9, 8),
                ('e', "", 1, 12, 11),
            ],
        ),
    ];
    for (text, wanted) in rows {
        assert!(rt; text.len() <= BYTES_LIMIT as usize);
        let tokens = lex(rt.alloc(), text.as_bytes())?;
        assert!(rt; same_tokens(tokens.as_slice(), wanted), "{text}");
    }
    Ok(())
}

/// The line, the column and the byte of the bad byte of a text.
fn bad_byte(rt: &impl Abort, alloc: Global, text: &str) -> Option<(u32, u32, u32)> {
    assert!(rt; text.len() <= BYTES_LIMIT as usize);
    match lex(alloc, text.as_bytes()) {
        Err(LexFault::BadByte(place)) => Some((place.line, place.column, place.byte)),
        Err(LexFault::OutOfMemory) => None,
        Ok(_) => None,
    }
}

#[test]
fn the_first_bad_byte_is_told(rt: HostRuntime) {
    let rows = [
        ("a &b", (1, 3, 2)),
        ("a | $", (1, 3, 2)),
        ("a / b", (1, 3, 2)),
        ("x\n\n  a&&&b", (3, 6, 8)),
        ("Min", (1, 1, 0)),
        ("MINx", (1, 1, 0)),
        ("a bC_ $", (1, 3, 2)),
        ("_a", (1, 1, 0)),
        ("x 1a", (1, 3, 2)),
        ("x;\u{e9}", (1, 3, 2)),
        ("a\u{0}", (1, 2, 1)),
    ];
    for (text, place) in rows {
        assert_eq!(rt; bad_byte(&rt, rt.alloc(), text), Some(place), "{text}");
    }
}
