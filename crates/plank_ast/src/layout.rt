//! The canonical form of a list of tokens.
ghost use Rattle.std.specs.Prelude.{◌≡◌, ◌++◌, OnOk, IfOk, ◌<◌, ◌^◌, ◌+◌, length};
ghost use Rattle.plank_ast.specs.Spelled.{kind_of, kinds};
ghost use Rattle.plank_ast.specs.Layout as spec;

use crate::spelling::Spelled;
use plank_base::OutOfMemory;
use plank_lex::{Reserved, Symbol};
use std::alloc::Global;

impl<'a> Spelled<'a> {
    fn bytes(self) -> &'a [u8]
        ensures { result.now ≡ spec.token_bytes (kind_of self.entry) }
    {
        match self {
            Spelled::Symbol(symbol) => symbol.spelling(),
            Spelled::Reserved(word) => word.spelling(),
            Spelled::Name(bytes) => bytes,
        }
    }
}

/// Whether a line ends between two tokens.
fn breaks_line(token: Spelled<'_>, next: Spelled<'_>) -> bool
    ensures { result ≡ spec.breaks_line (kind_of token.entry) (kind_of next.entry) }
{
    match token {
        Spelled::Symbol(Symbol::Semicolon) | Spelled::Symbol(Symbol::OpenBrace) => true,
        Spelled::Symbol(Symbol::CloseBrace) => !matches!(next, Spelled::Reserved(Reserved::Else)),
        _ => false,
    }
}

/// Whether no blank stands between two tokens of a line.
fn joins(token: Spelled<'_>, next: Spelled<'_>) -> bool
    ensures { result ≡ spec.joins (kind_of token.entry) (kind_of next.entry) }
{
    joins_next(token) || joins_before(token, next)
}

fn joins_next(token: Spelled<'_>) -> bool
    ensures { result ≡ spec.joins_next (kind_of token.entry) }
{
    match token {
        Spelled::Symbol(symbol) => {
            matches!(symbol, Symbol::OpenParenthesis | Symbol::Dot | Symbol::Not)
        }
        _ => false,
    }
}

fn joins_before(token: Spelled<'_>, next: Spelled<'_>) -> bool
    ensures { result ≡ spec.joins_before (kind_of token.entry) (kind_of next.entry) }
{
    match next {
        Spelled::Symbol(Symbol::Semicolon)
        | Spelled::Symbol(Symbol::Comma)
        | Spelled::Symbol(Symbol::CloseParenthesis)
        | Spelled::Symbol(Symbol::Dot) => true,
        Spelled::Symbol(Symbol::OpenParenthesis) => matches!(token, Spelled::Name(_)),
        _ => false,
    }
}

/// How many braces are open after a token.
fn braces_after(depth: usize, token: Spelled<'_>) -> usize
    requires { depth + 1 < 2 ^ 64 }
    ensures { result ≡ spec.braces_after depth (kind_of token.entry) }
{
    match token {
        Spelled::Symbol(Symbol::OpenBrace) => depth + 1,
        Spelled::Symbol(Symbol::CloseBrace) => depth.saturating_sub(1),
        _ => depth,
    }
}

fn append(out: &mut Vec<u8>, bytes: &[u8]) -> Result<(), OutOfMemory>
    ensures { OnOk result (out.new.items ≡ out.old.items ++ bytes.now) }
{
    out.extend_from_slice(bytes)?;
    Ok(())
}

/// Two blanks for each level.
fn append_indent(out: &mut Vec<u8>, levels: usize) -> Result<(), OutOfMemory>
    ensures { OnOk result (out.new.items ≡ out.old.items ++ spec.blanks levels) }
{
    for _level in 0..levels {
        append(out, b"  ")?;
    }
    Ok(())
}

/// What stands between two tokens, with so many braces open after the first.
fn append_between(
    out: &mut Vec<u8>,
    depth: usize,
    token: Spelled<'_>,
    next: Spelled<'_>,
) -> Result<(), OutOfMemory>
    ensures { OnOk result (out.new.items ≡ out.old.items ++ spec.between depth (kind_of token.entry) (kind_of next.entry)) }
{
    if breaks_line(token, next) {
        append(out, b"\n")?;
        return append_indent(out, indent_levels(depth, next));
    }
    if joins(token, next) {
        return Ok(());
    }
    append(out, b" ")
}

/// How many levels a line is indented that begins with this token.
fn indent_levels(depth: usize, next: Spelled<'_>) -> usize
    ensures { result ≡ spec.indent_levels depth (kind_of next.entry) }
{
    match next {
        Spelled::Symbol(Symbol::CloseBrace) => depth.saturating_sub(1),
        _ => depth,
    }
}

/// The bytes of tokens in canonical form.
pub(crate) fn laid_out(alloc: Global, tokens: &[Spelled<'_>]) -> Result<Vec<u8>, OutOfMemory>
    ensures { IfOk result (λ out. out.items ≡ spec.layout (kinds tokens.now)) }
{
    let mut out = Vec::new(alloc);
    let [first, rest @ ..] = tokens else {
        return Ok(out);
    };
    append(&mut out, first.bytes())?;
    let mut depth = braces_after(0, *first);
    let mut last = *first;
    for next in rest {
        append_between(&mut out, depth, last, *next)?;
        append(&mut out, next.bytes())?;
        depth = braces_after(depth, *next);
        last = *next;
    }
    append(&mut out, b"\n")?;
    Ok(out)
}
