//! Programs of texts.
use plank_base::BYTES_LIMIT;
use plank_lex::lex;
use plank_parse::parse;
use plank_prog::Program;
use plank_type::check;
use std::alloc::Global;

/// The program of a text, where it has one.
pub fn program_of(alloc: Global, text: &[u8]) -> Option<Program> {
    if text.len() > BYTES_LIMIT as usize {
        return None;
    }
    let tokens = lex(alloc, text).ok()?;
    let text = parse(alloc, &tokens).ok()?;
    check(alloc, &text).ok()
}
