ghost use Rattle.std.specs.Prelude.{◌≡◌, ◌≤◌, ◌<◌, map, Some, None, Err, IfOk};
ghost use Rattle.std.specs.String.{string_bytes};
ghost use Rattle.plank_words.specs.Words.{command_named, served_by, made_by, asked_by, IsInRange};
ghost use Rattle.plank_words.specs.declared.commands.WordsFault.TheVariants as fault;

use crate::commands::{Asked, Command, WordsFault};
use crate::numbers::number_between;
use crate::parsers::{large_parser, parser_of, value_in};
use std::alloc::Global;

// The command that a word names.
fn command_named(word: &str) -> Option<Command>
    ensures { result ≡ command_named word.now }
{
    if word == "verify" {
        Some(Command::Verify)
    } else if word == "effects" {
        Some(Command::Effects)
    } else if word == "print" {
        Some(Command::Print)
    } else if word == "trace" {
        Some(Command::Trace)
    } else {
        None
    }
}

// What the words of a command say: by how many workers it is to be served.
fn served_by(alloc: Global, command: Command, words: &[String]) -> Result<Asked, WordsFault>
    ensures asked { IfOk result (λ asked. served_by command (map string_bytes words.now) ≡ Some asked) }
    ensures refused { result ≡ Err fault.Usage → served_by command (map string_bytes words.now) ≡ None }
    ensures range { IfOk result IsInRange }
{
    let parser = parser_of(alloc, command)?;
    let Some(text) = value_in(parser, "workers", words)? else {
        return Ok(Asked::Serve(command, 1));
    };
    match number_between(1, 64, text) {
        Some(workers) => Ok(Asked::Serve(command, workers)),
        None => Err(WordsFault::Usage),
    }
}

// What the words of `large` say: of how many methods its text is to be.
fn made_by(alloc: Global, words: &[String]) -> Result<Asked, WordsFault>
    ensures asked { IfOk result (λ asked. made_by (map string_bytes words.now) ≡ Some asked) }
    ensures refused { result ≡ Err fault.Usage → made_by (map string_bytes words.now) ≡ None }
    ensures range { IfOk result IsInRange }
{
    let parser = large_parser(alloc)?;
    let Some(text) = value_in(parser, "n", words)? else {
        return Err(WordsFault::Usage);
    };
    match number_between(2, 16, text) {
        Some(methods) => Ok(Asked::Large(methods)),
        None => Err(WordsFault::Usage),
    }
}

/// What the words ask for. The program's own name is not among them.
pub fn asked_by(alloc: Global, words: &[String]) -> Result<Asked, WordsFault>
    ensures asked { IfOk result (λ asked. asked_by (map string_bytes words.now) ≡ Some asked) }
    ensures refused { result ≡ Err fault.Usage → asked_by (map string_bytes words.now) ≡ None }
    ensures range { IfOk result IsInRange }
{
    let Some(first) = words.first() else {
        return Err(WordsFault::Usage);
    };
    if first.as_str() == "large" {
        return made_by(alloc, words);
    }
    match command_named(first.as_str()) {
        Some(command) => served_by(alloc, command, words),
        None => Err(WordsFault::Usage),
    }
}
