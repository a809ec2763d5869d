ghost use Rattle.std.specs.Prelude.{◌≡◌, map, option_map, true, Some, None, Err, IfOk};
ghost use Rattle.std.specs.String.{string_bytes};
ghost use Rattle.clap.specs.Words.{app_of, is_simple_and_free};
ghost use Rattle.plank_words.specs.Parsers.{app_for, large_app, workers_app, value_in};
ghost use Rattle.plank_words.specs.declared.commands.WordsFault.TheVariants as fault;

use crate::commands::{Command, WordsFault};
use clap::Arg;
use clap::error::ErrorKind;
use std::alloc::Global;

/// A parser of words whose command takes the option `--workers`.
fn with_workers<'a>(alloc: Global, name: &'a str) -> Result<clap::Command<'a>, WordsFault>
    ensures app { IfOk result (λ parser. app_of parser ≡ workers_app name.now) }
    ensures memory { result ≡ Err fault.Usage → ⊥ }
{
    let workers = Arg::new(alloc, "workers").long("workers");
    match clap::Command::new(alloc, name).arg(workers) {
        Ok(parser) => Ok(parser),
        Err(_) => Err(WordsFault::OutOfMemory),
    }
}

/// The parser of a command's words.
pub fn parser_of<'a>(alloc: Global, command: Command) -> Result<clap::Command<'a>, WordsFault>
    ensures app { IfOk result (λ parser. app_of parser ≡ app_for command) }
    ensures memory { result ≡ Err fault.Usage → ⊥ }
{
    match command {
        Command::Verify => with_workers(alloc, "verify"),
        Command::Effects => with_workers(alloc, "effects"),
        Command::Print => Ok(clap::Command::new(alloc, "print")),
        Command::Trace => Ok(clap::Command::new(alloc, "trace")),
    }
}

/// The parser of the words of `large`.
pub fn large_parser<'a>(alloc: Global) -> Result<clap::Command<'a>, WordsFault>
    ensures app { IfOk result (λ parser. app_of parser ≡ large_app) }
    ensures memory { result ≡ Err fault.Usage → ⊥ }
{
    let methods = Arg::new(alloc, "n").required(true);
    match clap::Command::new(alloc, "large").arg(methods) {
        Ok(parser) => Ok(parser),
        Err(_) => Err(WordsFault::OutOfMemory),
    }
}

/// What the words say of one argument of their parser's.
pub fn value_in<'a>(
    parser: clap::Command<'a>,
    id: &str,
    words: &'a [String],
) -> Result<Option<&'a str>, WordsFault>
    requires { is_simple_and_free (app_of parser) ≡ true }
    ensures value { IfOk result (λ value. value_in (app_of parser.entry) id.now (map string_bytes words.now) ≡ Some (option_map (λ s. s.now) value)) }
    ensures refused { result ≡ Err fault.Usage → value_in (app_of parser.entry) id.now (map string_bytes words.now) ≡ None }
{
    match parser.try_get_matches_from(words) {
        Ok(matches) => Ok(matches.get_str(id)),
        Err(error) => match error.kind() {
            ErrorKind::OutOfMemory => Err(WordsFault::OutOfMemory),
            _ => Err(WordsFault::Usage),
        },
    }
}
