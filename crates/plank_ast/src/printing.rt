ghost use Rattle.std.specs.Prelude.{◌≡◌, IfOk};
ghost use Rattle.std.specs.String.{string_bytes};
ghost use Rattle.plank_ast.specs.Layout.{layout};
ghost use Rattle.plank_ast.specs.Texts.{text_tokens};

use crate::layout::laid_out;
use crate::text_spelling::spelled;
use crate::texts::Text;
use plank_base::OutOfMemory;
use std::alloc::Global;

/// A text in canonical form: each line of the header, each statement and each part of a block on a line
/// of its own, indented by two blanks for each open brace. Texts with the same tokens print alike, and
/// a print has the tokens of its text.
pub fn print(alloc: Global, text: &Text) -> Result<String, OutOfMemory>
    ensures { IfOk result (λ printed. string_bytes printed ≡ layout (text_tokens text.now)) }
{
    let tokens = spelled(alloc, text)?;
    let bytes = laid_out(alloc, &tokens)?;
    match String::from_utf8(bytes) {
        Ok(printed) => Ok(printed),
        Err(_) => unreachable!(),
    }
}
