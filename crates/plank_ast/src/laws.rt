ghost use Rattle.plank_ast.specs.Prints.{PrintKeepsTokens};

/// A law of definitions: the canonical form of a text is read, and its tokens are those of the text with
/// one `End`, so `print` loses and adds none.
pub fn print_keeps_tokens()
    ensures { PrintKeepsTokens }
{}
