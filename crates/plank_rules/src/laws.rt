ghost use Rattle.plank_ast.specs.declared.texts.Text.{Text};
ghost use Rattle.plank_rules.specs.DeclaredNames.{LooksUpWhatIsDeclared};
ghost use Rattle.plank_rules.specs.FirstOf.{FirstIsLeast};

/// A law of definitions: the first of some broken rules is one of them, and none of them stands before
/// it; there is no first exactly where there are none.
pub fn first_is_least()
    ensures { FirstIsLeast }
{}

/// A law of definitions: the rules look a flag, a pointer, a start node or a variable up among those
/// that the text declares, though each name is kept once.
pub fn looks_up_what_is_declared()
    ensures { (t : Text) → LooksUpWhatIsDeclared t }
{}
