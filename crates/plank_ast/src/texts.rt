ghost use Rattle.std.specs.Prelude.{◌≡◌, true};
ghost use Rattle.plank_ast.specs.Spelling.{parts_tokens, is_lawful};

use crate::header::{ConditionLine, FlagLine, NamedCondition, PointerLine, RootLine, StartLine};
use crate::methods::Methods;
use crate::names::Name;
use plank_base::Place;
use sqlite_items::Items;

/// A text, with one field for each part of its rule.
///
/// Its names are names of the language, and no more than 32 braces and parentheses are open at once, so
/// the grammar spells every text.
#[derive(Debug, Drop)]
pub struct Text {
    /// The word `structure`.
    pub place: Place,
    pub structure: Name,
    pub flags: Items<FlagLine>,
    pub pointers: Items<PointerLine>,
    /// The line `lock;`.
    pub lock: Option<Place>,
    pub roots: Items<RootLine>,
    pub starts: Items<StartLine>,
    pub edges: Items<NamedCondition>,
    pub holds: ConditionLine,
    pub keeps: Items<NamedCondition>,
    pub freeze: Option<ConditionLine>,
    pub methods: Methods,
    pub ghost lawful: { is_lawful (parts_tokens structure flags pointers lock roots starts edges holds keeps freeze methods) ≡ true },
}
