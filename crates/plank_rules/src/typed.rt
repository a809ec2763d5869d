//! Texts that break no rule of typing.
ghost use Rattle.std.specs.Prelude.{◌≡◌, [], IfOk, IfErr};
ghost use Rattle.plank_rules.specs.BrokenRules.{broken_rules, declared_by};
ghost use Rattle.plank_rules.specs.Untyped.{IsUntyped};

use crate::broken::Broken;
use crate::names::Declared;
use crate::text_rules::{declared_by, first_broken};
use plank_ast::Text;
use plank_base::OutOfMemory;
use std::alloc::Global;

/// A text that breaks no rule of typing, and the names that its header declares.
#[derive(Debug, Drop)]
pub struct Typed<'a> {
    pub text: &'a Text,
    pub names: Declared<'a>,
    pub ghost names_are: { names ≡ declared_by text.now },
    pub ghost rules: { broken_rules text.now ≡ [] },
}

/// Why a text is not known to be well typed.
#[derive(Clone, Copy, Debug, PartialEq, Eq)]
pub enum Untyped {
    /// It breaks this rule, and none before it: by its place, and at one place by its kind.
    Broken(Broken),
    /// Memory was refused; of the text nothing is said.
    OutOfMemory,
}

impl From<OutOfMemory> for Untyped {
    ghost use Rattle.std.specs.Prelude.{◌≡◌};
    ghost use Rattle.plank_rules.specs.declared.typed.Untyped.TheVariants as untyped;

    ghost from_gives = { λ _ e. e ≡ untyped.OutOfMemory };

    fn from(_refused: OutOfMemory) -> Untyped {
        Untyped::OutOfMemory
    }
}

/// The text with its names, where it breaks no rule of typing, or else the first rule that it breaks.
/// Takes time and memory linear in the text.
pub fn checked(alloc: Global, text: &Text) -> Result<Typed<'_>, Untyped>
    ensures text { IfOk result (λ typed. typed.text.now ≡ text.now) }
    ensures untyped { IfErr result (IsUntyped text.now) }
{
    let names = declared_by(alloc, text)?;
    match first_broken(alloc, &names, text)? {
        None => Ok(Typed { text, names }),
        Some(broken) => Err(Untyped::Broken(broken)),
    }
}
