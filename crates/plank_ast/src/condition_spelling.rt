//! From conditions to the tokens that spell them.
ghost use Rattle.std.specs.Prelude.{OnOk};
ghost use Rattle.plank_ast.specs.Spelled.{Adds};
ghost use Rattle.plank_ast.specs.Spelling.{condition_tokens, conjunction_tokens, literal_tokens};

use crate::conditions::{Condition, Conjunction, Literal};
use crate::spelling::{Spelled, add_atom, add_mark, add_name, add_word};
use plank_base::OutOfMemory;
use plank_lex::{Reserved, Symbol};

#[cycle(conditions)]
pub(crate) fn add_condition<'a>(
    out: &mut Vec<Spelled<'a>>,
    condition: &'a Condition,
) -> Result<(), OutOfMemory>
    ensures { OnOk result (Adds out.old.items out.new.items (condition_tokens condition.now)) }
{
    add_conjunction(out, &condition.first)?;
    for conjunction in condition.others.as_slice() {
        add_mark(out, Symbol::Or)?;
        add_conjunction(out, conjunction)?;
    }
    Ok(())
}

#[cycle(conditions)]
fn add_conjunction<'a>(
    out: &mut Vec<Spelled<'a>>,
    conjunction: &'a Conjunction,
) -> Result<(), OutOfMemory>
    ensures { OnOk result (Adds out.old.items out.new.items (conjunction_tokens conjunction.now)) }
{
    add_literal(out, &conjunction.first)?;
    for literal in conjunction.others.as_slice() {
        add_mark(out, Symbol::And)?;
        add_literal(out, literal)?;
    }
    Ok(())
}

#[cycle(conditions)]
fn add_literal<'a>(out: &mut Vec<Spelled<'a>>, literal: &'a Literal) -> Result<(), OutOfMemory>
    ensures { OnOk result (Adds out.old.items out.new.items (literal_tokens literal.now)) }
{
    match literal {
        Literal::True(_) => add_word(out, Reserved::True),
        Literal::False(_) => add_word(out, Reserved::False),
        Literal::Group { inner, .. } => {
            add_mark(out, Symbol::OpenParenthesis)?;
            add_condition(out, inner.get())?;
            add_mark(out, Symbol::CloseParenthesis)
        }
        Literal::Not { node, field, .. } => {
            add_mark(out, Symbol::Not)?;
            add_name(out, node)?;
            add_mark(out, Symbol::Dot)?;
            add_name(out, field)
        }
        Literal::Atom(atom) => add_atom(out, atom),
    }
}
