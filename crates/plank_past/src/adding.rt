ghost use Rattle.std.specs.Prelude.{◌≡◌, ◌++◌, ◌∷◌, [], OnOk};
ghost use Rattle.plank_query.specs.declared.predicates.Predicate.{Predicate};
ghost use Rattle.plank_query.specs.declared.predicates.Speaker.{Speaker};
ghost use Rattle.plank_past.specs.Adding.{AddsOne, AddsTrue, AddsGiven};

use plank_base::OutOfMemory;
use plank_pic::Literal;
use plank_query::{Claim, Predicate, Speaker};

fn push(claims: &mut Vec<Claim>, claim: Claim) -> Result<(), OutOfMemory>
    ensures { OnOk result (claims.new.items ≡ claims.old.items ++ claim ∷ []) }
{
    match claims.push(claim) {
        Ok(_) => Ok(()),
        Err(_) => Err(OutOfMemory),
    }
}

#[tactic(auto, using(crate::proofs::Claims::adds_one))]
/// Adds a claim to others.
pub fn add(claims: &mut Vec<Claim>, predicate: Predicate, value: bool) -> Result<(), OutOfMemory>
    ensures { OnOk result (AddsOne claims.old.items claims.new.items predicate value) }
{
    push(claims, Claim { predicate, value })
}

/// That the literal is true of the own call.
pub fn own(literal: Literal) -> Predicate
    ensures { result ≡ Predicate.IsTrue Speaker.Own literal }
{
    Predicate::IsTrue {
        of: Speaker::Own,
        literal,
    }
}

#[tactic(auto, using(crate::proofs::Claims::adds_true))]
/// Adds that each of these literals is true of the own call.
pub fn add_true(claims: &mut Vec<Claim>, literals: &[Literal]) -> Result<(), OutOfMemory>
    ensures { OnOk result (AddsTrue claims.old.items claims.new.items literals.now) }
{
    for literal in literals {
        push(
            claims,
            Claim {
                predicate: own(*literal),
                value: true,
            },
        )?;
    }
    Ok(())
}

#[tactic(auto, using(crate::proofs::Claims::adds_given_none))]
/// Adds that the literal is true of the own call, where one is given.
pub fn add_given(claims: &mut Vec<Claim>, given: Option<Literal>) -> Result<(), OutOfMemory>
    ensures { OnOk result (AddsGiven claims.old.items claims.new.items given) }
{
    match given {
        Some(literal) => add(claims, own(literal), true),
        None => Ok(()),
    }
}
