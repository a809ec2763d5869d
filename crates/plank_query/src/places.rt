ghost use Rattle.std.specs.Prelude.{◌≡◌, IfSome, IsNone, true, slice_get, Some};
ghost use Rattle.plank_prog.specs.declared.methods.Method.{Method};
ghost use Rattle.plank_prog.specs.Methods.{is_site};
ghost use Rattle.plank_fact.specs.Outlines.{Point};
ghost use Rattle.plank_query.specs.Places.{IsOwnTurnAt, IsSiteTurnAt};

use crate::turns::{OwnTurn, SiteTurn};
use plank_pic::Exit;
use plank_prog::{Action, Location, Method, Program};

// The method and the location of these numbers; none where there is none.
fn location_of(program: &Program, method: u32, location: u32) -> Option<(&Method, &Location)>
    ensures found { IfSome result (λ found. (x : Point program.now.methods) → x.m ≡ method → x.l ≡ location →
        (found.0.now ≡ x.method) × (found.1.now ≡ x.location)) }
    ensures there { IfSome result (λ found. (slice_get program.now.methods method ≡ Some found.0.now) ×
        (slice_get found.0.now.locations location ≡ Some found.1.now)) }
    ensures none { IsNone result → (x : Point program.now.methods) → x.m ≡ method → x.l ≡ location → ⊥ }
{
    let method = program.methods.get(method as usize)?;
    let location = method.locations.get(location as usize)?;
    Some((method, location))
}

impl<'a> OwnTurn<'a> {
    #[tactic(auto, using(crate::proofs::FewNames::few_own_names, crate::proofs::FewNames::few_own_variables))]
    /// The own turn at a location of a program, by an exit; none where there is no such location.
    pub fn at(program: &'a Program, method: u32, location: u32, exit: Exit) -> Option<OwnTurn<'a>>
        ensures found { IfSome result (λ turn. (x : Point program.now.methods) → x.m ≡ method → x.l ≡ location →
            IsOwnTurnAt x exit turn) }
        ensures none { IsNone result → (x : Point program.now.methods) → x.m ≡ method → x.l ≡ location → ⊥ }
    {
        match location_of(program, method, location) {
            Some((method, location)) => Some(OwnTurn {
                variables: method.variables.len() as u8,
                action: &location.action,
                exit,
            }),
            None => None,
        }
    }
}

fn is_site(action: &Action) -> bool
    ensures { result ≡ is_site action.now }
{
    match action {
        Action::Block(block) => block.writes.len() != 0,
        Action::Copy { .. } | Action::New { .. } | Action::Return(_) => false,
    }
}

impl<'a> SiteTurn<'a> {
    #[tactic(auto, using(crate::proofs::FewNames::few_site_names, plank_fact::proofs::Limits::few_variables))]
    /// The turn of another call at a location of a program, as a call of a method sees it; none where
    /// there is no such location or method, or the location does not write.
    pub fn at(program: &'a Program, own: u32, method: u32, location: u32) -> Option<SiteTurn<'a>>
        ensures found { IfSome result (λ turn. (m : Method) (x : Point program.now.methods) →
            slice_get program.now.methods own ≡ Some m → x.m ≡ method → x.l ≡ location → IsSiteTurnAt m x turn) }
        ensures none { IsNone result → (m : Method) (x : Point program.now.methods) →
            slice_get program.now.methods own ≡ Some m → x.m ≡ method → x.l ≡ location →
            is_site x.location.action ≡ true → ⊥ }
    {
        let own = program.methods.get(own as usize)?;
        match location_of(program, method, location) {
            Some((method, location)) => {
                if !is_site(&location.action) {
                    return None;
                }
                Some(SiteTurn {
                    variables: own.variables.len() as u8,
                    others: method.variables.len() as u8,
                    action: &location.action,
                })
            }
            None => None,
        }
    }
}
