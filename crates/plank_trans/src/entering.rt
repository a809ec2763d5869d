ghost use Rattle.std.specs.Prelude.{◌≡◌, ◌≤◌, length, slice_get, Some, IfOk, IfSome, IsNone};
ghost use Rattle.plank_bits.specs.Words.{has};
ghost use Rattle.plank_prog.specs.declared.methods.Method.{Method};
ghost use Rattle.plank_fact.specs.After.{IsAtEntry};
ghost use Rattle.plank_marks.specs.Marks.{mark_words};
ghost use Rattle.plank_method.specs.Deciding.{outline_of, IsExact};
ghost use Rattle.plank_query.specs.declared.situations.Situation.{Situation};
ghost use Rattle.plank_trans.specs.Entry.{AreOfEntry};

use plank_base::OutOfMemory;
use plank_bits::MarkWords;
use plank_fact::FactSet;
use plank_follow::Following;
use plank_past::add;
use plank_pic::Part;
use plank_prog::Program;
use plank_query::{Claim, Oracle, Predicate, Situation};
use plank_shown::Arrivals;
use std::alloc::Global;

// That the call has changed nothing, and that each of its variables is null.
fn entry_claims(alloc: Global, variables: u8) -> Result<Vec<Claim>, OutOfMemory>
    ensures { IfOk result (λ claims. AreOfEntry variables claims.items) }
{
    let mut claims = Vec::new(alloc);
    add(&mut claims, Predicate::Says(Part::Spent), false)?;
    for variable in 0..variables {
        add(
            &mut claims,
            Predicate::Says(Part::Null { name: variable + 1 }),
            true,
        )?;
    }
    Ok(claims)
}

// How many variables a method has; none where there is no such method.
#[tactic(auto, using(plank_fact::proofs::Limits::few_variables))]
fn variables_of(program: &Program, method: u32) -> Option<u8>
    ensures count { IfSome result (λ variables. (m : Method) → slice_get program.now.methods method ≡ Some m →
        variables ≡ length m.variables) }
    ensures few { IfSome result (λ variables. variables ≤ 15) }
    ensures none { IsNone result → (m : Method) → slice_get program.now.methods method ≡ Some m → ⊥ }
{
    let method = program.methods.get(method as usize)?;
    Some(method.variables.len() as u8)
}

// A picture with the names of a method.
fn names_of<'p>(_program: &'p Program, variables: u8) -> Situation<'p>
    ensures { result ≡ Situation.Names variables }
{
    Situation::Names { variables }
}

// Where calls of a method begin, with what is claimed there.
#[derive(Drop)]
struct Entering<'a, Q> {
    oracle: &'a Q,
    program: &'a Program,
    method: u32,
    variables: u8,
    claims: &'a [Claim],
    marks: &'a MarkWords,
    ghost few: { variables ≤ 15 },
    ghost count: { (m : Method) → slice_get program.now.methods method ≡ Some m → variables ≡ length m.variables },
    ghost claims_are: { AreOfEntry variables claims.now },
    ghost marks_fit: { length marks.now ≡ mark_words program.now.methods },
}

impl<'a, Q: Oracle> Entering<'a, Q> {
    // Those of the wanted facts that a call has there.
    fn known(&self, alloc: Global, wanted: &FactSet) -> Result<FactSet, OutOfMemory>
        ensures { IfOk result (λ known. (m : Method) →
            slice_get self.now.program.now.methods self.now.method ≡ Some m →
            IsExact self.now.program.now.header m (has wanted.now) (has known)
            (IsAtEntry (outline_of self.now.program.now self.now.marks.now) m)) }
    {
        let situation = names_of(self.program, self.variables);
        let arrivals = Arrivals {
            oracle: self.oracle,
            program: self.program,
            method: self.method,
            situation,
            claims: self.claims,
        };
        let following = Following {
            arrivals,
            marks: self.marks,
        };
        following.known(alloc, &FactSet::empty(), wanted)
    }
}

/// Which of the wanted facts a call of the method has where it begins.
pub fn entry<Q: Oracle>(
    alloc: Global,
    oracle: &Q,
    program: &Program,
    method: u32,
    wanted: &FactSet,
    marks: &MarkWords,
) -> Result<FactSet, OutOfMemory>
    requires { length marks.now ≡ mark_words program.now.methods }
    ensures { IfOk result (λ known. (m : Method) → slice_get program.now.methods method ≡ Some m →
        IsExact program.now.header m (has wanted.now) (has known) (IsAtEntry (outline_of program.now marks.now) m)) }
{
    let Some(variables) = variables_of(program, method) else {
        return Ok(FactSet::empty());
    };
    let claims = entry_claims(alloc, variables)?;
    let entering = Entering {
        oracle,
        program,
        method,
        variables,
        claims: claims.as_slice(),
        marks,
    };
    entering.known(alloc, wanted)
}
