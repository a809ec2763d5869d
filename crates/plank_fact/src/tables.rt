ghost use Rattle.std.specs.Prelude.{◌≡◌, ◌+◌, ◌*◌, ◌≤◌, ◌^◌, ℕ, Some, None, IsNone, IfSome, slice_get, option_map, length, sum_by};
ghost use Rattle.plank_base.specs.declared.limits.TheConstants.{VARIABLES_LIMIT};
ghost use Rattle.plank_fact.specs.Tables.{name_count, fact_at};
ghost use Rattle.plank_fact.specs.Places.{sizes_of, facts_within, kind_number};

use crate::facts::Fact;
use crate::kinds::{FACT_KINDS, FactKind};
use crate::layouts::Sizes;
use plank_prog::Program;

// What the table of a method depends on; none where there is no such method.
fn sizes(program: &Program, method: u32) -> Option<Sizes>
    ensures { result ≡ option_map (λ m. sizes_of program.now.header (name_count m)) (slice_get program.now.methods method) }
{
    let method = program.methods.get(method as usize)?;
    let header = &program.header;
    let names = method.variables.len() as u8 + 1;
    Some(Sizes {
        names,
        flags: header.flags.len() as u8,
        pointers: header.pointers.len() as u8,
        lockable: if header.has_lock { names } else { 0 },
        chained: if header.pointers.len() == 1 && header.freeze.is_some() {
            names
        } else {
            0
        },
    })
}

// How many facts have a kind that comes before this one.
fn facts_before(sizes: &Sizes, kind: FactKind) -> u32
    ensures count { result ≡ facts_within sizes.now (kind_number kind) }
    ensures few { result ≤ 2 ^ 30 }
{
    let mut count = 0;
    for earlier in &FACT_KINDS[..kind as usize] {
        count += earlier.layout(sizes).len();
    }
    count
}

/// The fact of this number in the table of a method: none past the last, and none where the program has
/// no such method. A method has at most 630 facts. Takes no memory.
pub fn fact(program: &Program, method: u32, number: u32) -> Option<Fact>
    ensures { result ≡ fact_at program.now.header program.now.methods method number }
{
    let sizes = sizes(program, method)?;
    let mut rest = number;
    for kind in FACT_KINDS {
        match kind.layout(&sizes).parts_at(rest) {
            Ok(parts) => return Some(kind.fact(&parts)),
            Err(left) => rest = left,
        }
    }
    None
}

/// The number of a fact in the table of a method; none where the table has no such fact, or the program
/// no such method. Takes no memory.
pub fn number(program: &Program, method: u32, fact: &Fact) -> Option<u32>
    ensures found { IfSome result (λ n. fact_at program.now.header program.now.methods method n ≡ Some fact.now) }
    ensures none { IsNone result → (n : ℕ) →
        fact_at program.now.header program.now.methods method n ≡ Some fact.now → ⊥ }
{
    let sizes = sizes(program, method)?;
    let kind = fact.kind()?;
    let place = kind.layout(&sizes).place_of(&fact.parts())?;
    Some(facts_before(&sizes, kind) + place)
}
