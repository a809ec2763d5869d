// The tables of the tests.
ghost use Rattle.std.specs.Prelude.{◌≡◌, ◌<◌, ◌≤◌, IfOk};

use crate::tables::Table;
use plank_base::OutOfMemory;
use std::alloc::Global;

// Method 0 forces mark 0; method 1 forces mark 1 where mark 0 is set.
pub(crate) fn relay(alloc: Global) -> Result<Table, OutOfMemory>
    ensures { IfOk result (λ t. (t.methods ≡ 2) × (t.words ≡ 1)) }
{
    let mut table = Table::new(alloc, 2, 1);
    table.add(0, 0, 0, 0)?;
    table.add(1, 0, 1, 1)?;
    Ok(table)
}

// Method i forces mark i.
pub(crate) fn pair(alloc: Global) -> Result<Table, OutOfMemory>
    ensures { IfOk result (λ t. (t.methods ≡ 2) × (t.words ≡ 1)) }
{
    let mut table = Table::new(alloc, 2, 1);
    table.add(0, 0, 0, 0)?;
    table.add(1, 0, 0, 1)?;
    Ok(table)
}

// One method, which forces each mark below which all are set.
pub(crate) fn staircase(alloc: Global) -> Result<Table, OutOfMemory>
    ensures { IfOk result (λ t. (t.methods ≡ 1) × (t.words ≡ 1)) }
{
    let mut table = Table::new(alloc, 1, 1);
    for mark in 0..64 {
        table.add(0, 0, mark, mark)?;
    }
    Ok(table)
}

fn next_of(state: u64) -> u64 {
    state
        .wrapping_mul(6_364_136_223_846_793_005)
        .wrapping_add(1_442_695_040_888_963_407)
}

// Some number below the bound, by the upper half of the state.
fn below(state: u64, bound: u32) -> u32
    requires { 0 < bound }
    ensures { result < bound }
{
    ((state >> 33) % (bound as u64)) as u32
}

// Five methods and four words: each mark is forced by one method, where up to two marks in a row are set.
pub(crate) fn random(alloc: Global, seed: u64) -> Result<Table, OutOfMemory>
    ensures { IfOk result (λ t. (t.methods ≡ 5) × (t.words ≡ 4)) }
{
    let mut table = Table::new(alloc, 5, 4);
    let mut state = next_of(seed);
    for mark in 0..256 {
        let method = below(state, 5);
        state = next_of(state);
        let from = below(state, 256);
        state = next_of(state);
        let len = below(state, 3);
        state = next_of(state);
        table.add(method, from, from + len, mark)?;
    }
    Ok(table)
}
