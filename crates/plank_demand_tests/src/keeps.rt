//! Keeps that break at nodes without a name.
use crate::texts::{RUN, RUN_MARKS, SAFE_RUN, SLOT, SLOT_MARKS, SWEEP, SWEEP_MARKS, program_of};
use plank_base::{Kind, MARK_WORDS_PER_LOCATION, Obligation};
use plank_bits::MarkWords;
use plank_demand::Asking;
use plank_judge::{holds, obligations};
use plank_marks::{locations_before, mark_words};
use plank_solve::Solver;
use std::alloc::Global;

/// Puts the marks of a location, by its number in the program.
fn put(marks: &mut MarkWords, location: usize, row: &[u64]) {
    for (i, word) in row.iter().enumerate() {
        let at = location
            .saturating_mul(MARK_WORDS_PER_LOCATION as usize)
            .saturating_add(i);
        if at < marks.len() as usize {
            marks.put_word(at as u32, *word);
        }
    }
}

fn is_at(obligation: &Obligation, line: u32, column: u32) -> bool {
    obligation.kind == Kind::Keep
        && obligation.place.line == line
        && obligation.place.column == column
}

/// Whether the keep at a place of a text fails, where these are the marks of its location.
fn keep_fails(alloc: Global, text: &[u8], line: u32, column: u32, row: &[u64]) -> Option<bool> {
    let program = program_of(alloc, text)?;
    let list = obligations(alloc, &program).ok()?;
    let obligation = list
        .iter()
        .find(|obligation| is_at(obligation, line, column))?;
    if obligation.method as usize >= program.methods.len() {
        return None;
    }
    let mut marks = MarkWords::new(alloc, mark_words(&program)).ok()?;
    let before = locations_before(&program, obligation.method);
    put(
        &mut marks,
        before as usize + obligation.location as usize,
        row,
    );
    if marks.len() != mark_words(&program) {
        return None;
    }
    let demands = Asking {
        oracle: &Solver,
        program: &program,
    };
    match holds(alloc, &demands, obligation, &marks) {
        Ok(holds) => Some(!holds),
        Err(_) => None,
    }
}

#[test]
fn a_keep_breaks_at_a_node_that_loses_its_last_name(rt: HostRuntime) {
    assert_eq!(rt; keep_fails(rt.alloc(), SLOT, 38, 7, SLOT_MARKS), Some(true));
    assert_eq!(rt;
        keep_fails(rt.alloc(), SWEEP, 63, 3, SWEEP_MARKS),
        Some(true)
    );
}

#[test]
fn a_keep_breaks_inside_a_chain_where_it_asks_for_visits(rt: HostRuntime) {
    assert_eq!(rt; keep_fails(rt.alloc(), RUN, 23, 9, RUN_MARKS), Some(true));
    assert_eq!(rt;
        keep_fails(rt.alloc(), SAFE_RUN, 23, 9, RUN_MARKS),
        Some(false)
    );
}
