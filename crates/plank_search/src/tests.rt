ghost use Rattle.std.specs.Prelude.{◌≡◌, ◌<◌, ◌/◌, ◌%◌, true, Some};
ghost use Rattle.plank_search.specs.Assignments.{value_at};
ghost use Rattle.plank_search.specs.Answers.{Tells, Propagates};
ghost use Rattle.plank_search.specs.Meanings.{MeetsRules};
ghost use Rattle.plank_search.specs.ExampleOrder.{order_row};

use super::*;
use plank_base::OutOfMemory;
use sqlite_items::Items;
use std::alloc::Global;

// The numbers from `first` on, by steps.
fn spaced(
    alloc: Global,
    first: usize,
    step: usize,
    count: usize,
) -> Result<Items<usize>, OutOfMemory> {
    let mut parts = Vec::with_capacity(alloc, count)?;
    let mut part = first;
    for _ in 0..count {
        parts.push(part)?;
        part = part.saturating_add(step);
    }
    Ok(Items::from_vec(parts))
}

// Each pigeon is in a hole, and no hole has two.
fn pigeonholes(alloc: Global, pigeons: usize, holes: usize) -> Result<Counts, OutOfMemory> {
    let mut counts = Counts::new(alloc);
    for pigeon in 0..pigeons {
        counts.add(Count {
            parts: spaced(alloc, pigeon.saturating_mul(holes), 1, holes)?,
            least: 1,
            most: holes,
        })?;
    }
    for hole in 0..holes {
        counts.add(Count {
            parts: spaced(alloc, hole, holes, pigeons)?,
            least: 0,
            most: 1,
        })?;
    }
    Ok(counts)
}

// Each of five vertices has one of some colours.
fn colours(alloc: Global, count: usize) -> Result<Counts, OutOfMemory> {
    let mut counts = Counts::new(alloc);
    for vertex in 0..5 {
        counts.add(Count {
            parts: spaced(alloc, count.saturating_mul(vertex), 1, count)?,
            least: 1,
            most: 1,
        })?;
    }
    Ok(counts)
}

// The ends of an edge differ in colour.
fn edges(alloc: Global, count: usize, graph: &[(usize, usize)]) -> Result<Clauses, OutOfMemory> {
    let mut clauses = Clauses::new(alloc);
    for (from, to) in graph {
        for colour in 0..count {
            let ends = [*from, *to].map(|vertex| Literal {
                part: count.saturating_mul(vertex).saturating_add(colour),
                value: false,
            });
            clauses.add(alloc, &ends)?;
        }
    }
    Ok(clauses)
}

fn has_answer<R: Rules>(
    alloc: Global,
    rules: &R,
    clauses: &Clauses,
    parts: usize,
) -> Result<bool, OutOfMemory> {
    let given = vec![in alloc; None; parts]?;
    Ok(find(alloc, rules, clauses, given.as_slice())?.is_some())
}

// A strict order on twelve terms, kept transitive by a closure.
struct StrictOrder;

impl Rules for StrictOrder {
    ghost constraint_count = { λ _. 1728 };

    ghost meaning = { λ _ row full. order_row row full };

    fn constraints(&self) -> usize {
        1728
    }

    fn watched(&self) -> usize {
        0
    }

    fn look(&self, row: usize, values: &Values, reads: &mut Reads) -> Look {
        match reads.read(values, row / 12) {
            None => Look::Needs(row / 12),
            Some(false) => Look::Holds,
            Some(true) => match reads.read(values, row % 144) {
                None => Look::Needs(row % 144),
                Some(false) => Look::Holds,
                Some(true) => look_below(row, values, reads),
            },
        }
    }

    fn apply(&self, part: usize, values: &mut Values, _reads: &mut Reads) -> bool {
        if part < 144 {
            for term in 0..12 {
                if !follow_rows(part * 12 + term, term * 144 + part, values) {
                    return false;
                }
            }
        }
        true
    }
}

fn look_below(row: usize, values: &Values, reads: &mut Reads) -> Look
    requires row { row < 1728 }
    requires first { value_at values.now (row / 12) ≡ Some true }
    requires second { value_at values.now (row % 144) ≡ Some true }
    ensures { Tells (λ full. order_row row full ≡ true) values.now result }
{
    let below = row / 144 * 12 + row % 12;
    match reads.read(values, below) {
        None => Look::Needs(below),
        Some(true) => Look::Holds,
        Some(false) => Look::Fails,
    }
}

fn follow_rows(first: usize, second: usize, values: &mut Values) -> bool
    requires first { first < 1728 }
    requires second { second < 1728 }
    ensures { Propagates (MeetsRules (λ row full. order_row row full) 1728) values.old values.new result }
{
    follow_row(first, values) && follow_row(second, values)
}

fn follow_row(row: usize, values: &mut Values) -> bool
    requires { row < 1728 }
    ensures { Propagates (λ full. order_row row full ≡ true) values.old values.new result }
{
    match (values.get(row / 12), values.get(row % 144)) {
        (Some(true), Some(true)) => follow_below(row, values),
        _ => true,
    }
}

fn follow_below(row: usize, values: &mut Values) -> bool
    requires row { row < 1728 }
    requires first { value_at values.old (row / 12) ≡ Some true }
    requires second { value_at values.old (row % 144) ≡ Some true }
    ensures { Propagates (λ full. order_row row full ≡ true) values.old values.new result }
{
    let below = row / 144 * 12 + row % 12;
    match values.get(below) {
        Some(goes) => goes,
        None => {
            values.put(below, true);
            true
        }
    }
}

// The order of the terms that are given, with no term below itself.
fn order(alloc: Global, pairs: &[(usize, usize)]) -> Result<Option<Items<bool>>, OutOfMemory> {
    let mut given = vec![in alloc; None; 144]?;
    for term in spaced(alloc, 0, 13, 12)?.as_slice() {
        set(&mut given, *term, false);
    }
    for (low, high) in pairs {
        set(
            &mut given,
            low.saturating_mul(12).saturating_add(*high),
            true,
        );
    }
    find(alloc, &StrictOrder, &Clauses::new(alloc), given.as_slice())
}

fn value_of(found: &Option<Items<bool>>, part: usize) -> Option<bool> {
    match found {
        Some(full) => full.get(part).copied(),
        None => None,
    }
}

fn set(given: &mut Vec<Option<bool>>, part: usize, value: bool) {
    if part < given.len() {
        given[part] = Some(value);
    }
}

#[test]
fn pigeons_fit_where_there_are_holes_enough(rt: HostRuntime) -> Result<(), OutOfMemory> {
    let alloc = rt.alloc();
    for (pigeons, holes, fit) in [(1, 1, true), (3, 3, true), (4, 3, false), (6, 5, false)] {
        let counts = pigeonholes(alloc, pigeons, holes)?;
        let answer = has_answer(alloc, &counts, &Clauses::new(alloc), 30)?;
        assert_eq!(rt; answer, fit);
    }
    Ok(())
}

#[test]
fn odd_cycle_has_three_colours_but_not_two(rt: HostRuntime) -> Result<(), OutOfMemory> {
    let alloc = rt.alloc();
    let cycle = [(0, 1), (1, 2), (2, 3), (3, 4), (4, 0)];
    for (count, colourable) in [(2, false), (3, true)] {
        let clauses = edges(alloc, count, &cycle)?;
        let answer = has_answer(alloc, &colours(alloc, count)?, &clauses, 15)?;
        assert_eq!(rt; answer, colourable);
    }
    Ok(())
}

#[test]
fn strict_order_refuses_a_pair_against_its_chain(rt: HostRuntime) -> Result<(), OutOfMemory> {
    let alloc = rt.alloc();
    let chain = [
        (0, 1),
        (1, 2),
        (2, 3),
        (3, 4),
        (4, 5),
        (5, 6),
        (6, 7),
        (7, 8),
        (8, 9),
        (9, 10),
        (10, 11),
    ];
    let found = order(alloc, &chain)?;
    assert_eq!(rt; value_of(&found, 11), Some(true));
    assert_eq!(rt; value_of(&found, 132), Some(false));
    let against = [(0, 1), (1, 2), (2, 3), (3, 0)];
    assert!(rt; order(alloc, &against)?.is_none());
    Ok(())
}

#[test]
fn no_rules_leave_every_part_no_and_the_empty_clause_holds_nowhere(
    rt: HostRuntime,
) -> Result<(), OutOfMemory> {
    let alloc = rt.alloc();
    let mut clauses = Clauses::new(alloc);
    let found = find(alloc, &NoRules, &clauses, &[None, Some(true), None])?;
    for (part, value) in [false, true, false].iter().enumerate() {
        assert_eq!(rt; value_of(&found, part), Some(*value));
    }
    clauses.add(alloc, &[])?;
    assert!(rt; find(alloc, &NoRules, &clauses, &[None])?.is_none());
    Ok(())
}

#[test]
fn parts_that_nothing_looks_at_are_not_split_on(rt: HostRuntime) -> Result<(), OutOfMemory> {
    let alloc = rt.alloc();
    let mut counts = Counts::new(alloc);
    counts.add(Count {
        parts: spaced(alloc, 100, 200, 3)?,
        least: 2,
        most: 3,
    })?;
    let given = vec![in alloc; None; 700]?;
    let mut statistics = Statistics::new();
    let clauses = Clauses::new(alloc);
    let found = find_counted(
        alloc,
        &counts,
        &clauses,
        given.as_slice(),
        &[],
        &mut statistics,
    )?;
    assert_eq!(rt; value_of(&found, 699), Some(false));
    assert_eq!(rt; value_of(&found, 700), None);
    assert!(rt; statistics.decisions <= 3);
    Ok(())
}

#[test]
fn some_goal_is_yes(rt: HostRuntime) -> Result<(), OutOfMemory> {
    let alloc = rt.alloc();
    let mut clauses = Clauses::new(alloc);
    let not_first = Literal {
        part: 0,
        value: false,
    };
    clauses.add(alloc, &[not_first])?;
    let open = [None, None, None];
    let found = find_any(alloc, &NoRules, &clauses, &open, &[0, 2])?;
    assert_eq!(rt; value_of(&found, 2), Some(true));
    assert!(rt; find_any(alloc, &NoRules, &clauses, &open, &[0])?.is_none());
    assert!(rt; find_any(alloc, &NoRules, &clauses, &open, &[3])?.is_none());
    assert!(rt; find_any(alloc, &NoRules, &clauses, &open, &[])?.is_none());
    Ok(())
}

#[test]
fn questions_of_a_session_leave_nothing_for_the_next(rt: HostRuntime) -> Result<(), OutOfMemory> {
    let alloc = rt.alloc();
    let cycle = [(0, 1), (1, 2), (2, 3), (3, 4), (4, 0)];
    let counts = colours(alloc, 3)?;
    let clauses = edges(alloc, 3, &cycle)?;
    let given = vec![in alloc; None; 15]?;
    let mut session = Session::new(alloc, &counts, &clauses, given.as_slice())?;
    let claim = |part: usize| Literal { part, value: true };
    let neighbors_alike = [claim(0), claim(3)];
    let two_apart_alike = [claim(0), claim(6)];
    for _ in 0..2 {
        assert!(rt; session.find(alloc, &neighbors_alike)?.is_none());
        let found = session.find(alloc, &two_apart_alike)?;
        assert_eq!(rt; value_of(&found, 6), Some(true));
        assert!(rt;
            session
                .find_any(alloc, &two_apart_alike, &[3, 10])?
                .is_some()
        );
        assert!(rt;
            session
                .find_any(alloc, &two_apart_alike, &[3, 9])?
                .is_none()
        );
        assert!(rt; session.find_any(alloc, &[], &[])?.is_none());
        assert!(rt; session.find(alloc, &[])?.is_some());
    }
    Ok(())
}
