//! Values of conditions.
use plank_base::Key;
use plank_prog::{Condition, KeyRelation, KeyTerm};
use sqlite_items::Items;
use std::test::Fail;

// The value at a node with key 5, the second flag alone, a null first pointer and a second that is not
// null, for the walked key 7, whose walk visits the node.
fn value(condition: &Condition) -> bool {
    condition.value(Key::Num(5), 0b010, &[true, false], Key::Num(7), true)
}

const fn keys(left: KeyTerm, relation: KeyRelation, right: KeyTerm) -> Condition {
    Condition::Keys {
        left,
        relation,
        right,
    }
}

#[test]
fn key_comparisons_have_their_values(rt: HostRuntime) {
    let table = [
        (
            keys(KeyTerm::Node, KeyRelation::Less, KeyTerm::Walked),
            true,
        ),
        (
            keys(KeyTerm::Walked, KeyRelation::Less, KeyTerm::Node),
            false,
        ),
        (keys(KeyTerm::Node, KeyRelation::Less, KeyTerm::Node), false),
        (
            keys(KeyTerm::Node, KeyRelation::AtMost, KeyTerm::Node),
            true,
        ),
        (
            keys(KeyTerm::Node, KeyRelation::Equal, KeyTerm::Walked),
            false,
        ),
        (
            keys(KeyTerm::Node, KeyRelation::NotEqual, KeyTerm::Walked),
            true,
        ),
        (keys(KeyTerm::Min, KeyRelation::Less, KeyTerm::Node), true),
        (
            keys(KeyTerm::Max, KeyRelation::AtMost, KeyTerm::Walked),
            false,
        ),
        (keys(KeyTerm::Min, KeyRelation::Equal, KeyTerm::Min), true),
    ];
    for (condition, expected) in &table {
        assert!(rt; value(condition) == *expected, "{condition:?}");
    }
}

#[test]
fn fields_have_their_values(rt: HostRuntime) {
    let table = [
        (Condition::Constant(true), true),
        (Condition::Constant(false), false),
        (Condition::Flag { flag: 1, set: true }, true),
        (
            Condition::Flag {
                flag: 1,
                set: false,
            },
            false,
        ),
        (Condition::Flag { flag: 0, set: true }, false),
        (
            Condition::Flags {
                left: 0,
                right: 2,
                equal: true,
            },
            true,
        ),
        (
            Condition::Flags {
                left: 0,
                right: 1,
                equal: false,
            },
            true,
        ),
        (
            Condition::Pointer {
                pointer: 0,
                null: true,
            },
            true,
        ),
        (
            Condition::Pointer {
                pointer: 1,
                null: true,
            },
            false,
        ),
        (
            Condition::Pointer {
                pointer: 1,
                null: false,
            },
            true,
        ),
        (Condition::Visited, true),
    ];
    for (condition, expected) in &table {
        assert!(rt; value(condition) == *expected, "{condition:?}");
    }
}

#[test]
fn all_and_any_have_their_values(rt: HostRuntime) -> Result<(), Fail> {
    let alloc = rt.alloc();
    for (first, second) in [(true, true), (true, false), (false, true), (false, false)] {
        let parts = vec![in alloc; Condition::Constant(first), Condition::Constant(second)]?;
        assert!(rt; value(&Condition::All(Items::from_vec(parts))) == (first && second));
        let parts = vec![in alloc; Condition::Constant(first), Condition::Constant(second)]?;
        assert!(rt; value(&Condition::Any(Items::from_vec(parts))) == (first || second));
    }
    assert!(rt; value(&Condition::All(Items::new(alloc))), "all of none");
    assert!(rt; !value(&Condition::Any(Items::new(alloc))), "any of none");
    Ok(())
}
