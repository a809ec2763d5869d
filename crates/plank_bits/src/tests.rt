ghost use Rattle.std.specs.Prelude.{◌*◌, ◌<◌, ◌≤◌};

use super::*;
use std::process::Abort;
use std::test::Fail;

fn ends_are_members<const W: usize>(rt: &impl Abort)
    requires some { 0 < W }
    requires few { W ≤ 64 }
{
    let last = 64 * (W as u32) - 1;
    let set = Bits::<W>::empty().with(63).with(last);
    assert_eq!(rt; set.count(), if W == 1 { 1 } else { 2 });
    assert!(rt; set.has(63) && set.has(last) && !set.has(last + 1) && !set.has(u32::MAX));
    assert_eq!(rt; set.next_from(0), Some(63));
    assert_eq!(rt; set.next_from(64), if W == 1 { None } else { Some(last) });
    assert_eq!(rt; set.next_from(last + 1), None);
}

#[test]
fn the_last_number_of_a_word_is_a_member(rt: HostRuntime) {
    ends_are_members::<1>(&rt);
    ends_are_members::<16>(&rt);
    ends_are_members::<64>(&rt);
}

#[test]
fn sets_combine_number_by_number(rt: HostRuntime) {
    let a = Bits::<16>::empty().with(1).with(63).with(64).with(1023);
    let b = Bits::<16>::empty().with(63).with(64).with(100);
    for (i, either, both, left) in [
        (0, false, false, false),
        (1, true, false, true),
        (63, true, true, false),
        (64, true, true, false),
        (100, true, false, false),
        (1023, true, false, true),
    ] {
        assert_eq!(rt; a.union(&b).has(i), either, "union at {i}");
        assert_eq!(rt; a.meet(&b).has(i), both, "meet at {i}");
        assert_eq!(rt; a.minus(&b).has(i), left, "minus at {i}");
    }
    assert!(rt; a.meet(&b).subset(&b) && !a.subset(&b));
    assert_eq!(rt; a.union(&b).count(), 5);
}

#[test]
fn new_words_have_no_mark(rt: HostRuntime) -> Result<(), Fail> {
    let mut marks = MarkWords::new(rt.alloc(), 2)?;
    assert_eq!(rt; marks.len(), 2);
    for mark in 0..128 {
        assert!(rt; !marks.has(mark));
    }
    let mut other = MarkWords::new(rt.alloc(), 2)?;
    assert_eq!(rt; other.len(), 2);
    other.set(64);
    assert_eq!(rt; other.word(1), 1);
    assert!(rt; marks.subset(&other) && !other.subset(&marks));
    marks.put_word(0, 5);
    marks.union_with(&other);
    assert!(rt; marks.has(0) && !marks.has(1) && marks.has(2) && marks.has(64));
    Ok(())
}
