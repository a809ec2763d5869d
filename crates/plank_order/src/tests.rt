use super::*;

#[test]
fn less_and_at_most_compose(rt: HostRuntime) {
    let (a, b, c) = (Term(0), Term(1), Term(2));
    let mut order = Preorder::new(3);
    assert!(rt; !order.at_most(a, b) && !order.at_most(b, a) && order.at_most(a, a));
    assert_eq!(rt; order.assume_less(a, b), Ok(()));
    assert_eq!(rt; order.assume_at_most(b, c), Ok(()));
    assert!(rt; order.less(a, c) && order.at_most(a, c) && !order.less(b, c));
    let before = order;
    assert_eq!(rt; order.assume_at_most(c, a), Err(Clash));
    assert!(rt; order == before);
    assert_eq!(rt; order.assume_at_most(a, c), Ok(()));
    assert!(rt; order == before);
}

#[test]
fn a_cycle_of_three_is_an_equality(rt: HostRuntime) {
    let mut order = Preorder::new(4);
    assert_eq!(rt; order.assume_at_most(Term(0), Term(1)), Ok(()));
    assert_eq!(rt; order.assume_at_most(Term(1), Term(2)), Ok(()));
    assert_eq!(rt; order.assume_at_most(Term(2), Term(0)), Ok(()));
    for a in 0..3 {
        for b in 0..3 {
            assert!(rt; order.at_most(Term(a), Term(b)) && !order.less(Term(a), Term(b)));
        }
        assert!(rt; !order.at_most(Term(a), Term(3)) && !order.at_most(Term(3), Term(a)));
    }
    assert_eq!(rt; order.assume_less(Term(0), Term(2)), Err(Clash));
    assert_eq!(rt; order.assume_less(Term(2), Term(3)), Ok(()));
    assert!(rt; order.less(Term(0), Term(3)) && order.is_total());
}

#[test]
fn a_chain_of_all_terms_is_total_at_its_last_link(rt: HostRuntime) {
    assert!(rt; Preorder::new(0).is_total() && Preorder::new(1).is_total());
    let mut order = Preorder::new(TERMS_LIMIT);
    for k in 1..TERMS_LIMIT {
        assert!(rt; !order.is_total());
        assert_eq!(rt; order.assume_less(Term(k - 1), Term(k)), Ok(()));
    }
    assert!(rt; order.is_total() && order.less(Term(0), Term(TERMS_LIMIT - 1)));
}

#[test]
fn sixteen_names_fall_into_two_groups(rt: HostRuntime) {
    let mut partition = Partition::new(16);
    for k in 2..16 {
        assert_eq!(rt; partition.assume_same(Name(k - 2), Name(k)), Ok(()));
    }
    assert!(rt; !partition.same(Name(0), Name(1)) && !partition.apart(Name(0), Name(1)));
    assert_eq!(rt; partition.assume_apart(Name(14), Name(1)), Ok(()));
    for a in 0..16 {
        for b in 0..16 {
            let together = a % 2 == b % 2;
            assert_eq!(rt; partition.same(Name(a), Name(b)), together);
            assert_eq!(rt; partition.apart(Name(a), Name(b)), !together);
        }
    }
    let before = partition;
    assert_eq!(rt; partition.assume_same(Name(0), Name(15)), Err(Clash));
    assert_eq!(rt; partition.assume_apart(Name(0), Name(14)), Err(Clash));
    assert!(rt; partition == before);
}

#[test]
fn names_apart_stay_apart_when_groups_are_joined(rt: HostRuntime) {
    let mut partition = Partition::new(4);
    assert_eq!(rt; partition.assume_apart(Name(0), Name(1)), Ok(()));
    assert_eq!(rt; partition.assume_same(Name(0), Name(2)), Ok(()));
    assert_eq!(rt; partition.assume_same(Name(1), Name(3)), Ok(()));
    assert!(rt; partition.apart(Name(2), Name(3)) && partition.apart(Name(3), Name(0)));
    assert_eq!(rt; partition.assume_same(Name(2), Name(3)), Err(Clash));
}
