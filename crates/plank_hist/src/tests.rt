use super::*;
use plank_base::Op::{self, Contains, Delete, Insert};

const fn call(op: Op, key: i64, answer: bool) -> SeqCall {
    SeqCall { op, key, answer }
}

#[test]
fn legal_calls_are_known(rt: HostRuntime) {
    assert!(rt; is_legal(&[]), "no calls");
    assert!(rt;
        is_legal(&[call(Insert, 5, true), call(Contains, 5, true)]),
        "an insert is seen"
    );
    assert!(rt;
        is_legal(&[call(Delete, -3, false)]),
        "an absent key is not deleted"
    );
    assert!(rt;
        is_legal(&[call(Insert, 5, true), call(Insert, 5, false)]),
        "only the first insert adds"
    );
    assert!(rt;
        is_legal(&[
            call(Insert, 5, true),
            call(Contains, 7, false),
            call(Delete, 5, true),
            call(Contains, 5, false)
        ]),
        "keys are apart, and the last change counts"
    );
}

#[test]
fn illegal_calls_are_known(rt: HostRuntime) {
    assert!(rt;
        !is_legal(&[call(Contains, 5, true)]),
        "nothing was inserted"
    );
    assert!(rt;
        !is_legal(&[call(Delete, 5, true)]),
        "nothing was there to delete"
    );
    assert!(rt;
        !is_legal(&[call(Insert, 5, true), call(Insert, 5, true)]),
        "it was there already"
    );
    assert!(rt;
        !is_legal(&[
            call(Insert, 5, true),
            call(Delete, 5, true),
            call(Contains, 5, true)
        ]),
        "it was deleted"
    );
}
