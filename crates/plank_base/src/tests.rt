use super::*;

#[test]
fn ends_lie_outside_all_numbers(rt: HostRuntime) {
    let keys = [
        Key::Min,
        Key::Num(i64::MIN),
        Key::Num(-1),
        Key::Num(5),
        Key::Num(i64::MAX),
        Key::Max,
    ];
    for (i, &a) in keys.iter().enumerate() {
        for (j, &b) in keys.iter().enumerate() {
            assert_eq!(rt; a.is_less(b), i < j);
            assert_eq!(rt; a.is_at_most(b), i <= j);
            assert_eq!(rt; a < b, i < j);
        }
        assert_eq!(rt; a.is_ordinary(), i != 0 && i != 5);
    }
}
