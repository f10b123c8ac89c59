use crate::{Bound, Ledger, Pair};
use std::process::Abort;
use std::rt::HostRuntime;

#[test]
fn the_greatest_lower_and_the_least_upper(rt: HostRuntime) {
    let mut ledger = Ledger::new(-3);
    assert!(rt; ledger.pair == pair(-3, None));
    for (reply, lower, upper) in [
        (Bound::Nothing, -3, None),
        (Bound::Lower(-5), -3, None),
        (Bound::Lower(2), 2, None),
        (Bound::Upper(9), 2, Some(9)),
        (Bound::Upper(11), 2, Some(9)),
        (Bound::Lower(2), 2, Some(9)),
        (Bound::Upper(-7), 2, Some(-7)),
        (Bound::Lower(i128::MAX), i128::MAX, Some(-7)),
        (Bound::Upper(i128::MIN), i128::MAX, Some(i128::MIN)),
        (Bound::Nothing, i128::MAX, Some(i128::MIN)),
    ] {
        assert!(rt; ledger.take(reply) == pair(lower, upper));
        assert!(rt; ledger.pair == pair(lower, upper));
    }
}

fn pair(lower: i128, upper: Option<i128>) -> Pair {
    Pair { lower, upper }
}
