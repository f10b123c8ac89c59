use super::*;
use std::test::Fail;

#[test]
fn sums_and_products(rt: HostRuntime) {
    let sums = [
        (-5, 3, Ok(-2)),
        (i128::MIN, i128::MAX, Ok(-1)),
        (i128::MAX, 0, Ok(i128::MAX)),
        (i128::MAX, 1, Err(Wide)),
        (i128::MIN, -1, Err(Wide)),
    ];
    for (a, b, sum) in sums {
        assert_eq!(rt; add(a, b), sum, "{a} + {b}");
    }
    let products = [
        (-7, 6, Ok(-42)),
        (i128::MIN, 1, Ok(i128::MIN)),
        (-18446744073709551616, 9223372036854775808, Ok(i128::MIN)),
        (18446744073709551616, 9223372036854775808, Err(Wide)),
        (i128::MIN, -1, Err(Wide)),
    ];
    for (a, b, product) in products {
        assert_eq!(rt; mul(a, b), product, "{a} * {b}");
    }
}

#[test]
fn quotients(rt: HostRuntime) {
    let cases = [
        (7, 2, 3, 4),
        (-7, 2, -4, -3),
        (6, 2, 3, 3),
        (-6, 2, -3, -3),
        (0, 5, 0, 0),
        (1, i128::MAX, 0, 1),
        (-1, i128::MAX, -1, 0),
        (i128::MIN, i128::MAX, -2, -1),
        (i128::MIN, 1, i128::MIN, i128::MIN),
        (
            i128::MIN,
            3,
            -56713727820156410577229101238628035243,
            -56713727820156410577229101238628035242,
        ),
        (
            i128::MAX,
            2,
            85070591730234615865843651857942052863,
            85070591730234615865843651857942052864,
        ),
    ];
    for (a, b, down, up) in cases {
        assert!(rt; b > 0);
        assert_eq!(rt; floor_div(a, b), down, "{a} / {b} down");
        assert_eq!(rt; ceil_div(a, b), up, "{a} / {b} up");
    }
}

#[test]
fn signs(rt: HostRuntime) {
    let greatest = 170141183460469231731687303715884105727;
    assert_eq!(rt; signed(true, 5), -5);
    assert_eq!(rt; signed(false, 5), 5);
    assert_eq!(rt; signed(true, 0), 0);
    assert_eq!(rt; signed(true, greatest), -i128::MAX);
    assert_eq!(rt; signed(false, greatest), i128::MAX);
}

#[test]
fn fractions(rt: HostRuntime) -> Result<(), Fail> {
    let cases = [
        (80, 20, "4"),
        (-3, 4, "-3/4"),
        (-6, 4, "-3/2"),
        (0, 5, "0"),
        (35, 12, "35/12"),
        (9, 9, "1"),
        (-i128::MAX, i128::MAX, "-1"),
        (i128::MAX, 2, "170141183460469231731687303715884105727/2"),
    ];
    for (top, bottom, want) in cases {
        assert!(rt; bottom > 0);
        assert!(rt; top > i128::MIN);
        let text = reduce(top, bottom).text(rt.alloc())?;
        assert_eq!(rt; text.as_slice(), want.as_bytes(), "{top}/{bottom}");
    }
    let least = Fraction {
        top: i128::MIN,
        bottom: 1,
    };
    let text = least.text(rt.alloc())?;
    assert_eq!(rt;
        text.as_slice(),
        "-170141183460469231731687303715884105728".as_bytes()
    );
    Ok(())
}

#[test]
fn lists_and_rooms(rt: HostRuntime) -> Result<(), Fail> {
    let mut list = List::new(rt.alloc());
    list.push(4u32)?;
    list.push(5)?;
    assert_eq!(rt; list.set(0, 6), 4);
    assert_eq!(rt; list.as_slice(), [6, 5].as_slice());
    assert_eq!(rt; list.pop(), Some(5));
    assert_eq!(rt; list.len(), 1);
    assert_eq!(rt; list.pop(), Some(6));
    assert_eq!(rt; list.pop(), None);
    let copy = List::from_slice(rt.alloc(), &[3u8, 1, 2])?;
    assert_eq!(rt; copy.as_slice(), [3, 1, 2].as_slice());

    let mut room = Room::new(rt.alloc(), 2)?;
    room.push(7u32);
    room.push(8);
    assert_eq!(rt; room.items(), [7, 8].as_slice());
    let list = room.into_list();
    assert_eq!(rt; list.into_vec().as_slice(), [7, 8].as_slice());
    Ok(())
}
