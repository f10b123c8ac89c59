use crate::{DecFault, Decimal, common, one_value, read, scaled};
use std::alloc::{AllocError, Global};
use std::test::Fail;
use wide_num::{List, Wide};

/// 10^36
const MOST: i128 = 1_000_000_000_000_000_000_000_000_000_000_000_000;

fn number(mantissa: i128, places: u8) -> Result<Decimal, DecFault> {
    Ok(Decimal { mantissa, places })
}

fn fault(fault: DecFault) -> Result<Decimal, DecFault> {
    Err(fault)
}

#[test]
fn texts_are_read(rt: HostRuntime) {
    let no = fault(DecFault::NotNumber);
    let many = fault(DecFault::TooManyPlaces);
    let above = fault(DecFault::TooLarge { negative: false });
    let below = fault(DecFault::TooLarge { negative: true });
    for (text, want) in [
        ("0.123456789", number(123_456_789, 9)),
        ("0.1234567891", many),
        ("1e-10", many),
        ("1e-9", number(1, 9)),
        ("10e-10", number(1, 9)),
        ("1.50e3", number(1500, 0)),
        ("+1.50E-3", number(15, 4)),
        ("-.5", number(-5, 1)),
        ("5.", number(5, 0)),
        ("0012.3400", number(1234, 2)),
        ("-0.0", number(0, 0)),
        ("0e-99999", number(0, 0)),
        ("-0e999999999999", number(0, 0)),
        ("0.00000000000000000001e20", number(1, 0)),
        ("-12e+2", number(-1200, 0)),
        ("-1e37", below),
        ("1e36", number(MOST, 0)),
        ("-1e36", number(-MOST, 0)),
        ("1000000000000000000000000000000000000", number(MOST, 0)),
        (
            "1000000000000000000000000000000000000.000000000",
            number(MOST, 0),
        ),
        (
            "1000000000000000000000000000.000000000",
            number(1_000_000_000_000_000_000_000_000_000, 0),
        ),
        ("1000000000000000000000000000.000000000e9", number(MOST, 0)),
        ("1000000000000000000000000000000000001", above),
        ("1000000000000000000000000000.000000001", above),
        ("999999999999999999999999999.999999999", number(MOST - 1, 9)),
        ("100000000000000000000000000000000000.5e1", above),
        ("100000000000000000000000000000000000.0e1", number(MOST, 0)),
        ("-1000000000000000000000000000000000000000.1e-9", many),
        ("1e999999999999", above),
        ("-1e-999999999999", many),
        ("", no),
        (".", no),
        ("+", no),
        ("e5", no),
        ("1e", no),
        ("1e+", no),
        ("1_0", no),
        ("1.2.3", no),
        ("1e1e1", no),
        ("1e1.5", no),
        ("--1", no),
        (" 1", no),
        ("1 ", no),
        ("0x10", no),
    ] {
        assert_eq!(rt; read(text.as_bytes()), want, "at {text}");
    }
}

/// A digit with an exponent of a thousand nines.
fn with_long_exponent(alloc: Global, digit: u8) -> Result<Vec<u8>, AllocError> {
    let mut text = Vec::new(alloc);
    text.push(digit)?;
    text.push(b'e')?;
    for _ in 0..1000 {
        text.push(b'9')?;
    }
    Ok(text)
}

#[test]
fn long_exponents_are_read(rt: HostRuntime) -> Result<(), Fail> {
    let one = with_long_exponent(rt.alloc(), b'1')?;
    assert_eq!(rt; read(&one), fault(DecFault::TooLarge { negative: false }));
    let zero = with_long_exponent(rt.alloc(), b'0')?;
    assert_eq!(rt; read(&zero), number(0, 0));
    Ok(())
}

#[test]
fn decimals_are_scaled(rt: HostRuntime) -> Result<(), Fail> {
    one_value();
    let mut items = List::new(rt.alloc());
    assert_eq!(rt; common(&items), 0);
    for places in [1, 3, 2] {
        items.push(Decimal {
            mantissa: 7,
            places,
        })?;
    }
    assert_eq!(rt; common(&items), 3);
    assert_eq!(rt;
        scaled(
            Decimal {
                mantissa: -15,
                places: 1
            },
            3
        ),
        Ok(-1500)
    );
    assert_eq!(rt;
        scaled(
            Decimal {
                mantissa: MOST,
                places: 2
            },
            4
        ),
        Ok(MOST * 100)
    );
    assert_eq!(rt;
        scaled(
            Decimal {
                mantissa: MOST,
                places: 0
            },
            9
        ),
        Err(Wide)
    );
    Ok(())
}
