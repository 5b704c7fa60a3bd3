//! Worked values of the field, and the fast operations beside the plain ones.
//! The expected numbers are computed by hand or by one division.

use definitions::plain_field;
use field64::{Fe, MODULUS, dot};

fn element(number: u64) -> Fe {
    Fe::new(number).unwrap_or(Fe::zero())
}

#[test]
fn worked_values(rt: HostRuntime) {
    let last = element(MODULUS - 1);
    assert_eq!(rt; last.number(), MODULUS - 1);
    assert_eq!(rt; last.add(Fe::one()).number(), 0);
    assert_eq!(rt; last.mul(last).number(), 1);
    let half = element(1 << 32);
    assert_eq!(rt; half.mul(half).number(), 4294967295);
    assert_eq!(rt; Fe::from_u128(u128::MAX).number(), 18446744065119617024);
    assert!(rt; Fe::new(MODULUS).is_none());
    assert!(rt; Fe::new(MODULUS - 1).is_some());
    assert_eq!(rt; Fe::zero().sub(Fe::one()), last);
    assert_eq!(rt; Fe::one().neg(), last);
    assert_eq!(rt; dot(&[half, last], &[half, last]).number(), 4294967296);
}

#[test]
fn fast_operations_equal_the_plain_ones(rt: HostRuntime) {
    let numbers = [
        0,
        1,
        2,
        4294967295,
        4294967296,
        9223372036854775808,
        MODULUS - 2,
        MODULUS - 1,
    ];
    for a in numbers {
        for b in numbers {
            let (x, y) = (element(a), element(b));
            assert_eq!(rt; x.add(y).number(), plain_field::add(a, b));
            assert_eq!(rt; x.sub(y).number(), plain_field::sub(a, b));
            assert_eq!(rt; x.mul(y).number(), plain_field::mul(a, b));
        }
        assert_eq!(rt; element(a).neg().number(), plain_field::neg(a));
    }
}
