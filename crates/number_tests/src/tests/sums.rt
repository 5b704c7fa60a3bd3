//! Both calls beside plain loops, over lengths 0 to 40 and 1,000, with elements near the modulus.
//! The plain loops add numbers as `definitions` does, by a division.

ghost use Rattle.std.specs.Prelude.{◌≡◌, length, IfOk};

use definitions::plain_field;
use field64::{Fe, MODULUS};
use lane_sums::{add_into, sum};
use std::alloc::{AllocError, Global};
use std::test::Fail;

/// So many elements: some just below the modulus, some small, some in between.
fn elements(alloc: Global, count: usize, start: u64) -> Result<Vec<Fe>, AllocError>
    ensures { IfOk result (λ made. length made.items ≡ count) }
{
    let mut made = Vec::new(alloc);
    let mut number = start;
    for _ in 0..count {
        number = number
            .wrapping_mul(6364136223846793005)
            .wrapping_add(1442695040888963407);
        let element = match number >> 62 {
            0 => MODULUS - 1 - (number >> 32) % 3,
            1 => number % 3,
            _ => number % MODULUS,
        };
        made.push(Fe::from_u128(u128::from(element)))?;
    }
    Ok(made)
}

/// Whether both calls over so many elements give what plain loops give.
fn agree(alloc: Global, count: usize) -> Result<bool, AllocError> {
    let before = elements(alloc, count, 3)?;
    let part = elements(alloc, count, 7)?;
    let mut into = elements(alloc, count, 3)?;
    add_into(into.as_mut_slice(), part.as_slice());
    let places = (0..count).all(|k| into[k].number()
        == plain_field::add(before[k].number(), part[k].number()));
    let mut total = 0u64;
    for x in &part {
        total = plain_field::add(total, x.number());
    }
    Ok(places && sum(part.as_slice()).number() == total)
}

#[test]
fn sums_are_the_plain_ones(rt: HostRuntime) -> Result<(), Fail> {
    for count in 0..41usize {
        assert!(rt; agree(rt.alloc(), count)?);
    }
    assert!(rt; agree(rt.alloc(), 1000)?);
    Ok(())
}

#[test]
fn the_greatest_elements_add_up(rt: HostRuntime) {
    let last = Fe::zero().sub(Fe::one());
    let mut into = [last; 5];
    add_into(&mut into, &[last; 5]);
    for element in into {
        assert_eq!(rt; element.number(), MODULUS - 2);
    }
    assert_eq!(rt; sum(&[last; 5]).number(), MODULUS - 5);
    assert_eq!(rt; sum(&[]).number(), 0);
}
