//! Sums as elements, three for each report: x, y and z of the first, then of the second, and so on.
//! A message has them so.

ghost use Rattle.std.specs.Prelude.{◌≡◌, ◌*◌, ◌^◌, ◌<◌, length, IfOk};
ghost use Rattle.walk_definitions.specs.Messages.{flat};

use field64::Fe;
use sketch_check::Sums;
use std::alloc::{AllocError, Global};

/// The elements of sums.
pub fn elements_of(alloc: Global, sums: &[Sums]) -> Result<Vec<Fe>, AllocError>
    ensures elements { IfOk result (λ numbers. numbers.items ≡ flat sums.now) }
{
    let mut numbers = Vec::new(alloc);
    for each in sums {
        numbers.push(each.x)?;
        numbers.push(each.y)?;
        numbers.push(each.z)?;
    }
    Ok(numbers)
}

/// The sums of so many reports, from their elements.
pub fn sums_of(alloc: Global, numbers: &[Fe], count: u32) -> Result<Vec<Sums>, AllocError>
    requires threes { length numbers.now ≡ 3 * count }
    ensures count { IfOk result (λ sums. length sums.items ≡ count) }
    ensures elements { IfOk result (λ sums. flat sums.items ≡ numbers.now) }
{
    let mut sums = Vec::new(alloc);
    for i in 0..count as usize {
        sums.push(Sums {
            x: numbers[3 * i],
            y: numbers[3 * i + 1],
            z: numbers[3 * i + 2],
        })?;
    }
    Ok(sums)
}
