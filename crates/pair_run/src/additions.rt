//! A side's own numbers and those that it received, added place by place.
//! Of sums this opens them.

ghost use Rattle.std.specs.Prelude.{◌≡◌, IfOk, length};
ghost use Rattle.definitions.specs.Field.{add};
ghost use Rattle.definitions.specs.Sketch.{sums_added};
ghost use Rattle.walk_definitions.specs.Heard.{paired};

use field64::Fe;
use sketch_check::{Sums, open};
use std::alloc::{AllocError, Global};

/// What a side opens: its own sums and the received ones, added place by place. `AllocError` is want of memory.
pub fn opened_sums(alloc: Global, own: &[Sums], received: &[Sums]) -> Result<Vec<Sums>, AllocError>
    requires count { length own.now ≡ length received.now }
    ensures sums { IfOk result (λ opened. opened.items ≡ paired sums_added own.now received.now) }
{
    let mut opened = Vec::with_capacity(alloc, own.len())?;
    for (k, sums) in own.iter().enumerate() {
        opened.push(open(sums, &received[k]))?;
    }
    Ok(opened)
}

/// A side's own numbers and the received ones, added place by place. `AllocError` is want of memory.
pub fn added(alloc: Global, own: &[Fe], received: &[Fe]) -> Result<Vec<Fe>, AllocError>
    requires count { length own.now ≡ length received.now }
    ensures numbers { IfOk result (λ numbers. numbers.items ≡ paired add own.now received.now) }
{
    let mut numbers = Vec::with_capacity(alloc, own.len())?;
    for (k, number) in own.iter().enumerate() {
        numbers.push(number.add(received[k]))?;
    }
    Ok(numbers)
}
