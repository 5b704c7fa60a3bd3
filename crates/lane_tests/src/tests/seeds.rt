//! Seeds of all lengths up to two groups and one, expanded, converted and read side by side and one by one.

ghost use Rattle.std.specs.Prelude.{◌≡◌, ◌<◌, length};

use seed_expand::{Children, Converted, Seed, Steps, convert, extend, number_at};
use seed_lanes::{Numbers, convert_many, extend_many, numbers_many};
use std::alloc::{AllocError, Global};
use std::marker::Brand;
use std::sync::ledger::{Blank, Ledger};

/// So many different seeds, at most 100.
fn seeds_of(alloc: Global, count: u8) -> Result<Vec<Seed>, AllocError> {
    let mut seeds = Vec::new(alloc);
    for k in 0..count {
        let mut bytes = [k; 32];
        bytes[usize::from(k % 32)] = 201;
        seeds.push(Seed(bytes))?;
    }
    Ok(seeds)
}

/// Whether these are the children of the seeds.
fn are_children<L: Ledger>(seeds: &[Seed], made: &[Children], blank: Blank) -> bool
    requires name { blank.name ≡ L.name }
    requires parts { blank.parts ≡ L.parts }
    requires some { 0 < blank.parts }
{
    let mut steps = Steps::<L>::open(blank);
    let mut same = seeds.len() == made.len();
    for (seed, children) in seeds.iter().zip(made) {
        same &= extend(seed, &mut steps) == *children;
    }
    same
}

/// Whether so many seeds expanded side by side are those one by one.
fn expands(alloc: Global, count: u8) -> Result<bool, AllocError> {
    let seeds = seeds_of(alloc, count)?;
    let none = Children {
        left: Seed([0; 32]),
        right: Seed([0; 32]),
        bit_left: false,
        bit_right: false,
    };
    let mut made = vec![in alloc; none; seeds.len()]?;
    extend_many(&seeds, &mut made);
    Ok(are_children::<Brand>(&seeds, &made, Blank::new(1)))
}

/// Whether so many seeds converted side by side are those one by one.
fn converts(alloc: Global, count: u8) -> Result<bool, AllocError> {
    let seeds = seeds_of(alloc, count)?;
    let none = Converted {
        next: Seed([0; 32]),
        u: 0,
        v: 0,
    };
    let mut made = vec![in alloc; none; seeds.len()]?;
    convert_many(&seeds, &mut made);
    Ok(
        seeds
            .iter()
            .zip(made.iter())
            .all(|(seed, converted)| convert(seed) == *converted),
    )
}

/// Whether the numbers of so many seeds read side by side are those one by one.
fn reads(alloc: Global, count: u8) -> Result<bool, AllocError> {
    let seeds = seeds_of(alloc, count)?;
    let none = Numbers {
        first: 0,
        second: 0,
        third: 0,
    };
    let mut made = vec![in alloc; none; seeds.len()]?;
    numbers_many(&seeds, 258, &mut made);
    Ok(
        seeds.iter().zip(made.iter()).all(|(seed, numbers)| {
            numbers.first == number_at(seed, 258, 0)
                && numbers.second == number_at(seed, 258, 4)
                && numbers.third == number_at(seed, 258, 8)
        }),
    )
}

#[test]
fn seeds_side_by_side_are_those_one_by_one(rt: HostRuntime) -> Result<(), AllocError> {
    for count in [0, 1, 2, 3, 4, 5, 6, 7, 8, 9, 17] {
        assert!(rt; expands(rt.alloc(), count)?, "{count}");
        assert!(rt; converts(rt.alloc(), count)?, "{count}");
        assert!(rt; reads(rt.alloc(), count)?, "{count}");
    }
    Ok(())
}
