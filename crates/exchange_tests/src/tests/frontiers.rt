//! A frontier of 8 bits and cap 4, pruned by a total above the threshold, by none, and by one that equals it.
//! A cap that is only reached goes on, and a smaller one refuses.

use field64::{Fe, MODULUS};
use frontier_walk::{Frontier, Next, PruneError};
use prefix_bits::Prefix;
use std::alloc::AllocError;

fn element(number: u64) -> Fe {
    Fe::new(number).unwrap_or(Fe::zero())
}

fn two_bits(first: bool, second: bool) -> Prefix {
    Prefix::empty().child(first).child(second)
}

// Whether level 2 follows, with the children of (0) alone.
fn keeps_the_first(pruned: &Result<Next, PruneError>) -> bool {
    match pruned {
        Ok(Next::Level(next)) => {
            let expected = [two_bits(false, false), two_bits(false, true)];
            next.level() == 2 && next.candidates() == expected.as_slice()
        }
        _ => false,
    }
}

fn answers_nothing(pruned: &Result<Next, PruneError>) -> bool {
    match pruned {
        Ok(Next::Done(heavy)) => heavy.is_empty(),
        _ => false,
    }
}

// How many candidates the next level has, where there is one.
fn candidates_after(pruned: &Result<Next, PruneError>) -> Option<usize> {
    match pruned {
        Ok(Next::Level(next)) => Some(next.candidates().len()),
        _ => None,
    }
}

#[test]
fn totals_of_at_least_the_threshold_survive(rt: HostRuntime) -> Result<(), AllocError> {
    let frontier = Frontier::first(rt.alloc(), 8, 4)?;
    assert_eq!(rt; frontier.level(), 1);
    let root = Prefix::empty();
    let expected = [root.child(false), root.child(true)];
    assert!(rt; frontier.candidates() == expected.as_slice());
    let above = frontier.prune(rt.alloc(), &[element(3), Fe::zero()], 2);
    assert!(rt; keeps_the_first(&above));
    let largest = [element(MODULUS - 1), Fe::one()];
    let equal = frontier.prune(rt.alloc(), &largest, MODULUS - 1);
    assert!(rt; keeps_the_first(&equal));
    let none = frontier.prune(rt.alloc(), &[Fe::zero(), Fe::zero()], 2);
    assert!(rt; answers_nothing(&none));
    Ok(())
}

#[test]
fn a_cap_that_is_reached_goes_on(rt: HostRuntime) -> Result<(), AllocError> {
    let totals = [element(2), element(3)];
    let wide = Frontier::first(rt.alloc(), 8, 4)?;
    let enough = wide.prune(rt.alloc(), &totals, 2);
    assert_eq!(rt; candidates_after(&enough), Some(4));
    let narrow = Frontier::first(rt.alloc(), 8, 2)?;
    let refused = narrow.prune(rt.alloc(), &totals, 2);
    assert_eq!(rt; candidates_after(&refused), None);
    assert_eq!(rt;
        refused.err(),
        Some(PruneError::Cap {
            level: 1,
            wanted: 4
        })
    );
    Ok(())
}
