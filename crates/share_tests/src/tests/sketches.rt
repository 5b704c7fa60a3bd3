//! A worked sketch over one candidate, and coins beside the plain words of the stream.
//! With a = 3, b = 5, c = 7, k = 11 and the coin 2 the numbers A and B are 5 and -12.

use definitions::{plain_field, plain_words};
use field64::{Fe, MODULUS};
use prefix_bits::{ReportId, Side};
use seed_expand::Seed;
use sketch_check::{CoinKey, Sums, Triple, correlation, masked, open, passes, sigma};

fn element(number: u64) -> Fe {
    Fe::new(number).unwrap_or(Fe::zero())
}

fn triple(a: u64, b: u64, c: u64) -> Triple {
    Triple {
        a: element(a),
        b: element(b),
        c: element(c),
    }
}

fn sums(x: u64, y: u64, z: u64) -> Sums {
    Sums {
        x: element(x),
        y: element(y),
        z: element(z),
    }
}

// What both sides open of a report whose values d and e at the one candidate are given to side 0 alone.
fn opened(d: u64, e: u64) -> Sums {
    let own = Sums::zero().with(element(2), element(d), element(e));
    open(
        &masked(&own, &triple(1, 2, 3)),
        &masked(&Sums::zero(), &triple(2, 3, 4)),
    )
}

// Both sides' sigmas, with A = 5 and B = -12 shared as 1 and 4, 7 and the rest.
fn sigmas(opened: &Sums) -> (Fe, Fe) {
    let rest = element(MODULUS - 12).sub(element(7));
    (
        sigma(Side::Zero, element(1), element(7), opened),
        sigma(Side::One, element(4), rest, opened),
    )
}

#[test]
fn one_candidate_passes_with_data_one_or_none(rt: HostRuntime) {
    let one = opened(1, 11);
    assert_eq!(rt; one, sums(5, 9, 29));
    let (zero_sigma, one_sigma) = sigmas(&one);
    assert!(rt; passes(zero_sigma, one_sigma));
    let none = opened(0, 0);
    assert_eq!(rt; none, sums(3, 5, 7));
    let (zero_sigma, one_sigma) = sigmas(&none);
    assert!(rt; passes(zero_sigma, one_sigma));
    let two = opened(2, 22);
    assert_eq!(rt; two, sums(7, 13, 51));
    let (zero_sigma, one_sigma) = sigmas(&two);
    assert_eq!(rt; zero_sigma.add(one_sigma), element(8));
    assert!(rt; !passes(zero_sigma, one_sigma));
}

#[test]
fn coins_are_words_of_the_stream(rt: HostRuntime) {
    let verify = [9; 32];
    let id = ReportId::of(258, 3);
    let of_high = plain_words::part(&verify, 258, 0);
    let key = plain_words::part(&of_high, 3, 0);
    let coins = CoinKey::of(&Seed(verify), &id);
    let mut several = [Fe::zero(); 20];
    coins.coins(5, 7, &mut several);
    for (j, coin) in several.iter().enumerate() {
        let place = 7 + j as u32;
        assert_eq!(rt;
            coin.number(),
            plain_field::reduced(plain_words::number(&key, 5, 4 * place))
        );
        assert_eq!(rt; coins.coin(5, place), *coin);
    }
}

#[test]
fn the_correlation_is_read_from_the_level(rt: HostRuntime) {
    let corr = [4; 32];
    let read = correlation(&Seed(corr), 6);
    assert_eq!(rt;
        read.a.number(),
        plain_field::reduced(plain_words::number(&corr, 6, 0))
    );
    assert_eq!(rt;
        read.b.number(),
        plain_field::reduced(plain_words::number(&corr, 6, 4))
    );
    assert_eq!(rt;
        read.c.number(),
        plain_field::reduced(plain_words::number(&corr, 6, 8))
    );
}
