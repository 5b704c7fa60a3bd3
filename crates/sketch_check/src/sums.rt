//! The sums of a report over the candidates, their masks, what both sides open, and the sigmas.
//! They are the equations of the sketch, one side's part at a time.

ghost use Rattle.std.specs.Prelude.{◌≡◌, ◌↔◌, IsTrue};
ghost use Rattle.definitions.specs.Field.{add, mul};
ghost use Rattle.definitions.specs.Sides.{side_number};
ghost use Rattle.definitions.specs.Sketch.{correlation, masked, sums_added, sigma};

use field64::Fe;
use prefix_bits::Side;
use seed_expand::{Seed, StreamReader};
use std::marker::Model;

/// A side's part of the correlation at a level, or both sides' added.
#[derive(Clone, Copy, Debug, PartialEq, Eq)]
pub struct Triple {
    /// What hides x.
    pub a: Fe,
    /// What hides y.
    pub b: Fe,
    /// What hides z.
    pub c: Fe,
}

impl Model for Triple {
    ghost use Rattle.definitions.specs.Sketch.{Triple as Parts};

    ghost Value = { Parts };

    ghost view = { λ t. record { a = t.a; b = t.b; c = t.c } };

    ghost inverse = { λ t. record { a = t.a; b = t.b; c = t.c } };
}

/// The three sums of a report: of one side or of both, plain or hidden by the correlation.
#[derive(Clone, Copy, Debug, PartialEq, Eq)]
pub struct Sums {
    /// The values d, each times its coin.
    pub x: Fe,
    /// The values d, each times its coin's square.
    pub y: Fe,
    /// The values e, each times its coin.
    pub z: Fe,
}

impl Model for Sums {
    ghost use Rattle.definitions.specs.Sketch.{Sums as Parts};

    ghost Value = { Parts };

    ghost view = { λ s. record { x = s.x; y = s.y; z = s.z } };

    ghost inverse = { λ s. record { x = s.x; y = s.y; z = s.z } };
}

impl Sums {
    /// The sums over no candidate.
    pub fn zero() -> Sums
        ensures value { result ≡ record { x = 0; y = 0; z = 0 } }
    {
        Sums {
            x: Fe::zero(),
            y: Fe::zero(),
            z: Fe::zero(),
        }
    }

    /// The sums with one more candidate, of this coin and these values, by three products.
    #[tactic(auto, using(crate::proofs::Products::products))]
    pub fn with(self, coin: Fe, d: Fe, e: Fe) -> Sums
        ensures x { result.x ≡ add self.x (mul coin d) }
        ensures y { result.y ≡ add self.y (mul (mul coin coin) d) }
        ensures z { result.z ≡ add self.z (mul coin e) }
    {
        let once = coin.mul(d);
        Sums {
            x: self.x.add(once),
            y: self.y.add(coin.mul(once)),
            z: self.z.add(coin.mul(e)),
        }
    }
}

/// A side's part of the correlation at a level, from its correlation seed, read with one generator.
#[tactic(auto, unfolding(definitions::specs::Sketch::correlation))]
pub fn correlation(corr: &Seed, level: u16) -> Triple
    ensures value { result ≡ correlation corr.now level }
{
    let mut reader = StreamReader::at(corr, u64::from(level), 0);
    let a = Fe::from_u128(reader.number());
    let b = Fe::from_u128(reader.number());
    let c = Fe::from_u128(reader.number());
    Triple { a, b, c }
}

/// A side's sums, hidden by its part of the correlation.
pub fn masked(partial: &Sums, triple: &Triple) -> Sums
    ensures value { result ≡ masked partial.now triple.now }
{
    Sums {
        x: partial.x.add(triple.a),
        y: partial.y.add(triple.b),
        z: partial.z.add(triple.c),
    }
}

/// What both sides open: the sums place by place.
pub fn open(own: &Sums, other: &Sums) -> Sums
    ensures value { result ≡ sums_added own.now other.now }
{
    Sums {
        x: own.x.add(other.x),
        y: own.y.add(other.y),
        z: own.z.add(other.z),
    }
}

/// A side's sigma, from its numbers A and B of the level and the opened sums.
pub fn sigma(side: Side, a: Fe, b: Fe, opened: &Sums) -> Fe
    ensures value { result ≡ sigma (side_number side) a b opened.now }
{
    let leading = match side {
        Side::Zero => Fe::zero(),
        Side::One => Fe::one(),
    };
    let quadratic = opened.x.mul(opened.x).sub(opened.y).sub(opened.z);
    leading.mul(quadratic).add(a.mul(opened.x)).add(b)
}

/// Whether a report passes: the two sides' sigmas add up to 0.
pub fn passes(own: Fe, other: Fe) -> bool
    ensures value { IsTrue result ↔ (add own other ≡ 0) }
{
    own.add(other) == Fe::zero()
}
