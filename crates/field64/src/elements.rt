//! An element of the field and its operations, none of which divides.
//! Reduction uses that 2^64 is 2^32 - 1 and 2^96 is -1 modulo the modulus.

ghost use Rattle.std.specs.Prelude.{◌≡◌, ◌%◌, ◌<◌, ◌↔◌, IsSome, IfSome};
ghost use Rattle.definitions.specs.Field.{modulus, add, sub, mul, neg};

use definitions::plain_field::MODULUS;
use std::marker::Model;

/// 2^64 modulo the modulus.
const CARRY: u64 = 0xffff_ffff;

/// An element of the field, seen as its number, which is below the modulus.
#[derive(Clone, Copy, Debug, PartialEq, Eq)]
pub struct Fe {
    number: u64,
}

impl Model for Fe {
    ghost use Rattle.std.specs.Prelude.{ℕ, ◌<◌};
    ghost use Rattle.definitions.specs.Field.{modulus};

    ghost Value = { ℕ };

    ghost view = { λ e. e.number };

    ghost invariant = { λ e. e.number < modulus };

    ghost inverse = { λ n. record { number = n } };
}

impl Fe {
    /// The element with this number; None exactly where the number is not below the modulus.
    #[inline]
    pub fn new(n: u64) -> Option<Fe>
        ensures found { IsSome result ↔ (n < modulus) }
        ensures value { IfSome result (λ e. e ≡ n) }
    {
        if n < MODULUS {
            Some(Fe { number: n })
        } else {
            None
        }
    }

    /// The number modulo the modulus.
    #[inline]
    pub fn from_u128(n: u128) -> Fe
        ensures value { result ≡ n % modulus }
    {
        let low = (n % (1 << 64)) as u64;
        let middle = (n >> 64) as u64 % (1 << 32);
        let high = (n >> 96) as u64;
        let (mut folded, borrowed) = low.overflowing_sub(high);
        if borrowed {
            folded = folded.wrapping_sub(CARRY);
        }
        let (mut sum, carried) = folded.overflowing_add(middle * CARRY);
        if carried {
            sum = sum.wrapping_add(CARRY);
        }
        if sum >= MODULUS {
            sum -= MODULUS;
        }
        Fe { number: sum }
    }

    /// The element 0.
    #[inline]
    pub fn zero() -> Fe
        ensures value { result ≡ 0 }
    {
        Fe { number: 0 }
    }

    /// The element 1.
    #[inline]
    pub fn one() -> Fe
        ensures value { result ≡ 1 }
    {
        Fe { number: 1 }
    }

    /// The sum modulo the modulus.
    #[inline]
    #[tactic(auto, unfolding(definitions::specs::Field::add))]
    pub fn add(self, other: Fe) -> Fe
        ensures value { result ≡ add self other }
    {
        let gap = MODULUS - other.number;
        let number = if self.number >= gap {
            self.number - gap
        } else {
            self.number + other.number
        };
        Fe { number }
    }

    /// The difference modulo the modulus.
    #[inline]
    #[tactic(auto, unfolding(definitions::specs::Field::sub))]
    pub fn sub(self, other: Fe) -> Fe
        ensures value { result ≡ sub self other }
    {
        let number = if self.number >= other.number {
            self.number - other.number
        } else {
            self.number + (MODULUS - other.number)
        };
        Fe { number }
    }

    /// The product modulo the modulus.
    #[inline]
    #[tactic(auto, unfolding(definitions::specs::Field::mul))]
    pub fn mul(self, other: Fe) -> Fe
        ensures value { result ≡ mul self other }
    {
        Fe::from_u128(u128::from(self.number) * u128::from(other.number))
    }

    /// The negative modulo the modulus.
    #[inline]
    #[tactic(auto, unfolding(definitions::specs::Field::neg))]
    pub fn neg(self) -> Fe
        ensures value { result ≡ neg self }
    {
        let number = if self.number > 0 {
            MODULUS - self.number
        } else {
            0
        };
        Fe { number }
    }

    /// The number of the element, which is below the modulus.
    #[inline]
    pub fn number(self) -> u64
        ensures value { result ≡ self }
        ensures below { result < modulus }
    {
        self.number
    }
}
