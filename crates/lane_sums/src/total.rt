//! The sum of a list of elements, as one wide number that is reduced once.
//! A slice has fewer than 2^63 elements of 64 bits, so the number has room in 128.

ghost use Rattle.std.specs.Prelude.{◌≡◌};
ghost use Rattle.definitions.specs.Field.{total_by};

use field64::Fe;

/// The sum of all elements modulo the modulus; 0 where there is none.
#[tactic(auto, unfolding(definitions::specs::Field::total_by))]
pub fn sum(part: &[Fe]) -> Fe
    ensures value { result ≡ total_by (λ x. x) part.now }
{
    let mut total = 0u128;
    for x in part {
        total += u128::from(x.number());
    }
    Fe::from_u128(total)
}
