//! The field's operations, computed by one division each.
//! They are the yardstick of the fast bodies in `field64`.

ghost use Rattle.std.specs.Prelude.{◌≡◌, ◌%◌};
ghost use Rattle.definitions.specs.Field.{modulus, add, sub, mul, neg};

/// The number of elements of the field, 2^64 - 2^32 + 1.
pub const MODULUS: u64 = 18446744069414584321;

/// The number modulo the modulus.
pub fn reduced(n: u128) -> u64
    ensures value { result ≡ n % modulus }
{
    (n % u128::from(MODULUS)) as u64
}

/// The sum modulo the modulus, of any two numbers.
#[tactic(auto, unfolding(crate::specs::Field::add))]
pub fn add(a: u64, b: u64) -> u64
    ensures value { result ≡ add a b }
{
    reduced(u128::from(a) + u128::from(b))
}

/// The difference modulo the modulus, of any two numbers.
#[tactic(auto, unfolding(crate::specs::Field::sub))]
pub fn sub(a: u64, b: u64) -> u64
    ensures value { result ≡ sub a b }
{
    reduced(u128::from(a) + u128::from(MODULUS - b % MODULUS))
}

/// The product modulo the modulus, of any two numbers.
#[tactic(auto, unfolding(crate::specs::Field::mul))]
pub fn mul(a: u64, b: u64) -> u64
    ensures value { result ≡ mul a b }
{
    reduced(u128::from(a) * u128::from(b))
}

/// The negative modulo the modulus, of any number.
#[tactic(auto, unfolding(crate::specs::Field::neg))]
pub fn neg(a: u64) -> u64
    ensures value { result ≡ neg a }
{
    reduced(u128::from(MODULUS - a % MODULUS))
}
