//! Arithmetic in the prime field of 2^64 - 2^32 + 1 elements, by 64-bit words and carries.
//! Each call is the sum or product of whole numbers modulo the modulus, as `definitions` has it.
#![tactic(auto)]

mod elements;
mod products;

pub use crate::elements::Fe;
pub use crate::products::dot;
pub use definitions::plain_field::MODULUS;
