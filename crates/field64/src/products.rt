//! The sum of products of two lists of elements.
//! It is the inner product that the sketch and tests are stated by.

ghost use Rattle.std.specs.Prelude.{◌≡◌, length};
ghost use Rattle.definitions.specs.Field.{dot};

use crate::Fe;

/// The sum of the products, place by place, of two lists of one length.
#[tactic(auto, using(crate::proofs::DotSteps::dot_steps))]
pub fn dot(left: &[Fe], right: &[Fe]) -> Fe
    requires lengths { length left.now ≡ length right.now }
    ensures value { result ≡ dot left.now right.now }
{
    let mut sum = Fe::zero();
    for (k, x) in left.iter().enumerate() {
        sum = sum.add(x.mul(right[k]));
    }
    sum
}
