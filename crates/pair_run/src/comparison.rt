//! The comparison of the two sides' sums, place by place.
//! Where they differ, the first such place ends the walk.

ghost use Rattle.std.specs.Prelude.{◌≡◌, ◌≢◌, ◌<◌, IfSome, length, take, slice_index};

use field64::Fe;

/// The first place at which two lists of one length differ, and None exactly where they are equal.
pub fn first_difference(left: &[Fe], right: &[Fe]) -> Option<usize>
    requires count { length left.now ≡ length right.now }
    ensures equal { result ≡ None → left.now ≡ right.now }
    ensures within { IfSome result (λ k. k < length left.now) }
    ensures before { IfSome result (λ k. take k left.now ≡ take k right.now) }
    ensures differ { IfSome result (λ k. slice_index left.now k ≢ slice_index right.now k) }
{
    for (k, number) in left.iter().enumerate() {
        if *number != right[k] {
            return Some(k);
        }
    }
    None
}
