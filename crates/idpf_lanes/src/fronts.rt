//! The fronts of prefixes, one bit shorter than they are, each with its place in a list.

ghost use Rattle.std.specs.Prelude.{◌≡◌, ◌≢◌, ℕ, ◌+◌, ◌-◌, ◌≤◌, ◌<◌, [], length, take, slice_index_or};
ghost use Rattle.idpf_lanes.specs.Stands.{AreLong, AreFronts, AreApart};

use prefix_bits::Prefix;

/// Puts a front at the end of the first `made`, unless it is the last of them. How many they are then is the result.
fn add_front(fronts: &mut [Prefix], made: usize, front: Prefix) -> usize
    requires { made < length fronts.old }
    ensures same { length fronts.new ≡ length fronts.old }
    ensures low { made ≤ result }
    ensures high { result ≤ made + 1 }
    ensures some { 0 < result }
    ensures kept { (i : ℕ) → i < made → slice_index_or fronts.new i [] ≡ slice_index_or fronts.old i [] }
    ensures own { slice_index_or fronts.new (result - 1) [] ≡ front }
    ensures apart { made < result → 0 < made → slice_index_or fronts.new (made - 1) [] ≢ slice_index_or fronts.new made [] }
{
    if made > 0 && fronts[made - 1] == front {
        return made;
    }
    fronts[made] = front;
    made + 1
}

/// The fronts of prefixes of `level` bits, one bit shorter, into the first places of `fronts`, and for each prefix in `places` the
/// place of its own. Prefixes with one front that follow one another share it: no two fronts that follow one another are equal. How
/// many fronts there are is the result.
pub fn fronts_of(
    level: u16,
    prefixes: &[Prefix],
    fronts: &mut [Prefix],
    places: &mut [usize],
) -> usize
    requires first { 1 ≤ level }
    requires bits { AreLong level prefixes.now }
    requires same { length fronts.old ≡ length prefixes.now }
    requires places { length places.old ≡ length prefixes.now }
    ensures same { length fronts.new ≡ length fronts.old }
    ensures places { length places.new ≡ length prefixes.now }
    ensures count { result ≤ length prefixes.now }
    ensures fronts { AreFronts (level - 1) prefixes.now (take result fronts.new) places.new }
    ensures apart { AreApart result fronts.new }
{
    let mut made = 0;
    for k in 0..prefixes.len() {
        let prefix = &prefixes[k];
        made = add_front(fronts, made, prefix.parent());
        places[k] = made - 1;
    }
    made
}
