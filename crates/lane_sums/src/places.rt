//! The sums of two lists place by place.
//! The plain loop: the compiler puts it into the lanes of vectors itself, faster than lanes that are written out.

ghost use Rattle.std.specs.Prelude.{◌≡◌, length};
ghost use Rattle.definitions.specs.Field.{add};
ghost use Rattle.walk_definitions.specs.Heard.{paired};

use field64::Fe;

/// Adds the elements of `part` to those of `into`, place by place, modulo the modulus. Both are to have one length.
pub fn add_into(into: &mut [Fe], part: &[Fe])
    requires lengths { length into.old ≡ length part.now }
    ensures value { into.new ≡ paired add into.old part.now }
{
    for place in 0..into.len() {
        into[place] = into[place].add(part[place]);
    }
}
