//! Prefixes of whole bytes: from bytes, and back to bytes, the highest bit of a byte first.
//! A string of the clients is such a prefix.

ghost use Rattle.std.specs.Prelude.{◌≡◌, ◌≤◌, ◌*◌, length};
ghost use Rattle.prefix_bits.specs.Bits.{bits_of_bytes, bytes_of_bits};

use super::Prefix;
use crate::MOST_BITS;

impl Prefix {
    /// The bits of bytes, the highest bit of the first byte first. They are to be at most `MOST_BITS` bits.
    pub fn of_bytes(bytes: &[u8]) -> Prefix
        requires { 8 * length bytes.now ≤ MOST_BITS }
        ensures { result ≡ bits_of_bytes bytes.now }
    {
        let mut prefix = Prefix::empty();
        for byte in bytes {
            prefix = prefix.followed_by(8, u64::from(*byte));
        }
        prefix
    }

    /// Writes the bytes whose bits these are into all of `into`, which is to have room for exactly these bits.
    pub fn to_bytes(&self, into: &mut [u8])
        requires { length self.now ≡ 8 * length into.old }
        ensures bytes { into.new ≡ bytes_of_bits self.now }
        ensures bits { bits_of_bytes into.new ≡ self.now }
    {
        for (index, byte) in into.iter_mut().enumerate() {
            *byte = (self.words[index / 8] >> (56 - 8 * (index % 8)) & 0xff) as u8;
        }
    }
}
