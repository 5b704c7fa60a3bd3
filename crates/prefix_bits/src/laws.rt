//! Laws of bytes and their bits over the definitions alone, each the contract of a function that does nothing.
//! They say that `Prefix::of_bytes` and `Prefix::to_bytes` undo each other.

ghost use Rattle.prefix_bits.specs.Laws.{BytesLaw, BitsLaw};

/// The bytes of the bits of bytes are these bytes.
pub fn the_bytes_of_their_bits_come_back()
    ensures bytes { BytesLaw }
{}

/// The bits of the bytes of whole bytes of bits are these bits.
pub fn the_bits_of_their_bytes_come_back()
    ensures bits { BitsLaw }
{}
