//! The fields of a record and the blocks of its levels, read from their places.
//! A seed is 32 bytes, an id 16, a number 8 with the lowest byte first.

ghost use Rattle.std.specs.Prelude.{◌≡◌, ◌+◌, ◌≤◌, ◌<◌, ◌↔◌, length, slice_range, IsTrue, IsSome, IfSome};
ghost use Rattle.definitions.specs.Field.{modulus};
ghost use Rattle.share_format.specs.ShareFile.{number_at, word_of, has_bits, has_elements};

use field64::Fe;
use idpf_eval::LevelWord;
use prefix_bits::ReportId;
use seed_expand::Seed;

/// The bytes of a level's block.
pub const BLOCK_LEN: usize = 65;

/// The seed at a place.
pub fn seed_at(bytes: &[u8], at: usize) -> Seed
    requires { at + 32 ≤ length bytes.now }
    ensures { result ≡ slice_range bytes.now at (at + 32) }
{
    let mut seed = [0; 32];
    seed.copy_from_slice(&bytes[at..at + 32]);
    Seed(seed)
}

/// The id at a place.
pub fn id_at(bytes: &[u8], at: usize) -> ReportId
    requires { at + 16 ≤ length bytes.now }
    ensures { result ≡ slice_range bytes.now at (at + 16) }
{
    let mut id = [0; 16];
    id.copy_from_slice(&bytes[at..at + 16]);
    ReportId(id)
}

/// The element at a place, where the number there is below the modulus.
fn element_at(bytes: &[u8], at: usize) -> Option<Fe>
    requires { at + 8 ≤ length bytes.now }
    ensures found { IsSome result ↔ (number_at bytes.now at < modulus) }
    ensures value { IfSome result (λ e. e ≡ number_at bytes.now at) }
{
    let mut number = [0; 8];
    number.copy_from_slice(&bytes[at..at + 8]);
    Fe::new(u64::from_le_bytes(number))
}

/// Whether the byte of the bits of a block has no further bit set.
#[tactic(auto, unfolding(crate::specs::ShareFile::has_bits))]
pub fn has_bits(block: &[u8]) -> bool
    requires { length block.now ≡ BLOCK_LEN }
    ensures { result ≡ has_bits block.now }
{
    block[32] <= 3
}

/// The word of a block, where its numbers are below the modulus.
#[tactic(auto, unfolding(crate::specs::ShareFile::word_of, crate::specs::ShareFile::has_elements))]
pub fn read_word(block: &[u8]) -> Option<LevelWord>
    requires { length block.now ≡ BLOCK_LEN }
    ensures found { IsSome result ↔ IsTrue (has_elements block.now) }
    ensures value { IfSome result (λ word. word ≡ word_of block.now) }
{
    let bits = block[32];
    Some(LevelWord {
        seed: seed_at(block, 0),
        left: bits % 2 == 1,
        right: bits / 2 % 2 == 1,
        u: element_at(block, 33)?,
        v: element_at(block, 41)?,
        a: element_at(block, 49)?,
        b: element_at(block, 57)?,
    })
}
