//! Writing of one record.
//! What is appended is the spelling of the share.

ghost use Rattle.std.specs.Prelude.{◌≡◌, ◌+◌, ◌*◌, ◌++◌, ◌≤◌, length, vec_len, vec_capacity, OnOk, OnErr};
ghost use Rattle.share_format.specs.Spelling.{record_len, spelling, block, bits_of};

use crate::blocks::BLOCK_LEN;
use idpf_eval::{LevelWord, Share};
use std::alloc::AllocError;

/// The bytes of a record of a width, 1 to 32: 80, and 520 for each byte of width.
pub fn record_len(width: u8) -> u32
    ensures { result ≡ record_len width }
{
    80 + 520 * u32::from(width)
}

/// The byte of both bit words.
fn bits_of(word: &LevelWord) -> u8
    ensures { result ≡ bits_of word.now }
{
    u8::from(word.left) + 2 * u8::from(word.right)
}

/// Appends bytes for which there is room.
fn put(into: &mut Vec<u8>, bytes: &[u8])
    requires room { vec_len into.old + length bytes.now ≤ vec_capacity into.old }
    ensures added { into.new.items ≡ into.old.items ++ bytes.now }
    ensures len { vec_len into.new ≡ vec_len into.old + length bytes.now }
    ensures capacity { vec_capacity into.old ≤ vec_capacity into.new }
{
    let Ok(()) = into.extend_from_slice(bytes) else {
        unreachable!()
    };
}

/// Appends the block of a level, for which there is room.
#[tactic(auto, unfolding(crate::specs::Spelling::block))]
fn put_block(into: &mut Vec<u8>, word: &LevelWord)
    requires room { vec_len into.old + BLOCK_LEN ≤ vec_capacity into.old }
    ensures added { into.new.items ≡ into.old.items ++ block word.now }
    ensures len { vec_len into.new ≡ vec_len into.old + BLOCK_LEN }
    ensures capacity { vec_capacity into.old ≤ vec_capacity into.new }
{
    put(into, &word.seed.0);
    put(into, &[bits_of(word)]);
    put(into, &word.u.number().to_le_bytes());
    put(into, &word.v.number().to_le_bytes());
    put(into, &word.a.number().to_le_bytes());
    put(into, &word.b.number().to_le_bytes());
}

/// Appends the record of a share. After `AllocError`, which is want of memory, `into` is as before.
pub fn write_record(share: &Share, into: &mut Vec<u8>) -> Result<(), AllocError>
    ensures added { OnOk result (into.new.items ≡ into.old.items ++ spelling share.now) }
    ensures refused { OnErr result (into.new.items ≡ into.old.items) }
{
    into.reserve(80 + BLOCK_LEN * share.levels.len())?;
    put(into, &share.id.0);
    put(into, &share.root.0);
    put(into, &share.corr.0);
    for word in share.levels.as_slice() {
        put_block(into, word);
    }
    Ok(())
}
