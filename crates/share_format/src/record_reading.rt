//! Reading of one record.
//! A record is read exactly where it is the spelling of a share.

ghost use Rattle.std.specs.Prelude.{◌≡◌, ◌≤◌, ◌*◌, None, length, vec_len, IfOk, IfErr};
ghost use Rattle.share_format.specs.Spelling.{record_len, spelling};
ghost use Rattle.share_format.specs.ShareFile.{first_fault, record_case, well_formed, words_in};
ghost use Rattle.share_format.specs.Refusals.{Names};

use crate::blocks::{BLOCK_LEN, has_bits, id_at, read_word, seed_at};
use crate::record_error::RecordError;
use definitions::Sequence;
use idpf_eval::{LevelWord, Share};
use std::alloc::Global;

/// The words of the levels of a record.
#[tactic(auto, using(crate::proofs::RecordSteps::level_steps))]
fn read_words(alloc: Global, bytes: &[u8], width: u8) -> Result<Vec<LevelWord>, RecordError>
    requires least { 1 ≤ width }
    requires most { width ≤ 32 }
    requires long { length bytes.now ≡ record_len width }
    ensures passed { IfOk result (λ words. first_fault width bytes.now ≡ None) }
    ensures words { IfOk result (λ words. words.items ≡ words_in bytes.now (8 * width)) }
    ensures count { IfOk result (λ words. vec_len words ≡ 8 * width) }
    ensures refused { IfErr result (λ e. Names e (first_fault width bytes.now)) }
{
    let mut words = Vec::new(alloc);
    for place in 0..8 * u16::from(width) {
        let at = 80 + BLOCK_LEN * usize::from(place);
        let block = &bytes[at..at + BLOCK_LEN];
        if !has_bits(block) {
            return Err(RecordError::Bits { level: place + 1 });
        }
        let Some(word) = read_word(block) else {
            return Err(RecordError::Element { level: place + 1 });
        };
        words.push(word)?;
    }
    Ok(words)
}

/// The share that a record of this width spells; `bytes` are the record, as many bytes as `record_len` says. A record that
/// spells no share is refused by the first level at fault, the bits of a level before its numbers.
#[tactic(auto, unfolding(crate::specs::ShareFile::record_case))]
pub fn read_record(alloc: Global, bytes: &[u8], width: u8) -> Result<Share, RecordError>
    requires least { 1 ≤ width }
    requires most { width ≤ 32 }
    requires long { length bytes.now ≡ record_len width }
    ensures read { IfOk result (λ share. record_case width bytes.now ≡ well_formed share) }
    ensures levels { IfOk result (λ share. length share.levels ≡ 8 * width) }
    ensures spelled { IfOk result (λ share. spelling share ≡ bytes.now) }
    ensures refused { IfErr result (λ e. Names e (first_fault width bytes.now)) }
{
    let words = read_words(alloc, bytes, width)?;
    Ok(Share {
        id: id_at(bytes, 0),
        root: seed_at(bytes, 16),
        corr: seed_at(bytes, 48),
        levels: Sequence::from_vec(words),
    })
}
