//! The two lists of shares of a list of strings.
//! They are made level by level over many lines at once, by `generation_lanes`.

ghost use Rattle.std.specs.Prelude.{◌≡◌, ◌≤◌, ◌<◌, ◌*◌, ◌^◌, length, IfOk};
ghost use Rattle.std.specs.List.{All};
ghost use Rattle.idpf_gen.specs.Made.{made_zero, made_one};

use generation_lanes::pair_lists_of;
use idpf_eval::Share;
use pair_files::PairSettings;
use prefix_bits::Prefix;
use std::alloc::{AllocError, Global};

/// The shares of strings whose lines are counted from 0: side 0's list, then side 1's, both in the order of the strings.
/// They are the shares that `pair_files` writes for the same strings and settings: an id is the tag and the line, and the
/// coins of a line come from the master seed. There are to be fewer than 2^32 strings, each of `settings.width` bytes.
/// `AllocError` is want of memory for the shares.
pub fn pair_lists(
    alloc: Global,
    settings: &PairSettings,
    strings: &[Prefix],
) -> Result<(Vec<Share>, Vec<Share>), AllocError>
    requires width { (1 ≤ settings.now.width) × (settings.now.width ≤ 32) }
    requires strings { All (λ string. length string ≡ 8 * settings.now.width) strings.now }
    requires count { length strings.now < 2 ^ 32 }
    ensures zero { IfOk result (λ lists. lists.0.items ≡ made_zero settings.now.master settings.now.tag 0 strings.now) }
    ensures one { IfOk result (λ lists. lists.1.items ≡ made_one settings.now.master settings.now.tag 0 strings.now) }
{
    let bits = 8 * u16::from(settings.width);
    pair_lists_of(alloc, &settings.master, settings.tag, 0, strings, bits)
}
