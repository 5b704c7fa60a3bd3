//! Writing of both share files of a list of strings.
//! The files grow together, a pair after another. The pairs of a block of lines are made at once, and none is kept after its block.

ghost use Rattle.std.specs.Prelude.{◌≡◌, ◌≢◌, ◌≤◌, ◌<◌, ◌*◌, ◌^◌, length, OnOk, OnErr};
ghost use Rattle.std.specs.List.{All};
ghost use Rattle.std.specs.Option.{option_map};
ghost use Rattle.definitions.specs.declared.Side.TheVariants.{Zero, One};
ghost use Rattle.shelf_io.specs.Faults.{HasCause};
ghost use Rattle.share_format.specs.Spelling.{header};
ghost use Rattle.pair_files.specs.Made.{zero_text, one_text};
ghost use Rattle.pair_files.specs.PairFiles.{with_both, HoldFronts};

use crate::pair_settings::PairSettings;
use crate::records::append_record;
use generation_lanes::{LINES, pair_lists_of};
use prefix_bits::{Prefix, Side};
use share_format::Header;
use shelf_io::{Refused, Shelf};
use std::alloc::Global;

/// Lets the two names hold the headers of the two sides' files.
fn write_headers<H: Shelf>(
    shelf: &mut H,
    zero_name: &str,
    one_name: &str,
    width: u8,
) -> Result<(), Refused>
    requires differ { zero_name.now ≢ one_name.now }
    requires width { (1 ≤ width) × (width ≤ 32) }
    ensures whole { OnOk result (H.files shelf.new ≡ option_map (with_both zero_name.now (header Zero width) one_name.now (header One width)) (H.files shelf.old)) }
    ensures part { OnErr result (HoldFronts (H.files shelf.old) (H.files shelf.new) zero_name.now (header Zero width) one_name.now (header One width)) }
    ensures cause { HasCause (H.faults shelf.old) (H.faults shelf.new) result }
{
    shelf.begin(zero_name)?;
    shelf.begin(one_name)?;
    let zero = Header {
        side: Side::Zero,
        width,
    };
    let one = Header {
        side: Side::One,
        width,
    };
    shelf.append(zero_name, &zero.write())?;
    shelf.append(one_name, &one.write())
}

/// Lets the two names hold the share files of the pairs of strings, whose lines are counted from 0: `zero_name` that of
/// side 0, `one_name` that of side 1. All other names stay. There are to be fewer than 2^32 strings, each of
/// `settings.width` bytes, and the two names are to differ.
///
/// `Failed` comes only where the shelf's count of faults rose, `Memory` where memory is wanting. After either the shelf is
/// as before, or `zero_name` alone holds a front of its file, or each of the two names holds a front of its own; all other
/// names stay. The pairs are made and appended a block of lines after another, so that the memory in use does not grow with the number
/// of strings.
pub fn write_pairs<H: Shelf>(
    alloc: Global,
    shelf: &mut H,
    zero_name: &str,
    one_name: &str,
    settings: &PairSettings,
    strings: &[Prefix],
) -> Result<(), Refused>
    requires differ { zero_name.now ≢ one_name.now }
    requires width { (1 ≤ settings.now.width) × (settings.now.width ≤ 32) }
    requires strings { All (λ string. length string ≡ 8 * settings.now.width) strings.now }
    requires count { length strings.now < 2 ^ 32 }
    ensures whole { let s = settings.now in OnOk result (H.files shelf.new ≡ option_map
        (with_both zero_name.now (zero_text s.width s.master s.tag strings.now) one_name.now (one_text s.width s.master s.tag strings.now))
        (H.files shelf.old)) }
    ensures part { let s = settings.now in OnErr result (HoldFronts (H.files shelf.old) (H.files shelf.new)
        zero_name.now (zero_text s.width s.master s.tag strings.now) one_name.now (one_text s.width s.master s.tag strings.now)) }
    ensures cause { HasCause (H.faults shelf.old) (H.faults shelf.new) result }
{
    write_headers(shelf, zero_name, one_name, settings.width)?;
    let bits = 8 * u16::from(settings.width);
    let mut record = Vec::new(alloc);
    let mut line = 0;
    while line < strings.len() {
        let end = strings.len().min(line + LINES);
        let (zeros, ones) = pair_lists_of(
            alloc,
            &settings.master,
            settings.tag,
            line as u32,
            &strings[line..end],
            bits,
        )?;
        for place in 0..zeros.len() {
            append_record(shelf, zero_name, &zeros[place], &mut record)?;
            append_record(shelf, one_name, &ones[place], &mut record)?;
        }
        line = end;
    }
    Ok(())
}
