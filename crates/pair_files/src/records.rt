//! Appends of single records to a named file.
//! One buffer serves for all records, so that memory does not grow with their number.

ghost use Rattle.std.specs.Prelude.{◌≡◌, OnOk, OnErr};
ghost use Rattle.std.specs.Option.{option_map};
ghost use Rattle.shelf_io.specs.Faults.{HasCause};
ghost use Rattle.shelf_io.specs.Files.{IsThere, with_more};
ghost use Rattle.share_format.specs.Spelling.{spelling};

use idpf_eval::Share;
use share_format::write_record;
use shelf_io::{Refused, Shelf};

/// Appends the record of a share to the bytes of a name, which is to be there. What `record` had is lost. After a refusal a
/// told content is as before.
pub(crate) fn append_record<H: Shelf>(
    shelf: &mut H,
    name: &str,
    share: &Share,
    record: &mut Vec<u8>,
) -> Result<(), Refused>
    requires there { IsThere (H.files shelf.old) name.now }
    ensures appended { OnOk result (H.files shelf.new ≡ option_map (with_more name.now (spelling share.now)) (H.files shelf.old)) }
    ensures refused { OnErr result (H.files shelf.new ≡ H.files shelf.old) }
    ensures cause { HasCause (H.faults shelf.old) (H.faults shelf.new) result }
{
    record.clear();
    write_record(share, record)?;
    shelf.append(name, record)
}
