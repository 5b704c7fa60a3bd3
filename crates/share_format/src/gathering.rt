//! The bytes of one record out of the pieces of a file.
//! A record may lie over the seam of pieces, and a piece may be as short as the shelf cuts it.

ghost use Rattle.std.specs.Prelude.{◌≡◌, ◌≢◌, ◌+◌, ◌-◌, ◌<◌, ◌≤◌, ◌^◌, length, take, drop, min, IfOk};
ghost use Rattle.shelf_io.specs.Faults.{HasCause};
ghost use Rattle.shelf_io.specs.Files.{IsThere, IfThere};
ghost use Rattle.share_format.specs.Pieces.{IsHeld};

use crate::piece::Piece;
use shelf_io::{Refused, Shelf};

/// Copies bytes of a file from the offset `from` on, until the slice is full or a read gives nothing, and tells how many: where
/// the shelf tells, as many as there are and fit. They come from the piece, and what is not there from the shelf. After `Failed`
/// any bytes may stand in the slice, and what the piece holds is still of the file. The content stays.
pub fn gather<H: Shelf>(
    piece: &mut Piece,
    shelf: &mut H,
    name: &str,
    from: u64,
    into: &mut [u8],
) -> Result<usize, Refused>
    requires there { IsThere (H.files shelf.old) name.now }
    requires held { IfThere (H.files shelf.old) name.now (λ bytes. IsHeld bytes piece.old) }
    requires fits { from + length into.old < 2 ^ 64 }
    ensures within { IfOk result (λ n. n ≤ length into.old) }
    ensures bytes { IfThere (H.files shelf.old) name.now (λ bytes.
        IfOk result (λ n. (n ≡ min (length into.old) (length bytes - from)) × (take n into.new ≡ take n (drop from bytes)))) }
    ensures held { IfThere (H.files shelf.old) name.now (λ bytes. IsHeld bytes piece.new) }
    ensures kept { H.files shelf.new ≡ H.files shelf.old }
    ensures cause { HasCause (H.faults shelf.old) (H.faults shelf.new) result }
    ensures no_memory { result ≢ Err Refused.Memory }
{
    piece.go_to(from);
    let mut filled = 0;
    while filled < into.len() {
        let n = piece.read(shelf, name, &mut into[filled..])?;
        if n == 0 {
            return Ok(filled);
        }
        filled += n;
    }
    Ok(filled)
}
