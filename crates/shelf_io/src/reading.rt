//! Reading of a named file into a slice.
//! One read of a shelf may give less than there is; these go on until the slice is full or the file ends.

ghost use Rattle.std.specs.Prelude.{◌≡◌, ◌≢◌, ◌+◌, ◌-◌, ◌<◌, ◌≤◌, ◌^◌, length, take, drop, min, IfOk};
ghost use Rattle.shelf_io.specs.Faults.{HasCause};
ghost use Rattle.shelf_io.specs.Files.{IsThere, IfThere};

use crate::refused::Refused;
use crate::shelf::Shelf;

/// Reads a file from the byte `from` on until the slice is full or a read gives nothing, and tells how many bytes were read:
/// where the shelf tells, as many as there are and fit. The rest of the slice and the content stay. After `Failed` any bytes
/// may stand in the slice.
pub fn fill<H: Shelf>(
    shelf: &mut H,
    name: &str,
    from: u64,
    into: &mut [u8],
) -> Result<usize, Refused>
    requires there { IsThere (H.files shelf.old) name.now }
    requires fits { from + length into.old < 2 ^ 64 }
    ensures within { IfOk result (λ n. n ≤ length into.old) }
    ensures rest { IfOk result (λ n. drop n into.new ≡ drop n into.old) }
    ensures bytes { IfThere (H.files shelf.old) name.now (λ bytes.
        IfOk result (λ n. (n ≡ min (length into.old) (length bytes - from)) × (take n into.new ≡ take n (drop from bytes)))) }
    ensures kept { H.files shelf.new ≡ H.files shelf.old }
    ensures cause { HasCause (H.faults shelf.old) (H.faults shelf.new) result }
    ensures no_memory { result ≢ Err Refused.Memory }
{
    let mut filled = 0;
    while filled < into.len() {
        let n = shelf.read(name, from + filled as u64, &mut into[filled..])?;
        if n == 0 {
            return Ok(filled);
        }
        filled += n;
    }
    Ok(filled)
}

/// Reads a file from its start until the slice is full or a read gives nothing, as `fill` does.
pub fn read_whole<H: Shelf>(shelf: &mut H, name: &str, into: &mut [u8]) -> Result<usize, Refused>
    requires there { IsThere (H.files shelf.old) name.now }
    ensures within { IfOk result (λ n. n ≤ length into.old) }
    ensures rest { IfOk result (λ n. drop n into.new ≡ drop n into.old) }
    ensures bytes { IfThere (H.files shelf.old) name.now (λ bytes.
        IfOk result (λ n. (n ≡ min (length into.old) (length bytes)) × (take n into.new ≡ take n bytes))) }
    ensures kept { H.files shelf.new ≡ H.files shelf.old }
    ensures cause { HasCause (H.faults shelf.old) (H.faults shelf.new) result }
    ensures no_memory { result ≢ Err Refused.Memory }
{
    fill(shelf, name, 0, into)
}
