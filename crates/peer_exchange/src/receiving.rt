//! Receiving of so many bytes from a link.
//! One receive may give less than what waits; this goes on until the slice is full or nothing waits.

ghost use Rattle.std.specs.Prelude.{◌≡◌, ◌≢◌, ◌≤◌, length, take, IfSome, IfOk, OnOk, OnErr, IsTrue};
ghost use Rattle.std.specs.Option.{option_map};
ghost use Rattle.shelf_io.specs.Faults.{HasCause};
ghost use Rattle.shelf_io.specs.Talks.{at, after_receive};
ghost use Rattle.peer_exchange.specs.Exchanges.{TakesWithin};

use definitions::Side;
use shelf_io::{Link, Refused};

/// Fills a slice with the first bytes that wait for a side, and tells how many came: all that wait where the slice has room
/// for them.
pub fn receive_into<K: Link>(link: &mut K, to: Side, into: &mut [u8]) -> Result<usize, Refused>
    ensures within { IfOk result (λ n. n ≤ length into.old) }
    ensures bytes { IfSome (K.talk link.old) (λ before.
        IfOk result (λ n. take n into.new ≡ take (length into.old) (at to before.waiting))) }
    ensures received { OnOk result (K.talk link.new ≡ option_map (after_receive to (length into.old)) (K.talk link.old)) }
    ensures part { OnErr result (TakesWithin to (length into.old) (K.talk link.old) (K.talk link.new)) }
    ensures stays_true { IsTrue (K.is_true link.old) → IsTrue (K.is_true link.new) }
    ensures cause { HasCause (K.faults link.old) (K.faults link.new) result }
    ensures no_memory { result ≢ Err Refused.Memory }
{
    let mut filled = 0;
    while filled < into.len() {
        let n = link.receive(to, &mut into[filled..])?;
        if n == 0 {
            return Ok(filled);
        }
        filled += n;
    }
    Ok(filled)
}
