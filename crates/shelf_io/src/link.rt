//! The trait of a link between the two sides.
//! What a call owes is said where a link tells what passed, and more where it tells that it is true.

ghost use Rattle.std.specs.Prelude.{◌≡◌, ◌≢◌, ◌<◌, ◌≤◌, [], length, take, drop, IfSome, IfOk, OnOk, OnErr, IsTrue};
ghost use Rattle.std.specs.Option.{option_map};
ghost use Rattle.shelf_io.specs.Faults.{HasCause};
ghost use Rattle.shelf_io.specs.Talks.{Talk, at, Sends, after_send, after_receive, IsTrueTalk};

use crate::refused::Refused;
use definitions::Side;

/// Carries bytes between the two sides.
pub trait Link {
    ghost use Rattle.shelf_io.specs.Talks.{Talk};
    ghost use Rattle.std.specs.Prelude.{Option, Bool, ℕ};

    /// What passed, where it tells: the list sent, what each side has received, and what waits for it.
    ghost talk: { Self → Option Talk };

    /// Whether it tells that it is true.
    ghost is_true: { Self → Bool };

    /// How often it has failed. The count never falls.
    ghost faults: { Self → ℕ };

    /// Sends bytes to the other side. The list sent has (from, bytes) at its end, and what was received stays. On a true
    /// link the bytes are added to those waiting for the other side, and those waiting for `from` stay. After a refusal a
    /// told content is as before.
    fn send(&mut self, from: Side, bytes: &[u8]) -> Result<(), Refused>
        ensures sent { OnOk result (Sends from bytes.now (talk self.old) (talk self.new)) }
        ensures truly { OnOk result (IsTrue (is_true self.old) → talk self.new ≡ option_map (after_send from bytes.now) (talk self.old)) }
        ensures refused { OnErr result (talk self.new ≡ talk self.old) }
        ensures stays_true { IsTrue (is_true self.old) → IsTrue (is_true self.new) }
        ensures cause { HasCause (faults self.old) (faults self.new) result };

    /// Moves the first bytes that wait for a side to the front of `into`, and tells how many: 0 into a nonempty `into` only
    /// where nothing waits. They are added to what the side received; the rest of `into`, the list sent and the other side's
    /// bytes stay. After a refusal a told content is as before.
    fn receive(&mut self, to: Side, into: &mut [u8]) -> Result<usize, Refused>
        ensures within { IfOk result (λ n. n ≤ length into.old) }
        ensures rest { IfOk result (λ n. drop n into.new ≡ drop n into.old) }
        ensures bytes { IfSome (talk self.old) (λ before. IfOk result (λ n.
            (n ≤ length (at to before.waiting)) × (take n into.new ≡ take n (at to before.waiting)))) }
        ensures end { IfSome (talk self.old) (λ before. result ≡ Ok 0 → 0 < length into.old → at to before.waiting ≡ []) }
        ensures received { IfOk result (λ n. talk self.new ≡ option_map (after_receive to n) (talk self.old)) }
        ensures refused { OnErr result (talk self.new ≡ talk self.old) }
        ensures stays_true { IsTrue (is_true self.old) → IsTrue (is_true self.new) }
        ensures cause { HasCause (faults self.old) (faults self.new) result }
        ensures no_memory { result ≢ Err Refused.Memory };

    /// On a true link what waits for a side is a suffix of all that the other side sent.
    ghost waits: { (link : Self) → IsTrue (is_true link) → IfSome (talk link) IsTrueTalk };
}
