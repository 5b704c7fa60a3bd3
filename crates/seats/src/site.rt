//! Work that many do at once, each at a seat of its own.
//! What each one did is told as a relation between its seat before and after.

ghost use Rattle.std.specs.Prelude.{◌≡◌, ℕ, ◌<◌, length, All, slice_index_or};

use std::sync::Wait;
use std::thread;
use std::thread::Threads;

/// A place with seats, at which each one who sits there does the same work.
pub trait Site<W> {
    /// What holds of a seat before its work.
    ghost ready: { Self → W → Type 0 };

    /// What the work makes of a seat.
    ghost done: { Self → W → W → Type 0 };

    /// Does the work of a seat.
    fn serve<R: Wait>(&self, rt: &R, seat: &mut W)
        requires { Self.ready self.now seat.old }
        ensures { Self.done self.now seat.old seat.new };
}

/// All seats are served at once, in threads of their own where these can be made.
pub fn serve_all<W: Send, S: Site<W> + Sync, R: Threads + Wait + Sync>(
    rt: &R,
    site: &S,
    seats: &mut [W],
)
    requires some { 0 < length seats.old }
    requires ready { All (S.ready site.now) seats.old }
    ensures count { length seats.new ≡ length seats.old }
    ensures done { (place : ℕ) (seat : W) → place < length seats.old
        → S.done site.now (slice_index_or seats.old place seat) (slice_index_or seats.new place seat) }
{
    let threads = seats.len();
    thread::for_each_mut(rt, seats, threads, &|_, seat| site.serve(rt, seat));
}
