//! Why a walk over two share files has no answer, with the status and the line of each refusal.
//! The tables of both stand in specs/Refusals.antt.

ghost use Rattle.std.specs.Prelude.{◌≡◌, IfOk};
ghost use Rattle.std.specs.String.{string_bytes};
ghost use Rattle.poplar_top.specs.Refusals.{walk_status, walk_line};

use std::alloc::{AllocError, Global};

/// Why a walk has no answer, where the link did not fail and memory was not short.
#[derive(Clone, Copy, Debug, PartialEq, Eq)]
pub enum WalkRefusal {
    /// A level has too many survivors: the next level would have more candidates than the cap.
    Cap {
        /// The level that was walked, counted from 1.
        level: u16,
        /// The number of candidates that the next level would have.
        wanted: u32,
    },
    /// What a side received is not the message that it expects.
    PeerMessage {
        /// The level of the expected message, counted from 1.
        level: u16,
        /// Its kind: 1 sums, 2 sigmas, 3 totals.
        kind: u8,
        /// The first offset at fault, in bytes from the message's start.
        at: u32,
    },
    /// The two sides' sums differ.
    Views {
        /// The level, counted from 1.
        level: u16,
        /// The kind of the messages that were added: 2 sigmas, 3 totals.
        kind: u8,
        /// The first place at which they differ, counted from 0.
        place: u32,
        /// Side 0's number there.
        left: u64,
        /// Side 1's number there.
        right: u64,
    },
}

/// The status of a walk's refusal.
pub(crate) fn status(refusal: WalkRefusal) -> u8
    ensures value { result ≡ walk_status refusal }
{
    match refusal {
        WalkRefusal::Cap { .. } => 5,
        WalkRefusal::PeerMessage { .. } | WalkRefusal::Views { .. } => 9,
    }
}

/// The line of a walk's refusal, ended by a line feed. `AllocError` is want of memory for it.
pub(crate) fn line(alloc: Global, refusal: WalkRefusal) -> Result<String, AllocError>
    ensures value { IfOk result (λ line. string_bytes line ≡ walk_line refusal) }
{
    match refusal {
        WalkRefusal::Cap { level, wanted } => {
            format!(in alloc; "frontier cap: level {level} wants {wanted}\n")
        }
        WalkRefusal::PeerMessage { level, kind, at } => {
            format!(in alloc; "peer message: level {level} kind {kind} at byte {at}\n")
        }
        WalkRefusal::Views {
            level,
            kind,
            place,
            left,
            right,
        } => {
            format!(in alloc;
                "views differ: level {level} kind {kind} place {place}: {left} and {right}\n"
            )
        }
    }
}
