//! Where an id was first uploaded, and whether its entries differ.
//! By this the reply to a share is found without going over the log.

ghost use Rattle.std.specs.Prelude.{◌≡◌, not, ◌&&◌, if◌then◌else◌};
ghost use Rattle.walk_definitions.specs.Reports.{same_share};
ghost use Rattle.core_definitions.specs.declared.replies.Reply.TheVariants.{Repeat, Clash};
ghost use Rattle.core_definitions.specs.System.{reply_to};
ghost use Rattle.intake_state.specs.Firsts.{first_in, first_after};

use crate::entries::Entry;
use core_definitions::Reply;
use idpf_eval::{Share, same_share};

/// What is known of an id that an entry has.
#[derive(Clone, Copy, Debug)]
pub struct First {
    /// The place of its first entry in the log.
    pub place: usize,
    /// Whether two of its entries have different contents.
    pub clashed: bool,
}

/// The reply to a share after the entries of a log, where `before` is what is known of its id.
#[tactic(auto, using(crate::proofs::Entering::first_places))]
pub fn reply_after(log: &[Entry], before: Option<First>, share: &Share) -> Reply
    requires known { before ≡ first_in log.now share.now.id }
    ensures reply { result ≡ reply_to log.now share.now }
{
    match before {
        None => Reply::Stored,
        Some(first) => reply_by(first, &log[first.place], share),
    }
}

/// The reply to a share of whose id this is known, where this is its first entry.
fn reply_by(first: First, entry: &Entry, share: &Share) -> Reply
    ensures { result ≡ (if not first.clashed && same_share entry.now.share share.now then Repeat else Clash) }
{
    if first.clashed {
        return Reply::Clash;
    }
    if same_share(&entry.share, share) {
        Reply::Repeat
    } else {
        Reply::Clash
    }
}

/// What is known of an id after one more entry of it, at this place of the log and with this reply.
pub fn first_after(before: Option<First>, place: usize, reply: Reply) -> First
    ensures { result ≡ first_after before place reply }
{
    match before {
        None => First {
            place,
            clashed: false,
        },
        Some(first) => First {
            place: first.place,
            clashed: reply == Reply::Clash,
        },
    }
}
