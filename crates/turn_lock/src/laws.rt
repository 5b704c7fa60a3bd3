//! Laws of the lock's rule, each the contract of a function with an empty body.
//! The steps keep a rule in totals; here it gives the rule that one reads, and each step keeps it.
ghost use Rattle.turn_lock.specs.Laws.{KeptIsOrderly, StartKeeps, TicketKeeps, WatchKeeps, SlotKeeps, LeaveKeeps, SplitKeeps, JoinKeeps};

use crate::value::Held;

/// Whatever state of a lock meets the kept rule is orderly: one view counts the passes, each number
/// is one pass's, the tickets held are those from serving on, each once, and at most one view is in
/// turn; every seen log begins the longest, each own list is that log's entries under its number,
/// and where no view is in turn, the value is at home, with the lock's plan and that log.
pub fn the_kept_rule_is_orderly<S: Held>()
    ensures { KeptIsOrderly S.plan S.log S.by }
{}

/// A new lock meets the kept rule, and each of the seven kinds of step keeps it and changes its own
/// seat's view alone, or, of a split and a join, those of the two seats: ticket, watch, the two
/// moves of the slot, leave, split and join.
pub fn each_step_keeps_the_rule<S: Held>()
    ensures start { StartKeeps S.plan S.log S.by }
    ensures ticket { TicketKeeps S.plan S.log S.by }
    ensures watch { WatchKeeps S.plan S.log S.by }
    ensures slot { SlotKeeps S.plan S.log S.by }
    ensures leave { LeaveKeeps S.plan S.log S.by }
    ensures split { SplitKeeps S.plan S.log S.by }
    ensures join { JoinKeeps S.plan S.log S.by }
{}
