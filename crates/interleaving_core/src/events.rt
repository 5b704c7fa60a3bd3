//! The events of the core, as a list of them is run.
//! Each is the definitions' event of its name; one that is not enabled where it comes changes nothing.

ghost use Rattle.std.specs.Prelude.{◌≡◌, IfSome, IfNone};
ghost use Rattle.core_definitions.specs.System.{of_half};
ghost use Rattle.half_events.specs.Steps.{step_of};
ghost use Rattle.interleaving_core.specs.Events.{event_of, IsOfNoSide};

use definitions::Side;
use half_events::Step;
use idpf_eval::Share;
use prefix_bits::Prefix;

/// An event.
#[derive(Debug, Drop)]
pub enum Event {
    /// A share is uploaded to a side's intake. Enabled while the system collects, for a number below that of the uploaders.
    Upload {
        /// The side.
        side: Side,
        /// The number of who uploads.
        pass: u32,
        /// The share, which has as many levels as the strings have bits.
        share: Share,
    },
    /// The batch is made, and level 1 begins. Enabled while the system collects.
    Seal,
    /// A worker draws the next tile. Enabled in a phase, where the worker holds none and has not been told that there is none.
    Claim {
        /// The side.
        side: Side,
        /// The worker's number.
        worker: u32,
    },
    /// A worker gives its tile up. Enabled in a phase, where the worker holds a tile.
    Abandon {
        /// The side.
        side: Side,
        /// The worker's number.
        worker: u32,
    },
    /// A report is evaluated into a side's cache. Enabled in a phase, for a report of the batch and a prefix of at least one
    /// bit and no more than the strings have, where the cache does not have it.
    Fill {
        /// The side.
        side: Side,
        /// The report's place in the batch.
        report: u32,
        /// The prefix.
        prefix: Prefix,
    },
    /// An entry of a side's cache is dropped. Enabled in a phase, where the cache has it.
    Evict {
        /// The side.
        side: Side,
        /// The report's place in the batch.
        report: u32,
        /// The prefix.
        prefix: Prefix,
    },
    /// A worker posts its tile. Enabled in a phase, where the worker holds a tile.
    Post {
        /// The side.
        side: Side,
        /// The worker's number.
        worker: u32,
    },
    /// The lowest tile that is not posted is posted. Enabled in a phase, where each worker of the side has been told that
    /// there is no further tile, and a tile is not posted.
    Sweep {
        /// The side.
        side: Side,
    },
    /// What both sides posted is put together, and the next phase begins or the walk ends. Enabled in a phase, where each
    /// tile of both sides is posted.
    Carry,
}

/// What happens at which side, where the event is of a side's phase.
pub fn at_side(event: &Event) -> Option<(Side, Step)>
    ensures some { IfSome result (λ at. event_of event.now ≡ of_half at.0 (step_of at.1)) }
    ensures none { IfNone result (IsOfNoSide event.now) }
{
    match event {
        Event::Claim { side, worker } => Some((*side, Step::Claim(*worker))),
        Event::Abandon { side, worker } => Some((*side, Step::Abandon(*worker))),
        Event::Fill {
            side,
            report,
            prefix,
        } => Some((*side, Step::Fill(*report, *prefix))),
        Event::Evict {
            side,
            report,
            prefix,
        } => Some((*side, Step::Evict(*report, *prefix))),
        Event::Post { side, worker } => Some((*side, Step::Post(*worker))),
        Event::Sweep { side } => Some((*side, Step::Sweep)),
        Event::Upload { .. } | Event::Seal | Event::Carry => None,
    }
}
