//! Collecting: uploads to both sides' intakes, up to the event that makes the batch.

ghost use Rattle.std.specs.Prelude.{◌≡◌, IfOk, IfSome, IfNone, OnOk};
ghost use Rattle.std.specs.List.{AllByRecursion};
ghost use Rattle.core_definitions.specs.System.{collecting, with_upload, run, first_system};
ghost use Rattle.interleaving_core.specs.Events.{events_of, HasLevels};
ghost use Rattle.interleaving_core.specs.Collections.{IsSealed};
ghost use Rattle.interleaving_core.specs.Systems.{seen, nothing_seen};

use crate::event_queue::EventQueue;
use crate::events::Event;
use definitions::Side;
use half_events::CoreSettings;
use idpf_eval::Share;
use intake_state::IntakeState;
use report_batch::Batch;
use std::alloc::{AllocError, Global};

// One upload to a side. `AllocError` is want of memory.
fn upload_to(
    zero: &mut IntakeState,
    one: &mut IntakeState,
    side: Side,
    number: u32,
    share: Share,
) -> Result<(), AllocError>
    ensures { OnOk result (collecting zero.new one.new ≡ with_upload side number share zero.old one.old) }
{
    let entered = match side {
        Side::Zero => zero.upload(number, share),
        Side::One => one.upload(number, share),
    };
    match entered {
        Ok(_) => Ok(()),
        Err((refused, _share)) => Err(refused),
    }
}

/// Takes events up to the one that makes the batch, and makes it. `None` where they end before. `AllocError` is want of
/// memory.
pub fn collect(
    alloc: Global,
    settings: &CoreSettings,
    events: &mut EventQueue,
) -> Result<Option<Batch>, AllocError>
    requires levels { AllByRecursion (HasLevels settings.now.walk.bits) events.old }
    ensures some { IfOk result (λ found. IfSome found (IsSealed settings.now events.old events.new)) }
    ensures none { IfOk result (λ found. IfNone found (seen (run settings.now (events_of events.old) first_system) ≡ nothing_seen)) }
{
    let mut zero = IntakeState::new(alloc);
    let mut one = IntakeState::new(alloc);
    'events: while let Some(event) = events.next() {
        match event {
            Event::Upload { side, pass, share } => {
                if pass < settings.uploaders {
                    upload_to(&mut zero, &mut one, side, pass, share)?;
                }
            }
            Event::Seal => {
                let batch = Batch::of(alloc, zero, one)?;
                return Ok(Some(batch));
            }
            _ => {}
        }
    }
    Ok(None)
}
