//! The one-thread walk over the reports that a list of events holds, beside the system that the events lead to.

ghost use Rattle.std.specs.Prelude.{◌≡◌, ◌≤◌, true, length};
ghost use Rattle.prefix_bits.specs.declared.TheConstants.{MOST_BITS};
ghost use Rattle.half_events.specs.Settings.{AreUsable};
ghost use Rattle.plain_walk.specs.Chosen.{AllHave};

use crate::shares::share_of;
use definitions::Side;
use frontier_walk::PruneError;
use interleaving_core::{CoreSettings, Outcome, System};
use plain_walk::{Answer, Report, Settings, walk};
use std::alloc::{AllocError, Global};

// The reports of the lines without clash. Their ids ascend.
fn reports_of(alloc: Global, clashed: &[bool; 3]) -> Result<Vec<Report>, AllocError> {
    let mut reports = Vec::new(alloc);
    for (line, clashes) in clashed.iter().enumerate() {
        if !clashes {
            let held0 = share_of(alloc, line as u32, Side::Zero, false)?;
            let held1 = share_of(alloc, line as u32, Side::One, false)?;
            reports.push(Report {
                id: held0.id,
                held0,
                held1,
            })?;
        }
    }
    Ok(reports)
}

// Whether both shares of each report have so many levels.
fn have_levels(reports: &[Report], bits: u16) -> bool
    ensures { result ≡ true → AllHave bits reports.now }
{
    for report in reports {
        if report.held0.levels.len() != usize::from(bits)
            || report.held1.levels.len() != usize::from(bits)
        {
            return false;
        }
    }
    true
}

// Whether the system ended as the walk did.
fn ended_so(system: &System, walked: &Result<Answer, PruneError>) -> bool {
    match (system.outcome(), walked) {
        (Some(Outcome::Done(found)), Ok(answer)) => {
            *found.as_slice() == *answer.heavy.as_slice()
                && system.level() == answer.levels
                && system.live().len() == answer.passed as usize
        }
        (
            Some(Outcome::Capped { level, wanted }),
            Err(
                PruneError::Cap {
                    level: capped,
                    wanted: children,
                },
            ),
        ) => level == capped && wanted == children && system.level() == *capped,
        _ => false,
    }
}

/// Whether the system has the end of the one-thread walk over the reports of the lines without clash, and as many reports.
/// `AllocError` is want of memory.
pub fn leads_to(
    alloc: Global,
    settings: &CoreSettings,
    clashed: &[bool; 3],
    system: &System,
) -> Result<bool, AllocError>
    requires usable { AreUsable MOST_BITS settings.now }
{
    let reports = reports_of(alloc, clashed)?;
    if reports.len() > 3 || !have_levels(&reports, settings.bits) {
        return Ok(false);
    }
    let told = Settings {
        bits: settings.bits,
        threshold: settings.threshold,
        cap: settings.cap,
        verify: settings.verify,
    };
    let walked = walk(alloc, &reports, &told);
    if let Err(PruneError::Memory) = walked {
        return Err(AllocError);
    }
    let counted = match system.batch() {
        Some(batch) => batch.len() == reports.len(),
        None => false,
    };
    Ok(counted && ended_so(system, &walked))
}
