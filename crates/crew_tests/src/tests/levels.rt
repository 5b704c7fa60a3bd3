//! The tiles of plans with two candidate blocks and with five, posted twice through two passes of one level.
//! The first pass adds each of them, and the second none.

ghost use Rattle.std.specs.Prelude.{◌≡◌};
ghost use Rattle.lock_row.specs.Rows.{locks_of};
ghost use Rattle.phase_state.specs.Rooms.{HasRoom};
ghost use Rattle.phase_state.specs.Sums.{IsPhasePlan};

use crate::{Cut, Trial, plan_of};
use definitions::Side;
use level_totals::{Finished, Level, LevelPass};
use phase_state::{Kind, PartRoom, PhasePlan, Posted};
use std::alloc::{AllocError, Global};
use std::sync::Wait;

/// Posts each tile of a level through a pass: the pass, and whether each post answered so.
fn post_all<'a, R: Wait>(
    rt: &R,
    level: &Level<'a>,
    mut pass: LevelPass<'a>,
    room: &mut PartRoom,
    answer: Posted,
) -> (LevelPass<'a>, bool)
    requires mine { locks_of pass ≡ level.now.locks }
    requires room { HasRoom level.now.plan.tiles room.old.reports room.old.candidates }
    ensures mine { locks_of result.0 ≡ level.now.locks }
    ensures room { HasRoom level.now.plan.tiles room.new.reports room.new.candidates }
{
    let plan = level.plan();
    let mut each = true;
    for tile in 0..plan.count() {
        room.fill(plan, tile);
        let (posted, after) = level.post(rt, pass, tile, &room.part(plan.kind));
        each &= posted == answer;
        pass = after;
    }
    (pass, each)
}

/// Posts each tile of a plan through one pass, and each once more through another: what is finished, and whether the first
/// posts were all `Added` and the others all `Repeat`.
fn post_twice<'a, R: Wait>(
    rt: &R,
    alloc: Global,
    plan: PhasePlan<'a>,
) -> Result<(Finished<'a>, bool), AllocError>
    requires plan { IsPhasePlan plan }
{
    let (level, mut passes) = Level::new(alloc, plan, 2)?;
    let mut room = PartRoom::new(alloc, &level.plan().tiles)?;
    let Some(two) = passes.pop() else {
        unreachable!()
    };
    let Some(one) = passes.pop() else {
        unreachable!()
    };
    let (one, added) = post_all(rt, &level, one, &mut room, Posted::Added);
    let (two, repeated) = post_all(rt, &level, two, &mut room, Posted::Repeat);
    passes.push_reserved(two);
    passes.push_reserved(one);
    Ok((level.finish(passes), added && repeated))
}

#[test]
fn each_tile_is_added_once(rt: HostRuntime) -> Result<(), AllocError> {
    for (candidates, cut, tiles) in [(4, Cut::Small, 6), (5, Cut::Single, 25)] {
        let trial = Trial::new(rt.alloc(), 5, candidates)?;
        for (side, kind) in [(Side::Zero, Kind::Sketch), (Side::One, Kind::Totals)] {
            let made = plan_of(&trial, side, kind, cut);
            assert!(rt; made.is_some());
            let Some(plan) = made else { return Ok(()) };
            assert_eq!(rt; plan.count(), tiles);
            let (finished, once) = post_twice(&rt, rt.alloc(), plan)?;
            assert!(rt; once);
            assert!(rt; finished.all_posted());
            match kind {
                Kind::Sketch => assert!(rt; trial.has_sums(side, finished.sums())),
                Kind::Totals => assert!(rt; trial.has_totals(side, finished.totals())),
            }
        }
    }
    Ok(())
}
