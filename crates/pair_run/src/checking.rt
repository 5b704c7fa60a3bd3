//! The second part of a level: both sides send their sigmas, and the reports whose sigmas add up to 0 stay live.
//! Each side's sigmas come from what it opened itself.

ghost use Rattle.std.specs.Prelude.{◌≡◌, ◌<◌, ◌≤◌, ◌^◌, length, IfOk, IfErr, None};
ghost use Rattle.std.specs.List.{All};
ghost use Rattle.definitions.specs.declared.Side.TheVariants.{Zero, One};
ghost use Rattle.definitions.specs.Field.{modulus, add};
ghost use Rattle.walk_definitions.specs.Messages.{both_send};
ghost use Rattle.walk_definitions.specs.Heard.{paired, kept, sigmas};
ghost use Rattle.pair_run.specs.declared.answers.PairError.TheVariants.{Memory};
ghost use Rattle.pair_run.specs.Failures.{end_of, Stops, HasPairCause};
ghost use Rattle.pair_run.specs.Levels.{HaveLevels};
ghost use Rattle.pair_run.specs.Parts.{GoesOn, checking};
ghost use Rattle.pair_run.specs.Places.{picked};
ghost use Rattle.shelf_io.specs.Seen.{link_seen, IsTrueAndIdle};
ghost use Rattle.pair_run.specs.Talking.{Passed, SentMore, SentPart};

use crate::agreement::agreed_sums;
use crate::answers::PairError;
use crate::kind::AddedKind;
use crate::own_sigmas::own_sigmas;
use crate::survival::kept_places;
use definitions::Side;
use field64::Fe;
use report_batch::Batch;
use shelf_io::Link;
use sketch_check::Sums;
use std::alloc::Global;

/// The places of the live reports that pass a level, of what both sides opened.
pub fn check_reports<K: Link>(
    alloc: Global,
    link: &mut K,
    level: u16,
    batch: &Batch,
    live: &[u32],
    opened0: &[Sums],
    opened1: &[Sums],
) -> Result<Vec<u32>, PairError>
    requires first { 1 ≤ level }
    requires levels { HaveLevels level batch.now }
    requires places { All (λ k. k < length batch.now) live.now }
    requires small { length live.now < 2 ^ 27 }
    requires opened0 { length opened0.now ≡ length live.now }
    requires opened1 { length opened1.now ≡ length live.now }
    ensures places { IfOk result (λ passed. All (λ k. k < length batch.now) passed.items) }
    ensures small { IfOk result (λ passed. length passed.items ≤ length live.now) }
    ensures goes { IfOk result (λ passed. Passed (K.talk link.old) (K.talk link.new)
        (GoesOn (checking level (picked batch.now live.now) (opened0.now, opened1.now)) (picked batch.now passed.items))) }
    ensures stops { IfErr result (Stops (checking level (picked batch.now live.now) (opened0.now, opened1.now)) (K.talk link.old) (K.talk link.new)) }
    ensures truly { IfOk result (λ passed. IsTrueAndIdle (link_seen K.Link link.old)
        → let sigmas0 = sigmas level Zero (picked batch.now live.now) opened0.now in
        let sigmas1 = sigmas level One (picked batch.now live.now) opened1.now in
        (picked batch.now passed.items ≡ kept (picked batch.now live.now) (paired add sigmas0 sigmas1))
        × IsTrueAndIdle (link_seen K.Link link.new)
        × SentMore (K.talk link.old) (K.talk link.new) (both_send 2 level sigmas0 sigmas1)) }
    ensures partly { IfErr result (λ e. IsTrueAndIdle (link_seen K.Link link.old)
        → let sigmas0 = sigmas level Zero (picked batch.now live.now) opened0.now in
        let sigmas1 = sigmas level One (picked batch.now live.now) opened1.now in
        (end_of e ≡ None) × SentPart (K.talk link.old) (K.talk link.new) (both_send 2 level sigmas0 sigmas1)) }
    ensures cause { HasPairCause (K.faults link.old) (K.faults link.new) result }
{
    let sigmas0 = side_sigmas(alloc, level, Side::Zero, batch, live, opened0)?;
    let sigmas1 = side_sigmas(alloc, level, Side::One, batch, live, opened1)?;
    let numbers = agreed_sums(alloc, link, AddedKind::Sigmas, level, &sigmas0, &sigmas1)?;
    Ok(kept_places(alloc, live, &numbers)?)
}

/// A side's sigmas of a batch's live reports.
fn side_sigmas(
    alloc: Global,
    level: u16,
    side: Side,
    batch: &Batch,
    live: &[u32],
    opened: &[Sums],
) -> Result<Vec<Fe>, PairError>
    requires first { 1 ≤ level }
    requires levels { HaveLevels level batch.now }
    requires places { All (λ k. k < length batch.now) live.now }
    requires opened { length opened.now ≡ length live.now }
    ensures sigmas { IfOk result (λ found. found.items ≡ sigmas level side (picked batch.now live.now) opened.now) }
    ensures count { IfOk result (λ found. length found.items ≡ length live.now) }
    ensures below { IfOk result (λ found. All (λ n. n < modulus) found.items) }
    ensures memory { IfErr result (λ e. e ≡ Memory) }
{
    let shares = batch.shares(side);
    Ok(own_sigmas(alloc, level, side, shares, live, opened)?)
}
