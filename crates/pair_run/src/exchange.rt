//! One kind of message of a level: both sides send their numbers, and each takes the other's.
//! The sends come first, so that what a side takes is there.

ghost use Rattle.std.specs.Prelude.{◌≡◌, ◌<◌, ◌^◌, length, IfOk, IfErr, None};
ghost use Rattle.std.specs.List.{All};
ghost use Rattle.definitions.specs.Field.{modulus};
ghost use Rattle.walk_definitions.specs.Messages.{flat, both_send};
ghost use Rattle.pair_run.specs.AddedKinds.{added_number};
ghost use Rattle.pair_run.specs.Failures.{end_of, Stops, HasPairCause};
ghost use Rattle.pair_run.specs.Parts.{GoesOn, exchange};
ghost use Rattle.shelf_io.specs.Seen.{link_seen, IsTrueAndIdle};
ghost use Rattle.pair_run.specs.Talking.{Passed, SentMore, SentPart};

use crate::answers::PairError;
use crate::kind::AddedKind;
use definitions::Side;
use field64::Fe;
use peer_exchange::{send_sums, take_sums};
use shelf_io::Link;
use sketch_check::Sums;
use std::alloc::Global;

/// Both sides' sums are sent and taken: what side 0 took, and what side 1 took.
pub fn exchange_sums<K: Link>(
    alloc: Global,
    link: &mut K,
    level: u16,
    own0: &[Sums],
    own1: &[Sums],
) -> Result<(Vec<Sums>, Vec<Sums>), PairError>
    requires few { length own0.now < 2 ^ 27 }
    requires same { length own1.now ≡ length own0.now }
    requires below0 { All (λ n. n < modulus) (flat own0.now) }
    requires below1 { All (λ n. n < modulus) (flat own1.now) }
    ensures counts { IfOk result (λ to. (length to.0.items ≡ length own0.now) × (length to.1.items ≡ length own0.now)) }
    ensures goes { IfOk result (λ to. Passed (K.talk link.old) (K.talk link.new)
        (GoesOn (exchange 1 level (flat own0.now) (flat own1.now)) (flat to.0.items, flat to.1.items))) }
    ensures stops { IfErr result (Stops (exchange 1 level (flat own0.now) (flat own1.now)) (K.talk link.old) (K.talk link.new)) }
    ensures truly { IfOk result (λ to. IsTrueAndIdle (link_seen K.Link link.old)
        → (to.0.items ≡ own1.now) × (to.1.items ≡ own0.now) × IsTrueAndIdle (link_seen K.Link link.new)
        × SentMore (K.talk link.old) (K.talk link.new) (both_send 1 level (flat own0.now) (flat own1.now))) }
    ensures partly { IfErr result (λ e. IsTrueAndIdle (link_seen K.Link link.old)
        → (end_of e ≡ None) × SentPart (K.talk link.old) (K.talk link.new) (both_send 1 level (flat own0.now) (flat own1.now))) }
    ensures cause { HasPairCause (K.faults link.old) (K.faults link.new) result }
{
    send_sums(alloc, link, Side::Zero, level, own0)?;
    send_sums(alloc, link, Side::One, level, own1)?;
    let to0 = take_sums(alloc, link, Side::Zero, level, own1.len() as u32)?;
    let to1 = take_sums(alloc, link, Side::One, level, own0.len() as u32)?;
    Ok((to0, to1))
}

/// Both sides' numbers of a kind are sent and taken: what side 0 took, and what side 1 took.
pub fn exchange_numbers<K: Link>(
    alloc: Global,
    link: &mut K,
    kind: AddedKind,
    level: u16,
    own0: &[Fe],
    own1: &[Fe],
) -> Result<(Vec<Fe>, Vec<Fe>), PairError>
    requires few { length own0.now < 2 ^ 27 }
    requires same { length own1.now ≡ length own0.now }
    requires below0 { All (λ n. n < modulus) own0.now }
    requires below1 { All (λ n. n < modulus) own1.now }
    ensures counts { IfOk result (λ to. (length to.0.items ≡ length own0.now) × (length to.1.items ≡ length own0.now)) }
    ensures goes { IfOk result (λ to. Passed (K.talk link.old) (K.talk link.new)
        (GoesOn (exchange (added_number kind) level own0.now own1.now) (to.0.items, to.1.items))) }
    ensures stops { IfErr result (Stops (exchange (added_number kind) level own0.now own1.now) (K.talk link.old) (K.talk link.new)) }
    ensures truly { IfOk result (λ to. IsTrueAndIdle (link_seen K.Link link.old)
        → (to.0.items ≡ own1.now) × (to.1.items ≡ own0.now) × IsTrueAndIdle (link_seen K.Link link.new)
        × SentMore (K.talk link.old) (K.talk link.new) (both_send (added_number kind) level own0.now own1.now)) }
    ensures partly { IfErr result (λ e. IsTrueAndIdle (link_seen K.Link link.old)
        → (end_of e ≡ None) × SentPart (K.talk link.old) (K.talk link.new) (both_send (added_number kind) level own0.now own1.now)) }
    ensures cause { HasPairCause (K.faults link.old) (K.faults link.new) result }
{
    kind.send(alloc, link, Side::Zero, level, own0)?;
    kind.send(alloc, link, Side::One, level, own1)?;
    let to0 = kind.take(alloc, link, Side::Zero, level, own1.len() as u32)?;
    let to1 = kind.take(alloc, link, Side::One, level, own0.len() as u32)?;
    Ok((to0, to1))
}
