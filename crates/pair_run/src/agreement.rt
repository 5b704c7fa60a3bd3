//! Numbers that both sides add: each sends its own, adds what it received, and the two sides' sums are compared.
//! On a true link they never differ.

ghost use Rattle.std.specs.Prelude.{◌≡◌, ◌≢◌, ◌<◌, ◌^◌, length, IfOk, IfErr, OnErr, None};
ghost use Rattle.std.specs.List.{All};
ghost use Rattle.definitions.specs.Field.{modulus, add};
ghost use Rattle.walk_definitions.specs.Messages.{both_send};
ghost use Rattle.walk_definitions.specs.Heard.{paired, added};
ghost use Rattle.pair_run.specs.AddedKinds.{added_number};
ghost use Rattle.pair_run.specs.Failures.{end_of, Stops, IsView, HasPairCause};
ghost use Rattle.pair_run.specs.Parts.{GoesOn};
ghost use Rattle.shelf_io.specs.Seen.{link_seen, IsTrueAndIdle};
ghost use Rattle.pair_run.specs.Talking.{Passed, SentMore, SentPart};

use crate::additions::added;
use crate::answers::PairError;
use crate::comparison::first_difference;
use crate::exchange::exchange_numbers;
use crate::kind::AddedKind;
use field64::Fe;
use shelf_io::Link;
use std::alloc::Global;

/// The sums of both sides' numbers, on which the sides agree.
pub fn agreed_sums<K: Link>(
    alloc: Global,
    link: &mut K,
    kind: AddedKind,
    level: u16,
    own0: &[Fe],
    own1: &[Fe],
) -> Result<Vec<Fe>, PairError>
    requires few { length own0.now < 2 ^ 27 }
    requires same { length own1.now ≡ length own0.now }
    requires below0 { All (λ n. n < modulus) own0.now }
    requires below1 { All (λ n. n < modulus) own1.now }
    ensures count { IfOk result (λ sums. length sums.items ≡ length own0.now) }
    ensures goes { IfOk result (λ sums. Passed (K.talk link.old) (K.talk link.new)
        (GoesOn (added (added_number kind) level own0.now own1.now) sums.items)) }
    ensures stops { IfErr result (Stops (added (added_number kind) level own0.now own1.now) (K.talk link.old) (K.talk link.new)) }
    ensures truly { IfOk result (λ sums. IsTrueAndIdle (link_seen K.Link link.old)
        → (sums.items ≡ paired add own0.now own1.now) × IsTrueAndIdle (link_seen K.Link link.new)
        × SentMore (K.talk link.old) (K.talk link.new) (both_send (added_number kind) level own0.now own1.now)) }
    ensures partly { IfErr result (λ e. IsTrueAndIdle (link_seen K.Link link.old)
        → (end_of e ≡ None) × SentPart (K.talk link.old) (K.talk link.new) (both_send (added_number kind) level own0.now own1.now)) }
    ensures cause { HasPairCause (K.faults link.old) (K.faults link.new) result }
{
    let (to0, to1) = exchange_numbers(alloc, link, kind, level, own0, own1)?;
    let sums0 = added(alloc, own0, &to0)?;
    let sums1 = added(alloc, own1, &to1)?;
    compared(kind, level, sums0, &sums1)
}

/// Side 0's sums, where side 1's are the same.
fn compared(kind: AddedKind, level: u16, sums0: Vec<Fe>, sums1: &[Fe]) -> Result<Vec<Fe>, PairError>
    requires few { length sums0.items < 2 ^ 27 }
    requires same { length sums0.items ≡ length sums1.now }
    ensures equal { IfOk result (λ sums. (sums.items ≡ sums0.items) × (sums0.items ≡ sums1.now)) }
    ensures view { IfErr result (IsView (added_number kind) level sums0.items sums1.now) }
    ensures unequal { OnErr result (sums0.items ≢ sums1.now) }
{
    match first_difference(&sums0, sums1) {
        None => Ok(sums0),
        Some(place) => Err(PairError::Views {
            level,
            kind: kind.number(),
            place: place as u32,
            left: sums0[place].number(),
            right: sums1[place].number(),
        }),
    }
}
