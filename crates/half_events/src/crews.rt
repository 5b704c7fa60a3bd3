//! The hands of one side's workers.
//! Each call changes one hand, as the definitions' event of its name does.

ghost use Rattle.std.specs.Prelude.{◌≡◌, ◌<◌, ◌^◌, IfOk};
ghost use Rattle.std.specs.List.{list_all};
ghost use Rattle.core_definitions.specs.Phase.{hand_at, drawn, claimed, abandoned, is_finished};
ghost use Rattle.core_definitions.specs.System.{hands_of};
ghost use Rattle.half_events.specs.Crews.{crew};

use core_definitions::Hand;
use std::alloc::{AllocError, Global};

/// The hands of so many workers, all free. `AllocError` is want of memory.
#[tactic(auto, using(crate::proofs::Workers::fresh_hands))]
pub fn free_hands(alloc: Global, workers: u32) -> Result<Vec<Hand>, AllocError>
    ensures { IfOk result (λ hands. hands.items ≡ hands_of workers) }
{
    vec![in alloc; Hand::Free; workers as usize]
}

/// A worker's hand. A number that no worker has is as a worker that was told that there is no further tile.
pub fn hand_of(hands: &[Hand], worker: u32) -> Hand
    ensures { result ≡ hand_at hands.now worker }
{
    match hands.get(worker as usize) {
        Some(hand) => *hand,
        None => Hand::Finished,
    }
}

// What a worker has in hand that drew this number.
fn drawn(number: u32, tiles: u32) -> Hand
    ensures { result ≡ drawn number tiles }
{
    if number < tiles {
        Hand::Holding(number)
    } else {
        Hand::Finished
    }
}

/// A worker draws the next number, `counter`, where its hand is free. The answer is the next number afterwards.
pub fn claim(hands: &mut Vec<Hand>, counter: u32, tiles: u32, worker: u32) -> u32
    requires room { counter < 2 ^ 31 }
    ensures hands { hands.new.items
        ≡ (claimed tiles worker (hand_at hands.old.items worker) (crew counter hands.old.items)).hands }
    ensures counter { result ≡ (claimed tiles worker (hand_at hands.old.items worker) (crew counter hands.old.items)).counter }
{
    match hand_of(hands, worker) {
        Hand::Free => {
            hands[worker as usize] = drawn(counter, tiles);
            counter + 1
        }
        _ => counter,
    }
}

/// A worker gives up the tile that it holds, if any.
pub fn abandon(hands: &mut Vec<Hand>, worker: u32)
    ensures { hands.new.items ≡ (abandoned worker (hand_at hands.old.items worker) (crew 0 hands.old.items)).hands }
{
    if let Hand::Holding(_) = hand_of(hands, worker) {
        hands[worker as usize] = Hand::Free;
    }
}

/// Whether each worker was told that there is no further tile.
pub fn all_finished(hands: &[Hand]) -> bool
    ensures { result ≡ list_all is_finished hands.now }
{
    for hand in hands {
        if *hand != Hand::Finished {
            return false;
        }
    }
    true
}
