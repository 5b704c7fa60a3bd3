//! The messages of an empty batch byte by byte, links that fail, messages that are cut or twisted, and a round trip.
//! The expected bytes are those of the worked messages.

use definitions::Side;
use field64::{Fe, MODULUS};
use peer_exchange::*;
use shelf_io::{Call, FirmLink, Link, MemoryLink};
use sketch_check::Sums;
use std::alloc::{AllocError, Global};

// The totals of an empty batch at level 1: two elements 0.
const TOTALS: [u8; 23] = *b"\x03\x00\x01\x00\x00\x00\x02\0\0\0\0\0\0\0\0\0\0\0\0\0\0\0\0";

fn element(number: u64) -> Fe {
    Fe::new(number).unwrap_or(Fe::zero())
}

// Whether a side sent these bytes.
fn is_message(found: Option<(Side, &[u8])>, from: Side, bytes: &[u8]) -> bool {
    match found {
        Some((side, sent)) => side == from && sent == bytes,
        None => false,
    }
}

// Whether side 1 takes two elements 0 as totals of level 1.
fn takes_zeros<K: Link>(alloc: Global, link: &mut K) -> bool {
    match take_totals(alloc, link, Side::One, 1, 2) {
        Ok(totals) => totals.as_slice() == [Fe::zero(); 2].as_slice(),
        Err(_) => false,
    }
}

// The offset at fault where side 1 takes two totals of level 1 and these bytes wait.
fn fault_in(alloc: Global, bytes: &[u8]) -> Option<u32> {
    let mut link = FirmLink::new(alloc);
    link.send(Side::Zero, bytes).ok()?;
    match take_totals(alloc, &mut link, Side::One, 1, 2) {
        Err(
            ExchangeError::PeerMessage {
                level: 1,
                kind: 3,
                at,
            },
        ) => Some(at),
        _ => None,
    }
}

// A link one of whose calls is to fail.
fn failing(alloc: Global, call: Call, number: u64) -> Result<MemoryLink, AllocError> {
    let mut fail = Vec::new(alloc);
    fail.push((call, number))?;
    Ok(MemoryLink::new(alloc, fail))
}

#[test]
fn an_empty_batch_has_these_messages(rt: HostRuntime) {
    let alloc = rt.alloc();
    let mut link = FirmLink::new(alloc);
    let zeros = [Fe::zero(); 2];
    assert_eq!(rt; send_sums(alloc, &mut link, Side::Zero, 1, &[]), Ok(()));
    assert_eq!(rt; send_sigmas(alloc, &mut link, Side::One, 1, &[]), Ok(()));
    assert_eq!(rt;
        send_totals(alloc, &mut link, Side::Zero, 1, &zeros),
        Ok(())
    );
    assert!(rt; is_message(link.sent(0), Side::Zero, b"\x01\x00\x01\x00\x00\x00\x00"));
    assert!(rt; is_message(link.sent(1), Side::One, b"\x02\x00\x01\x00\x00\x00\x00"));
    assert!(rt; is_message(link.sent(2), Side::Zero, &TOTALS));
    assert!(rt; link.sent(3).is_none());
    let sums = take_sums(alloc, &mut link, Side::One, 1, 0);
    assert!(rt; sums.expect(&rt, "sums").is_empty());
    assert!(rt; takes_zeros(alloc, &mut link));
}

#[test]
fn a_link_that_fails(rt: HostRuntime) {
    let alloc = rt.alloc();
    let zeros = [Fe::zero(); 2];
    let mut link = failing(alloc, Call::Send, 2).expect(&rt, "memory");
    assert_eq!(rt;
        send_totals(alloc, &mut link, Side::Zero, 1, &zeros),
        Ok(())
    );
    assert_eq!(rt;
        send_totals(alloc, &mut link, Side::Zero, 2, &zeros),
        Err(ExchangeError::Link)
    );
    assert!(rt; link.sent(1).is_none());
    assert!(rt; takes_zeros(alloc, &mut link));
    let mut link = failing(alloc, Call::Receive, 1).expect(&rt, "memory");
    assert_eq!(rt;
        send_totals(alloc, &mut link, Side::Zero, 1, &zeros),
        Ok(())
    );
    let refused = take_totals(alloc, &mut link, Side::One, 1, 2);
    assert!(rt; matches!(refused, Err(ExchangeError::Link)));
    assert!(rt; takes_zeros(alloc, &mut link));
}

#[test]
fn the_first_offset_at_fault_is_told(rt: HostRuntime) {
    let alloc = rt.alloc();
    for length in 0..23 {
        assert_eq!(rt; fault_in(alloc, &TOTALS[..length]), Some(length as u32));
    }
    for place in 0..7 {
        let mut twisted = TOTALS;
        twisted[place] ^= 0x40;
        assert_eq!(rt; fault_in(alloc, &twisted), Some(place as u32));
    }
    let mut too_large = TOTALS;
    too_large[15..].copy_from_slice(&MODULUS.to_le_bytes());
    assert_eq!(rt; fault_in(alloc, &too_large), Some(15));
    assert_eq!(rt; fault_in(alloc, &TOTALS), None);
}

#[test]
fn what_is_sent_is_taken(rt: HostRuntime) {
    let alloc = rt.alloc();
    let mut link = FirmLink::new(alloc);
    let numbers = [element(1), element(MODULUS - 1), element(0x0102_0304)];
    let sums = [
        Sums {
            x: numbers[0],
            y: numbers[1],
            z: numbers[2],
        },
        Sums::zero(),
    ];
    assert_eq!(rt; send_sums(alloc, &mut link, Side::One, 258, &sums), Ok(()));
    assert_eq!(rt;
        send_sigmas(alloc, &mut link, Side::One, 258, &numbers),
        Ok(())
    );
    assert_eq!(rt;
        send_totals(alloc, &mut link, Side::One, 258, &numbers),
        Ok(())
    );
    let taken = take_sums(alloc, &mut link, Side::Zero, 258, 2).expect(&rt, "sums");
    assert_eq!(rt; taken.as_slice(), sums.as_slice());
    let taken = take_sigmas(alloc, &mut link, Side::Zero, 258, 3).expect(&rt, "sigmas");
    assert_eq!(rt; taken.as_slice(), numbers.as_slice());
    let taken = take_totals(alloc, &mut link, Side::Zero, 258, 3).expect(&rt, "totals");
    assert_eq!(rt; taken.as_slice(), numbers.as_slice());
}
