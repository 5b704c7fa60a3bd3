//! The ids' bytes, the round trip of bytes, and the order of prefixes, by outside values.
//! 97 is 01100001 in binary.

use prefix_bits::{Prefix, ReportId};
use std::cmp::Ordering;

#[test]
fn an_id_is_its_tag_and_line(rt: HostRuntime) {
    let id = ReportId::of(1, 2);
    assert!(rt; id == ReportId([0, 0, 0, 0, 0, 0, 0, 1, 0, 0, 0, 0, 0, 0, 0, 2]));
    assert_eq!(rt; id.high(), 1);
    assert_eq!(rt; id.low(), 2);
    assert!(rt; id < ReportId::of(2, 0));
}

#[test]
fn a_byte_has_its_highest_bit_first(rt: HostRuntime) {
    let prefix = Prefix::empty()
        .child(false)
        .child(true)
        .child(true)
        .child(false)
        .child(false)
        .child(false)
        .child(false)
        .child(true);
    assert!(rt; prefix == Prefix::of_bytes(b"a"));
    assert_eq!(rt; prefix.len(), 8);
    assert!(rt; prefix.bit(1));
    assert!(rt; !prefix.bit(3));
}

#[test]
fn bytes_come_back(rt: HostRuntime) {
    let one = [0x80];
    let mut back = [0; 1];
    Prefix::of_bytes(&one).to_bytes(&mut back);
    assert_eq!(rt; back, one);

    let two = [0x01, 0xfe];
    let mut back = [0; 2];
    Prefix::of_bytes(&two).to_bytes(&mut back);
    assert_eq!(rt; back, two);

    let most = *b"0123456789abcdefghijklmnopqrstuv";
    let mut back = [0; 32];
    Prefix::of_bytes(&most).to_bytes(&mut back);
    assert_eq!(rt; back, most);
}

#[test]
fn prefixes_are_ordered_as_lists(rt: HostRuntime) {
    let empty = Prefix::empty();
    let zero = empty.child(false);
    let one = empty.child(true);
    assert!(rt; empty.cmp(&zero) == Ordering::Less);
    assert!(rt; zero.child(true).cmp(&one) == Ordering::Less);
    assert!(rt; one.cmp(&one.child(false)) == Ordering::Less);
    assert!(rt; Prefix::of_bytes(b"ab") < Prefix::of_bytes(b"ac"));
    assert!(rt; one.child(false).parent() == one);
}

#[test]
fn a_prefix_begins_its_extensions(rt: HostRuntime) {
    let string = Prefix::of_bytes(b"ab");
    assert!(rt; Prefix::of_bytes(b"a").is_prefix_of(&string));
    assert!(rt; string.is_prefix_of(&string));
    assert!(rt; !string.is_prefix_of(&Prefix::of_bytes(b"a")));
    assert!(rt; !Prefix::of_bytes(b"b").is_prefix_of(&string));
}
