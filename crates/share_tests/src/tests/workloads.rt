//! The letters of the first reports, how often each comes among 512, and the counts that are refused.
//! The numbers are those of the project's own rule.

use prefix_bits::Prefix;
use text_strings::LinesError;
use workload::workload;

// How often a string comes.
fn count(strings: &[Prefix], string: &Prefix) -> u32 {
    let mut count: u32 = 0;
    for other in strings {
        if other == string {
            count = count.wrapping_add(1);
        }
    }
    count
}

#[test]
fn each_letter_is_half_as_often_as_the_one_before(rt: HostRuntime) -> Result<(), LinesError> {
    let strings = workload(rt.alloc(), 512, 2)?;
    assert_eq!(rt; strings.len(), 512);
    let letters = *b"abcdefghij";
    let counts = [256, 128, 64, 32, 16, 8, 4, 2, 1, 1];
    for (letter, expected) in letters.iter().zip(&counts) {
        let string = Prefix::of_bytes(&[*letter, *letter]);
        assert_eq!(rt; count(&strings, &string), *expected);
    }
    Ok(())
}

#[test]
fn at_width_one_the_letter_stands_once(rt: HostRuntime) -> Result<(), LinesError> {
    let strings = workload(rt.alloc(), 4, 1)?;
    let expected = [
        Prefix::of_bytes(b"a"),
        Prefix::of_bytes(b"b"),
        Prefix::of_bytes(b"a"),
        Prefix::of_bytes(b"c"),
    ];
    assert!(rt; strings.as_slice() == expected.as_slice());
    Ok(())
}

#[test]
fn more_reports_than_a_share_file_holds_are_refused(rt: HostRuntime) -> Result<(), LinesError> {
    let refused = match workload(rt.alloc(), 16055, 32) {
        Ok(_) => None,
        Err(error) => Some(error),
    };
    assert_eq!(rt; refused, Some(LinesError::TooMany { lines: 16055 }));
    let most = workload(rt.alloc(), 16054, 32)?;
    assert_eq!(rt; most.len(), 16054);
    Ok(())
}
