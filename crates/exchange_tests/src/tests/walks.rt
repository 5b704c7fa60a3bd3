//! The walk over the known shares of the strings `ab` and `ac`, the first report twice, at four thresholds.
//! The shares of line 0 and line 1 are those that an independent implementation makes; every report passes each level.

ghost use Rattle.std.specs.Prelude.{◌≡◌, ◌≤◌, IfOk, length};

use frontier_walk::PruneError;
use idpf_gen::gen_;
use plain_walk::{Answer, Report, Settings, walk};
use prefix_bits::Prefix;
use seed_expand::Seed;
use std::alloc::{AllocError, Global};

// The seed of the bytes 0, 1, .. 31.
fn master() -> Seed {
    let mut bytes = [0; 32];
    for (k, byte) in bytes.iter_mut().enumerate() {
        *byte = k as u8;
    }
    Seed(bytes)
}

// The report of a line, counted from 0, of a string of 16 bits.
fn report_of(alloc: Global, line: u32, string: &Prefix) -> Result<Report, AllocError>
    requires bits { length string.now ≡ 16 }
    ensures zero { IfOk result (λ r. length r.held0.levels ≡ 16) }
    ensures one { IfOk result (λ r. length r.held1.levels ≡ 16) }
{
    let (zero, one) = gen_(alloc, &master(), line, 258, string)?;
    Ok(Report {
        id: zero.id,
        held0: zero,
        held1: one,
    })
}

// The walk over the three reports at a threshold.
fn answer_at(alloc: Global, threshold: u64) -> Result<Answer, PruneError>
    requires some { 1 ≤ threshold }
{
    let (ab, ac) = (Prefix::of_bytes(b"ab"), Prefix::of_bytes(b"ac"));
    let batch = [
        report_of(alloc, 0, &ab)?,
        report_of(alloc, 0, &ab)?,
        report_of(alloc, 1, &ac)?,
    ];
    let settings = Settings {
        bits: 16,
        threshold,
        cap: 4096,
        verify: Seed([9; 32]),
    };
    walk(alloc, &batch, &settings)
}

// The levels, the number of heavy strings and the number of reports that passed.
fn shape(answer: &Answer) -> (u16, usize, u32) {
    (answer.levels, answer.heavy.len(), answer.passed)
}

#[test]
fn heavy_strings_are_found_at_each_threshold(rt: HostRuntime) -> Result<(), PruneError> {
    let twice = answer_at(rt.alloc(), 2)?;
    assert_eq!(rt; shape(&twice), (16, 1, 3));
    assert_eq!(rt; twice.sealed, 3);
    for heavy in &twice.heavy {
        assert_eq!(rt; heavy.prefix, Prefix::of_bytes(b"ab"));
        assert_eq!(rt; heavy.count.number(), 2);
    }
    let once = answer_at(rt.alloc(), 1)?;
    assert_eq!(rt; shape(&once), (16, 2, 3));
    let thrice = answer_at(rt.alloc(), 3)?;
    assert_eq!(rt; shape(&thrice), (16, 0, 3));
    let more = answer_at(rt.alloc(), 4)?;
    assert_eq!(rt; shape(&more), (1, 0, 3));
    Ok(())
}
