//! Each of the first bytes of a share file changed in turn, beside the one-thread walk over the shares that can be read.
//! A file of three records at width 2: 8 bytes of header, then 1,120 bytes a record.

ghost use Rattle.std.specs.Prelude.{◌≡◌, ◌≤◌, true, length};
ghost use Rattle.plain_walk.specs.Chosen.{AllHave};

use super::{bytes_of, filled, unchanged};
use frontier_walk::PruneError;
use idpf_eval::{Share, same_share};
use plain_walk::{Answer, Report, Settings, walk};
use seed_expand::Seed;
use share_format::{RecordError, read_record};
use shelf_io::MemoryShelf;
use std::alloc::{AllocError, Global};
use text_strings::shown;

// What can be read of a file: its shares, and the lines of the records that spell none.
#[derive(Drop)]
struct Readable {
    shares: Vec<Share>,
    lines: String,
}

// Reads the three records of a side's file.
fn read_records(alloc: Global, side: u8, file: &[u8]) -> Result<Readable, AllocError> {
    let mut found = Readable {
        shares: Vec::new(alloc),
        lines: String::new(alloc),
    };
    for number in 0..3 {
        let at = 8 + 1120 * number;
        if at + 1120 > file.len() {
            return Ok(found);
        }
        match read_record(alloc, &file[at..at + 1120], 2) {
            Ok(share) => found.shares.push(share)?,
            Err(RecordError::Memory) => return Err(AllocError),
            Err(_) => {
                let line = format!(in alloc; "refused side {side} record {number}\n")?;
                found.lines.push_str(&line)?;
            }
        }
    }
    Ok(found)
}

// The one content that stands under an id, where there is just one.
fn standing<'a>(shares: &'a [Share], other: &Share) -> Option<&'a Share> {
    let mut found = None;
    for share in shares {
        if share.id == other.id {
            match found {
                None => found = Some(share),
                Some(first) => {
                    if !same_share(first, share) {
                        return None;
                    }
                }
            }
        }
    }
    found
}

// The reports of both files, in the order of side 1's, whose ids ascend and are there once each.
fn reports(alloc: Global, zero: &[Share], one: &[Share]) -> Result<Vec<Report>, AllocError> {
    let mut reports = Vec::new(alloc);
    for held1 in one {
        if let Some(held0) = standing(zero, held1) {
            reports.push(Report {
                id: held1.id,
                held0: held0.copy(alloc)?,
                held1: held1.copy(alloc)?,
            })?;
        }
    }
    Ok(reports)
}

// Whether both shares of each report have 16 levels.
fn have_levels(reports: &[Report]) -> bool
    ensures { result ≡ true → AllHave 16 reports.now }
{
    for report in reports {
        if report.held0.levels.len() != 16 || report.held1.levels.len() != 16 {
            return false;
        }
    }
    true
}

// The walk at threshold 1 of at most three reports of 16 levels; else none.
fn walked(alloc: Global, reports: &[Report]) -> Option<Result<Answer, PruneError>> {
    if reports.len() > 3 || !have_levels(reports) {
        return None;
    }
    let settings = Settings {
        bits: 16,
        threshold: 1,
        cap: 4096,
        verify: Seed([0; 32]),
    };
    Some(walk(alloc, reports, &settings))
}

// The lines of an answer: for each string its count, a tab, the string.
fn answer_lines(alloc: Global, answer: &Answer) -> Result<String, AllocError> {
    let mut lines = String::new(alloc);
    for heavy in &answer.heavy {
        let mut bytes = [0; 2];
        if heavy.prefix.len() == 16 {
            heavy.prefix.to_bytes(&mut bytes);
        }
        let count = heavy.count.number();
        let string = shown(alloc, &bytes)?;
        let line = format!(in alloc; "{count}\t{string}\n")?;
        lines.push_str(&line)?;
    }
    Ok(lines)
}

// What `run` is to give over the two files where their headers are right: out and err.
fn texts(alloc: Global, zero: &[u8], one: &[u8]) -> Result<Option<(String, String)>, AllocError> {
    let zero = read_records(alloc, 0, zero)?;
    let one = read_records(alloc, 1, one)?;
    let reports = reports(alloc, &zero.shares, &one.shares)?;
    let answer = match walked(alloc, &reports) {
        Some(Ok(answer)) => answer,
        Some(Err(PruneError::Memory)) => return Err(AllocError),
        _ => return Ok(None),
    };
    let (sealed, passed, levels) = (answer.sealed, answer.passed, answer.levels);
    let (of_zero, of_one) = (zero.lines, one.lines);
    let err = format!(in alloc;
        "{of_zero}{of_one}sealed {sealed} passed {passed} levels {levels}\n"
    )?;
    Ok(Some((answer_lines(alloc, &answer)?, err)))
}

// What `run` is to give where the byte at a place of the header was made its value plus one. At byte 6 that is another width,
// at which a record has 1,640 bytes.
fn header_line(alloc: Global, at: usize) -> Result<String, AllocError> {
    if at == 6 {
        String::from_str(alloc, "share file 0: cut at byte 3288\n")
    } else {
        format!(in alloc; "share file 0: header wrong at byte {at}\n")
    }
}

// What `run` is to give over side 0's file with the byte at a place made its value plus one.
fn coming(
    alloc: Global,
    zero: &[u8],
    one: &[u8],
    at: usize,
) -> Result<Option<(u8, String, String)>, AllocError> {
    if at < 8 {
        return Ok(Some((3, String::new(alloc), header_line(alloc, at)?)));
    }
    match texts(alloc, zero, one)? {
        Some((out, err)) => Ok(Some((0, out, err))),
        None => Ok(None),
    }
}

#[test]
fn each_of_the_first_bytes_of_a_share_file(rt: HostRuntime) -> Result<(), AllocError> {
    let made = filled(&rt, rt.alloc())?;
    let (zero, one) = (bytes_of(&made, "f0"), bytes_of(&made, "f1"));
    let row = "run --threshold 1 --workers 1 --uploaders 1 changed0 f1";
    for at in 0..300 {
        let mut file = Vec::new(rt.alloc());
        file.extend_from_slice(zero)?;
        assert!(rt; at < file.len());
        file[at] = file[at].wrapping_add(1);
        let (status, out, err) = coming(rt.alloc(), &file, one, at)?.expect(
            &rt,
            "a walk of 16 levels",
        );
        let mut shelf = MemoryShelf::new(rt.alloc(), Vec::new(rt.alloc()))
            .with("changed0", &file)?
            .with("f1", one)?;
        let ended = unchanged(&rt, rt.alloc(), &mut shelf, row)?;
        assert!(rt; ended.is((status, &out, &err)), "byte {at}");
    }
    Ok(())
}
