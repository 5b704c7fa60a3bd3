//! Each call of each kind refused in turn, by its number, until a command meets no refusal.
//! The status and its line tell whose call it was; out, the files and the messages are fronts of the whole.

use super::trial::{Ended, GIVEN, NOTHING_FAILS, Object, Trial, tried};
use super::{CAPPED, EVAL, FIND, GEN, RUN, SHORT_MAKE, SHORT_RUN, Whole, filled, is_whole};
use shelf_io::{Call, MemoryLink, MemoryShelf};
use std::alloc::{AllocError, Global};
use std::sync::Wait;
use std::thread::Threads;

// How many calls of a kind a command makes. How a file or a message is cut into reads is the command's own affair.
#[derive(Clone, Copy)]
enum Calls {
    Exactly(u64),
    AtLeast(u64),
}

impl Calls {
    // Whether they are so many.
    fn are(self, made: u64) -> bool {
        match self {
            Calls::Exactly(calls) => made == calls,
            Calls::AtLeast(calls) => made >= calls,
        }
    }
}

// A command, whose calls of which kind fail, and how many there are. Sinks take few bytes a write here.
struct Case(Whole, Object, Call, Calls);

const BITE: usize = 7;

// Of `eval` and `gen`, of `run`, of `find` and of `make`.
const CASES: [Case; 25] = [
    Case(EVAL, Object::Shelf, Call::Length, Calls::Exactly(1)),
    Case(EVAL, Object::Shelf, Call::Read, Calls::AtLeast(2)),
    Case(EVAL, Object::Out, Call::Write, Calls::Exactly(11)),
    Case(EVAL, Object::Err, Call::Write, Calls::Exactly(4)),
    Case(GEN, Object::Shelf, Call::Length, Calls::Exactly(1)),
    Case(GEN, Object::Shelf, Call::Read, Calls::AtLeast(1)),
    Case(GEN, Object::Shelf, Call::Begin, Calls::Exactly(2)),
    Case(GEN, Object::Shelf, Call::Append, Calls::AtLeast(2)),
    Case(RUN, Object::Shelf, Call::Length, Calls::Exactly(2)),
    Case(RUN, Object::Shelf, Call::Read, Calls::AtLeast(2)),
    Case(SHORT_RUN, Object::Link, Call::Send, Calls::Exactly(6)),
    Case(SHORT_RUN, Object::Link, Call::Receive, Calls::AtLeast(6)),
    Case(RUN, Object::Out, Call::Write, Calls::Exactly(1)),
    Case(RUN, Object::Err, Call::Write, Calls::Exactly(4)),
    Case(FIND, Object::Shelf, Call::Length, Calls::Exactly(1)),
    Case(FIND, Object::Shelf, Call::Read, Calls::AtLeast(1)),
    Case(FIND, Object::Link, Call::Send, Calls::Exactly(96)),
    Case(FIND, Object::Link, Call::Receive, Calls::AtLeast(96)),
    Case(FIND, Object::Out, Call::Write, Calls::Exactly(1)),
    Case(FIND, Object::Err, Call::Write, Calls::Exactly(4)),
    Case(SHORT_MAKE, Object::Link, Call::Send, Calls::Exactly(6)),
    Case(SHORT_MAKE, Object::Link, Call::Receive, Calls::AtLeast(6)),
    Case(SHORT_MAKE, Object::Out, Call::Write, Calls::Exactly(2)),
    Case(SHORT_MAKE, Object::Err, Call::Write, Calls::Exactly(4)),
    Case(CAPPED, Object::Err, Call::Write, Calls::Exactly(5)),
];

// How many messages were sent where they are a front of those of a whole run.
fn sent_front(whole: &MemoryLink, link: &MemoryLink) -> Option<u64> {
    for k in 0..1000 {
        match link.sent(k) {
            None => return Some(u64::from(k)),
            Some(message) => {
                if whole.sent(k) != Some(message) {
                    return None;
                }
            }
        }
    }
    None
}

// Whether the given files are as they were, and each output that is there is a front of the whole one.
fn has_file_fronts(given: &MemoryShelf, whole: &MemoryShelf, shelf: &MemoryShelf) -> bool {
    for name in GIVEN {
        if shelf.file(name) != given.file(name) {
            return false;
        }
    }
    for name in ["g0", "g1"] {
        if let Some(bytes) = shelf.file(name) {
            match whole.file(name) {
                Some(all) => {
                    if !all.starts_with(bytes) {
                        return false;
                    }
                }
                None => return false,
            }
        }
    }
    true
}

// Whether the bytes are so many of a text, or all where it is shorter, with a line behind them.
fn is_front(bytes: &[u8], text: &str, count: u64, line: &str) -> bool {
    let all = text.as_bytes();
    let front = &all[..all.len().min(count as usize)];
    bytes.starts_with(front) && &bytes[front.len()..] == line.as_bytes()
}

// Whether status, out and err are those of a refusal. A sink has taken a bite by each write before.
fn has_texts(whole: Whole, trial: Trial, ended: &Ended) -> bool {
    let taken = trial.number.saturating_sub(1).saturating_mul(BITE as u64);
    let (out, err) = (ended.out.bytes(), ended.err.bytes());
    match trial.object {
        Object::Shelf => ended.status == 6
            && out.is_empty()
            && is_front(err, "", 0, "shelf fault\n"),
        Object::Link => ended.status == 7 && out.is_empty() && is_front(err, "", 0, "link fault\n"),
        Object::Out => {
            ended.status == 10
                && is_front(out, whole.out, taken, "")
                && is_front(err, "", 0, "sink fault\n")
        }
        Object::Err => {
            let (status, line) = if whole.status == 0 {
                (10, "sink fault\n")
            } else {
                (whole.status, "")
            };
            ended.status == status
                && out == whole.out.as_bytes()
                && is_front(err, whole.err, taken, line)
        }
    }
}

// Whether so many messages may have been sent before a refusal, of so many in all.
fn may_have_sent(trial: Trial, sent: u64, all: u64) -> bool {
    match trial.object {
        Object::Shelf => sent == 0,
        Object::Link => trial.call == Call::Receive || sent == trial.number.saturating_sub(1),
        Object::Out | Object::Err => sent == all,
    }
}

// Whether a command ended as it is to where a call failed.
fn is_refused(
    case: &Case,
    trial: Trial,
    files: &MemoryShelf,
    whole: &Ended,
    ended: &Ended,
) -> bool {
    let all = sent_front(&whole.link, &whole.link);
    let sent = sent_front(&whole.link, &ended.link);
    match (sent, all) {
        (Some(sent), Some(all)) => {
            may_have_sent(trial, sent, all)
                && has_texts(case.0, trial, ended)
                && has_file_fronts(files, &whole.shelf, &ended.shelf)
        }
        _ => false,
    }
}

// Refuses each call of a kind in turn, until the command gives its whole since there is no such call: how many were refused; none
// where one of the refusals is not as it is to be.
fn refused_in_turn<R: Threads + Wait + Sync>(
    rt: &R,
    alloc: Global,
    files: &MemoryShelf,
    case: &Case,
) -> Result<Option<u64>, AllocError> {
    let Case(command, object, call, _calls) = case;
    let whole = tried(rt, alloc, files, command.row, NOTHING_FAILS)?;
    for refused in 0..1000 {
        let trial = Trial {
            object: *object,
            call: *call,
            number: refused + 1,
            most: BITE,
        };
        let ended = tried(rt, alloc, files, command.row, trial)?;
        if is_whole(*command, &ended) {
            return Ok(Some(refused));
        }
        if !is_refused(case, trial, files, &whole, &ended) {
            return Ok(None);
        }
    }
    Ok(None)
}

#[test]
fn each_call_is_refused_in_turn(rt: HostRuntime) -> Result<(), AllocError> {
    let files = filled(&rt, rt.alloc())?;
    for case in &CASES {
        let refused = refused_in_turn(&rt, rt.alloc(), &files, case)?;
        assert!(rt;
            refused.is_some_and(|refused| case.3.are(refused)),
            "{refused:?} calls of {:?} of {}",
            case.2,
            case.0.row
        );
    }
    Ok(())
}
