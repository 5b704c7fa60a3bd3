//! Lines on the error sink, and the texts of both sinks.
//! A refusal of a line's write is dropped; a refusal of a text's write becomes the status.

ghost use Rattle.std.specs.Prelude.{◌≡◌, ◌≤◌, ◌⊎◌, ◌++◌, ℕ, take};
ghost use Rattle.shelf_io.specs.Faults.{Rose};
ghost use Rattle.shelf_io.specs.Seen.{sink_seen};
ghost use Rattle.shelf_io.specs.Texts.{Grew, GrewWithin};
ghost use Rattle.poplar_top.specs.Refusals.{line_of};
ghost use Rattle.poplar_top.specs.Outcomes.Outcome.{texts};
ghost use Rattle.poplar_top.specs.Statuses.{Prints, ErrGets, OutFirst, fault_line};
ghost use Rattle.poplar_top.specs.Stops.{stop_status, stop_line, sink_status, words_status};

use crate::refusal::{Refusal, line, status};
use crate::stop::Stop;
use command_words::WordsError;
use shelf_io::{Refused, Sink, write_all};
use std::alloc::Global;

/// The line that is told where the words give no settings.
const USAGE: &[u8; 50] = b"usage: poplar eval, gen, run, find, make, upgrade\n";

// Tells a line, and drops a refusal of that.
fn tell<E: Sink>(err: &mut E, line: &[u8])
    ensures line { GrewWithin (E.taken err.old) (E.taken err.new) line.now }
    ensures later { E.faults err.old ≤ E.faults err.new }
{
    let _ = write_all(err, line);
}

// Tells the line of a refusal, where it finds memory.
fn tell_refusal<E: Sink>(alloc: Global, err: &mut E, refusal: Refusal)
    ensures line { GrewWithin (E.taken err.old) (E.taken err.new) (line_of refusal) }
    ensures later { E.faults err.old ≤ E.faults err.new }
{
    if let Ok(line) = line(alloc, refusal) {
        tell(err, line.as_bytes());
    }
}

/// Tells why there is no text, and gives the status.
pub(crate) fn tell_stop<E: Sink>(alloc: Global, err: &mut E, stop: Stop) -> u8
    ensures status { result ≡ stop_status stop }
    ensures line { GrewWithin (E.taken err.old) (E.taken err.new) (stop_line stop) }
    ensures later { E.faults err.old ≤ E.faults err.new }
{
    match stop {
        Stop::Refusal(refusal) => {
            tell_refusal(alloc, err, refusal);
            status(refusal)
        }
        Stop::Shelf => {
            tell(err, b"shelf fault\n");
            6
        }
        Stop::Link => {
            tell(err, b"link fault\n");
            7
        }
        Stop::Memory => {
            tell(err, b"want of memory\n");
            8
        }
    }
}

/// Tells that the words give no settings, or that memory was wanting for them, and gives the status.
pub(crate) fn tell_unread<E: Sink>(err: &mut E, error: WordsError) -> u8
    ensures status { result ≡ words_status error }
    ensures line { GrewWithin (E.taken err.old) (E.taken err.new) (fault_line result) }
    ensures later { E.faults err.old ≤ E.faults err.new }
{
    match error {
        WordsError::Usage => {
            tell(err, USAGE);
            2
        }
        WordsError::Memory => {
            tell(err, b"want of memory\n");
            8
        }
    }
}

// Tells that a sink gave up, and gives the status.
fn tell_sink<E: Sink>(err: &mut E, refused: Refused) -> u8
    ensures status { result ≡ sink_status refused }
    ensures line { GrewWithin (E.taken err.old) (E.taken err.new) (fault_line result) }
    ensures later { E.faults err.old ≤ E.faults err.new }
{
    match refused {
        Refused::Failed => {
            tell(err, b"sink fault\n");
            10
        }
        Refused::Memory => {
            tell(err, b"want of memory\n");
            8
        }
    }
}

/// Writes the text of out and then that of err, and gives the status.
pub(crate) fn write_texts<K: Sink, E: Sink>(
    out: &mut K,
    err: &mut E,
    text: &[u8],
    lines: &[u8],
) -> u8
    ensures status { (result ≡ 0)
        ⊎ (((result ≡ 10) × (Rose (K.faults out.old) (K.faults out.new) ⊎ Rose (E.faults err.old) (E.faults err.new))) ⊎ (result ≡ 8)) }
    ensures out { Prints (K.taken out.old) (K.taken out.new) text.now result }
    ensures err { ErrGets (texts text.now lines.now) result (E.taken err.old) (E.taken err.new) }
    ensures order { OutFirst (texts text.now lines.now) result
        (sink_seen K.Sink out.old) (sink_seen K.Sink out.new) (sink_seen E.Sink err.old) (sink_seen E.Sink err.new) }
    ensures out_later { K.faults out.old ≤ K.faults out.new }
    ensures err_later { E.faults err.old ≤ E.faults err.new }
{
    if let Err(refused) = write_all(out, text) {
        return tell_sink(err, refused);
    }
    if let Err(refused) = write_all(err, lines) {
        return tell_sink(err, refused);
    }
    0
}
