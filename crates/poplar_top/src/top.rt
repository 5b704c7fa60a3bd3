//! The top calls: each command from its words to its status.
//! What is written and which status may stand is said by the outcome of the words and the told files.

ghost use Rattle.std.specs.Prelude.{map};
ghost use Rattle.std.specs.String.{string_bytes};
ghost use Rattle.shelf_io.specs.Seen.{LinkSeen, ShelfSeen, SinkSeen, outside, outside_but_link, shelf_and_err};
ghost use Rattle.poplar_top.specs.FindLinks.{outside_but_shelf};
ghost use Rattle.poplar_top.specs.Commands.{generates, runs, finds, makes, evaluates};
ghost use Rattle.poplar_top.specs.Keeps.{KeepsOf, Keeps};

use crate::find::{find_rules, make_rules, stop_of_find};
use crate::run::stop_of_run;
use crate::stop::{stop_of_eval, stop_of_gen};
use crate::telling::{tell_stop, tell_unread, write_texts};
use command_words::{is_command, read_eval, read_find, read_gen, read_make, read_run};
use file_eval::eval_texts;
use file_find::{find_strings, make_walk};
use file_gen::make_files;
use file_run::{RunRules, run_files};
use pair_files::PairSettings;
use shelf_io::{Gate, Link, Shelf, Sink};
use std::alloc::Global;
use std::sync::Wait;
use std::thread::Threads;

/// `eval SIDE PREFIX FILE`, the command first: the value of each report of a side's share file at a prefix, one line each on out,
/// and a line on err for each malformed record. The statuses: 0, the whole answer was written; 2, the words give no settings; 3,
/// the file is not there, too long, with a wrong header or cut; 4, the prefix is longer than the strings; 6, the shelf's count of
/// faults rose; 8, want of memory; 10, the count of out or err rose. Out gets its text before err gets its lines. The content of
/// the shelf stays.
///
/// The promise is `KeepsOf evaluates`, with any link, which stays as it was.
pub fn eval_file<H: Shelf, K: Sink, E: Sink>(
    alloc: Global,
    words: &[String],
    shelf: &mut H,
    out: &mut K,
    err: &mut E,
) -> u8
    ensures { (link : LinkSeen) → KeepsOf evaluates (map string_bytes words.now)
        (outside_but_link H.Shelf K.Sink E.Sink shelf.old out.old err.old link)
        (outside_but_link H.Shelf K.Sink E.Sink shelf.new out.new err.new link) result }
{
    let asked = match read_eval(alloc, words) {
        Ok(asked) => asked,
        Err(error) => return tell_unread(err, error),
    };
    match eval_texts(alloc, asked.side, &asked.prefix, asked.file, shelf) {
        Ok(written) => write_texts(out, err, &written.out, &written.err),
        Err(error) => tell_stop(alloc, err, stop_of_eval(error, asked.side)),
    }
}

/// `gen`, the command first: both share files of the strings of a file. OUT0 gets side 0's shares and OUT1 side 1's, line after
/// line. The statuses: 0, both files are written whole; 2, the words give no settings; 6, the shelf's count of faults rose; 8,
/// want of memory; 11, the strings file is not there, too long, with too many lines, or with a line that is too long or has a
/// zero byte. On 6 and 8 each of the two names is as before or holds a front of its file; all other names stay always. A line on
/// err that cannot be written is dropped.
///
/// The promise is `KeepsOf generates`, with any out and any link, which stay as they were.
pub fn gen_files<H: Shelf, E: Sink>(
    alloc: Global,
    words: &[String],
    shelf: &mut H,
    err: &mut E,
) -> u8
    ensures { (out : SinkSeen) (link : LinkSeen) → KeepsOf generates (map string_bytes words.now)
        (shelf_and_err H.Shelf E.Sink shelf.old err.old out link)
        (shelf_and_err H.Shelf E.Sink shelf.new err.new out link) result }
{
    let asked = match read_gen(alloc, words) {
        Ok(asked) => asked,
        Err(error) => return tell_unread(err, error),
    };
    let settings = PairSettings {
        width: asked.width,
        master: asked.master,
        tag: asked.tag,
    };
    match make_files(
        alloc,
        asked.strings,
        asked.zero,
        asked.one,
        &settings,
        shelf,
    ) {
        Ok(()) => 0,
        Err(error) => tell_stop(alloc, err, stop_of_gen(error)),
    }
}

// `run`, the command first: the frequent strings of two share files, by a walk over the link.
fn run_command<R: Threads + Wait + Sync, H: Shelf, K: Sink, E: Sink, L: Link, G: Gate>(
    rt: &R,
    alloc: Global,
    words: &[String],
    shelf: &mut H,
    out: &mut K,
    err: &mut E,
    link: &mut L,
    gate: &G,
) -> u8
    ensures { KeepsOf runs (map string_bytes words.now)
        (outside H.Shelf K.Sink E.Sink L.Link shelf.old out.old err.old link.old)
        (outside H.Shelf K.Sink E.Sink L.Link shelf.new out.new err.new link.new) result }
{
    let asked = match read_run(alloc, words) {
        Ok(asked) => asked,
        Err(error) => return tell_unread(err, error),
    };
    let rules = RunRules {
        threshold: asked.threshold,
        workers: asked.options.workers,
        uploaders: asked.options.uploaders,
        cap: asked.options.cap,
        cache: asked.options.cache,
        verify: asked.options.verify,
        drill: asked.options.drill,
    };
    match run_files(rt, alloc, asked.zero, asked.one, &rules, shelf, link, gate) {
        Ok(texts) => write_texts(out, err, &texts.out, &texts.err),
        Err(error) => tell_stop(alloc, err, stop_of_run(error)),
    }
}

// `find`, the command first: the frequent strings of a strings file, by a walk over the link.
fn find_command<R: Threads + Wait + Sync, H: Shelf, K: Sink, E: Sink, L: Link, G: Gate>(
    rt: &R,
    alloc: Global,
    words: &[String],
    shelf: &mut H,
    out: &mut K,
    err: &mut E,
    link: &mut L,
    gate: &G,
) -> u8
    ensures { KeepsOf finds (map string_bytes words.now)
        (outside H.Shelf K.Sink E.Sink L.Link shelf.old out.old err.old link.old)
        (outside H.Shelf K.Sink E.Sink L.Link shelf.new out.new err.new link.new) result }
{
    let asked = match read_find(alloc, words) {
        Ok(asked) => asked,
        Err(error) => return tell_unread(err, error),
    };
    let rules = find_rules(&asked);
    match find_strings(rt, alloc, asked.strings, &rules, shelf, link, gate) {
        Ok(texts) => write_texts(out, err, &texts.out, &texts.err),
        Err(error) => tell_stop(alloc, err, stop_of_find(error)),
    }
}

// `make`, the command first: how many strings of the workload are frequent, by a walk over the link. The shelf is not given.
fn make_command<R: Threads + Wait + Sync, K: Sink, E: Sink, L: Link, G: Gate>(
    rt: &R,
    alloc: Global,
    words: &[String],
    out: &mut K,
    err: &mut E,
    link: &mut L,
    gate: &G,
) -> u8
    ensures { (shelf : ShelfSeen) → KeepsOf makes (map string_bytes words.now)
        (outside_but_shelf K.Sink E.Sink L.Link shelf out.old err.old link.old)
        (outside_but_shelf K.Sink E.Sink L.Link shelf out.new err.new link.new) result }
{
    let asked = match read_make(alloc, words) {
        Ok(asked) => asked,
        Err(error) => return tell_unread(err, error),
    };
    let rules = make_rules(&asked);
    match make_walk(rt, alloc, asked.reports, &rules, link, gate) {
        Ok(texts) => write_texts(out, err, &texts.out, &texts.err),
        Err(error) => tell_stop(alloc, err, stop_of_find(error)),
    }
}

/// The program: the words behind its name, a shelf for its files, sinks for its output and its lines, and the link and the gate
/// that a walk uses. The first word is the command: `eval`, `gen` or `run`; every other is usage.
///
/// `run --threshold N [--uploaders N] [--cap N] [--verify SEED] FILE0 FILE1` reads side 0's share file whole, then side 1's, and
/// walks the reports that both hold without clash over the link: out gets the frequent strings with their counts, ascending, and
/// err a line for each malformed record and one for the end of the walk. The statuses of `run`, in the order of their causes: 2,
/// the words give no settings; 3, a share file is not there, too long, with a wrong header or cut, side 1's only where side 0's
/// is whole; 4, the widths differ; 5, a level has more candidates than the cap; 9, what a side received is not the expected
/// message, or the two sides' sums differ; 0, the answer is written whole; 6, 7 and 10, the count of faults of the shelf, of the
/// link, or of out or err rose; 8, want of memory. The statuses of `eval` and `gen` are those of `eval_file` and `gen_files`.
///
/// The promise is `Keeps`, between what the shelf, the sinks and the link told before and after. How a walk ends is told by what
/// both sides received in the call: the status, out, err and the shelf are those of that (`heard`). Out gets its text before err
/// gets its lines (`order` of `heard`). The link passes just the walk's messages, and none where the words, the files or the
/// widths are refused (`sends`); only `gen` changes the shelf (`kept`); no count falls (`later`). On a link that was true and
/// idle the walk's end is that of the definition (`truly`), 9 never comes, whatever the shelf tells (`agreed`), and generated
/// reports give exactly the strings that at least the threshold of them hold, with their counts (`finds`).
pub fn poplar<R: Threads + Wait + Sync, H: Shelf, K: Sink, E: Sink, L: Link, G: Gate>(
    rt: &R,
    alloc: Global,
    words: &[String],
    shelf: &mut H,
    out: &mut K,
    err: &mut E,
    link: &mut L,
    gate: &G,
) -> u8
    ensures { Keeps (map string_bytes words.now)
        (outside H.Shelf K.Sink E.Sink L.Link shelf.old out.old err.old link.old)
        (outside H.Shelf K.Sink E.Sink L.Link shelf.new out.new err.new link.new) result }
{
    if is_command(words, "gen") {
        gen_files(alloc, words, shelf, err)
    } else if is_command(words, "run") {
        run_command(rt, alloc, words, shelf, out, err, link, gate)
    } else if is_command(words, "find") {
        find_command(rt, alloc, words, shelf, out, err, link, gate)
    } else if is_command(words, "make") {
        make_command(rt, alloc, words, out, err, link, gate)
    } else {
        eval_file(alloc, words, shelf, out, err)
    }
}
