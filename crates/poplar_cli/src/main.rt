//! The program: the system's words, files and streams, handed to the top call.
//! All that it does is said by `poplar_top::poplar`; what the system gives and takes is no part of a contract.
#![tactic(auto)]

use poplar_top::poplar;
use shelf_io::{FileShelf, FirmLink, OpenGate, StdSink};
use std::io::ErrorKind;
use std::process::ExitCode;
use std::{env, io};

/// The words behind the program's name.
fn words_of(rt: &HostRuntime) -> io::Result<Vec<String>> {
    let mut words = Vec::new(rt.alloc());
    for word in env::args(rt)?.skip(1) {
        words.push(word)?;
    }
    Ok(words)
}

/// Words that are no text are as none, which is a faulty command line; words that find no memory end with 8.
fn main(rt: HostRuntime) -> ExitCode {
    let words = match words_of(&rt) {
        Ok(words) => words,
        Err(e) if e.kind() == ErrorKind::OutOfMemory => return ExitCode::from(8),
        Err(_) => Vec::new(rt.alloc()),
    };
    let mut shelf = FileShelf::new(&rt);
    let mut out = StdSink::new(rt.stdout());
    let mut err = StdSink::new(rt.stderr());
    let mut link = FirmLink::new(rt.alloc());
    let status = poplar(
        &rt,
        rt.alloc(),
        &words,
        &mut shelf,
        &mut out,
        &mut err,
        &mut link,
        &OpenGate,
    );
    ExitCode::from(status)
}
