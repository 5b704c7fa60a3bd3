//! The system's files as a shelf.
//! It tells nothing: what the system gives and takes is no part of any contract.

ghost use Rattle.std.specs.Prelude.{◌≡◌, ◌≤◌, None, length};

use crate::refused::Refused;
use crate::shelf::Shelf;
use crate::system_fault::failed;
use std::fs;
use std::io::{ErrorKind, Read, Seek, SeekFrom, Write};
use std::marker::Model;
use std::rt::Files;

/// The system's files, each named by its path. It tells nothing of their content; contracts see the count of faults alone,
/// which is raised at each error of the system and stops at 2^64 - 1. That there is no such file is an error of the system
/// for `read` and `append`, and the None of `length`.
#[derive(Drop)]
pub struct FileShelf<'r, R: Files> {
    rt: &'r R,
    faults: u64,
}

impl<'r, R: Files> Model for FileShelf<'r, R> {
    ghost use Rattle.std.specs.Prelude.{ℕ};

    ghost Value = { ℕ };

    ghost view = { λ a. a.faults };
}

impl<'r, R: Files> FileShelf<'r, R> {
    /// A shelf that has not failed. It takes no memory.
    pub fn new(rt: &'r R) -> FileShelf<'r, R>
        ensures none { result ≡ 0 }
    {
        FileShelf { rt, faults: 0 }
    }
}

/// Writes all of the bytes, and tells whether it could.
fn write_through<W: Write>(writer: &mut W, bytes: &[u8]) -> bool {
    let mut done = 0;
    while done < bytes.len() {
        match writer.write(&bytes[done..]) {
            Ok(0) | Err(_) => return false,
            Ok(n) => done += n,
        }
    }
    true
}

impl<'r, R: Files> Shelf for FileShelf<'r, R> {
    ghost files = { λ _. None };

    ghost faults = { λ shelf. shelf };

    fn length(&mut self, name: &str) -> Result<Option<u64>, Refused> {
        match fs::metadata(self.rt, name) {
            Ok(found) => Ok(Some(found.len())),
            Err(error) if error.kind() == ErrorKind::NotFound => Ok(None),
            Err(_) => Err(failed(&mut self.faults)),
        }
    }

    fn read(&mut self, name: &str, from: u64, into: &mut [u8]) -> Result<usize, Refused> {
        let Ok(mut file) = fs::open(self.rt, name) else {
            return Err(failed(&mut self.faults));
        };
        if file.seek(SeekFrom::Start(from)).is_err() {
            return Err(failed(&mut self.faults));
        }
        let mut piece = [0; 4096];
        let size = into.len().min(4096);
        let Ok(n) = file.read(&mut piece[..size]) else {
            return Err(failed(&mut self.faults));
        };
        into[..n].copy_from_slice(&piece[..n]);
        Ok(n)
    }

    fn begin(&mut self, name: &str) -> Result<(), Refused> {
        match fs::create(self.rt, name) {
            Ok(_) => Ok(()),
            Err(_) => Err(failed(&mut self.faults)),
        }
    }

    fn append(&mut self, name: &str, bytes: &[u8]) -> Result<(), Refused> {
        let Ok(mut file) = fs::OpenOptions::new().append(true).open(self.rt, name) else {
            return Err(failed(&mut self.faults));
        };
        if !write_through(&mut file, bytes) {
            return Err(failed(&mut self.faults));
        }
        Ok(())
    }
}
