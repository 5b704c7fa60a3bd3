//! Named files in memory.
//! They never fail, and refuse only for want of memory.

ghost use Rattle.std.specs.Prelude.{◌≡◌, Some, IfOk};
ghost use Rattle.std.specs.Option.{option_map};
ghost use Rattle.std.specs.FinMap as map;
ghost use Rattle.shelf_io.specs.Files.{Files, with_bytes};

use crate::entries::{Entry, append_in, begin_in, bytes_under, copy_from};
use crate::refused::Refused;
use crate::shelf::Shelf;
use std::alloc::{AllocError, Global};
use std::marker::Model;

/// Named files in memory, which never fail: the count of faults is always 0. Contracts see the map from names to bytes.
#[derive(Drop)]
pub struct FirmShelf {
    alloc: Global,
    files: Vec<Entry>,
}

impl Model for FirmShelf {
    ghost use Rattle.std.specs.Coded.{coded_ℕ, coded_list};
    ghost use Rattle.std.specs.FinMap as map;
    ghost use Rattle.shelf_io.specs.Files.{Files};

    ghost Value = { Files };

    ghost coded = { map.code (coded_list coded_ℕ) (coded_list coded_ℕ) };

    ghost use Rattle.shelf_io.specs.Entries.{files_of};

    ghost view = { λ a. files_of a.files.items };
}

impl FirmShelf {
    /// A shelf with no name. It takes no memory.
    pub fn new(alloc: Global) -> FirmShelf
        ensures empty { result ≡ map.empty }
    {
        FirmShelf {
            alloc,
            files: Vec::new(alloc),
        }
    }

    /// The shelf, where the name now holds these bytes; all other names stay. After `AllocError` the shelf is given up.
    pub fn with(self, name: &str, bytes: &[u8]) -> Result<FirmShelf, AllocError>
        ensures holds { IfOk result (λ shelf. shelf ≡ with_bytes name.now bytes.now self) }
    {
        let FirmShelf { alloc, mut files } = self;
        begin_in(alloc, &mut files, name)?;
        append_in(&mut files, name, bytes)?;
        Ok(FirmShelf { alloc, files })
    }

    /// The bytes under a name, and None exactly where it is not there.
    pub fn file(&self, name: &str) -> Option<&[u8]>
        ensures bytes { option_map (λ bytes. bytes.now) result ≡ map.get self.now name.now }
    {
        bytes_under(&self.files, name)
    }
}

impl Shelf for FirmShelf {
    ghost files = { λ shelf. Some shelf };

    ghost faults = { λ _. 0 };

    fn length(&mut self, name: &str) -> Result<Option<u64>, Refused> {
        match bytes_under(&self.files, name) {
            Some(bytes) => Ok(Some(bytes.len() as u64)),
            None => Ok(None),
        }
    }

    fn read(&mut self, name: &str, from: u64, into: &mut [u8]) -> Result<usize, Refused> {
        let Some(bytes) = bytes_under(&self.files, name) else {
            unreachable!()
        };
        Ok(copy_from(bytes, from, into))
    }

    fn begin(&mut self, name: &str) -> Result<(), Refused> {
        begin_in(self.alloc, &mut self.files, name)?;
        Ok(())
    }

    fn append(&mut self, name: &str, bytes: &[u8]) -> Result<(), Refused> {
        append_in(&mut self.files, name, bytes)?;
        Ok(())
    }
}
