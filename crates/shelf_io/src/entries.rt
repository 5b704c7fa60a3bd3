//! Named files as a list of names with bytes.
//! The shelves in memory hold them so; contracts see the map of the first entries.

ghost use Rattle.std.specs.Prelude.{◌≡◌, ◌<◌, ◌≤◌, ◌-◌, [], None, length, take, drop, IsSome, IfSome, IfNone, OnOk, OnErr};
ghost use Rattle.std.specs.Option.{option_map};
ghost use Rattle.std.specs.FinMap.{get};
ghost use Rattle.shelf_io.specs.Entries.{IsPlace, files_of};
ghost use Rattle.shelf_io.specs.Files.{with_bytes, with_more};

use std::alloc::{AllocError, Global};

/// A name and its bytes.
#[derive(Drop)]
pub struct Entry {
    pub name: String,
    pub bytes: Vec<u8>,
}

/// The place of a name.
fn place_of(files: &[Entry], name: &str) -> Option<usize>
    ensures inside { IfSome result (λ i. i < length files.now) }
    ensures found { IfSome result (λ i. IsPlace files.now name.now i) }
    ensures missing { IfNone result (get (files_of files.now) name.now ≡ None) }
{
    for i in 0..files.len() {
        if files[i].name.as_str() == name {
            return Some(i);
        }
    }
    None
}

/// Lets a name hold no bytes.
pub fn begin_in(alloc: Global, files: &mut Vec<Entry>, name: &str) -> Result<(), AllocError>
    ensures begun { OnOk result (files_of files.new.items ≡ with_bytes name.now [] (files_of files.old.items)) }
    ensures refused { OnErr result (files_of files.new.items ≡ files_of files.old.items) }
{
    match place_of(files, name) {
        Some(i) => files[i].bytes.clear(),
        None => files.push(Entry {
            name: name.to_owned(alloc)?,
            bytes: Vec::new(alloc),
        })?,
    }
    Ok(())
}

/// Adds bytes behind those under a name.
pub fn append_in(files: &mut Vec<Entry>, name: &str, bytes: &[u8]) -> Result<(), AllocError>
    requires { IsSome (get (files_of files.old.items) name.now) }
    ensures appended { OnOk result (files_of files.new.items ≡ with_more name.now bytes.now (files_of files.old.items)) }
    ensures refused { OnErr result (files_of files.new.items ≡ files_of files.old.items) }
{
    let Some(i) = place_of(files, name) else {
        unreachable!()
    };
    files[i].bytes.extend_from_slice(bytes)?;
    Ok(())
}

/// The bytes under a name.
pub fn bytes_under<'a>(files: &'a [Entry], name: &str) -> Option<&'a [u8]>
    ensures { option_map (λ bytes. bytes.now) result ≡ get (files_of files.now) name.now }
{
    let i = place_of(files, name)?;
    Some(files[i].bytes.as_slice())
}

/// Copies the front of what is left from a place on, and tells how much.
pub fn copy_from(bytes: &[u8], from: u64, into: &mut [u8]) -> usize
    ensures within { result ≤ length into.old }
    ensures rest { drop result into.new ≡ drop result into.old }
    ensures bytes { (result ≤ length bytes.now - from) × (take result into.new ≡ take result (drop from bytes.now)) }
    ensures end { result ≡ 0 → 0 < length into.old → length bytes.now ≤ from }
{
    if from >= bytes.len() as u64 {
        return 0;
    }
    let left = &bytes[from as usize..];
    let n = left.len().min(into.len());
    into[..n].copy_from_slice(&left[..n]);
    n
}
