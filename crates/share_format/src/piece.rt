//! A piece of a file in memory: bytes that were read ahead of their use.
//! It is read anew by one read of the shelf, however few bytes that gives, when all of it is used up.

ghost use Rattle.std.specs.Prelude.{◌≡◌, ◌≢◌, ◌+◌, ◌-◌, ◌<◌, ◌≤◌, ◌^◌, ℕ, List, [], Ok, length, take, drop, min, IfOk, OnOk};
ghost use Rattle.shelf_io.specs.Faults.{HasCause};
ghost use Rattle.shelf_io.specs.Files.{IsThere, IfThere};
ghost use Rattle.share_format.specs.Pieces.{none_at, IsHeld};

use shelf_io::{Refused, Shelf};
use std::alloc::{AllocError, Global};
use std::marker::Model;

/// The bytes of a piece.
const PIECE_LEN: usize = 65_536;

/// Up to 65,536 bytes of a file that were read ahead. Contracts see those not used yet, and the offset of the first of them.
#[derive(Drop)]
pub struct Piece {
    buffer: Vec<u8>,
    filled: usize,
    used: usize,
    at: u64,
}

impl Model for Piece {
    ghost use Rattle.std.specs.Prelude.{◌≡◌, ◌≤◌, vec_len, slice_range};
    ghost use Rattle.share_format.specs.Pieces.{Held};

    ghost Value = { Held };

    ghost view = { λ p. record { at = p.at; bytes = slice_range p.buffer.items p.used p.filled } };

    ghost invariant = { λ p. (vec_len p.buffer ≡ 65536) × (p.used ≤ p.filled) × (p.filled ≤ 65536) };
}

impl Piece {
    /// A piece that holds nothing, at the start of a file. `AllocError` is want of memory for its 65,536 bytes.
    pub fn new(alloc: Global) -> Result<Piece, AllocError>
        ensures empty { IfOk result (λ piece. piece ≡ none_at 0) }
    {
        Ok(Piece {
            buffer: vec![in alloc; 0; PIECE_LEN]?,
            filled: 0,
            used: 0,
            at: 0,
        })
    }

    /// Goes to an offset of the file. What is held stays where it stands there, and is dropped else.
    pub fn go_to(&mut self, at: u64)
        ensures place { self.new.at ≡ at }
        ensures held { (bytes : List ℕ) → IsHeld bytes self.old → IsHeld bytes self.new }
    {
        if self.at != at {
            self.at = at;
            self.filled = 0;
            self.used = 0;
        }
    }

    /// Where nothing is held, reads a piece from its offset on. Nothing is held afterwards only where the file has no byte there.
    fn read_ahead<H: Shelf>(&mut self, shelf: &mut H, name: &str) -> Result<(), Refused>
        requires there { IsThere (H.files shelf.old) name.now }
        requires held { IfThere (H.files shelf.old) name.now (λ bytes. IsHeld bytes self.old) }
        ensures place { self.new.at ≡ self.old.at }
        ensures held { IfThere (H.files shelf.old) name.now (λ bytes. IsHeld bytes self.new) }
        ensures end { IfThere (H.files shelf.old) name.now (λ bytes. OnOk result (self.new.bytes ≡ [] → length bytes ≤ self.old.at)) }
        ensures kept { H.files shelf.new ≡ H.files shelf.old }
        ensures cause { HasCause (H.faults shelf.old) (H.faults shelf.new) result }
        ensures no_memory { result ≢ Err Refused.Memory }
    {
        if self.used < self.filled {
            return Ok(());
        }
        self.filled = 0;
        self.used = 0;
        self.filled = shelf.read(name, self.at, &mut self.buffer)?;
        Ok(())
    }

    /// Moves the first bytes held to the front of `into`, and tells how many: all, or as many as there is room for. The rest of
    /// `into` stays.
    fn give(&mut self, into: &mut [u8]) -> usize
        requires fits { self.old.at + length into.old < 2 ^ 64 }
        ensures count { result ≡ min (length self.old.bytes) (length into.old) }
        ensures rest { drop result into.new ≡ drop result into.old }
        ensures bytes { take result into.new ≡ take result self.old.bytes }
        ensures place { self.new.at ≡ self.old.at + result }
        ensures left { self.new.bytes ≡ drop result self.old.bytes }
    {
        let n = (self.filled - self.used).min(into.len());
        into[..n].copy_from_slice(&self.buffer[self.used..self.used + n]);
        self.at += n as u64;
        self.used += n;
        n
    }

    /// Copies the next bytes of the file to the front of `into`, and tells how many: as `Shelf::read` does from the piece's
    /// offset, which goes on by so many bytes. After a refusal what is held is still of the file.
    pub fn read<H: Shelf>(
        &mut self,
        shelf: &mut H,
        name: &str,
        into: &mut [u8],
    ) -> Result<usize, Refused>
        requires there { IsThere (H.files shelf.old) name.now }
        requires held { IfThere (H.files shelf.old) name.now (λ bytes. IsHeld bytes self.old) }
        requires fits { self.old.at + length into.old < 2 ^ 64 }
        ensures within { IfOk result (λ n. n ≤ length into.old) }
        ensures rest { IfOk result (λ n. drop n into.new ≡ drop n into.old) }
        ensures place { IfOk result (λ n. self.new.at ≡ self.old.at + n) }
        ensures bytes { IfThere (H.files shelf.old) name.now (λ bytes.
            IfOk result (λ n. (n ≤ length bytes - self.old.at) × (take n into.new ≡ take n (drop self.old.at bytes)))) }
        ensures end { IfThere (H.files shelf.old) name.now (λ bytes. result ≡ Ok 0 → 0 < length into.old → length bytes ≤ self.old.at) }
        ensures held { IfThere (H.files shelf.old) name.now (λ bytes. IsHeld bytes self.new) }
        ensures kept { H.files shelf.new ≡ H.files shelf.old }
        ensures cause { HasCause (H.faults shelf.old) (H.faults shelf.new) result }
        ensures no_memory { result ≢ Err Refused.Memory }
    {
        self.read_ahead(shelf, name)?;
        Ok(self.give(into))
    }
}
