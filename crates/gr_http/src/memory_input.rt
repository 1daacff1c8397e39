//! Bytes of a client in memory.
ghost use Rattle.std.specs.Prelude.{◌≡◌, Some, [], ◌++◌, map, replicate, IfOk};

use crate::input::Input;
use crate::streams::Failed;
use std::alloc::{AllocError, Global};

/// An input whose bytes stand in memory. It keeps what each of its reads brought, in room that was
/// made for so many reads. Once that is used up, each further read fails.
#[derive(Drop)]
pub struct MemoryInput<'a> {
    left: &'a [u8],
    pieces: Vec<&'a [u8]>,
    failures: u64,
}

impl<'a> MemoryInput<'a> {
    /// An input of these bytes, which may be read so many times.
    ///
    /// [`AllocError`]: there was no memory for the room.
    pub fn new(alloc: Global, bytes: &'a [u8], reads: usize) -> Result<Self, AllocError>
        ensures coming { IfOk result (λ input.
            ⟦<MemoryInput<'a> as Input>⟧.coming input ≡ Some bytes.now) }
        ensures taken { IfOk result (λ input. ⟦<MemoryInput<'a> as Input>⟧.taken input ≡ Some []) }
        ensures failed { IfOk result (λ input. ⟦<MemoryInput<'a> as Input>⟧.failed input ≡ 0) }
    {
        Ok(MemoryInput {
            left: bytes,
            pieces: Vec::with_capacity(alloc, reads)?,
            failures: 0,
        })
    }

    /// What each read that did not fail brought, the first one first. The failed ones are after
    /// these, and brought nothing.
    pub fn pieces(&self) -> &[&'a [u8]]
        ensures { ⟦<MemoryInput<'a> as Input>⟧.taken self.now
            ≡ Some (map (λ piece. piece.now) result.now
            ++ replicate (⟦<MemoryInput<'a> as Input>⟧.failed self.now) []) }
    {
        self.pieces.as_slice()
    }

    /// The same, kept.
    pub fn into_pieces(self) -> Vec<&'a [u8]>
        ensures { ⟦<MemoryInput<'a> as Input>⟧.taken self.entry
            ≡ Some (map (λ piece. piece.now) result.items
            ++ replicate (⟦<MemoryInput<'a> as Input>⟧.failed self.entry) []) }
    {
        let MemoryInput {
            left: _,
            pieces,
            failures: _,
        } = self;
        pieces
    }
}

/// A read brings as much as there is, or as the buffer takes.
impl<'a> Input for MemoryInput<'a> {
    ghost use Rattle.std.specs.Prelude.{Some, [], ◌++◌, map, replicate};

    ghost coming = { λ input. Some input.left.now };

    ghost failed = { λ input. input.failures };

    ghost taken = { λ input.
        Some (map (λ piece. piece.now) input.pieces.items ++ replicate input.failures []) };

    fn failures(&self) -> u64 {
        self.failures
    }

    fn take(&mut self, buffer: &mut [u8]) -> Result<usize, Failed> {
        if self.failures > 0 || self.pieces.len() == self.pieces.capacity() {
            self.failures += 1;
            return Err(Failed);
        }
        let count = self.left.len().min(buffer.len());
        let (piece, left) = self.left.split_at(count);
        buffer[..count].copy_from_slice(piece);
        self.pieces.push_reserved(piece);
        self.left = left;
        Ok(count)
    }
}
