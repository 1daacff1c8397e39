//! Connections in memory.
ghost use Rattle.std.specs.Prelude.{◌≡◌, Some, [], map};
ghost use Rattle.gr_http.specs.MemoryDoor.{kept_by};

use crate::door::{Door, NotAccepted};
use crate::input::Input;
use crate::memory_input::MemoryInput;
use crate::output::{Output, ToWrite};
use std::alloc::Global;

/// How a connection in memory ended.
#[derive(Drop)]
pub struct EndedConnection<'a> {
    /// What each read of it brought that did not fail. The failed ones are after these.
    pub brought: Vec<&'a [u8]>,

    /// What it was told.
    pub told: Vec<u8>,

    /// How many of its reads failed.
    pub failed_reads: u64,

    /// How many of its writes failed.
    pub failed_writes: u64,
}

/// Connections whose bytes stand in memory, and of which it is kept there how they ended.
#[derive(Drop)]
pub struct MemoryDoor<'a> {
    alloc: Global,
    awaited: &'a [&'a [u8]],
    reads: usize,
    ended: Vec<EndedConnection<'a>>,

    /// Whether the last accept failed.
    has_refused: bool,
}

impl<'a> MemoryDoor<'a> {
    /// Connections that bring these bytes, one after the other. Of each, so many reads may be made.
    pub fn new(alloc: Global, awaited: &'a [&'a [u8]], reads: usize) -> Self
        ensures awaited { ⟦<MemoryDoor<'a> as Door>⟧.awaited result
            ≡ Some (map (λ bytes. bytes.now) awaited.now) }
        ensures ended { ⟦<MemoryDoor<'a> as Door>⟧.ended result ≡ Some [] }
    {
        MemoryDoor {
            alloc,
            awaited,
            reads,
            ended: Vec::new(alloc),
            has_refused: false,
        }
    }

    /// How the connections so far ended, the first one first.
    pub fn into_ended(self) -> Vec<EndedConnection<'a>>
        ensures { ⟦<MemoryDoor<'a> as Door>⟧.ended self.entry ≡ Some (kept_by result.items) }
    {
        let MemoryDoor {
            alloc: _,
            awaited: _,
            reads: _,
            ended,
            has_refused: _,
        } = self;
        ended
    }
}

/// None can be accepted where none is left, or where memory runs out to keep what its reads bring
/// and how it ends.
impl<'a> Door for MemoryDoor<'a> {
    type In = MemoryInput<'a>;

    type Out = ToWrite<Vec<u8>>;

    ghost use Rattle.std.specs.Prelude.{Some, ◌<◌, IsTrue, map, vec_len, vec_capacity};
    ghost use Rattle.gr_http.specs.MemoryDoor.{kept_by};

    ghost awaited = { λ door. Some (map (λ bytes. bytes.now) door.awaited.now) };

    ghost ended = { λ door. Some (kept_by door.ended.items) };

    ghost can_end = { λ door. vec_len door.ended < vec_capacity door.ended };

    ghost refuses = { λ _ door. IsTrue door.has_refused };

    fn accept(&mut self) -> Result<(Self::In, Self::Out), NotAccepted> {
        self.has_refused = true;
        if self.awaited.is_empty() || self.ended.reserve(1).is_err() {
            return Err(NotAccepted);
        }
        let Ok(input) = MemoryInput::new(self.alloc, self.awaited[0], self.reads) else {
            return Err(NotAccepted);
        };
        self.awaited = &self.awaited[1..];
        self.has_refused = false;
        let output = ToWrite::new(Vec::new(self.alloc));
        Ok((input, output))
    }

    fn end(&mut self, input: Self::In, output: Self::Out, _may_have_rest: bool) {
        let failed_reads = input.failures();
        let failed_writes = output.failures();
        self.ended.push_reserved(EndedConnection {
            brought: input.into_pieces(),
            told: output.into_inner(),
            failed_reads,
            failed_writes,
        });
    }
}
