//! Where a request's bytes come from.
ghost use Rattle.std.specs.Prelude.{◌≡◌, ℕ, ◌-◌, ◌^◌, ◌<◌, List, Option, None};
ghost use Rattle.std.specs.Io.{ReadsAtMost};
ghost use Rattle.std.specs.Io.KnownBytes.{ReadConsumes};
ghost use Rattle.gr_http.specs.Reads.{TakesBytes};
ghost use Rattle.gr_http.specs.Streams.{CountsFailure};
ghost use Rattle.gr_http.specs.Input.{reader_of, read_failures};

use crate::streams::Failed;
use std::io::Read;

/// Bytes that come from a client, with a count of the reads that failed.
pub trait Input {
    /// The bytes to come up to the end, None where the type does not say.
    ghost coming: { Self → Option (List ℕ) };

    /// How many reads failed so far.
    ghost failed: { Self → ℕ };

    /// What each call of `take` brought so far, the first one first, and nothing for the end of the
    /// input and for a failure; None where the type does not say.
    ghost taken: { Self → Option (List (List ℕ)) } = { λ _. None };

    /// How many calls of `take` answered `Failed` so far.
    fn failures(&self) -> u64
        ensures { result ≡ failed self.now };

    /// Makes one read into the front of `buffer`, and answers how many bytes it read: 0 only at the
    /// end of the input or for an empty buffer. `Failed` takes nothing from the input and adds 1 to
    /// its failures, which are below the greatest `u64` before the call.
    fn take(&mut self, buffer: &mut [u8]) -> Result<usize, Failed>
        requires { failed self.old < 2 ^ 64 - 1 }
        ensures within { ReadsAtMost result buffer.new }
        ensures bytes { ReadConsumes (coming self.old) (coming self.new) result buffer.new }
        ensures taken { TakesBytes (taken self.old) (taken self.new) result buffer.new }
        ensures failures { CountsFailure (failed self.old) (failed self.new) result };
}

/// An input over any reader.
#[derive(Drop)]
pub struct FromRead<R> {
    reader: R,
    failures: u64,
}

impl<R> FromRead<R> {
    /// An input that reads from `reader`, with no failure so far.
    pub fn new(reader: R) -> Self
        ensures reader { reader_of result ≡ reader }
        ensures failures { read_failures result ≡ 0 }
    {
        FromRead {
            reader,
            failures: 0,
        }
    }

    /// The reader, as the last read left it.
    pub fn into_inner(self) -> R
        ensures { result ≡ reader_of self }
    {
        let FromRead {
            reader,
            failures: _,
        } = self;
        reader
    }
}

/// The bytes to come are those that the reader has left. An error of any kind is a failure,
/// `Interrupted` too, and no read is tried again.
impl<R: Read + Drop> Input for FromRead<R> {
    ghost coming = { λ input. R.remaining input.reader };

    ghost failed = { λ input. input.failures };

    fn failures(&self) -> u64 {
        self.failures
    }

    fn take(&mut self, buffer: &mut [u8]) -> Result<usize, Failed> {
        match self.reader.read(buffer) {
            Ok(count) => Ok(count),
            Err(_) => {
                self.failures += 1;
                Err(Failed)
            }
        }
    }
}

/// What is to come of an input over a reader is what the reader has left.
pub fn comes_from_the_reader<R: Read + Drop>(input: &FromRead<R>)
    ensures { ⟦<FromRead<R> as Input>⟧.coming input.now ≡ R.remaining (reader_of input.now) }
{}
