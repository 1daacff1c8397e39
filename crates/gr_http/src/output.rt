//! Where a response's bytes go.
ghost use Rattle.std.specs.Prelude.{◌≡◌, ℕ, ◌-◌, ◌^◌, ◌<◌, List, [], Option, IfOk, OnOk, OnErr};
ghost use Rattle.std.specs.Io.{WritesAtMost};
ghost use Rattle.std.specs.Io.KnownBytes.{WriteAppends, Appends};
ghost use Rattle.gr_http.specs.Streams.{CountsFailure, AppendsBeginning};
ghost use Rattle.gr_http.specs.Output.{writer_of, write_failures};

use crate::streams::Failed;
use std::io::Write;

/// Bytes that go to a client, with a count of the writes that failed.
pub trait Output {
    /// The bytes written so far, None where the type does not say.
    ghost written: { Self → Option (List ℕ) };

    /// How many writes failed so far.
    ghost failed: { Self → ℕ };

    /// How many calls of `put` answered `Failed` so far.
    fn failures(&self) -> u64
        ensures { result ≡ failed self.now };

    /// Makes one write from the front of `bytes`, and answers how many of them it wrote: 0 only for
    /// an empty slice. `Failed` writes nothing and adds 1 to the failures, which are below the
    /// greatest `u64` before the call.
    fn put(&mut self, bytes: &[u8]) -> Result<usize, Failed>
        requires { failed self.old < 2 ^ 64 - 1 }
        ensures within { WritesAtMost result bytes.now }
        ensures some { IfOk result (λ count. count ≡ 0 → bytes.now ≡ []) }
        ensures bytes { WriteAppends (written self.old) (written self.new) result bytes.now }
        ensures failures { CountsFailure (failed self.old) (failed self.new) result };
}

/// An output over any writer.
#[derive(Drop)]
pub struct ToWrite<W> {
    writer: W,
    failures: u64,
}

impl<W> ToWrite<W> {
    /// An output that writes to `writer`, with no failure so far.
    pub fn new(writer: W) -> Self
        ensures writer { writer_of result ≡ writer }
        ensures failures { write_failures result ≡ 0 }
    {
        ToWrite {
            writer,
            failures: 0,
        }
    }

    /// The writer, as the last write left it. Nothing is flushed.
    pub fn into_inner(self) -> W
        ensures { result ≡ writer_of self }
    {
        let ToWrite {
            writer,
            failures: _,
        } = self;
        writer
    }
}

/// The bytes written are those that the writer holds. An error of any kind is a failure, and so are
/// 0 bytes taken of a slice that is not empty. No write is tried again.
impl<W: Write> Output for ToWrite<W> {
    ghost written = { λ output. W.contents output.writer };

    ghost failed = { λ output. output.failures };

    fn failures(&self) -> u64 {
        self.failures
    }

    fn put(&mut self, bytes: &[u8]) -> Result<usize, Failed> {
        match self.writer.write(bytes) {
            Ok(count) if count > 0 || bytes.is_empty() => Ok(count),
            _ => {
                self.failures += 1;
                Err(Failed)
            }
        }
    }
}

/// What was written to an output over a writer is what the writer contains.
pub fn is_written_to_the_writer<W: Write>(output: &ToWrite<W>)
    ensures { ⟦<ToWrite<W> as Output>⟧.written output.now ≡ W.contents (writer_of output.now) }
{}

/// Writes all the bytes, in as many writes as it takes. Nothing is flushed.
///
/// `Failed`: a write failed and the rest was not tried. A beginning of the bytes, but not all of
/// them, was written, and the output's failures rose by 1. They are below the greatest `u64` before
/// the call.
pub fn write_all<O: Output>(output: &mut O, bytes: &[u8]) -> Result<(), Failed>
    requires { O.failed output.old < 2 ^ 64 - 1 }
    ensures all { OnOk result (Appends (O.written output.old) (O.written output.new) bytes.now) }
    ensures beginning { OnErr result
        (AppendsBeginning (O.written output.old) (O.written output.new) bytes.now) }
    ensures failures { CountsFailure (O.failed output.old) (O.failed output.new) result }
{
    let mut done = 0;
    while done < bytes.len() {
        done += output.put(&bytes[done..])?;
    }
    Ok(())
}
