//! Streams that have their time: a read or a write that would begin after its end, or run past it,
//! fails.
ghost use Rattle.std.specs.Prelude.{◌≡◌, ◌*◌, ℕ, List, Option, None, Some, MatchOption, MatchResult};
ghost use Rattle.std.specs.Duration.{as_nanos};
ghost use Rattle.std.specs.declared.time.Duration.{Duration};
ghost use Rattle.std.specs.Io.{ReadsAtMost, WritesAtMost};
ghost use Rattle.std.specs.Io.KnownBytes.{ReadConsumes, WriteAppends};
ghost use Rattle.gr_desk.specs.Spans.{ComesNext};
ghost use Rattle.gr_desk.specs.Time.{IsLeft, IsOver, BeginsNow, Leaves, LeavesNone, IsTimed, stream_read, time_to_read, stream_written, time_to_write};

use crate::limits::{DRAIN_SECONDS, REQUEST_SECONDS, RESPONSE_SECONDS};
use crate::watch::Watch;
use std::io::{self, ErrorKind, Read, Write};
use std::net::TcpStream;
use std::time::Duration;

/// How much of a span of time is left, by a clock that never goes back.
#[derive(Drop)]
struct Deadline<W> {
    watch: W,
    span: Duration,

    /// When the span began, where it has.
    begun: Option<Duration>,
}

impl<W: Watch> Deadline<W> {
    /// A span that begins now; an empty one where the clock fails. What cannot be timed may not
    /// wait: its first read fails, the connection is lost, and the next one is served.
    fn from_now(watch: W, seconds: u64) -> Self
        ensures { BeginsNow W.gave watch result seconds }
    {
        let mut watch = watch;
        match watch.ask() {
            Ok(now) => Deadline {
                watch,
                span: Duration::from_secs(seconds),
                begun: Some(now),
            },
            Err(_) => Deadline::from_first_use(watch, 0),
        }
    }

    /// A span that begins when it is first asked what is left.
    fn from_first_use(watch: W, seconds: u64) -> Self
        ensures watch { result.watch ≡ watch }
        ensures span { as_nanos result.span ≡ seconds * 1_000_000_000 }
        ensures begun { result.begun ≡ None }
    {
        Deadline {
            watch,
            span: Duration::from_secs(seconds),
            begun: None,
        }
    }

    /// What is left of the span. Fails where nothing is, or where the clock does.
    fn left(&mut self) -> io::Result<Duration>
        ensures { MatchResult result (Leaves W.gave self.old self.new)
            (λ _. LeavesNone W.gave self.old self.new) }
    {
        let now = self.watch.ask()?;
        let begun = *self.begun.get_or_insert(now);
        match left_of(self.span, begun, now) {
            Some(left) => Ok(left),
            None => Err(io::Error::from(ErrorKind::TimedOut)),
        }
    }
}

/// What is left of a span that began then; none where it is over.
fn left_of(span: Duration, begun: Duration, now: Duration) -> Option<Duration>
    ensures { MatchOption result (IsOver span begun now) (IsLeft span begun now) }
{
    let gone = now.saturating_sub(begun);
    match span.checked_sub(gone) {
        Some(left) if !left.is_zero() => Some(left),
        _ => None,
    }
}

/// A reader of which no read is made without a limit to its wait. No contract knows which limit a
/// socket had before. So a read takes its limit with it, in one call.
pub trait ReadWithin {
    /// The bytes to come up to the end, None where the type does not say.
    ghost coming: { Self → Option (List ℕ) } = { λ _. None };

    /// How long each read might wait so far, the first one first; None where the type does not say.
    ghost spans: { Self → Option (List Duration) } = { λ _. None };

    /// Makes one read into the front of `buffer`, which fails once it has waited for `span`. That
    /// is longer than not at all.
    fn read_within(&mut self, span: Duration, buffer: &mut [u8]) -> io::Result<usize>
        ensures bound { ReadsAtMost result buffer.new }
        ensures bytes { ReadConsumes (coming self.old) (coming self.new) result buffer.new }
        ensures spans { ComesNext (spans self.old) (spans self.new) span };
}

/// A writer of which no write is made without a limit to its wait.
pub trait WriteWithin {
    /// The bytes written so far, None where the type does not say.
    ghost written: { Self → Option (List ℕ) } = { λ _. None };

    /// How long each write might wait so far, the first one first; None where the type does not
    /// say.
    ghost spans: { Self → Option (List Duration) } = { λ _. None };

    /// Makes one write from the front of `bytes`, which fails once it has waited for `span`. That
    /// is longer than not at all.
    fn write_within(&mut self, span: Duration, bytes: &[u8]) -> io::Result<usize>
        ensures bound { WritesAtMost result bytes.now }
        ensures bytes { WriteAppends (written self.old) (written self.new) result bytes.now }
        ensures spans { ComesNext (spans self.old) (spans self.new) span };
}

/// Where the system takes no limit, nothing is read.
impl ReadWithin for TcpStream {
    fn read_within(&mut self, span: Duration, buffer: &mut [u8]) -> io::Result<usize> {
        self.set_read_timeout(Some(span))?;
        self.read(buffer)
    }
}

/// Where the system takes no limit, nothing is written.
impl WriteWithin for TcpStream {
    fn write_within(&mut self, span: Duration, bytes: &[u8]) -> io::Result<usize> {
        self.set_write_timeout(Some(span))?;
        self.write(bytes)
    }
}

/// What a connection's peer sends, as long as its time lasts.
#[derive(Drop)]
pub struct TimedReader<R, W> {
    stream: R,
    deadline: Deadline<W>,
}

impl<R, W: Watch> TimedReader<R, W> {
    /// A reader for a request, whose time begins now; where the clock fails, there is none.
    pub fn of_request(stream: R, watch: W) -> Self
        ensures stream { stream_read result ≡ stream }
        ensures time { BeginsNow W.gave watch (time_to_read result) REQUEST_SECONDS }
    {
        TimedReader::within(stream, watch, REQUEST_SECONDS)
    }

    /// The same for what comes after a response to no request.
    pub fn of_rest(stream: R, watch: W) -> Self
        ensures stream { stream_read result ≡ stream }
        ensures time { BeginsNow W.gave watch (time_to_read result) DRAIN_SECONDS }
    {
        TimedReader::within(stream, watch, DRAIN_SECONDS)
    }

    /// A reader that has so many seconds from now.
    fn within(stream: R, watch: W, seconds: u64) -> Self
        ensures stream { stream_read result ≡ stream }
        ensures time { BeginsNow W.gave watch (time_to_read result) seconds }
    {
        TimedReader {
            stream,
            deadline: Deadline::from_now(watch, seconds),
        }
    }
}

impl<R, W: Drop> TimedReader<R, W> {
    /// The stream, as the last read left it.
    pub fn into_inner(self) -> R
        ensures { result ≡ stream_read self }
    {
        let TimedReader {
            stream,
            deadline: _,
        } = self;
        stream
    }
}

/// The bytes to come are those that the stream has left. So neither a failed read nor the end of
/// the time is an end of them.
impl<R: ReadWithin, W: Watch> Read for TimedReader<R, W> {
    ghost remaining = { λ reader. R.coming reader.stream };

    /// One read of the stream is made, by one look at the clock, and may wait for what is left.
    fn read(&mut self, buffer: &mut [u8]) -> io::Result<usize>
        ensures bound { ReadsAtMost result buffer.new }
        ensures bytes { ReadConsumes (R.coming (stream_read self.old))
            (R.coming (stream_read self.new)) result buffer.new }
        ensures time { IsTimed W.gave (time_to_read self.old) (time_to_read self.new)
            (R.spans (stream_read self.old)) (R.spans (stream_read self.new)) result }
    {
        let left = self.deadline.left()?;
        self.stream.read_within(left, buffer)
    }
}

/// What is to come of a reader with its time is what its stream has left.
pub fn comes_from_the_stream<R: ReadWithin, W: Watch>(reader: &TimedReader<R, W>)
    ensures { ⟦<TimedReader<R, W> as Read>⟧.remaining reader.now
        ≡ R.coming (stream_read reader.now) }
{}

/// What a connection's peer gets, as long as the time for it lasts.
#[derive(Drop)]
pub struct TimedWriter<S, W> {
    stream: S,
    deadline: Deadline<W>,
}

impl<S, W: Watch> TimedWriter<S, W> {
    /// A writer for a response, whose time begins with its first write.
    pub fn of_response(stream: S, watch: W) -> Self
        ensures stream { stream_written result ≡ stream }
        ensures watch { (time_to_write result).watch ≡ watch }
        ensures span { as_nanos (time_to_write result).span ≡ RESPONSE_SECONDS * 1_000_000_000 }
        ensures begun { (time_to_write result).begun ≡ None }
    {
        TimedWriter {
            stream,
            deadline: Deadline::from_first_use(watch, RESPONSE_SECONDS),
        }
    }
}

impl<S, W: Drop> TimedWriter<S, W> {
    /// The stream, as the last write left it.
    pub fn into_inner(self) -> S
        ensures { result ≡ stream_written self }
    {
        let TimedWriter {
            stream,
            deadline: _,
        } = self;
        stream
    }
}

/// The bytes written are those that the stream holds. So a short write is never reported as a whole
/// one, and the end of the time writes nothing.
impl<S: WriteWithin, W: Watch> Write for TimedWriter<S, W> {
    ghost contents = { λ writer. S.written writer.stream };

    /// One write of the stream is made, by one look at the clock, and may wait for what is left.
    fn write(&mut self, bytes: &[u8]) -> io::Result<usize>
        ensures bound { WritesAtMost result bytes.now }
        ensures bytes { WriteAppends (S.written (stream_written self.old))
            (S.written (stream_written self.new)) result bytes.now }
        ensures time { IsTimed W.gave (time_to_write self.old) (time_to_write self.new)
            (S.spans (stream_written self.old)) (S.spans (stream_written self.new)) result }
    {
        let span = self.deadline.left()?;
        self.stream.write_within(span, bytes)
    }

    fn flush(&mut self) -> io::Result<()> {
        Ok(())
    }
}

/// What was written to a writer with its time is what its stream holds.
pub fn is_written_to_the_stream<S: WriteWithin, W: Watch>(writer: &TimedWriter<S, W>)
    ensures { ⟦<TimedWriter<S, W> as Write>⟧.contents writer.now
        ≡ S.written (stream_written writer.now) }
{}
