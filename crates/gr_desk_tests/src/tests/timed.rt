//! How long a read or a write may wait.
ghost use Rattle.std.specs.Prelude.{◌≡◌, ◌≤◌, IfOk, Some};

use super::clock::{FAILS, Known, Listed};
use super::same;
use gr_desk::timed::{
    ReadWithin, TimedReader, TimedWriter, WriteWithin, comes_from_the_stream,
    is_written_to_the_stream,
};
use std::alloc::Global;
use std::io::{self, ErrorKind, Read, Write};
use std::net::{TcpListener, TcpStream};
use std::process::Abort;
use std::time::Duration;

/// What the clock tells to the reader of a request and to two reads of it, and how many seconds the
/// second one may wait; none where one fails.
const READS: [(&[u64], Option<u64>); 12] = [
    (&[0, 0, 0], Some(5)),
    (&[0, 0, 4], Some(1)),
    (&[0, 4, 4], Some(1)),
    (&[0, 0, 5], None),
    (&[0, 5, 5], None),
    (&[0, 6, 0], None),
    (&[100, 102, 104], Some(1)),
    (&[100, 104, 105], None),
    (&[100, 104, 99], Some(5)),
    (&[FAILS, 0, 0], None),
    (&[0, FAILS, 0], None),
    (&[0, 0, FAILS], None),
];

/// What the clock tells to two writes of a response, and how many seconds the
/// second one may wait.
const WRITES: [(&[u64], Option<u64>); 7] = [
    (&[0, 0], Some(5)),
    (&[100, 104], Some(1)),
    (&[100, 105], None),
    (&[100, 106], None),
    (&[100, 99], Some(5)),
    (&[FAILS, 0], None),
    (&[0, FAILS], None),
];

/// What the clock tells to the reader of a request and to three reads of it, and how many seconds
/// those may wait that are made.
const SPANS_OF_READS: [(&[u64], &[u64]); 5] = [
    (&[100, 100, 102, 104], &[5, 3, 1]),
    (&[100, 103, 103, 101], &[2, 2, 4]),
    (&[100, 104, 105, 106], &[1]),
    (&[100, FAILS, 101, 102], &[4, 3]),
    (&[FAILS, 100, 100, 100], &[]),
];

/// The same of three writes of a response.
const SPANS_OF_WRITES: [(&[u64], &[u64]); 4] = [
    (&[100, 102, 104], &[5, 3, 1]),
    (&[100, 105, 104], &[5, 1]),
    (&[FAILS, 100, 101], &[5, 4]),
    (&[FAILS, FAILS, FAILS], &[]),
];

#[test]
fn a_read_waits_for_what_is_left(rt: HostRuntime) {
    let (stream, mut client) = connection(&rt).expect(&rt, "a connection");
    client.write_all(&[7; 24]).expect(&rt, "a write");
    for (moments, seconds) in READS {
        let wait = wait_of_a_read(&stream, &Listed::new(moments));
        same(&rt, wait.ok(), seconds.map(Duration::from_secs), moments);
    }
}

#[test]
fn a_write_waits_for_what_is_left(rt: HostRuntime) {
    let (stream, _client) = connection(&rt).expect(&rt, "a connection");
    for (moments, seconds) in WRITES {
        let wait = wait_of_a_write(&stream, &Listed::new(moments));
        same(&rt, wait.ok(), seconds.map(Duration::from_secs), moments);
    }
}

/// The reads of one request share its span, which begins with its reader.
#[test]
fn reads_share_their_span(rt: HostRuntime) {
    for (moments, seconds) in SPANS_OF_READS {
        let mut reader = TimedReader::of_request(
            Line::new(&rt, rt.alloc()),
            Known::new(&rt, rt.alloc(), moments),
        );
        for _ in 0..3 {
            let _ = reader.read(&mut [0; 4]);
        }
        were_given(&rt, reader.into_inner(), seconds, moments);
    }
}

/// The writes of one response share its span, which begins with the first that has a moment.
#[test]
fn writes_share_their_span(rt: HostRuntime) {
    for (moments, seconds) in SPANS_OF_WRITES {
        let mut writer = TimedWriter::of_response(
            Line::new(&rt, rt.alloc()),
            Known::new(&rt, rt.alloc(), moments),
        );
        for _ in 0..3 {
            let _ = writer.write(b"ab");
        }
        were_given(&rt, writer.into_inner(), seconds, moments);
    }
}

/// A failed read is no end of the input, and neither is the end of the time.
#[test]
fn a_failed_read_fails(rt: HostRuntime) {
    let moments = &[0, 0, 0, 0, 5];
    let mut reader = TimedReader::of_request(
        Line::new(&rt, rt.alloc()),
        Known::new(&rt, rt.alloc(), moments),
    );
    comes_from_the_stream(&reader);
    for brought in [Some(*b"ab"), None, Some(*b"cd"), None] {
        let mut buffer = [0; 2];
        let read = reader.read(&mut buffer).ok();
        same(&rt, read.map(|_| buffer), brought, "a read");
    }
    were_given(&rt, reader.into_inner(), &[5, 5, 5], moments);
}

/// A short write is reported as it was, and none is made after the end of the time.
#[test]
fn a_short_write_is_short(rt: HostRuntime) {
    let moments = &[0, 0, 0, 5];
    let mut writer = TimedWriter::of_response(
        Line::new(&rt, rt.alloc()),
        Known::new(&rt, rt.alloc(), moments),
    );
    is_written_to_the_stream(&writer);
    for (bytes, moved) in [
        (b"abcd".as_slice(), Some(2)),
        (b"cd".as_slice(), None),
        (b"cd".as_slice(), Some(2)),
        (b"ef".as_slice(), None),
    ] {
        same(&rt, writer.write(bytes).ok(), moved, bytes);
    }
    let line = writer.into_inner();
    same(&rt, line.written.as_slice(), b"abcd".as_slice(), "a line");
    were_given(&rt, line, &[5, 5, 5], moments);
}

/// Where the system takes no limit, no read and no write is made.
#[test]
fn nothing_is_moved_without_a_limit(rt: HostRuntime) {
    let (stream, client) = connection(&rt).expect(&rt, "a connection");
    let moved = moved_without_a_limit(stream, client);
    same(&rt, moved.ok(), Some((1, 0)), "a connection");
}

/// How many of one byte a read finds after one that took no limit, and how many bytes come of a
/// write that took none. Fails where one of these does not fail.
fn moved_without_a_limit(stream: TcpStream, client: TcpStream) -> io::Result<(usize, usize)> {
    let mut stream = stream;
    let mut client = client;
    client.write_all(&[7])?;
    let is_read = stream.read_within(Duration::ZERO, &mut [0; 4]).is_ok();
    if is_read || stream.write_within(Duration::ZERO, &[8]).is_ok() {
        return Err(io::Error::from(ErrorKind::Other));
    }
    let found = stream.read_within(Duration::from_secs(5), &mut [0; 4])?;
    drop(stream);
    Ok((found, client.read(&mut [0; 4])?))
}

/// What a line brings.
const BROUGHT: &[u8] = b"abcdefgh";

/// A stream of which each call moves two bytes, but for the second one, which fails. It keeps how
/// long each of them might wait, and what was written.
#[derive(Drop)]
struct Line<'a, A> {
    rt: &'a A,
    spans: Vec<Duration>,
    coming: &'static [u8],
    written: Vec<u8>,
}

impl<'a, A: Abort> Line<'a, A> {
    fn new(rt: &'a A, alloc: Global) -> Self {
        Line {
            rt,
            spans: Vec::new(alloc),
            coming: BROUGHT,
            written: Vec::new(alloc),
        }
    }

    /// How many bytes a call moves of so many.
    fn moves(&self, room: usize) -> io::Result<usize>
        ensures { IfOk result (λ count. (count ≤ room) × (count ≡ 0 → room ≡ 0)) }
    {
        if self.spans.len() == 2 {
            return Err(io::Error::from(ErrorKind::Interrupted));
        }
        Ok(room.min(2))
    }
}

/// Wants the calls of a line to have been given these spans, in seconds.
fn were_given<A: Abort>(rt: &A, line: Line<'_, A>, seconds: &[u64], moments: &[u64]) {
    same(rt, line.spans.len(), seconds.len(), moments);
    for (span, seconds) in line.spans.iter().zip(seconds) {
        same(rt, *span, Duration::from_secs(*seconds), moments);
    }
}

impl<A: Abort> ReadWithin for Line<'_, A> {
    ghost coming = { λ line. Some line.coming.now };

    ghost spans = { λ line. Some line.spans.items };

    fn read_within(&mut self, span: Duration, buffer: &mut [u8]) -> io::Result<usize> {
        self.spans.push(span).expect(self.rt, "room");
        let count = self.moves(buffer.len().min(self.coming.len()))?;
        buffer[..count].copy_from_slice(&self.coming[..count]);
        self.coming = &self.coming[count..];
        Ok(count)
    }
}

impl<A: Abort> WriteWithin for Line<'_, A> {
    ghost written = { λ line. Some line.written.items };

    ghost spans = { λ line. Some line.spans.items };

    fn write_within(&mut self, span: Duration, bytes: &[u8]) -> io::Result<usize> {
        self.spans.push(span).expect(self.rt, "room");
        let count = self.moves(bytes.len())?;
        self.written
            .extend_from_slice(&bytes[..count])
            .expect(self.rt, "room");
        Ok(count)
    }
}

/// A connection over loopback, from both sides.
fn connection(rt: &HostRuntime) -> io::Result<(TcpStream, TcpStream)> {
    let listener = TcpListener::bind(rt, "127.0.0.1:0")?;
    let client = TcpStream::connect(rt, listener.local_addr()?)?;
    let (stream, _) = listener.accept()?;
    Ok((stream, client))
}

/// How long the system is to wait in the second of two reads. Fails where one does.
fn wait_of_a_read(stream: &TcpStream, clock: &Listed<'_>) -> io::Result<Duration> {
    let mut reader = TimedReader::of_request(stream.try_clone()?, clock);
    reader.read(&mut [0; 1])?;
    reader.read(&mut [0; 1])?;
    Ok(stream.read_timeout()?.unwrap_or(Duration::ZERO))
}

/// How long the system is to wait in the second of two writes. Fails where one does.
fn wait_of_a_write(stream: &TcpStream, clock: &Listed<'_>) -> io::Result<Duration> {
    let mut writer = TimedWriter::of_response(stream.try_clone()?, clock);
    writer.write(&[1])?;
    writer.write(&[2])?;
    Ok(stream.write_timeout()?.unwrap_or(Duration::ZERO))
}
