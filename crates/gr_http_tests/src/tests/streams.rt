//! How requests are read, and bytes that are read and written.
use super::fakes::{Reader, Writer};
use super::text::{add_all, beginning};
use super::whole::REQUEST;
use super::{follow, same};
use gr_http::input::{FromRead, Input, comes_from_the_reader};
use gr_http::memory_input::MemoryInput;
use gr_http::output::{Output, ToWrite, is_written_to_the_writer};
use gr_http::streams::Failed;
use std::alloc::{AllocError, Global};
use std::process::Abort;
use std::test::Fail;

#[test]
fn makes_no_read_behind_a_request(rt: HostRuntime) -> Result<(), Fail> {
    follow(&rt, rt.alloc(), BEHIND)
}

/// Requests and heads that are refused, after which a read would fail. The body is as long as the
/// head says, and what came with it in a read is dropped.
const BEHIND: &str = "
    NEW_YEAR @once get /roll -> 200 OK|Developers: 0␊Current: 0␊
    NEW_YEAR @apart get /roll -> 200 OK|Developers: 0␊Current: 0␊
    NEW_YEAR @once post /developers login=alice&name=Alice&status=current -> 200 OK|ok 1␊
    NEW_YEAR @apart post /developers login=alice&name=Alice&status=current -> 200 OK|ok 2␊
    NEW_YEAR @once POST /developers?all=1 HTTP/1.0␊Content-length: 33 ␊␊\
        login=bob&name=Bob&status=currentdef -> 200 OK|ok 3␊
    NEW_YEAR @once post /resolutions author=@leader&summary=Red&text=⟨a*150⟩&ratio=1 \
        -> 200 OK|ok 4 resolution 1␊
    NEW_YEAR @apart post /resolutions author=@leader&summary=Red&text=⟨a*150⟩&ratio=1 \
        -> 200 OK|ok 5 resolution 2␊
    NEW_YEAR @apart P\0 -> 400 Bad Request|bad head␊
    NEW_YEAR @apart GET / HTTP/1.1⏎Content-Length: x⏎⏎ -> 400 Bad Request|bad length␊
    NEW_YEAR @apart GET / HTTP/1.1⏎Content-Length: 1048577⏎⏎ -> 413 Payload Too Large|too large␊
    ";

#[test]
fn answers_an_early_end(rt: HostRuntime) -> Result<(), Fail> {
    let mut steps = String::new(rt.alloc());
    for end in 0..92usize {
        let line = if end < 49 { "bad head" } else { "short body" };
        add_end(&mut steps, beginning(REQUEST, end), line)?;
    }
    follow(&rt, rt.alloc(), steps.as_str())
}

/// Adds that this line answers the bytes.
fn add_end(steps: &mut String, bytes: &str, line: &str) -> Result<(), AllocError> {
    add_all(
        steps,
        &["NEW_YEAR ", bytes, " -> 400 Bad Request|", line, "␊\n"],
    )
}

#[test]
fn reads_heads_and_lengths_up_to_their_limits(rt: HostRuntime) -> Result<(), Fail> {
    follow(&rt, rt.alloc(), REQUESTS)
}

/// Requests to an office with an empty desk: heads and lengths round their limits. Then the request
/// of 92 bytes with another length or another field, of which the desk takes the last one alone.
const REQUESTS: &str = "
    NEW_YEAR GET /roll HTTP/1.1⏎X: ⟨a*8165⟩⏎⏎ -> 200 OK|Developers: 0␊Current: 0␊
    NEW_YEAR GET /roll HTTP/1.1⏎X: ⟨a*8166⟩⏎⏎ -> 400 Bad Request|bad head␊
    NEW_YEAR ⏎GET /roll HTTP/1.1⏎X: ⟨a*8163⟩⏎⏎ -> 200 OK|Developers: 0␊Current: 0␊
    NEW_YEAR ⏎GET /roll HTTP/1.1⏎X: ⟨a*8164⟩⏎⏎ -> 400 Bad Request|bad head␊
    NEW_YEAR GET /roll?⟨a*8169⟩ HTTP/1.1⏎⏎ -> 200 OK|Developers: 0␊Current: 0␊
    NEW_YEAR GET /roll?⟨a*8170⟩ HTTP/1.1⏎⏎ -> 400 Bad Request|bad head␊
    NEW_YEAR GET /roll HTTP/1.1⏎⟨X: a⏎*32⟩⏎ -> 200 OK|Developers: 0␊Current: 0␊
    NEW_YEAR GET /roll HTTP/1.1⏎⟨X: a⏎*33⟩⏎ -> 400 Bad Request|bad head␊
    NEW_YEAR GET / HTTP/1.1⏎⏎abc -> 404 Not Found|not found␊
    NEW_YEAR GET / HTTP/1.1⏎Content-Length: 00003⏎⏎abc -> 404 Not Found|not found␊
    NEW_YEAR GET / HTTP/1.1⏎CONTENT-LENGTH:\t3 ⏎⏎abc -> 404 Not Found|not found␊
    NEW_YEAR GET / HTTP/1.1⏎Content-Length: 0⏎⏎abc -> 404 Not Found|not found␊
    NEW_YEAR GET / HTTP/1.1⏎Content-Length: +3⏎⏎abc -> 400 Bad Request|bad length␊
    NEW_YEAR GET / HTTP/1.1⏎Content-Length: 3, 3⏎⏎abc -> 400 Bad Request|bad length␊
    NEW_YEAR GET / HTTP/1.1⏎Content-Length:⏎⏎abc -> 400 Bad Request|bad length␊
    NEW_YEAR GET / HTTP/1.1⏎Content-Length: 3⏎Content-Length: 3⏎⏎abc -> 400 Bad Request|bad length␊
    NEW_YEAR GET / HTTP/1.1⏎Content-Length: 1048577⏎Content-Length: 3⏎⏎abc \
        -> 400 Bad Request|bad length␊
    NEW_YEAR GET / HTTP/1.1⏎Content-Length: 99999999x⏎⏎abc -> 400 Bad Request|bad length␊
    NEW_YEAR GET / HTTP/1.1⏎Transfer-Encoding: chunked⏎Content-Length: 3⏎⏎abc \
        -> 400 Bad Request|bad length␊
    NEW_YEAR GET / HTTP/1.1⏎transfer-encoding:⏎⏎abc -> 400 Bad Request|bad length␊
    NEW_YEAR GET / HTTP/1.1⏎Content-Length: 4⏎⏎abc -> 400 Bad Request|short body␊
    NEW_YEAR GET / HTTP/1.1⏎Content-Length: 1048576⏎⏎abc -> 400 Bad Request|short body␊
    NEW_YEAR GET / HTTP/1.1⏎Content-Length: 1048577⏎⏎abc -> 413 Payload Too Large|too large␊
    NEW_YEAR GET / HTTP/1.1⏎Content-Length: 9999999999999999999999999⏎⏎abc \
        -> 413 Payload Too Large|too large␊
    NEW_YEAR POST /developers HTTP/1.1⏎Content-Length: +43⏎⏎\
        login=alice&name=Alice+Adams&status=current -> 400 Bad Request|bad length␊
    NEW_YEAR POST /developers HTTP/1.1⏎Content-Length: ⏎⏎\
        login=alice&name=Alice+Adams&status=current -> 400 Bad Request|bad length␊
    NEW_YEAR POST /developers HTTP/1.1⏎Content-Length: 9999999999999999999999999⏎⏎\
        login=alice&name=Alice+Adams&status=current -> 413 Payload Too Large|too large␊
    NEW_YEAR POST /developers HTTP/1.1⏎Content-Length: 43⏎Transfer-Encoding: chunked⏎⏎\
        login=alice&name=Alice+Adams&status=current -> 400 Bad Request|bad length␊
    NEW_YEAR POST /developers HTTP/1.1⏎Content-Length: 43⏎⏎\
        login=alice&login=bob&name=A&status=current -> 400 Bad Request|bad field login␊
    NEW_YEAR POST /developers HTTP/1.1⏎Content-Length: 00043⏎⏎\
        login=alice&name=Alice+Adams&status=current -> 200 OK|ok 1␊
    ";

#[test]
fn takes_and_puts_each_size(rt: HostRuntime) {
    let bytes = [b'a'; 9_000];
    let mut buffer = [0u8; 9_000];
    for size in 0..9_001usize {
        compare_taken(&rt, bytes.as_slice(), &mut buffer[..size]);
        compare_put(&rt, rt.alloc(), &bytes[..size]);
    }
    let mut ended = FromRead::new(b"".as_slice());
    same(&rt, ended.take(&mut buffer), Ok(0), "the end");
}

/// A call of `take` makes one read, also where that brings little or fails.
#[test]
fn each_take_makes_one_read(rt: HostRuntime) {
    for pace in 1..5 {
        let mut reader = Reader {
            bytes: b"abcdefgh",
            pace,
            reads_left: 100,
        };
        reader = takes_once(&rt, reader, Ok(pace), 99);
        reader.reads_left = 0;
        takes_once(&rt, reader, Err(Failed), usize::MAX);
    }
}

/// Wants this to be taken by a call, and so many reads to be left then. Returns the reader.
fn takes_once<'a>(
    rt: &impl Abort,
    reader: Reader<'a>,
    taken: Result<usize, Failed>,
    reads_left: usize,
) -> Reader<'a> {
    let mut input = FromRead::new(reader);
    same(rt, input.take(&mut [0; 6]), taken, "what is taken");
    same(
        rt,
        input.failures(),
        u64::from(taken.is_err()),
        "the failures",
    );
    let reader = input.into_inner();
    same(rt, reader.reads_left, reads_left, "the reads that are left");
    reader
}

/// An input in memory keeps what each of its reads brought, as long as there is room. Each read
/// after that fails.
#[test]
fn an_input_in_memory_keeps_its_reads(rt: HostRuntime) -> Result<(), Fail> {
    let mut input = MemoryInput::new(rt.alloc(), b"abcde", 3)?;
    let mut buffer = [0; 3];
    same(&rt, input.take(&mut buffer), Ok(3), "the first read");
    same(&rt, input.take(&mut buffer), Ok(2), "the second read");
    same(&rt, input.take(&mut buffer), Ok(0), "the end");
    same(&rt, input.failures(), 0, "the failures");
    same(&rt, input.take(&mut buffer), Err(Failed), "a read behind");
    same(&rt, input.take(&mut buffer), Err(Failed), "one more");
    same(&rt, input.failures(), 2, "the failures");
    let brought = [b"abc".as_slice(), b"de".as_slice(), b"".as_slice()];
    same(&rt, input.pieces(), brought.as_slice(), "the pieces");
    Ok(())
}

/// A call of `put` makes one write, and tells how little of the bytes that wrote.
#[test]
fn each_put_makes_one_write(rt: HostRuntime) {
    for pace in 1..5 {
        let mut output = ToWrite::new(Writer {
            held: Vec::new(rt.alloc()),
            pace,
            writes_left: 100,
            takes_none: false,
        });
        same(&rt, output.put(b"abcdefgh"), Ok(pace), "what is put");
        let writer = output.into_inner();
        same(&rt, writer.writes_left, 99, "the writes that are left");
        same(
            &rt,
            writer.held.as_slice(),
            &b"abcdefgh"[..pace],
            "the bytes",
        );
    }
}

/// Wants a buffer that is no longer than the bytes to be filled by one call.
fn compare_taken(rt: &impl Abort, bytes: &[u8], buffer: &mut [u8]) {
    let mut input = FromRead::new(bytes);
    comes_from_the_reader(&input);
    let size = buffer.len();
    same(rt, input.take(buffer), Ok(size), "what is taken");
    same(rt, input.failures(), 0, "the failures");
    let left = bytes.len().saturating_sub(size);
    same(rt, input.into_inner().len(), left, "what is left");
}

/// Wants the bytes to be written by one call.
fn compare_put(rt: &impl Abort, alloc: Global, bytes: &[u8]) {
    let mut output = ToWrite::new(Vec::new(alloc));
    is_written_to_the_writer(&output);
    same(rt, output.put(bytes), Ok(bytes.len()), "what is put");
    same(rt, output.failures(), 0, "the failures");
    same(
        rt,
        output.into_inner().len(),
        bytes.len(),
        "what is written",
    );
}
