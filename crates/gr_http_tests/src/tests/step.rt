//! A step of a test: a request, and what is to come of it.
//!
//! In words it is `MOMENT REQUEST -> STATUS|BODY`. A moment is a number of seconds, or `NEW_YEAR`.
//! A request is `get PATH`, or `post PATH FORM`, or written whole, after the word `raw` where it
//! begins with a word of these. In the request and after the arrow stand the marks of the module
//! `text`.
//!
//! Before the request may stand how its bytes come and those of the response go: `@once`, in one
//! read, and a further one fails; `@apart`, one by one, and a read after the last fails;
//! `@reads:N` and `@writes:N`, one by one, and the read or the write after so many fails;
//! `@full:N`, so that the write after so many takes no byte. After the arrow then may stand
//! `a read failed|`, or `a write failed|` and the bytes that were written.
use super::fakes::{Reader, Streams, WHOLE, Writer};
use super::text::bytes_of;
use gr_http::answer::{Lost, Served};
use std::alloc::{AllocError, Global};
use std::test::Fail;

/// 2026-01-01T00:00:00Z
const NEW_YEAR: u64 = 1_767_225_600;

/// A request at a moment, by streams of some kind, and what comes of it in words.
#[derive(Drop)]
pub struct Step {
    pub at: u64,
    streams: Streams,
    request: Vec<u8>,
    pub wanted: String,
}

impl Step {
    /// The step that a line says.
    pub fn read(alloc: Global, line: &str) -> Result<Step, Fail> {
        let Some((asked, answer)) = line.split_once(" -> ") else {
            return Err("no answer".into());
        };
        let Some((moment, words)) = asked.split_once(' ') else {
            return Err("no request".into());
        };
        let at = moment_of(moment)?;
        let (streams, request) = sent(alloc, words)?;
        Ok(Step {
            at,
            streams,
            request,
            wanted: wanted_of(alloc, answer)?,
        })
    }

    /// The reader that the request comes from.
    pub fn reader(&self) -> Reader<'_> {
        Reader {
            bytes: self.request.as_slice(),
            pace: self.streams.pace,
            reads_left: self.streams.reads,
        }
    }

    /// The writer that the response goes to.
    pub fn writer(&self, alloc: Global) -> Writer {
        Writer {
            held: Vec::new(alloc),
            pace: self.streams.pace,
            writes_left: self.streams.writes,
            takes_none: self.streams.takes_none,
        }
    }
}

fn moment_of(word: &str) -> Result<u64, Fail> {
    if word == "NEW_YEAR" {
        Ok(NEW_YEAR)
    } else {
        match word.parse() {
            Ok(moment) => Ok(moment),
            Err(_) => Err("no moment".into()),
        }
    }
}

/// The streams of a request, and its bytes.
fn sent(alloc: Global, words: &str) -> Result<(Streams, Vec<u8>), Fail> {
    let (way, words) = way_and_request(words);
    let request = request_of(alloc, words)?;
    let streams = streams_of(way, request.len())?;
    Ok((streams, request))
}

/// How the streams go, empty where nothing is said of it, and the request.
fn way_and_request(words: &str) -> (&str, &str) {
    match words.strip_prefix('@') {
        Some(words) => words.split_once(' ').unwrap_or((words, "")),
        None => ("", words),
    }
}

/// The streams that go so, for a request of this length.
fn streams_of(way: &str, length: usize) -> Result<Streams, Fail> {
    match way.split_once(':') {
        Some((word, calls)) => Ok(streams_up_to(word, number(calls)?, length)),
        None => whole_streams(way, length),
    }
}

/// The streams of which a call fails after so many of this kind.
fn streams_up_to(word: &str, calls: usize, length: usize) -> Streams {
    match word {
        "reads" => apart(calls, usize::MAX, false),
        "writes" => apart(length, calls, false),
        _ => apart(length, calls, true),
    }
}

/// The streams that bring and take all of a request and its response.
fn whole_streams(way: &str, length: usize) -> Result<Streams, Fail> {
    match way {
        "" => Ok(WHOLE),
        "once" => Ok(Streams { reads: 1, ..WHOLE }),
        "apart" => Ok(apart(length, usize::MAX, false)),
        _ => Err("no streams".into()),
    }
}

/// Streams of single bytes.
fn apart(reads: usize, writes: usize, takes_none: bool) -> Streams {
    Streams {
        pace: 1,
        reads,
        writes,
        takes_none,
    }
}

fn number(digits: &str) -> Result<usize, Fail> {
    match digits.parse() {
        Ok(number) => Ok(number),
        Err(_) => Err("no number".into()),
    }
}

fn request_of(alloc: Global, words: &str) -> Result<Vec<u8>, Fail> {
    let (word, more) = words.split_once(' ').unwrap_or((words, ""));
    match word {
        "get" => get(alloc, more),
        "post" => {
            let (path, form) = more.split_once(' ').unwrap_or((more, ""));
            post(alloc, path, form)
        }
        "raw" => bytes_of(alloc, more),
        _ => bytes_of(alloc, words),
    }
}

fn get(alloc: Global, path: &str) -> Result<Vec<u8>, Fail> {
    let request = format!(in alloc; "GET {path} HTTP/1.1⏎⏎")?;
    bytes_of(alloc, request.as_str())
}

/// A request that sends a form, or another body, to a path.
fn post(alloc: Global, path: &str, form: &str) -> Result<Vec<u8>, Fail> {
    let form = bytes_of(alloc, form)?;
    let mut request = head_of_post(alloc, path, form.len())?;
    request.extend_from_slice(form.as_slice())?;
    Ok(request)
}

/// The head of a request that sends so many bytes to a path.
fn head_of_post(alloc: Global, path: &str, length: usize) -> Result<Vec<u8>, Fail> {
    let head = format!(in alloc; "POST {path} HTTP/1.1⏎Content-Length: {length}⏎⏎")?;
    bytes_of(alloc, head.as_str())
}

/// What comes of a request, in words: the code of the status, or what failed, and the bytes that
/// were written.
pub fn in_words(
    alloc: Global,
    served: Result<Served, Lost>,
    written: Vec<u8>,
) -> Result<String, Fail> {
    let written = String::from_utf8(written)?;
    Ok(match served {
        Ok(served) => format!(in alloc; "{}: {written}", served.status.as_u16())?,
        Err(lost) => format!(in alloc; "{lost}: {written}")?,
    })
}

/// What is to come of a request, in these words.
fn wanted_of(alloc: Global, answer: &str) -> Result<String, Fail> {
    let Some((status, body)) = answer.split_once('|') else {
        return Err("no status".into());
    };
    let status = text_of(alloc, status)?;
    let body = text_of(alloc, body)?;
    if status.as_str().starts_with("a ") {
        Ok(format!(in alloc; "{status}: {body}")?)
    } else {
        response_in_words(alloc, status.as_str(), body.as_str())
    }
}

/// That the response with this status and phrase and this body is written, in words.
fn response_in_words(alloc: Global, status: &str, body: &str) -> Result<String, Fail> {
    let Some(code) = status.get(..3) else {
        return Err("no code".into());
    };
    let response = response(alloc, status, body)?;
    Ok(format!(in alloc; "{code}: {response}")?)
}

/// The text that words with marks stand for.
fn text_of(alloc: Global, words: &str) -> Result<String, Fail> {
    Ok(String::from_utf8(bytes_of(alloc, words)?)?)
}

/// The response with this status and phrase, further lines of a head among them, and this body.
pub fn response(alloc: Global, status: &str, body: &str) -> Result<String, AllocError> {
    let length = body.len();
    format!(in alloc;
        "HTTP/1.1 {status}\r\nContent-Type: text/plain; charset=utf-8\r\n\
        Content-Length: {length}\r\nConnection: close\r\n\r\n{body}"
    )
}
