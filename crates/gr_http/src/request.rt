//! Reading one whole request.
ghost use Rattle.std.specs.Prelude.{◌≡◌, ◌-◌, ◌^◌, ◌<◌, ◌≤◌, [], ◌++◌, length, drop, IfSome, IfOk, IsUtf8, Some, vec_len};
ghost use Rattle.httparse.specs.Spans.{IsWithin, span_bytes};
ghost use Rattle.gr_http.specs.declared.request.NotReceived.TheVariants as why;
ghost use Rattle.gr_http.specs.Reads.{Reads, AreNeeded, AreSoMany};
ghost use Rattle.gr_http.specs.Request.{HasRequest, ReceivedIsDetermined, Receives, ReceivesBody, CountsFailedRead, not_received_text};

use crate::body::read_body;
use crate::head::read_head;
use crate::input::Input;
use crate::length::announced_length;
use crate::limits::{MAX_HEAD_BYTES, MAX_HEAD_FIELDS};
use crate::problem::Problem;
use crate::streams::Failed;
use httparse::spans::{EMPTY_HEADER_SPAN, HeaderSpan, RequestSpans};
use std::alloc::{AllocError, Global};
use std::error::Error;
use std::fmt;
use std::marker::Model;

/// A request as it was received.
#[derive(Drop)]
pub struct Request {
    method: Vec<u8>,
    target: String,
    body: Vec<u8>,
}

impl Model for Request {
    ghost use Rattle.std.specs.Prelude.{string_bytes};
    ghost use Rattle.gr_http.specs.Request.{Texts};

    ghost Value = { Texts };

    ghost view = { λ request. record {
      method = request.method.items;
      target = string_bytes request.target;
      body = request.body.items;
    } };
}

impl Request {
    /// The method, as it was sent.
    pub fn method(&self) -> &[u8]
        ensures { result.now ≡ self.now.method }
    {
        self.method.as_slice()
    }

    /// The target, as it was sent: nothing is decoded.
    pub fn target(&self) -> &str
        ensures { result.now ≡ self.now.target }
    {
        self.target.as_str()
    }

    /// The body, of the length that the head announced.
    pub fn body(&self) -> &[u8]
        ensures { result.now ≡ self.now.body }
    {
        self.body.as_slice()
    }
}

/// Why there is no request.
#[derive(Clone, Copy, Debug, PartialEq, Eq)]
pub enum NotReceived {
    /// Something is wrong with it.
    Problem(Problem),

    /// A read failed.
    Failed(Failed),

    /// A growth was refused for want of memory.
    Memory,
}

impl fmt::Display for NotReceived {
    ghost output = { λ none. Some (not_received_text none) };

    fn fmt<W: fmt::Write>(&self, f: &mut fmt::Formatter<W>) -> fmt::Result {
        match self {
            NotReceived::Problem(problem) => write!(f, "{problem}"),
            NotReceived::Failed(failed) => write!(f, "{failed}"),
            NotReceived::Memory => f.write_str("out of memory"),
        }
    }
}

impl Error for NotReceived {}

impl From<Problem> for NotReceived {
    ghost from_gives = { λ problem e. e ≡ why.Problem problem };

    fn from(problem: Problem) -> NotReceived {
        NotReceived::Problem(problem)
    }
}

impl From<Failed> for NotReceived {
    ghost from_gives = { λ failed e. e ≡ why.Failed failed };

    fn from(failed: Failed) -> NotReceived {
        NotReceived::Failed(failed)
    }
}

impl From<AllocError> for NotReceived {
    ghost from_gives = { λ _ e. e ≡ why.Memory };

    fn from(_error: AllocError) -> NotReceived {
        NotReceived::Memory
    }
}

/// Reads one request, its head and the body that the head announces (RFC 9112).
///
/// Where no read fails and memory suffices, the answer depends on the bytes of the input up to its
/// end, and not on how the reads cut them. Reading stops with the body's last byte; with the head,
/// where the length that it announces is refused; and where the head was found to be bad, which is
/// only tested. Bytes after the request that came with a read are dropped.
///
/// `Failed`: a read failed, and the input has counted it; its failures are below the greatest `u64`
/// before the call. `Memory`: what was read is gone.
pub fn read_request<I: Input>(alloc: Global, input: &mut I) -> Result<Request, NotReceived>
    requires { I.failed input.old < 2 ^ 64 - 1 }
    ensures received { IfSome (I.coming input.old) (λ bytes. Receives bytes result) }
    ensures needed { Reads (I.taken input.old) (I.taken input.new) (AreNeeded HasRequest []) }
    ensures failures { CountsFailedRead (I.failed input.old) (I.failed input.new) result }
{
    let mut buffer = zeroes(alloc, MAX_HEAD_BYTES)?;
    let mut headers = [EMPTY_HEADER_SPAN; MAX_HEAD_FIELDS];
    receive(alloc, input, &mut buffer, &mut headers)
}

/// Reads one request, its head by way of these buffers.
fn receive<I: Input>(
    alloc: Global,
    input: &mut I,
    buffer: &mut [u8],
    headers: &mut [HeaderSpan],
) -> Result<Request, NotReceived>
    requires countable { I.failed input.old < 2 ^ 64 - 1 }
    requires room { length buffer.old ≡ MAX_HEAD_BYTES }
    requires fields { length headers.old ≡ MAX_HEAD_FIELDS }
    ensures received { IfSome (I.coming input.old) (λ bytes. Receives bytes result) }
    ensures needed { Reads (I.taken input.old) (I.taken input.new) (AreNeeded HasRequest []) }
    ensures failures { CountsFailedRead (I.failed input.old) (I.failed input.new) result }
{
    let Some(head) = read_head(input, buffer, headers)? else {
        return Err(NotReceived::Problem(Problem::BadHead));
    };
    let came = &buffer[..head.came];
    let headers = &headers[..head.spans.headers];
    let count = announced_length(came, headers)?;
    receive_body(alloc, input, came, head.spans, count)
}

/// Reads a body of `count` bytes after the head in `came`, and makes the request.
fn receive_body<I: Input>(
    alloc: Global,
    input: &mut I,
    came: &[u8],
    spans: RequestSpans,
    count: usize,
) -> Result<Request, NotReceived>
    requires countable { I.failed input.old < 2 ^ 64 - 1 }
    requires head { spans.len ≤ length came.now }
    requires method { IsWithin (length came.now) spans.method }
    requires target { IsWithin (length came.now) spans.path }
    requires text { IsUtf8 (span_bytes came.now spans.path) }
    ensures received { IfSome (I.coming input.old) (λ more. ReceivesBody
        (span_bytes came.now spans.method) (span_bytes came.now spans.path)
        (drop spans.len came.now ++ more) count result) }
    ensures needed { Reads (I.taken input.old) (I.taken input.new)
        (AreNeeded (AreSoMany count) (drop spans.len came.now)) }
    ensures failures { CountsFailedRead (I.failed input.old) (I.failed input.new) result }
{
    let mut body = zeroes(alloc, count)?;
    if !read_body(input, &came[spans.len..], &mut body)? {
        return Err(NotReceived::Problem(Problem::ShortBody));
    }
    Ok(copied(alloc, came, spans, body)?)
}

/// The request with this body, its method and target copied out of the head.
fn copied(
    alloc: Global,
    came: &[u8],
    spans: RequestSpans,
    body: Vec<u8>,
) -> Result<Request, AllocError>
    requires method { IsWithin (length came.now) spans.method }
    requires target { IsWithin (length came.now) spans.path }
    requires text { IsUtf8 (span_bytes came.now spans.path) }
    ensures method { IfOk result (λ request. request.method ≡ span_bytes came.now spans.method) }
    ensures target { IfOk result (λ request. request.target ≡ span_bytes came.now spans.path) }
    ensures body { IfOk result (λ request. request.body ≡ body.items) }
{
    let method = Vec::from_slice(alloc, spans.method.of(came))?;
    let Ok(target) = str::from_utf8(spans.path.of(came)) else {
        unreachable!()
    };
    let target = String::from_str(alloc, target)?;
    Ok(Request {
        method,
        target,
        body,
    })
}

/// A buffer of so many bytes.
fn zeroes(alloc: Global, count: usize) -> Result<Vec<u8>, AllocError>
    ensures { IfOk result (λ buffer. vec_len buffer ≡ count) }
{
    vec![in alloc; 0; count]
}

/// What is received is a function of the bytes.
pub fn received_is_determined()
    ensures { ReceivedIsDetermined }
{}
