//! Reading a request's head.
//!
//! The desk reads one request and closes, so it needs from a library the grammar of a head, and
//! takes `httparse`. The toolchain's `http1` and `http_server` keep a connection open, take chunked
//! bodies, require one `Host`, refuse bare line feeds, and answer HTTP/1.0 in HTTP/1.0. That is
//! right for a server on the open net, but these are other bytes than those of docs/formats.md.
ghost use Rattle.std.specs.Prelude.{◌≡◌, ◌-◌, ◌^◌, ◌<◌, [], length, take, IfOk, IfSome, IfNone};
ghost use Rattle.gr_http.specs.Head.{HasHead, HasNoHead, FindsHead};
ghost use Rattle.gr_http.specs.Reads.{Reads, AreNeeded, Brought};
ghost use Rattle.gr_http.specs.Streams.{CountsFailure};

use crate::input::Input;
use crate::limits::{MAX_HEAD_BYTES, MAX_HEAD_FIELDS};
use crate::streams::Failed;
use httparse::Status;
use httparse::spans::{HeaderSpan, RequestSpans, parse_request};

/// A head that was read.
#[derive(Clone, Copy, Debug)]
pub struct Head {
    /// Where its parts stand in the buffer.
    pub spans: RequestSpans,

    /// How many bytes the reads brought, those after the head included.
    pub came: usize,
}

/// Reads until the front of `buffer` has a whole head, with the places of its fields in `headers`.
/// The two are as long as the limits of a head, [`MAX_HEAD_BYTES`] and [`MAX_HEAD_FIELDS`].
///
/// `None`: the input up to its end begins with no head within the limits. That is answered once no
/// bytes to come could make one. `Failed`: a read failed.
pub fn read_head<I: Input>(
    input: &mut I,
    buffer: &mut [u8],
    headers: &mut [HeaderSpan],
) -> Result<Option<Head>, Failed>
    requires countable { I.failed input.old < 2 ^ 64 - 1 }
    requires room { length buffer.old ≡ MAX_HEAD_BYTES }
    requires fields { length headers.old ≡ MAX_HEAD_FIELDS }
    ensures failures { CountsFailure (I.failed input.old) (I.failed input.new) result }
    ensures found { IfOk result (λ answer. IfSome answer
        (FindsHead (I.coming input.old) (I.coming input.new) buffer.new headers.new)) }
    ensures needed { Reads (I.taken input.old) (I.taken input.new) (AreNeeded HasHead []) }
    ensures brought { IfOk result (λ answer. IfSome answer (λ found.
        Reads (I.taken input.old) (I.taken input.new)
        (Brought HasHead (take found.came buffer.new)))) }
    ensures none { IfOk result (λ answer. IfNone answer (IfSome (I.coming input.old) HasNoHead)) }
{
    let mut came = 0;
    while came < buffer.len() {
        // `httparse` cannot go on where it stopped, so a head that comes in several reads is parsed
        // from its first byte after each. It has no more bytes than the buffer.
        let count = input.take(&mut buffer[came..])?;
        if count == 0 {
            return Ok(None);
        }
        came += count;
        match parse_request(&buffer[..came], headers) {
            Ok(Status::Complete(spans)) => return Ok(Some(Head { spans, came })),
            Ok(Status::Partial) => {}
            Err(_) => return Ok(None),
        }
    }
    Ok(None)
}
