//! How long a body the fields of a head announce (RFC 9112, section 6).
ghost use Rattle.std.specs.Prelude.{◌≡◌, ℕ, ◌+◌, ◌*◌, ◌<◌, ◌≤◌, List, length, map, All, codes, option_and_then, IfSome};
ghost use Rattle.std.specs.List.{list_any};
ghost use Rattle.httparse.specs.Spans.{IsHeaderWithin, header_bytes};
ghost use Rattle.gr_http.specs.Length.{is_named, values_named, length_in, length_of_values, announced_length, within_limit};

use crate::limits::MAX_BODY_BYTES;
use crate::problem::Problem;
use httparse::spans::HeaderSpan;

/// The length of the body that these headers announce, in bytes: 0 where there is no Content-Length
/// field.
pub fn announced_length(bytes: &[u8], headers: &[HeaderSpan]) -> Result<usize, Problem>
    requires { All (IsHeaderWithin (length bytes.now)) headers.now }
    ensures { result ≡ announced_length (map (header_bytes bytes.now) headers.now) }
{
    if has_transfer_encoding(bytes, headers) {
        return Err(Problem::BadLength);
    }
    content_length(bytes, headers)
}

/// Whether there is a Transfer-Encoding field.
fn has_transfer_encoding(bytes: &[u8], headers: &[HeaderSpan]) -> bool
    requires { All (IsHeaderWithin (length bytes.now)) headers.now }
    ensures { result ≡ list_any
        (is_named (codes "transfer-encoding")) (map (header_bytes bytes.now) headers.now) }
{
    for header in headers {
        if is_same_name(header.name.of(bytes), b"transfer-encoding") {
            return true;
        }
    }
    false
}

/// What the only Content-Length field announces; 0 where there is no such field.
fn content_length(bytes: &[u8], headers: &[HeaderSpan]) -> Result<usize, Problem>
    requires { All (IsHeaderWithin (length bytes.now)) headers.now }
    ensures { result ≡ length_of_values
        (values_named (codes "content-length") (map (header_bytes bytes.now) headers.now)) }
{
    let mut length = None;
    for header in headers {
        if is_same_name(header.name.of(bytes), b"content-length") {
            if length.is_some() {
                return Err(Problem::BadLength);
            }
            length = Some(read_number(header.value.of(bytes)));
        }
    }
    length.unwrap_or(Ok(0))
}

/// Whether two names differ at most in the case of their letters.
fn is_same_name(name: &[u8], other: &[u8]) -> bool
    ensures { (value : List ℕ) → result ≡ is_named other.now (name.now, value) }
{
    name.eq_ignore_ascii_case(other)
}

/// The number that the digits of a value write.
fn read_number(value: &[u8]) -> Result<usize, Problem>
    ensures { result ≡ length_in value.now }
{
    if value.is_empty() {
        return Err(Problem::BadLength);
    }
    let mut number = Some(0);
    for digit in value {
        if !digit.is_ascii_digit() {
            return Err(Problem::BadLength);
        }
        number = one_digit_more(number, digit - b'0');
    }
    number.ok_or(Problem::TooLarge)
}

/// The number with one digit more after it, as far as a body may be so long.
fn one_digit_more(number: Option<usize>, digit: u8) -> Option<usize>
    requires number { IfSome number (λ n. n ≤ MAX_BODY_BYTES) }
    requires digit { digit < 10 }
    ensures { result ≡ option_and_then (λ n. within_limit (n * 10 + digit)) number }
{
    let more = number? * 10 + usize::from(digit);
    (more <= MAX_BODY_BYTES).then_some(more)
}
