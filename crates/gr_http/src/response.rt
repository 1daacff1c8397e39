//! Responses that are ready to be written (RFC 9112, section 4).
ghost use Rattle.std.specs.Prelude.{◌≡◌, ◌+◌, ◌≤◌, ◌++◌, length, IfOk, IfSome, IsSome};
ghost use Rattle.arrayvec.specs.ArrayString.{array_string_len};
ghost use Rattle.http.specs.StatusCode.{reason_phrase};
ghost use Rattle.gr_core.specs.Machine.Step.{Accepted, Refused};
ghost use Rattle.gr_http.specs.Response.{status_line, allow_line, body_lines, phrase_of, IsShortStatus};
ghost use Rattle.gr_http.specs.Response.{problem_response, answer_response, sheet_response, fault_response};
ghost use Rattle.gr_http.specs.Response.{fault_line as line_of};
ghost use Rattle.gr_http.specs.ReadyResponse.{IsReady, ready_bytes, ready_status};
ghost use Rattle.gr_http.specs.declared.line.TheConstants.{MAX_LINE_BYTES};

use crate::line::{Line, MAX_LINE_BYTES, problem_line, refusal_line, reply_line};
use crate::pieces::{add_all, text_of};
use crate::problem::Problem;
use arrayvec::ArrayString;
use gr_core::{Memory, Refusal, Reply};
use gr_office::Fault;
use http::{Method, StatusCode};
use itoa::Buffer;
use std::alloc::Global;

/// The most bytes of the head of a response.
pub const MAX_RESPONSE_HEAD_BYTES: usize = 256;

/// The most bytes of a response whose body is one line.
pub const MAX_LINE_RESPONSE_BYTES: usize = MAX_RESPONSE_HEAD_BYTES + MAX_LINE_BYTES;

/// The most bytes of the phrase of a status.
pub const MAX_PHRASE_BYTES: usize = 32;

/// The most bytes of the method that a field `Allow` names.
pub const MAX_ALLOWED_BYTES: usize = 8;

/// The head of a response, with the empty line after it.
type ResponseHead = ArrayString<MAX_RESPONSE_HEAD_BYTES>;

/// A response that is ready to be written.
#[derive(Drop)]
pub enum ReadyResponse {
    /// A response whose body is one line. It takes no memory.
    Line {
        /// The status.
        status: StatusCode,

        /// The whole response.
        text: ArrayString<MAX_LINE_RESPONSE_BYTES>,
    },

    /// The whole response whose body is a sheet, with status 200.
    Sheet(String),
}

impl ReadyResponse {
    /// The status of the response.
    pub fn status(&self) -> StatusCode
        ensures { result ≡ ready_status self.now }
    {
        match self {
            ReadyResponse::Line { status, .. } => *status,
            ReadyResponse::Sheet(_) => StatusCode::OK,
        }
    }

    /// The bytes of the response.
    pub fn text(&self) -> &str
        ensures { result.now ≡ ready_bytes self.now }
    {
        match self {
            ReadyResponse::Line { text, .. } => text.as_str(),
            ReadyResponse::Sheet(text) => text.as_str(),
        }
    }
}

/// The response that tells what is wrong with a request. Takes no memory.
pub fn of_problem(problem: Problem) -> ReadyResponse
    ensures { IsReady result (problem_response problem) }
{
    of_line(problem.status(), problem.allowed(), &problem_line(problem))
}

/// The response to an accepted command. Takes no memory.
#[tactic(auto, unfolding(crate::specs::Response::phrase_of))]
pub fn of_reply(reply: Reply) -> ReadyResponse
    ensures { IsReady result (answer_response (Accepted reply)) }
{
    of_line(StatusCode::OK, None, &reply_line(reply))
}

/// The response to a refused command, or to the wish for a sheet that is refused. Takes no memory.
#[tactic(auto, unfolding(crate::specs::Response::phrase_of))]
pub fn of_refusal(refusal: Refusal) -> ReadyResponse
    ensures { IsReady result (answer_response (Refused refusal)) }
{
    of_line(StatusCode::CONFLICT, None, &refusal_line(refusal))
}

/// The response that is the line of a fault, with status 503. Takes no memory.
#[tactic(auto, unfolding(crate::specs::Response::phrase_of))]
pub fn of_fault(fault: Fault) -> ReadyResponse
    ensures { IsReady result (fault_response fault) }
{
    let line = text_of(&[fault_line(fault)]);
    of_line(StatusCode::SERVICE_UNAVAILABLE, None, &line)
}

/// The line of a fault, ended by a line feed. It is fixed text, and takes no memory.
pub fn fault_line(fault: Fault) -> &'static str
    ensures line { result.now ≡ line_of fault }
    ensures short { length result.now ≤ MAX_LINE_BYTES }
{
    match fault {
        Fault::Memory => "fault F1 Memory\n",
        Fault::Store => "fault F2 Store\n",
        Fault::Closed => "fault F3 Closed\n",
        Fault::Damaged => "fault F4 Damaged\n",
        Fault::TooNew => "fault F5 TooNew\n",
        Fault::NotADesk => "fault F6 NotADesk\n",
        Fault::TooOld => "fault F7 TooOld\n",
        Fault::Occupied => "fault F8 Occupied\n",
    }
}

/// The response with this status, the method that a field `Allow` names, and this line.
fn of_line(status: StatusCode, allow: Option<Method>, line: &Line) -> ReadyResponse
    requires status { IsShortStatus status }
    requires allow { IfSome allow (λ method. length method ≤ MAX_ALLOWED_BYTES) }
    ensures { IsReady result (record { status = status; allow = allow; body = line.now.bytes }) }
{
    let head = head(status, &allow, line.len());
    ReadyResponse::Line {
        status,
        text: text_of(&[head.as_str(), line.as_str()]),
    }
}

/// The response with this text, which is a sheet. [`Memory`]: the memory for it was refused.
#[tactic(auto, unfolding(crate::specs::Response::phrase_of))]
pub fn of_sheet(alloc: Global, text: &str) -> Result<ReadyResponse, Memory>
    ensures { IfOk result (λ ready. IsReady ready (sheet_response text.now)) }
{
    let head = head(StatusCode::OK, &None, text.len());
    let Some(bytes) = text.len().checked_add(head.len()) else {
        return Err(Memory);
    };
    let mut whole = String::with_capacity(alloc, bytes)?;
    whole.push_str(head.as_str())?;
    whole.push_str(text)?;
    Ok(ReadyResponse::Sheet(whole))
}

/// The head of a response with this status, the method that a field `Allow` names, and a body of so
/// many bytes.
fn head(status: StatusCode, allow: &Option<Method>, count: usize) -> ResponseHead
    requires status { IsShortStatus status }
    requires allow { IfSome allow.now (λ method. length method ≤ MAX_ALLOWED_BYTES) }
    ensures { result.bytes ≡ status_line status ++ (allow_line allow.now ++ body_lines count) }
{
    let mut head = ResponseHead::new();
    add_status(&mut head, status);
    add_allow(&mut head, allow);
    add_length(&mut head, count);
    head
}

#[tactic(auto, unfolding(crate::specs::Response::status_line))]
fn add_status(head: &mut ResponseHead, status: StatusCode)
    requires named { IsSome (reason_phrase status) }
    requires room { array_string_len head.old + length (status_line status)
        ≤ MAX_RESPONSE_HEAD_BYTES }
    ensures { head.new.bytes ≡ head.old.bytes ++ status_line status }
{
    let mut code = Buffer::new();
    let code = code.format(status.as_u16());
    add_all(head, &["HTTP/1.1 ", code, " ", phrase(status), "\r\n"]);
}

/// The phrase of a status, as the crate `http` has it: that of RFC 9110, section 15, or an older
/// one for 413.
#[tactic(auto, unfolding(crate::specs::Response::phrase_of))]
fn phrase(status: StatusCode) -> &'static str
    requires { IsSome (reason_phrase status) }
    ensures { result.now ≡ phrase_of status }
{
    status.canonical_reason().unwrap()
}

#[tactic(auto, unfolding(crate::specs::Response::allow_line))]
fn add_allow(head: &mut ResponseHead, allow: &Option<Method>)
    requires { array_string_len head.old + length (allow_line allow.now) ≤ MAX_RESPONSE_HEAD_BYTES }
    ensures { head.new.bytes ≡ head.old.bytes ++ allow_line allow.now }
{
    if let Some(method) = allow {
        add_all(head, &["Allow: ", method.as_str(), "\r\n"]);
    }
}

#[tactic(auto, unfolding(crate::specs::Response::body_lines))]
fn add_length(head: &mut ResponseHead, count: usize)
    requires { array_string_len head.old + length (body_lines count) ≤ MAX_RESPONSE_HEAD_BYTES }
    ensures { head.new.bytes ≡ head.old.bytes ++ body_lines count }
{
    let mut digits = Buffer::new();
    let pieces = [
        "Content-Type: text/plain; charset=utf-8\r\nContent-Length: ",
        digits.format(count),
        "\r\nConnection: close\r\n\r\n",
    ];
    add_all(head, &pieces);
}
