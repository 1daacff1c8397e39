//! What is wrong with a request that asks nothing of the office.
ghost use Rattle.std.specs.Prelude.{◌≡◌, ◌≤◌, Some, length};
ghost use Rattle.gr_http.specs.Problem.{status_of, allowed_by, words_of, detail_of, problem_text, no_demand_of, no_demand_text};
ghost use Rattle.gr_http.specs.Response.{IsShortStatus};
ghost use Rattle.gr_http.specs.declared.problem.NoDemand.TheVariants as none;

use crate::field::Field;
use crate::method::AllowedMethod;
use crate::roll_file::NoRoll;
use gr_core::Memory;
use http::{Method, StatusCode};
use itoa::Buffer;
use std::alloc::AllocError;
use std::error::Error;
use std::fmt;

/// What is wrong with a request that asks nothing of the office. Of several the one that is found
/// first is answered, in the order of this list.
#[derive(Clone, Copy, Debug, PartialEq, Eq)]
pub enum Problem {
    /// The input does not begin with a request head of HTTP/1.0 or 1.1 within the limits.
    BadHead,

    /// A Transfer-Encoding field, several Content-Length fields, or one whose value is not one or
    /// more digits.
    BadLength,

    /// The announced length is above the limit.
    TooLarge,

    /// The input ended within the body.
    ShortBody,

    /// The path has no route.
    NotFound,

    /// The route is asked by another method, which is this.
    MethodNotAllowed(AllowedMethod),

    /// The field is missing, stands more than once, or has no value of its form.
    BadField(Field),

    /// The record with this number, from 1, is the first of a roll file that is not as it should.
    BadRoll(usize),
}

impl Problem {
    /// The status of the response (RFC 9110, section 15).
    #[tactic(auto, unfolding(crate::specs::Response::phrase_of))]
    pub fn status(&self) -> StatusCode
        ensures status { result ≡ status_of self.now }
        ensures short { IsShortStatus result }
    {
        match self {
            Problem::BadHead
            | Problem::BadLength
            | Problem::ShortBody
            | Problem::BadField(_)
            | Problem::BadRoll(_) => StatusCode::BAD_REQUEST,
            Problem::TooLarge => StatusCode::PAYLOAD_TOO_LARGE,
            Problem::NotFound => StatusCode::NOT_FOUND,
            Problem::MethodNotAllowed(_) => StatusCode::METHOD_NOT_ALLOWED,
        }
    }

    /// The method that would do, where another was used.
    pub fn allowed(&self) -> Option<Method>
        ensures { result ≡ allowed_by self.now }
    {
        match self {
            Problem::MethodNotAllowed(method) => Some(method.method()),
            _ => None,
        }
    }

    /// What the response says, but for the name of the field or the number of the record.
    pub fn words(&self) -> &'static str
        ensures { result.now ≡ words_of self.now }
    {
        match self {
            Problem::BadHead => "bad head",
            Problem::BadLength => "bad length",
            Problem::TooLarge => "too large",
            Problem::ShortBody => "short body",
            Problem::NotFound => "not found",
            Problem::MethodNotAllowed(_) => "method not allowed",
            Problem::BadField(_) => "bad field ",
            Problem::BadRoll(_) => "bad roll ",
        }
    }

    /// The name of the field, or the number of the record in these digits; nothing, where the
    /// response names none. At most 20 bytes.
    pub(crate) fn detail<'a>(&self, digits: &'a mut Buffer) -> &'a str
        ensures detail { result.now ≡ detail_of self.now }
        ensures short { length result.now ≤ 20 }
    {
        match self {
            Problem::BadField(field) => field.name(),
            Problem::BadRoll(number) => digits.format(*number),
            _ => "",
        }
    }
}

impl fmt::Display for Problem {
    ghost output = { λ problem. Some (problem_text problem) };

    fn fmt<W: fmt::Write>(&self, f: &mut fmt::Formatter<W>) -> fmt::Result {
        f.write_str(self.words())?;
        f.write_str(self.detail(&mut Buffer::new()))
    }
}

impl Error for Problem {}

/// Why a request asks nothing of the office.
#[derive(Clone, Copy, Debug, PartialEq, Eq)]
pub enum NoDemand {
    /// Something is wrong with it.
    Problem(Problem),

    /// The memory to read it was refused.
    Memory,
}

impl fmt::Display for NoDemand {
    ghost output = { λ none. Some (no_demand_text none) };

    fn fmt<W: fmt::Write>(&self, f: &mut fmt::Formatter<W>) -> fmt::Result {
        match self {
            NoDemand::Problem(problem) => write!(f, "{problem}"),
            NoDemand::Memory => f.write_str("out of memory"),
        }
    }
}

impl Error for NoDemand {}

impl From<Problem> for NoDemand {
    ghost from_gives = { λ problem e. e ≡ none.Problem problem };

    fn from(problem: Problem) -> NoDemand {
        NoDemand::Problem(problem)
    }
}

impl From<NoRoll> for NoDemand {
    ghost from_gives = { λ no_roll e. e ≡ no_demand_of no_roll };

    fn from(no_roll: NoRoll) -> NoDemand {
        match no_roll {
            NoRoll::BadLine(number) => NoDemand::Problem(Problem::BadRoll(number)),
            NoRoll::Memory => NoDemand::Memory,
        }
    }
}

impl From<Memory> for NoDemand {
    ghost from_gives = { λ _ e. e ≡ none.Memory };

    fn from(_memory: Memory) -> NoDemand {
        NoDemand::Memory
    }
}

impl From<AllocError> for NoDemand {
    ghost from_gives = { λ _ e. e ≡ none.Memory };

    fn from(_error: AllocError) -> NoDemand {
        NoDemand::Memory
    }
}
