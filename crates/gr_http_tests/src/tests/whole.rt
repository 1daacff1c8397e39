//! Whole requests and their responses.
use super::step::response;
use super::text::{add_all, beginning};
use super::{follow, prints, same};
use gr_http::answer::{Lost, write_response};
use gr_http::field::Field;
use gr_http::method::AllowedMethod;
use gr_http::output::ToWrite;
use gr_http::problem::{NoDemand, Problem};
use gr_http::response::{ReadyResponse, fault_line, of_fault};
use gr_http::streams::Failed;
use gr_office::Fault;
use http::StatusCode;
use std::alloc::{AllocError, Global};
use std::process::Abort;
use std::test::Fail;

/// A head of 49 bytes and a body of 43, a character each.
pub const REQUEST: &str = "POST /developers HTTP/1.1␍␊Content-Length: 43␍␊␍␊\
    login=alice&name=Alice+Adams&status=current";

/// The 103 bytes of the response to `REQUEST` of an office with an empty desk, a character each.
const RESPONSE: &str = "HTTP/1.1 200 OK␍␊Content-Type: text/plain; charset=utf-8␍␊\
    Content-Length: 5␍␊Connection: close␍␊␍␊ok 1␊";

#[test]
fn keeps_a_roll(rt: HostRuntime) -> Result<(), Fail> {
    follow(
        &rt,
        rt.alloc(),
        "
        NEW_YEAR GET /roll HTTP/1.1⏎⏎ -> 200 OK|Developers: 0␊Current: 0␊
        0 post /developers login=alice&name=Alice+Adams&status=current \
            -> 409 Conflict|refused 1 BadMoment␊
        NEW_YEAR GET /roll HTTP/1.1⏎⏎ -> 200 OK|Developers: 0␊Current: 0␊
        NEW_YEAR post /developers login=alice&name=Alice+Adams&status=current -> 200 OK|ok 1␊
        1 post /developers login=bob&name=B%FF&status=retired -> 409 Conflict|refused 2 ClockBack␊
        0 GET /roll HTTP/1.1⏎⏎ \
            -> 200 OK|Developers: 1␊Current: 1␊D: alice current Alice Adams␊
        NEW_YEAR post /developers login=bob&name=B%FF&status=retired -> 200 OK|ok 2␊
        0 GET /roll?all HTTP/1.0␊␊ \
            -> 200 OK|Developers: 2␊Current: 1␊\
            D: alice current Alice Adams␊D: bob retired B\u{fffd}␊
        ",
    )
}

#[test]
fn answers_the_first_problem(rt: HostRuntime) -> Result<(), Fail> {
    follow(&rt, rt.alloc(), PROBLEMS)
}

/// Heads, and then forms, with all the problems that come after one.
const PROBLEMS: &str = "
    NEW_YEAR GET / HTTP/1.1⏎Content-Length: 1048577⏎\0⏎⏎ -> 400 Bad Request|bad head␊
    NEW_YEAR GET / HTTP/1.1⏎Content-Length: x⏎⏎ -> 400 Bad Request|bad length␊
    NEW_YEAR GET / HTTP/1.1⏎Content-Length: 1048577⏎⏎ -> 413 Payload Too Large|too large␊
    NEW_YEAR GET / HTTP/1.1⏎Content-Length: 1⏎⏎ -> 400 Bad Request|short body␊
    NEW_YEAR GET / HTTP/1.1⏎Content-Length: 0⏎⏎ -> 404 Not Found|not found␊
    NEW_YEAR post /developers -> 400 Bad Request|bad field login␊
    NEW_YEAR post /developers login=a&login=b&name=A -> 400 Bad Request|bad field login␊
    NEW_YEAR post /developers login=alice -> 400 Bad Request|bad field name␊
    NEW_YEAR post /developers login=a&status=current -> 400 Bad Request|bad field name␊
    NEW_YEAR post /developers login=alice&name=A -> 400 Bad Request|bad field status␊
    NEW_YEAR post /developers login=a&name=A&status=x -> 400 Bad Request|bad field status␊
    NEW_YEAR post /developers login=A&name=A&status=current -> 409 Conflict|refused 3 BadLogin␊
    NEW_YEAR post /developers login=a&name=%07&status=current -> 409 Conflict|refused 4 BadText␊
    NEW_YEAR post /developers status=retired&x&%6Cogin=%61&name=A&y=%G -> 200 OK|ok 1␊
    ";

#[test]
fn loses_a_failed_read(rt: HostRuntime) -> Result<(), Fail> {
    let mut steps = String::new(rt.alloc());
    for reads in 0..92usize {
        add_request(&mut steps, "@reads", reads, "a read failed|\n")?;
    }

    // A read after the request would fail, and is not made. What was lost was not done.
    add_request(&mut steps, "@reads", 92, "200 OK|ok 1␊\n")?;
    follow(&rt, rt.alloc(), steps.as_str())
}

/// Adds `REQUEST`, with streams that go so for so many reads or writes, and what comes of it.
fn add_request(
    steps: &mut String,
    way: &str,
    calls: usize,
    answer: &str,
) -> Result<(), AllocError> {
    write!(steps, "NEW_YEAR {way}:{calls} ")?;
    add_all(steps, &[REQUEST, " -> ", answer])
}

#[test]
fn does_once_what_a_lost_write_answers(rt: HostRuntime) -> Result<(), Fail> {
    for way in ["@writes", "@full"] {
        for writes in 0..103usize {
            is_lost(&rt, rt.alloc(), way, writes)?;
        }
        is_done_once(&rt, rt.alloc(), way, 103, "200 OK|ok 1␊\n")?;
    }
    Ok(())
}

/// Wants the beginning of the response up to the write that fails, and `REQUEST` to be done once.
fn is_lost(rt: &impl Abort, alloc: Global, way: &str, writes: usize) -> Result<(), Fail> {
    let written = beginning(RESPONSE, writes);
    let lost = format!(in alloc; "a write failed|{written}\n")?;
    is_done_once(rt, alloc, way, writes, lost.as_str())
}

/// Wants this to come of `REQUEST` at a new office where the write after so many fails, and that
/// it was done once, although a further read would bring the same request again.
fn is_done_once(
    rt: &impl Abort,
    alloc: Global,
    way: &str,
    writes: usize,
    answer: &str,
) -> Result<(), Fail> {
    let mut steps = String::new(alloc);
    write!(steps, "NEW_YEAR {way}:{writes} ")?;
    add_all(&mut steps, &[REQUEST, REQUEST, " -> ", answer])?;
    add_all(&mut steps, &["NEW_YEAR ", REQUEST, " -> 200 OK|ok 2␊"])?;
    follow(rt, alloc, steps.as_str())
}

#[test]
fn has_a_line_for_each_fault(rt: HostRuntime) -> Result<(), Fail> {
    for (fault, line) in [
        (Fault::Memory, "fault F1 Memory\n"),
        (Fault::Store, "fault F2 Store\n"),
        (Fault::Closed, "fault F3 Closed\n"),
        (Fault::Damaged, "fault F4 Damaged\n"),
        (Fault::TooNew, "fault F5 TooNew\n"),
        (Fault::NotADesk, "fault F6 NotADesk\n"),
        (Fault::TooOld, "fault F7 TooOld\n"),
        (Fault::Occupied, "fault F8 Occupied\n"),
    ] {
        same(&rt, fault_line(fault), line, "a fault");
        has_a_response(&rt, rt.alloc(), fault, line)?;
    }
    Ok(())
}

/// Wants the response to a fault to have this line.
fn has_a_response(rt: &impl Abort, alloc: Global, fault: Fault, line: &str) -> Result<(), Fail> {
    let wanted = response(alloc, "503 Service Unavailable", line)?;
    let (status, written) = written(rt, alloc, &of_fault(fault));
    same(rt, status, StatusCode::SERVICE_UNAVAILABLE, line);
    same(rt, written.as_slice(), wanted.as_bytes(), line);
    Ok(())
}

/// The status and the bytes of a response that is written.
fn written(rt: &impl Abort, alloc: Global, ready: &ReadyResponse) -> (StatusCode, Vec<u8>) {
    let mut output = ToWrite::new(Vec::new(alloc));
    let served = write_response(&mut output, ready, true).expect(rt, "a write");
    (served.status, output.into_inner())
}

#[test]
fn errors_have_texts(rt: HostRuntime) -> Result<(), AllocError> {
    for (problem, text) in [
        (Problem::BadHead, "bad head"),
        (Problem::BadLength, "bad length"),
        (Problem::TooLarge, "too large"),
        (Problem::ShortBody, "short body"),
        (Problem::NotFound, "not found"),
        (NOT_ALLOWED, "method not allowed"),
        (Problem::BadField(Field::Login), "bad field login"),
        (Problem::BadField(Field::Name), "bad field name"),
        (Problem::BadField(Field::Status), "bad field status"),
        (Problem::BadRoll(17), "bad roll 17"),
    ] {
        problem_prints(&rt, rt.alloc(), problem, text)?;
    }
    failures_print(&rt, rt.alloc())
}

const NOT_ALLOWED: Problem = Problem::MethodNotAllowed(AllowedMethod::Get);

/// Wants the problem to print so, by itself and as the reason why nothing was understood.
fn problem_prints(
    rt: &impl Abort,
    alloc: Global,
    problem: Problem,
    text: &str,
) -> Result<(), AllocError> {
    prints(rt, alloc, &problem, text)?;
    prints(rt, alloc, &NoDemand::Problem(problem), text)
}

/// Wants each other error to print its text.
fn failures_print(rt: &impl Abort, alloc: Global) -> Result<(), AllocError> {
    prints(rt, alloc, &NoDemand::Memory, "out of memory")?;
    prints(rt, alloc, &Lost::Read, "a read failed")?;
    prints(rt, alloc, &Lost::Write, "a write failed")?;
    prints(rt, alloc, &Failed, "a read or a write failed")
}
