//! Lines of replies and refusals with numbers that no short course of a desk comes to.
use super::same;
use super::step::response;
use gr_core::{Note, Receipt, Refusal, Reply};
use gr_http::line::{refusal_line, reply_line};
use gr_http::response::{of_refusal, of_reply};
use std::alloc::Global;
use std::process::Abort;
use std::test::Fail;

#[test]
fn replies_have_their_lines(rt: HostRuntime) -> Result<(), Fail> {
    let digest = *b"0123456789:;<=>?@ABCDEFGHIJKLMNO";
    for (note, line) in [
        (Note::Resolution(200), "ok 7 resolution 200\n"),
        (LAST_CALL, "ok 7 places 3 until 4104259199\n"),
        (Note::Receipt(Receipt { digest }), RECEIPT),
    ] {
        compare_reply(&rt, rt.alloc(), note, line)?;
    }
    Ok(())
}

/// A call at the last moment, for three weeks.
const LAST_CALL: Note = Note::Called {
    places: 3,
    until: 4_104_259_199,
};

/// The numbers from 48 on as two digits each.
const RECEIPT: &str = "ok 7 receipt \
    303132333435363738393a3b3c3d3e3f404142434445464748494a4b4c4d4e4f\n";

fn compare_reply(rt: &impl Abort, alloc: Global, note: Note, line: &str) -> Result<(), Fail> {
    let reply = Reply { accepted: 7, note };
    same(rt, reply_line(reply).as_str(), line, line);
    is_response(rt, alloc, of_reply(reply).text(), "200 OK", line)
}

/// Wants the text to be the response with this status and phrase and this line.
fn is_response(
    rt: &impl Abort,
    alloc: Global,
    text: &str,
    status: &str,
    line: &str,
) -> Result<(), Fail> {
    let wanted = response(alloc, status, line)?;
    same(rt, text, wanted.as_str(), line);
    Ok(())
}

#[test]
fn refused_rows_have_their_line(rt: HostRuntime) -> Result<(), Fail> {
    let refusal = Refusal::BadRoll { line: 2_001 };
    let line = "refused 23 BadRoll 2001\n";
    same(&rt, refusal_line(refusal).as_str(), line, line);
    let ready = of_refusal(refusal);
    is_response(&rt, rt.alloc(), ready.text(), "409 Conflict", line)
}
