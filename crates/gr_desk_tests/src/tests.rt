//! The program over streams in memory, with desks in files and in memory, and over loopback.
use gr_desk::init::init;
use gr_desk::system::SystemHost;
use gr_http::output::ToWrite;
use sqlite::Start;
use std::alloc::{AllocError, Global};
use std::fmt::Debug;
use std::process::Abort;
use std::{fs, io};

mod clock;
mod connections;
mod files;
mod hosts;
mod lines;
mod migrations;
mod moments;
mod openings;
mod restarts;
mod streams;
mod timed;
mod turned_bits;
mod witness;
mod words;

/// 2026-01-01T00:00:00Z
const NEW_YEAR: u64 = 1_767_225_600;

/// A request of 92 bytes, which puts a developer on the roll.
const ALICE: &str = "POST /developers HTTP/1.1\r\nContent-Length: 43\r\n\r\n\
    login=alice&name=Alice+Adams&status=current";

/// The response to it of an empty desk, of 103 bytes.
const ALICE_IS_IN: &str = "HTTP/1.1 200 OK\r\nContent-Type: text/plain; charset=utf-8\r\n\
    Content-Length: 5\r\nConnection: close\r\n\r\nok 1\n";

/// Wants the value to be this one. Whoever compares values does it here, since an assertion costs
/// its function a proof.
fn same<T: Copy + PartialEq + Debug>(
    rt: &impl Abort,
    found: T,
    wanted: T,
    about: impl Copy + Debug,
) {
    assert_eq!(rt; found, wanted, "of {about:?}");
}

/// The words of a line, which has one space between them.
fn words_of(alloc: Global, line: &str) -> Result<Vec<String>, AllocError> {
    let mut words = Vec::new(alloc);
    for word in line.split(' ') {
        words.push(String::from_str(alloc, word)?)?;
    }
    Ok(words)
}

/// Takes away what another test left.
fn remove(rt: &HostRuntime, file: &str, log: &str) {
    let _ = fs::remove_file(rt, file);
    let _ = fs::remove_file(rt, log);
}

/// Makes a desk, whose file is not closed, so that its log has it.
fn is_made<S: Start>(rt: &HostRuntime, file: &str, start: S) -> bool {
    let mut host = SystemHost::new(rt, start);
    let mut output = ToWrite::new(io::sink());
    let (made, _left) = init(rt.alloc(), &mut host, file, false, &mut output);
    made.is_ok()
}
