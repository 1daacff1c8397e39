//! A desk whose pages end in sums: bits that turn in its file are reported by each line.
use super::hosts::{Row, VERSION_1_LINES, files_of_version_1, is_done};
use super::lines::CSV;
use super::{NEW_YEAR, same, words_of};
use crate::one_file::OneFile;
use gr_desk::program::run_on;
use gr_http::input::FromRead;
use gr_http::output::ToWrite;
use sqlite::{Connection, Files, Options};
use sqlite_disk::{Disk, Memory};
use std::alloc::Global;

/// How long a page is, with its sum.
const PAGE: usize = 4_096;

/// A place in the rows of a page, or between them.
const ROWS: usize = 4_000;

/// Where the sum of a page begins.
const SUM: usize = PAGE - 8;

/// Where the header of a page begins. That of page 1 stands after the one of the file.
const FIRST_HEADER: usize = 100;

/// A log that is shorter has nothing.
const SHORTEST_LOG: usize = 56;

/// Where the file says how many bytes of each page are kept free.
const KEPT_FREE: usize = 20;

/// Lines that make a desk with sums and a vote that is closed.
const VOTE: [Row<'static>; 6] = [
    (
        "init --sums desk.db",
        "",
        0,
        "ok\n",
        "make with sums desk.db",
    ),
    (
        "import desk.db roll.csv --at 1767225600",
        "",
        0,
        "ok 1 added 2 changed 0 same 0\n",
        "read roll.csv, open desk.db",
    ),
    (
        "once desk.db --at 1767225600",
        "POST /resolutions HTTP/1.1\r\nContent-Length: 43\r\n\r\n\
            author=%40leader&summary=Red&text=a&ratio=1",
        0,
        "HTTP/1.1 200 OK\r\nContent-Type: text/plain; charset=utf-8\r\n\
            Content-Length: 18\r\nConnection: close\r\n\r\nok 2 resolution 1\n",
        "open desk.db",
    ),
    (
        "once desk.db --at 1768435200",
        "POST /resolutions/1/call HTTP/1.1\r\nContent-Length: 6\r\n\r\ndays=7",
        0,
        "HTTP/1.1 200 OK\r\nContent-Type: text/plain; charset=utf-8\r\n\
            Content-Length: 31\r\nConnection: close\r\n\r\n\
            ok 3 places 2 until 1769040000\n",
        "open desk.db",
    ),
    (
        "once desk.db --at 1768435200",
        "POST /resolutions/1/vote HTTP/1.1\r\nContent-Length: 35\r\n\r\n\
            login=alice&ranks=12&token=tokenA01",
        0,
        "HTTP/1.1 200 OK\r\nContent-Type: text/plain; charset=utf-8\r\n\
            Content-Length: 78\r\nConnection: close\r\n\r\n\
            ok 4 receipt ca9d11638354186aa932e99271bc2606295b7a58b68b5636380827ddbbdcddcb\n",
        "open desk.db",
    ),
    (
        "once desk.db --at 1769040000",
        "POST /resolutions/1/close HTTP/1.1\r\nContent-Length: 0\r\n\r\n",
        0,
        "HTTP/1.1 200 OK\r\nContent-Type: text/plain; charset=utf-8\r\n\
            Content-Length: 5\r\nConnection: close\r\n\r\nok 5\n",
        "open desk.db",
    ),
];

/// Lines that open the desk, each with its input.
const OPENINGS: [(&str, &str); 10] = [
    ("roll desk.db", ""),
    ("status desk.db 1", ""),
    ("tally desk.db 1", ""),
    ("result desk.db 1", ""),
    ("once desk.db", "GET /roll HTTP/1.1\r\n\r\n"),
    (
        "once desk.db",
        "POST /resolutions/1/cast HTTP/1.1\r\nContent-Length: 7\r\n\r\nplace=1",
    ),
    ("import desk.db roll.csv", ""),
    ("serve desk.db --port 8123 --count 1", ""),
    ("migrate desk.db", ""),
    ("init desk.db", ""),
];

/// In each page a bit of its header, of its rows and of its sum is turned before each line.
#[test]
fn turned_bits_are_told(rt: HostRuntime) {
    let file = desk(rt.alloc()).expect(&rt, "a desk");
    let pages = file.len() / PAGE;
    same(&rt, pages >= 10 && file.len() % PAGE == 0, true, pages);
    for page in 0..pages {
        let header = if page == 0 { FIRST_HEADER } else { 0 };
        for place in [header, ROWS, SUM - 1, SUM, PAGE - 1] {
            let at = at(page, place);
            for (line, input) in OPENINGS {
                let turned = turned(rt.alloc(), &file, at, 1);
                let is_told = says(rt.alloc(), turned, line, input);
                same(&rt, is_told, Some(true), at);
            }
        }
    }
}

/// An opening that fails for a turned bit writes nothing to the file.
#[test]
fn turned_bits_stay(rt: HostRuntime) {
    let file = desk(rt.alloc()).expect(&rt, "a desk");
    for page in 0..file.len() / PAGE {
        let at = at(page, ROWS);
        let is_left = turned(rt.alloc(), &file, at, 1).and_then(|it| is_left(rt.alloc(), it));
        same(&rt, is_left, Some(true), at);
    }
}

/// Each bit of the header of the file is turned: what that says of pages and their sums.
#[test]
fn turned_bits_of_the_header_are_told(rt: HostRuntime) {
    let file = desk(rt.alloc()).expect(&rt, "a desk");
    for at in 0..FIRST_HEADER {
        for bit in [1, 2, 4, 8, 16, 32, 64, 128] {
            let turned = turned(rt.alloc(), &file, at, bit);
            let is_told = says(rt.alloc(), turned, "roll desk.db", "");
            same(&rt, is_told, Some(true), at);
        }
    }
}

/// A desk of version 1 has sums or none after each line, as before it.
#[test]
fn lines_keep_the_kind(rt: HostRuntime) {
    for (has_sums, kept_free) in [(false, 0), (true, 8)] {
        let found = kept_free_behind_lines(rt.alloc(), has_sums);
        same(&rt, found, Some(kept_free), has_sums);
    }
}

/// How many bytes of each page are kept free for its sum, as the file says after lines that
/// brought it up.
fn kept_free_behind_lines(alloc: Global, has_sums: bool) -> Option<u8> {
    let mut host = machine(alloc, files_of_version_1(alloc, has_sums)?, true);
    for row in VERSION_1_LINES {
        if is_done(alloc, &mut host, row) != Ok(true) {
            return None;
        }
    }
    host.files?.db.bytes().get(KEPT_FREE).copied()
}

/// The file of a desk with sums, which has a vote, and whose log has nothing.
fn desk(alloc: Global) -> Option<Vec<u8>> {
    let files = Files {
        log: Memory::new(alloc),
        db: Memory::new(alloc),
    };
    let mut host = machine(alloc, files, false);
    for row in VOTE {
        if is_done(alloc, &mut host, row) != Ok(true) {
            return None;
        }
    }
    let files = host.files?;
    Vec::from_slice(alloc, files.db.bytes()).ok()
}

/// A machine with these files.
fn machine<'a>(alloc: Global, files: Files<Memory>, is_made: bool) -> OneFile<'a, Memory> {
    OneFile {
        alloc,
        name: "desk.db",
        files: Some(files),
        is_made,
        roll: CSV.as_bytes(),
        awaited: &[],
        asked: Vec::new(alloc),
    }
}

/// Where a place of a page is in the file, for pages from 0.
fn at(page: usize, place: usize) -> usize {
    page.saturating_mul(PAGE).saturating_add(place)
}

/// The file with these bits of a byte turned, and an empty log.
fn turned(alloc: Global, file: &[u8], at: usize, bits: u8) -> Option<Files<Memory>> {
    let mut bytes = Vec::from_slice(alloc, file).ok()?;
    *bytes.get_mut(at)? ^= bits;
    let mut db = Memory::new(alloc);
    if !db.may_be_used() {
        return None;
    }
    db.write_at(0, &bytes).ok()?;
    db.sync().ok()?;
    Some(Files {
        log: Memory::new(alloc),
        db,
    })
}

/// Whether a line over these files ends with the line of a fault of the store, and prints nothing.
fn says(alloc: Global, files: Option<Files<Memory>>, line: &str, input: &str) -> Option<bool> {
    let mut host = machine(alloc, files?, true);
    let words = words_of(alloc, line).ok()?;
    let mut input = FromRead::new(input.as_bytes());
    let mut output = ToWrite::new(Vec::new(alloc));
    let mut errors = ToWrite::new(Vec::new(alloc));
    let now = || NEW_YEAR;
    let (status, ended) = run_on(
        alloc,
        &mut host,
        words.as_slice(),
        &now,
        &mut input,
        &mut output,
        &mut errors,
    );
    drop(ended);
    let is_silent = output.into_inner().is_empty();
    let is_told = errors.into_inner().as_slice() == b"fault F2 Store\n".as_slice();
    Some(status == 3 && is_silent && is_told)
}

/// Whether an opening of these files fails, and leaves the file as it is. The log may get a head.
fn is_left(alloc: Global, files: Files<Memory>) -> Option<bool> {
    if !files.may_be_used() {
        return None;
    }
    let db = Vec::from_slice(alloc, files.db.bytes()).ok()?;
    match Connection::open_files(alloc, files, Options::new(7)) {
        Ok(_) => Some(false),
        Err((_, left)) => {
            let files = left.into_files();
            let has_nothing = files.log.bytes().len() < SHORTEST_LOG;
            Some(has_nothing && files.db.bytes() == db.as_slice())
        }
    }
}
