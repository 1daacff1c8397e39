//! What lines do to a file, and print.
use super::{ALICE, ALICE_IS_IN, NEW_YEAR, is_made, remove, same, words_of};
use gr_desk::program::run;
use sqlite::Unknown;
use std::alloc::{AllocError, Global};
use std::fs;
use std::io::{self, Read, Write};
use std::net::TcpListener;

pub(super) const ROLL: &str = "GET /roll HTTP/1.1\r\n\r\n";

const EMPTY_ROLL: &str = "HTTP/1.1 200 OK\r\nContent-Type: text/plain; charset=utf-8\r\n\
    Content-Length: 25\r\nConnection: close\r\n\r\nDevelopers: 0\nCurrent: 0\n";

const BAD_MOMENT: &str = "HTTP/1.1 409 Conflict\r\n\
    Content-Type: text/plain; charset=utf-8\r\n\
    Content-Length: 20\r\nConnection: close\r\n\r\nrefused 1 BadMoment\n";

const BAD_HEAD: &str = "HTTP/1.1 400 Bad Request\r\n\
    Content-Type: text/plain; charset=utf-8\r\n\
    Content-Length: 9\r\nConnection: close\r\n\r\nbad head\n";

/// A roll file with a UTF-8 mark.
pub(super) const CSV: &str = "\u{feff}login,name,status\r\nalice,Alice Adams,current\r\n\
    bob,\"Brown, Bob\",retired\r\n";

const TWO: &str = "Developers: 2\nCurrent: 1\nD: alice current Alice Adams\n\
    D: bob retired Brown, Bob\n";

pub(super) const CAROL: &str = "POST /developers HTTP/1.1\r\nContent-Length: 37\r\n\r\n\
    login=carol&name=Carol&status=current";

pub(super) const THREE: &str = "Developers: 3\nCurrent: 2\nD: alice current Alice Adams\n\
    D: bob retired Brown, Bob\nD: carol current Carol\n";

/// A line, its input, its exit status, and what stands on standard output and on error output.
pub(super) type Row<'a> = (&'a str, &'a str, u8, &'a str, &'a str);

/// Lines one after the other over a desk that is made new.
const LINES: [Row<'static>; 12] = [
    ("roll test.db", "", 3, "", "no file\n"),
    ("init missing/test.db", "", 3, "", "fault F2 Store\n"),
    ("migrate test.db", "", 3, "", "no file\n"),
    ("import test.db missing.csv", "", 3, "", "no file\n"),
    ("init test.db", "", 0, "ok\n", ""),
    ("init test.db", "", 3, "", "fault F8 Occupied\n"),
    ("migrate test.db", "", 0, "ok schema 2\n", ""),
    ("status test.db 1", "", 1, "", "refused 9 NoResolution\n"),
    ("tally test.db 7", "", 1, "", "refused 9 NoResolution\n"),
    ("once test.db --at 0", ALICE, 1, BAD_MOMENT, ""),
    ("once test.db", "", 1, BAD_HEAD, ""),
    ("once test.db --at 0", ROLL, 0, EMPTY_ROLL, ""),
];

/// Imports one after the other into another desk that is made new.
const IMPORTS: [Row<'static>; 7] = [
    ("init imported.db", "", 0, "ok\n", ""),
    ("import imported.db missing.csv", "", 3, "", "cannot read\n"),
    ("import imported.db bad.csv", "", 1, "", "bad roll 1\n"),
    (
        "import imported.db test.csv --at 0",
        "",
        1,
        "",
        "refused 1 BadMoment\n",
    ),
    (
        "import imported.db test.csv --at 1767225600",
        "",
        0,
        "ok 1 added 2 changed 0 same 0\n",
        "",
    ),
    (
        "import imported.db test.csv",
        "",
        0,
        "ok 2 added 0 changed 0 same 2\n",
        "",
    ),
    ("roll imported.db", "", 0, TWO, ""),
];

/// Lines over files that have no desk.
const NO_DESKS: [Row<'static>; 9] = [
    ("roll test.csv", "", 3, "", "fault F2 Store\n"),
    ("import test.csv bad.csv", "", 1, "", "bad roll 1\n"),
    ("roll empty.db", "", 3, "", "fault F6 NotADesk\n"),
    ("import empty.db bad.csv", "", 1, "", "bad roll 1\n"),
    ("import empty.db test.csv", "", 3, "", "fault F6 NotADesk\n"),
    ("roll byte.db", "", 3, "", "fault F6 NotADesk\n"),
    ("migrate byte.db", "", 3, "", "fault F6 NotADesk\n"),
    ("roll test.csv/desk.db", "", 3, "", "no file\n"),
    ("import test.csv/desk.db bad.csv", "", 3, "", "no file\n"),
];

/// Lines with desks in memory, and with none.
const IN_MEMORY: [Row<'static>; 8] = [
    ("init :memory:", "", 3, "", "no file\n"),
    ("migrate :memory:", "", 3, "", "no file\n"),
    ("roll :memory:", "", 0, "Developers: 0\nCurrent: 0\n", ""),
    ("result :memory: 1", "", 1, "", "refused 9 NoResolution\n"),
    ("once :memory:", ALICE, 0, ALICE_IS_IN, ""),
    ("once :memory: --at 0", ALICE, 1, BAD_MOMENT, ""),
    ("once :memory: --at 0", ROLL, 0, EMPTY_ROLL, ""),
    ("once :memory:", "", 1, BAD_HEAD, ""),
];

/// What is said to a `serve` of these files on a port that is taken.
const PORT_IS_TAKEN: [(&str, &str); 3] = [
    ("taken.db", "cannot listen\n"),
    (":memory:", "cannot listen\n"),
    ("missing.db", "no file\n"),
];

/// Lines that look at a desk.
const LOOKS: [(&str, u8); 6] = [
    ("roll logged.db", 0),
    ("status logged.db 1", 1),
    ("tally logged.db 1", 1),
    ("result logged.db 1", 1),
    ("migrate logged.db", 0),
    ("import logged.db bad.csv", 1),
];

/// Words that are answered by a text: on standard output, where they ask for help or for the
/// version.
const TEXTS: [(&str, u8, bool); 8] = [
    ("--help", 0, true),
    ("tally -h", 0, true),
    ("--version", 0, true),
    ("frob", 2, false),
    ("init", 2, false),
    ("status test.db 0", 2, false),
    ("serve test.db --port 0 --count 1", 2, false),
    ("once test.db --at 10000000000", 2, false),
];

/// Names that the database alone would take as URIs, over one file.
const URIS: [Row<'static>; 5] = [
    ("roll file:uri.db", "", 3, "", "no file\n"),
    ("init file:uri.db", "", 0, "ok\n", ""),
    ("init ./file:uri.db", "", 3, "", "fault F8 Occupied\n"),
    (
        "status file:uri.db 1",
        "",
        1,
        "",
        "refused 9 NoResolution\n",
    ),
    ("import file:uri.db bad.csv", "", 1, "", "bad roll 1\n"),
];

#[test]
fn lines_do_what_they_say(rt: HostRuntime) {
    remove(&rt, "test.db", "test.db-wal");
    let not_done = first_not_done(&rt, &LINES);
    same(&rt, not_done, Ok(None), "lines");
}

#[test]
fn imports_do_what_they_say(rt: HostRuntime) {
    remove(&rt, "imported.db", "imported.db-wal");
    make_files(&rt).expect(&rt, "files");
    let not_done = first_not_done(&rt, &IMPORTS);
    same(&rt, not_done, Ok(None), "imports");
}

#[test]
fn files_with_no_desk_stay(rt: HostRuntime) {
    make_files(&rt).expect(&rt, "files");
    let not_done = first_not_done(&rt, &NO_DESKS);
    same(&rt, not_done, Ok(None), "files with no desk");
    for (file, bytes) in [("empty.db", ""), ("byte.db", "S")] {
        same(&rt, holds(&rt, file, bytes.as_bytes()), true, file);
    }
}

/// A file of one byte may have its desk in its log, and `init` makes one of any other.
#[test]
fn a_log_may_hold_the_desk_of_a_byte(rt: HostRuntime) {
    remove(&rt, "short.db", "short.db-wal");
    same(&rt, is_made(&rt, "short.db", Unknown), true, "short.db");
    fs::write(&rt, "short.db", "S").expect(&rt, "a file");
    let done = is_done(
        &rt,
        ("roll short.db", "", 0, "Developers: 0\nCurrent: 0\n", ""),
    );
    same(&rt, done, Ok(true), "roll short.db");
    remove(&rt, "short.db", "short.db-wal");
    fs::write(&rt, "short.db", "S").expect(&rt, "a file");
    let done = is_done(&rt, ("init short.db", "", 0, "ok\n", ""));
    same(&rt, done, Ok(true), "init short.db");
}

#[test]
fn names_of_uris_are_names_of_files(rt: HostRuntime) {
    remove(&rt, "file:uri.db", "file:uri.db-wal");
    make_files(&rt).expect(&rt, "files");
    let not_done = first_not_done(&rt, &URIS);
    same(&rt, not_done, Ok(None), "names of URIs");
    let exists = fs::exists(&rt, "file:uri.db").ok();
    same(&rt, exists, Some(true), "file:uri.db");
}

#[test]
fn desks_in_memory_are_files_too(rt: HostRuntime) {
    let not_done = first_not_done(&rt, &IN_MEMORY);
    same(&rt, not_done, Ok(None), "desks in memory");
}

#[test]
fn texts_of_help_are_printed(rt: HostRuntime) {
    for (words, status, is_printed) in TEXTS {
        let wanted = (status, is_printed, !is_printed);
        same(&rt, what_comes_of(&rt, words), Ok(wanted), words);
    }
}

/// The exit status of words, and whether there is a text on standard output and on error output.
fn what_comes_of(rt: &HostRuntime, words: &str) -> Result<(u8, bool, bool), AllocError> {
    let mut output = Vec::new(rt.alloc());
    let mut errors = Vec::new(rt.alloc());
    let now = || NEW_YEAR;
    let status = status_of(rt, words, &now, io::empty(), &mut output, &mut errors)?;
    Ok((status, !output.is_empty(), !errors.is_empty()))
}

#[test]
fn no_words_are_one_request(rt: HostRuntime) {
    let mut output = Vec::new(rt.alloc());
    let input = ALICE.as_bytes();
    let status = run(
        &rt,
        &[],
        Unknown,
        &|| NEW_YEAR,
        input,
        &mut output,
        io::sink(),
    );
    same(&rt, status, 0, "no words");
    same(&rt, output.as_slice(), ALICE_IS_IN.as_bytes(), "no words");
}

/// FILE is opened before the port is taken.
#[test]
fn a_port_that_is_taken_is_not_served(rt: HostRuntime) {
    let listener = TcpListener::bind(&rt, "127.0.0.1:0").expect(&rt, "a port");
    let port = listener.local_addr().expect(&rt, "an address").port();
    remove(&rt, "taken.db", "taken.db-wal");
    let made = is_done(&rt, ("init taken.db", "", 0, "ok\n", ""));
    same(&rt, made, Ok(true), "taken.db");
    for (file, said) in PORT_IS_TAKEN {
        same(&rt, is_not_served(&rt, file, port, said), Ok(true), file);
    }
}

/// Whether this is said to a `serve` of the file on this port.
fn is_not_served(rt: &HostRuntime, file: &str, port: u16, said: &str) -> Result<bool, AllocError> {
    let line = line_of(rt.alloc(), file, port)?;
    is_done(rt, (line.as_str(), "", 3, "", said))
}

/// What only looks writes nothing, to the file and to its log, which has rows here: the desk was
/// not closed.
#[test]
fn looks_write_nothing(rt: HostRuntime) {
    remove(&rt, "logged.db", "logged.db-wal");
    make_files(&rt).expect(&rt, "files");
    same(&rt, is_made(&rt, "logged.db", Unknown), true, "logged.db");
    let file = fs::read(&rt, "logged.db").expect(&rt, "a file");
    let log = fs::read(&rt, "logged.db-wal").expect(&rt, "a log");
    same(&rt, log.is_empty(), false, "the log");
    for (line, status) in LOOKS {
        same(&rt, status_alone(&rt, line, ""), Ok(status), line);
        same(&rt, holds(&rt, "logged.db", file.as_slice()), true, line);
        same(&rt, holds(&rt, "logged.db-wal", log.as_slice()), true, line);
    }
}

/// The exit status of a line with this input, by a clock that stands at the new year.
fn status_alone(rt: &HostRuntime, line: &str, input: &str) -> Result<u8, AllocError> {
    let input = input.as_bytes();
    status_of(rt, line, &|| NEW_YEAR, input, io::sink(), io::sink())
}

/// A command that has ended leaves all of the desk in its file.
#[test]
fn a_file_has_all_by_itself(rt: HostRuntime) {
    remove(&rt, "whole.db", "whole.db-wal");
    make_files(&rt).expect(&rt, "files");
    for (line, input, roll) in [
        ("init whole.db", "", "Developers: 0\nCurrent: 0\n"),
        ("import whole.db test.csv", "", TWO),
        ("once whole.db", CAROL, THREE),
    ] {
        same(&rt, status_alone(&rt, line, input), Ok(0), line);
        remove(&rt, "copy.db", "copy.db-wal");
        fs::copy(&rt, "whole.db", "copy.db").expect(&rt, "a copy");
        let done = is_done(&rt, ("roll copy.db", "", 0, roll, ""));
        same(&rt, done, Ok(true), line);
    }
}

/// The files of the tests here and in `streams.rt` but for their desks.
pub(super) fn make_files(rt: &HostRuntime) -> io::Result<()> {
    fs::write(rt, "test.csv", CSV)?;
    fs::write(rt, "bad.csv", "login,name\n")?;
    fs::write(rt, "byte.db", "S")?;
    fs::write(rt, "empty.db", "")
}

/// Whether a file can be read and has just these bytes.
pub(super) fn holds(rt: &HostRuntime, file: &str, bytes: &[u8]) -> bool {
    match fs::read(rt, file) {
        Ok(found) => found.as_slice() == bytes,
        Err(_) => false,
    }
}

/// A line that would serve one connection on this port.
pub(super) fn line_of(alloc: Global, file: &str, port: u16) -> Result<String, AllocError> {
    format!(in alloc; "serve {file} --port {port} --count 1")
}

/// The first line that does not do what its row says.
pub(super) fn first_not_done<'a>(
    rt: &HostRuntime,
    rows: &[Row<'a>],
) -> Result<Option<&'a str>, AllocError> {
    for row in rows {
        if !is_done(rt, *row)? {
            return Ok(Some(row.0));
        }
    }
    Ok(None)
}

/// Whether a line does what its row says, by a clock that stands at the new year.
pub(super) fn is_done(rt: &HostRuntime, row: Row<'_>) -> Result<bool, AllocError> {
    let (line, input, wanted, printed, said) = row;
    let mut output = Vec::new(rt.alloc());
    let mut errors = Vec::new(rt.alloc());
    let input = input.as_bytes();
    let status = status_of(rt, line, &|| NEW_YEAR, input, &mut output, &mut errors)?;
    Ok(
        status == wanted
            && output.as_slice() == printed.as_bytes()
            && errors.as_slice() == said.as_bytes(),
    )
}

/// The exit status of a line, by this clock and over these streams.
pub(super) fn status_of<N: Fn() -> u64, R: Read + Drop, O: Write + Drop, E: Write + Drop>(
    rt: &HostRuntime,
    line: &str,
    now: &N,
    input: R,
    output: O,
    errors: E,
) -> Result<u8, AllocError>
    requires { N.IsAlwaysCallable now.now }
{
    let words = words_of(rt.alloc(), line)?;
    Ok(run(rt, words.as_slice(), Unknown, now, input, output, errors))
}
