//! Lines over a machine in memory, of which it is known what its file has and what was asked of it.
use super::lines::{CAROL, CSV, THREE};
use super::migrations::{ROLL, VERSION_1};
use super::{ALICE, ALICE_IS_IN, NEW_YEAR, same, words_of};
use crate::asked::Asked;
use crate::one_file::OneFile;
use gr_desk::ending::Ending;
use gr_desk::file::{close_files, give_up};
use gr_desk::program::run_on;
use gr_http::input::FromRead;
use gr_http::output::ToWrite;
use sqlite::{Connection, FileStore, Files, Options};
use sqlite_disk::{Disk, Memory};
use std::alloc::{AllocError, Global};
use std::process::Abort;

/// Takes back the files of the connection that a line left: closed, or as they are.
fn take_back<D: Disk + Drop>(host: &mut OneFile<'_, D>, ended: Ending<FileStore<D>>) {
    let files = match ended {
        Ending::Nothing => return,
        Ending::Close(conn) => match conn.close_files() {
            Ok(files) => files,
            Err((_, store)) => store.close(),
        },
        Ending::LetGo(conn) => give_up(conn),
    };
    drop(host.files.replace(files));
}

/// A line, its input, its exit status, what stands on standard output, and what it asks for.
pub(super) type Row<'a> = (&'a str, &'a str, u8, &'a str, &'a str);

const CAROL_IS_IN: &str = "HTTP/1.1 200 OK\r\nContent-Type: text/plain; charset=utf-8\r\n\
    Content-Length: 5\r\nConnection: close\r\n\r\nok 2\n";

/// The roll after the connection that waits.
const RENAMED: &str = "Developers: 3\nCurrent: 2\nD: alice current Alice Baker\n\
    D: bob retired Brown, Bob\nD: carol current Carol\n";

/// What comes on the port.
const WAITING: &str = "POST /developers HTTP/1.1\r\nContent-Length: 43\r\n\r\n\
    login=alice&name=Alice+Baker&status=current";

const LINES: [Row<'static>; 15] = [
    ("roll desk.db", "", 3, "", ""),
    ("import desk.db roll.csv", "", 3, "", ""),
    ("init desk.db", "", 0, "ok\n", "make desk.db"),
    (
        "import desk.db roll.csv",
        "",
        0,
        "ok 1 added 2 changed 0 same 0\n",
        "read roll.csv, open desk.db",
    ),
    ("once desk.db", CAROL, 0, CAROL_IS_IN, "open desk.db"),
    ("roll desk.db", "", 0, THREE, "open desk.db"),
    ("init desk.db", "", 3, "", "make desk.db"),
    (
        "serve desk.db --port 8123 --count 1",
        "",
        0,
        "listening 127.0.0.1:8123\n",
        "open desk.db, listen 8123",
    ),
    ("roll desk.db", "", 0, RENAMED, "open desk.db"),
    ("migrate desk.db", "", 0, "ok schema 2\n", "open desk.db"),
    ("result desk.db 1", "", 1, "", "open desk.db"),
    ("once :memory:", ALICE, 0, ALICE_IS_IN, ""),
    (
        "import :memory: roll.csv",
        "",
        0,
        "ok 1 added 2 changed 0 same 0\n",
        "read roll.csv",
    ),
    ("init :memory:", "", 3, "", ""),
    ("frob desk.db", "", 2, "", ""),
];

/// Lines over a file of version 1.
pub(super) const VERSION_1_LINES: [Row<'static>; 5] = [
    ("roll desk.db", "", 3, "", "open desk.db"),
    ("init desk.db", "", 3, "", "make desk.db"),
    ("migrate desk.db", "", 0, "ok schema 2\n", "open desk.db"),
    ("roll desk.db", "", 0, ROLL, "open desk.db"),
    ("migrate desk.db", "", 0, "ok schema 2\n", "open desk.db"),
];

#[test]
fn lines_ask_for_what_they_name(rt: HostRuntime) {
    let alloc = rt.alloc();
    let files = Files {
        log: Memory::new(alloc),
        db: Memory::new(alloc),
    };
    do_what_they_say(&rt, alloc, files, false, LINES.as_slice());
}

#[test]
fn a_desk_of_version_1_is_lifted(rt: HostRuntime) {
    let files = files_of_version_1(rt.alloc(), false).expect(&rt, "a desk of version 1");
    do_what_they_say(&rt, rt.alloc(), files, true, VERSION_1_LINES.as_slice());
}

/// Files with a desk of version 1, with sums on their pages or without.
pub(super) fn files_of_version_1(alloc: Global, has_sums: bool) -> Option<Files<Memory>> {
    let files = Files {
        log: Memory::new(alloc),
        db: Memory::new(alloc),
    };
    if !files.may_be_used() {
        return None;
    }
    let opened = Connection::open_files_with(alloc, files, Options::new(7), has_sums);
    let mut conn = opened.ok()?;
    conn.execute_batch(VERSION_1).ok()?;
    close_files(conn).ok()
}

/// Wants these lines to do what their rows say, over a machine with these files.
fn do_what_they_say<D: Disk + Drop>(
    rt: &impl Abort,
    alloc: Global,
    files: Files<D>,
    is_made: bool,
    rows: &[Row<'_>],
) {
    let awaited = [WAITING.as_bytes()];
    let mut host = OneFile {
        alloc,
        name: "desk.db",
        files: Some(files),
        is_made,
        roll: CSV.as_bytes(),
        awaited: awaited.as_slice(),
        asked: Vec::new(alloc),
    };
    for row in rows {
        same(rt, is_done(alloc, &mut host, *row), Ok(true), row.0);
    }
}

/// Whether the line does what its row says.
pub(super) fn is_done<D: Disk + Drop>(
    alloc: Global,
    host: &mut OneFile<'_, D>,
    row: Row<'_>,
) -> Result<bool, AllocError> {
    let (line, input, status, printed, wanted) = row;
    let words = words_of(alloc, line)?;
    let mut input = FromRead::new(input.as_bytes());
    let mut output = ToWrite::new(Vec::new(alloc));
    let mut errors = ToWrite::new(Vec::new(alloc));
    let now = || NEW_YEAR;
    let (found, ended) = run_on(
        alloc,
        host,
        words.as_slice(),
        &now,
        &mut input,
        &mut output,
        &mut errors,
    );
    take_back(host, ended);
    let is_printed = output.into_inner().as_slice() == printed.as_bytes();
    Ok(found == status && is_printed && was_asked(host, wanted))
}

/// Whether this, with commas between, was asked of the host. It is forgotten then.
fn was_asked<D: Disk + Drop>(host: &mut OneFile<'_, D>, wanted: &str) -> bool {
    let mut wanted = wanted.split(", ").filter(|text| !text.is_empty());
    let mut was = true;
    for asked in &host.asked {
        was = was && wanted.next().is_some_and(|text| is_said(asked, text));
    }
    host.asked.clear();
    was && wanted.next().is_none()
}

/// Whether the text says this.
fn is_said(asked: &Asked, text: &str) -> bool {
    match asked {
        Asked::Opens(name) => text.strip_prefix("open ") == Some(name.as_str()),
        Asked::Makes(name, has_sums) => {
            let kind = if *has_sums {
                "make with sums "
            } else {
                "make "
            };
            text.strip_prefix(kind) == Some(name.as_str())
        }
        Asked::Reads(name) => text.strip_prefix("read ") == Some(name.as_str()),
        Asked::Listens(port) => text
            .strip_prefix("listen ")
            .is_some_and(|number| number.parse() == Ok(*port)),
    }
}
