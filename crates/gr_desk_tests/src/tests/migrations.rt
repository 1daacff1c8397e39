//! Files of version 1, and what `migrate` makes of them.
use super::lines::{Row, first_not_done, holds, is_done};
use super::{remove, same};
use sqlite::{Connection, Error};
use std::alloc::AllocError;
use std::fs;

/// The tables of version 1, with the rows of two developers, of a resolution in voting, and of two
/// ballots on it.
pub(super) const VERSION_1: &str = "
CREATE TABLE desk (id INTEGER PRIMARY KEY, version INTEGER NOT NULL,
  accepted INTEGER NOT NULL, clock INTEGER NOT NULL) STRICT;
CREATE TABLE developer (login TEXT PRIMARY KEY NOT NULL, name TEXT NOT NULL,
  active INTEGER NOT NULL) STRICT;
CREATE TABLE resolution (number INTEGER PRIMARY KEY, stage INTEGER NOT NULL,
  start INTEGER NOT NULL, changed INTEGER NOT NULL, shift INTEGER NOT NULL,
  called INTEGER NOT NULL, days INTEGER NOT NULL, devs INTEGER NOT NULL,
  chosen INTEGER NOT NULL) STRICT;
CREATE TABLE choice (resolution INTEGER NOT NULL, number INTEGER NOT NULL,
  kind INTEGER NOT NULL, proposer TEXT NOT NULL, summary TEXT NOT NULL,
  body TEXT NOT NULL, ratio INTEGER NOT NULL, introduced INTEGER NOT NULL,
  short INTEGER NOT NULL, place INTEGER NOT NULL,
  PRIMARY KEY (resolution, number)) STRICT;
CREATE TABLE sponsor (resolution INTEGER NOT NULL, choice INTEGER NOT NULL,
  login TEXT NOT NULL, active INTEGER NOT NULL,
  PRIMARY KEY (resolution, choice, login)) STRICT;
CREATE TABLE ballot (resolution INTEGER NOT NULL, login TEXT NOT NULL,
  ranks TEXT NOT NULL, receipt TEXT NOT NULL,
  PRIMARY KEY (resolution, login)) STRICT;
INSERT INTO desk VALUES (1, 1, 6, 1768435200);
INSERT INTO developer VALUES ('d1', 'One', 1), ('d2', 'Two', 1);
INSERT INTO resolution VALUES (1, 2, 1767225600, 0, 0, 1768435200, 7, 2, 0);
INSERT INTO choice VALUES (1, 1, 2, '', 'Red', 'a', 1, 1767225600, 0, 1);
INSERT INTO ballot VALUES
  (1, 'd1', '12', '900eb73ab7e42d7eb72f6524157a5dfa609a0f27b79f9c9ac235cd6931258b07'),
  (1, 'd2', '1-', '921e9e589da0a2af233149c221978bdcc2592cd63c52284e55c350b0aac3bdfa');
";

/// The roll of it.
pub(super) const ROLL: &str = "Developers: 2\nCurrent: 2\nD: d1 current One\nD: d2 current Two\n";

const VOTE: &str = "POST /resolutions/1/vote HTTP/1.1\r\nContent-Length: 32\r\n\r\n\
    login=d1&ranks=21&token=tokenA02";

const VOTED: &str = "HTTP/1.1 200 OK\r\nContent-Type: text/plain; charset=utf-8\r\n\
    Content-Length: 78\r\nConnection: close\r\n\r\n\
    ok 7 receipt 119534b4c68825524838984ea0d81ed2c4192b90252e5415d875d7d362ea325b\n";

const CLOSE: &str = "POST /resolutions/1/close HTTP/1.1\r\n\r\n";

const CLOSED: &str = "HTTP/1.1 200 OK\r\nContent-Type: text/plain; charset=utf-8\r\n\
    Content-Length: 5\r\nConnection: close\r\n\r\nok 8\n";

const RESULT: &str = "Result of resolution 1\n\
    Voting: 2026-01-15T00:00:00Z to 2026-01-22T00:00:00Z\n\
    Developers: 2\nBallots: 2\nReceived: 3\nOption 1: Red\nOption 2: None of the above\n\
    Test 1: above 1, below 1, ratio 1, quorum failed, majority failed, dropped\n\
    Schwartz: 2\nWinner: 2\n";

/// Lines over a file of version 1, which come before its migration.
const BEFORE: [Row<'static>; 5] = [
    ("roll version_1.db", "", 3, "", "fault F7 TooOld\n"),
    ("result version_1.db 1", "", 3, "", "fault F7 TooOld\n"),
    ("once version_1.db", VOTE, 3, "", "fault F7 TooOld\n"),
    ("init version_1.db", "", 3, "", "fault F8 Occupied\n"),
    (
        "import version_1.db missing.csv",
        "",
        3,
        "",
        "cannot read\n",
    ),
];

/// And after it.
const BEHIND: [Row<'static>; 4] = [
    ("once version_1.db --at 1768435200", VOTE, 0, VOTED, ""),
    ("once version_1.db --at 1769040000", CLOSE, 0, CLOSED, ""),
    ("result version_1.db 1", "", 0, RESULT, ""),
    ("migrate version_1.db", "", 0, "ok schema 2\n", ""),
];

const MIGRATE: Row<'static> = ("migrate version_1.db", "", 0, "ok schema 2\n", "");

#[test]
fn a_desk_of_version_1_is_migrated(rt: HostRuntime) {
    make(&rt, "version_1.db", "").expect(&rt, "a file");
    let held = fs::read(&rt, "version_1.db").expect(&rt, "a file");
    same(&rt, first_not_done(&rt, &BEFORE), Ok(None), "lines before");
    let is_held = holds(&rt, "version_1.db", held.as_slice());
    same(&rt, is_held, true, "version_1.db");
    same(&rt, is_done(&rt, MIGRATE), Ok(true), "a migration");
    // The file has it by itself.
    let brought = fs::read(&rt, "version_1.db").expect(&rt, "a file");
    remove(&rt, "brought.db", "brought.db-wal");
    fs::copy(&rt, "version_1.db", "brought.db").expect(&rt, "a copy");
    let shown = is_done(&rt, ("roll brought.db", "", 0, ROLL, ""));
    same(&rt, shown, Ok(true), "brought.db");
    // A second migration writes nothing.
    same(&rt, is_done(&rt, MIGRATE), Ok(true), "a second migration");
    let is_held = holds(&rt, "version_1.db", brought.as_slice());
    same(&rt, is_held, true, "version_1.db, upgraded");
    same(&rt, first_not_done(&rt, &BEHIND), Ok(None), "lines behind");
}

/// What is no desk of version 1, or has a table with the new name, stays as it is.
#[test]
fn no_other_file_is_migrated(rt: HostRuntime) {
    for (file, change, said) in [
        (
            "damaged.db",
            "DELETE FROM developer WHERE login = 'd2'",
            "fault F4 Damaged\n",
        ),
        (
            "zero.db",
            "UPDATE desk SET version = 0",
            "fault F4 Damaged\n",
        ),
        (
            "second.db",
            "UPDATE desk SET version = 2",
            "fault F4 Damaged\n",
        ),
        (
            "third.db",
            "UPDATE desk SET version = 3",
            "fault F5 TooNew\n",
        ),
        (
            "taken.db",
            "CREATE TABLE ballot2 (a)",
            "fault F8 Occupied\n",
        ),
    ] {
        make(&rt, file, change).expect(&rt, "a file");
        let held = fs::read(&rt, file).expect(&rt, "a file");
        same(&rt, is_refused(&rt, file, said), Ok(true), file);
        same(&rt, holds(&rt, file, held.as_slice()), true, file);
    }
}

/// Whether this is said to a `migrate` of the file.
fn is_refused(rt: &HostRuntime, file: &str, said: &str) -> Result<bool, AllocError> {
    let line = format!(in rt.alloc(); "migrate {file}")?;
    is_done(rt, (line.as_str(), "", 3, "", said))
}

/// Takes away a file and its log.
fn remove_both(rt: &HostRuntime, file: &str) -> Result<(), AllocError> {
    let log = format!(in rt.alloc(); "{file}-wal")?;
    remove(rt, file, log.as_str());
    Ok(())
}

/// Makes a file of version 1, with one thing changed, and closes it.
fn make(rt: &HostRuntime, file: &str, change: &str) -> Result<(), Error> {
    remove_both(rt, file)?;
    let mut conn = Connection::open(rt, file)?;
    conn.execute_batch(VERSION_1)?;
    conn.execute_batch(change)?;
    conn.close()
}
