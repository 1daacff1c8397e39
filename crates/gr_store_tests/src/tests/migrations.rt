//! What a migration makes of a database with a desk of version 1, and what it leaves of any other.
use super::{DESK, OTHERS, content, database, database_of, found_in, push_answer, same};
use gr_store::laws::{migrated_desk_in_memory, new_desk_of_version_1_in_memory};
use gr_store::{Fault, NotOpened, Store};
use sqlite::{Alter, Connection, MemStore};
use std::alloc::Global;
use std::process::Abort;

/// The tables of version 1 beside the table `desk`: another table of ballots.
const BALLOT_1: &str = "DROP TABLE ballot2;
CREATE TABLE ballot (resolution INTEGER NOT NULL, login TEXT NOT NULL,
  ranks TEXT NOT NULL, receipt TEXT NOT NULL,
  PRIMARY KEY (resolution, login)) STRICT;";

/// A desk of version 1, in whose vote two developers have a ballot. Its greatest resolution has one
/// choice in each place that there may be, and a ballot with ranks past 9.
const ROWS: &str = "
INSERT INTO desk VALUES (1, 1, 30, 2000);
INSERT INTO developer VALUES ('ada', 'Ada Able', 1), ('ben', 'Ben Best', 1), ('cy', 'Cy Cole', 0);
INSERT INTO resolution VALUES (1, 0, 0, 0, 0, 0, 0, 0, 0), (2, 2, 500, 0, -7, 900, 7, 2000, 0),
    (3, 2, 500, 0, -7, 900, 7, 2000, 0);
INSERT INTO choice VALUES (1, 1, 1, 'ada', 'Draft', 'Text', 1, 0, 0, 0),
    (2, 1, 3, '', 'One', 'Text', 1, 500, 0, 1), (3, 1, 2, '', 'One', 'Text', 1, 500, 0, 1),
    (3, 2, 2, '', 'Two', 'Text', 1, 500, 0, 2), (3, 3, 2, '', 'Three', 'Text', 1, 500, 0, 3),
    (3, 4, 2, '', 'Four', 'Text', 1, 500, 0, 4), (3, 5, 2, '', 'Five', 'Text', 1, 500, 0, 5),
    (3, 6, 2, '', 'Six', 'Text', 1, 500, 0, 6), (3, 7, 2, '', 'Seven', 'Text', 1, 500, 0, 7),
    (3, 8, 2, '', 'Eight', 'Text', 1, 500, 0, 8), (3, 9, 2, '', 'Nine', 'Text', 1, 500, 0, 9),
    (3, 10, 2, '', 'Ten', 'Text', 1, 500, 0, 10);
INSERT INTO sponsor VALUES (1, 1, 'ben', 1);
INSERT INTO ballot VALUES
    (2, 'ada', '12', '0123456789abcdef0123456789abcdef0123456789abcdef0123456789abcdef'),
    (2, 'cy', '--', '0000000000000000000000000000000000000000000000000000000000000000'),
    (3, 'ben', 'b987654321-', '1111111111111111111111111111111111111111111111111111111111111111');
";

/// The header of a new desk of version 1.
const NEW: &str = "INSERT INTO desk VALUES (1, 1, 0, 0);";

/// The statements that do by hand what a migration does to it.
const BY_HAND: &str = "CREATE TABLE ballot2 (resolution INTEGER NOT NULL, login TEXT NOT NULL,
  ranks TEXT NOT NULL, receipt TEXT NOT NULL, received INTEGER NOT NULL,
  PRIMARY KEY (resolution, login)) STRICT;
INSERT INTO ballot2 SELECT resolution, login, ranks, receipt, 1 FROM ballot;
DELETE FROM ballot;
UPDATE desk SET version = 2;";

/// What is found of that desk.
const FOUND: &str = "accepted 30 clock 2000 developers 3";

/// The same ballots in a table that has further columns, in front of those of version 1 and after
/// them.
const WIDER_BALLOT: &str = "DROP TABLE ballot;
CREATE TABLE ballot (note TEXT, resolution INTEGER NOT NULL, login TEXT NOT NULL,
  ranks TEXT NOT NULL, receipt TEXT NOT NULL, weight REAL DEFAULT 1.5,
  PRIMARY KEY (resolution, login)) STRICT;
INSERT INTO ballot (note, resolution, login, ranks, receipt) VALUES
    ('by mail', 2, 'ada', '12',
    '0123456789abcdef0123456789abcdef0123456789abcdef0123456789abcdef'),
    (NULL, 2, 'cy', '--', '0000000000000000000000000000000000000000000000000000000000000000'),
    ('', 3, 'ben', 'b987654321-',
    '1111111111111111111111111111111111111111111111111111111111111111')";

/// What stands beside it, or in a further column of its ballots, and makes no difference.
const BESIDE: [&str; 6] = [
    "",
    WIDER_BALLOT,
    "CREATE TABLE ballots (a); INSERT INTO ballots VALUES (1); CREATE INDEX by_a ON ballots (a)",
    "CREATE VIEW votes AS SELECT login FROM ballot; CREATE VIEW twice AS SELECT * FROM votes",
    "CREATE TABLE counted (a INTEGER PRIMARY KEY AUTOINCREMENT); INSERT INTO counted VALUES (7)",
    "CREATE TABLE member (login TEXT REFERENCES developer); INSERT INTO member VALUES ('ada')",
];

/// Statements on that desk, and why it is not migrated.
const LEFT: [(&str, &str); 15] = [
    ("DROP TABLE desk", "no table desk"),
    ("UPDATE desk SET version = 3", "a desk of a later version"),
    (
        "UPDATE desk SET version = 3; DROP TABLE ballot",
        "a desk of a later version",
    ),
    (
        "UPDATE desk SET version = 3; CREATE TABLE ballot2 (a)",
        "a desk of a later version",
    ),
    ("UPDATE desk SET version = 0", "the rows of no valid desk"),
    ("UPDATE desk SET version = -1", "the rows of no valid desk"),
    ("UPDATE desk SET id = 2", "the rows of no valid desk"),
    (
        "INSERT INTO desk VALUES (2, 1, 30, 2000)",
        "the rows of no valid desk",
    ),
    ("UPDATE desk SET accepted = 0", "the rows of no valid desk"),
    ("UPDATE ballot SET ranks = ''", "the rows of no valid desk"),
    (
        "UPDATE ballot SET ranks = ''; CREATE TABLE ballot2 (a)",
        "the rows of no valid desk",
    ),
    ("DROP TABLE ballot", "the rows of no valid desk"),
    ("CREATE TABLE Ballot2 (a)", "a name of the tables is taken"),
    (
        "CREATE VIEW ballot2 AS SELECT 1 AS a",
        "a name of the tables is taken",
    ),
    (
        "CREATE TABLE other (a); CREATE INDEX BALLOT2 ON other (a)",
        "a name of the tables is taken",
    ),
];

/// Rows of a table `desk` alone, and what is found: of this version too, which is not looked at.
const ALONE: [(&str, &str); 6] = [
    ("(1, 3, 0, 0)", "a desk of a later version"),
    ("(2, 3, 0, 0)", "the rows of no valid desk"),
    ("(1, 2, 0, 0)", "the rows of no valid desk"),
    ("(1, 1, 0, 0)", "the rows of no valid desk"),
    ("(1, 0, 0, 0)", "the rows of no valid desk"),
    ("(1, 2, 0, 0), (2, 2, 0, 0)", "the rows of no valid desk"),
];

#[test]
fn a_desk_of_version_1_is_migrated(rt: HostRuntime) {
    for beside in &BESIDE {
        is_migrated_beside(&rt, rt.alloc(), beside);
    }
}

/// Wants a desk of version 1 to be migrated beside what these statements make.
fn is_migrated_beside(rt: &impl Abort, alloc: Global, beside: &str) {
    let made = [DESK, OTHERS, BALLOT_1, ROWS, beside];
    let wanted = [DESK, OTHERS, BALLOT_1, ROWS, beside, BY_HAND];
    becomes(rt, alloc, &made, &wanted, beside);
}

#[test]
fn a_new_desk_of_version_1_is_migrated(rt: HostRuntime) {
    is_made_and_migrated(&rt, rt.alloc(), "a new desk of version 1");
}

/// Wants the laws to make what the statements of version 1 make, and of that what they do by hand.
fn is_made_and_migrated(rt: &impl Abort, alloc: Global, about: &str) {
    let made = [DESK, OTHERS, BALLOT_1, NEW];
    let wanted = all(rt, alloc, &mut database(rt, alloc, &made));
    let mut conn = desk_of_version_1(alloc).expect(rt, about);
    has_all(rt, alloc, &mut conn, wanted.as_str(), about);
    let made = [DESK, OTHERS, BALLOT_1, NEW, BY_HAND];
    let wanted = all(rt, alloc, &mut database(rt, alloc, &made));
    let mut conn = database_of(migrated_desk(alloc).expect(rt, about));
    has_all(rt, alloc, &mut conn, wanted.as_str(), about);
}

fn desk_of_version_1(alloc: Global) -> Result<Connection<MemStore>, Fault> {
    new_desk_of_version_1_in_memory(alloc)
}

fn migrated_desk(alloc: Global) -> Result<Store<MemStore>, Fault> {
    migrated_desk_in_memory(alloc)
}

#[test]
fn a_desk_of_this_version_stays(rt: HostRuntime) {
    let made = [DESK, OTHERS, BALLOT_1, ROWS, BY_HAND];
    becomes(&rt, rt.alloc(), &made, &made, "of this version");
}

#[test]
fn other_databases_are_left(rt: HostRuntime) {
    for (statements, wanted) in &LEFT {
        let made = [DESK, OTHERS, BALLOT_1, ROWS, statements];
        is_left(&rt, rt.alloc(), &made, wanted, statements);
    }
}

#[test]
fn a_header_alone_is_left(rt: HostRuntime) {
    for (rows, wanted) in &ALONE {
        is_left_with_header(&rt, rt.alloc(), rows, wanted);
    }
}

/// Wants this to be found by a migration of a table `desk` with these rows.
fn is_left_with_header(rt: &impl Abort, alloc: Global, rows: &str, wanted: &str) {
    let insert = format!(in alloc; "INSERT INTO desk VALUES {rows}").expect(rt, "memory");
    is_left(rt, alloc, &[DESK, insert.as_str()], wanted, rows);
}

/// Wants a migration of the database that the first statements make to leave that of the others,
/// with the desk, and a second one to leave it as it is.
fn becomes(rt: &impl Abort, alloc: Global, made: &[&str], wanted: &[&str], about: &str) {
    let wanted = all(rt, alloc, &mut database(rt, alloc, wanted));
    let conn = database(rt, alloc, made);
    let conn = is_migrated(rt, alloc, conn, FOUND, wanted.as_str(), about);
    is_migrated(rt, alloc, conn, FOUND, wanted.as_str(), about);
}

/// Wants this to be found by a migration, and the database to be as it was.
fn is_left(rt: &impl Abort, alloc: Global, statements: &[&str], wanted: &str, about: &str) {
    let mut conn = database(rt, alloc, statements);
    let before = all(rt, alloc, &mut conn);
    is_migrated(rt, alloc, conn, wanted, before.as_str(), about);
}

/// Wants this to be found by a migration, and the database to have this content in all tables then.
fn is_migrated<S: Alter + Drop>(
    rt: &impl Abort,
    alloc: Global,
    conn: Connection<S>,
    wanted: &str,
    content: &str,
    about: &str,
) -> Connection<S> {
    let (found, mut conn) = found_in(rt, alloc, upgraded(alloc, conn));
    same(rt, found.as_str(), wanted, about);
    has_all(rt, alloc, &mut conn, content, about);
    conn
}

/// The store that a migration gives over a database.
fn upgraded<S: Alter>(alloc: Global, conn: Connection<S>) -> Result<Store<S>, NotOpened<S>> {
    Store::migrate(alloc, conn)
}

/// What stands in all tables that there may be, and the texts of all that the database has.
fn all<S: Alter>(rt: &impl Abort, alloc: Global, conn: &mut Connection<S>) -> String {
    let mut all = content(rt, alloc, conn);
    let ballots = "SELECT 'ballot', * FROM ballot ORDER BY 2, 3";
    push_answer(rt, &mut all, conn, ballots);
    all
}

/// Wants the database to have this content in all tables.
fn has_all<S: Alter>(
    rt: &impl Abort,
    alloc: Global,
    conn: &mut Connection<S>,
    wanted: &str,
    about: &str,
) {
    let found = all(rt, alloc, conn);
    same(rt, found.as_str(), wanted, about);
}
