//! The tests of the store over memory, a module for each subject. Here: what they have in common.
//!
//! A database is made by statements, and what the store finds in it is told in words: `adopt` and
//! `load` together answer a fault, or how many commands the desk accepted, its clock and how many
//! developers it has.
use gr_core::{Command, Desk, NoPlan, Plan};
use gr_store::{Fault, NotOpened, Store};
use sqlite::types::ValueRef;
use sqlite::{Alter, Connection, Error, MemStore, Row};
use std::alloc::{AllocError, Global};
use std::process::Abort;

mod commits;
mod created;
mod damages;
mod full;
mod headers;
mod large;
mod migrations;
mod tables;

/// The statements that make the tables, as docs/formats.md has them.
const DESK: &str = "CREATE TABLE desk (id INTEGER PRIMARY KEY, version INTEGER NOT NULL,
  accepted INTEGER NOT NULL, clock INTEGER NOT NULL) STRICT;";

const OTHERS: &str = "CREATE TABLE developer (login TEXT PRIMARY KEY NOT NULL, name TEXT NOT NULL,
  active INTEGER NOT NULL) STRICT;
CREATE TABLE resolution (number INTEGER PRIMARY KEY, stage INTEGER NOT NULL,
  start INTEGER NOT NULL, changed INTEGER NOT NULL, shift INTEGER NOT NULL,
  called INTEGER NOT NULL, days INTEGER NOT NULL, devs INTEGER NOT NULL,
  chosen INTEGER NOT NULL) STRICT;
CREATE TABLE choice (resolution INTEGER NOT NULL, number INTEGER NOT NULL,
  kind INTEGER NOT NULL, proposer TEXT NOT NULL, summary TEXT NOT NULL,
  body TEXT NOT NULL, ratio INTEGER NOT NULL, introduced INTEGER NOT NULL,
  short INTEGER NOT NULL, place INTEGER NOT NULL,
  PRIMARY KEY (resolution, number)) STRICT;
CREATE TABLE sponsor (resolution INTEGER NOT NULL, choice INTEGER NOT NULL,
  login TEXT NOT NULL, active INTEGER NOT NULL,
  PRIMARY KEY (resolution, choice, login)) STRICT;
CREATE TABLE ballot2 (resolution INTEGER NOT NULL, login TEXT NOT NULL,
  ranks TEXT NOT NULL, receipt TEXT NOT NULL, received INTEGER NOT NULL,
  PRIMARY KEY (resolution, login)) STRICT;";

/// A desk of one developer.
const ALICE: &str = "INSERT INTO desk VALUES (1, 2, 1, 5);
INSERT INTO developer VALUES ('alice', 'Alice Adams', 1);";

/// The rows of each table, in the order of their keys.
const SELECTS: [&str; 6] = [
    "SELECT 'desk', * FROM desk ORDER BY 2",
    "SELECT 'developer', * FROM developer ORDER BY 2",
    "SELECT 'resolution', * FROM resolution ORDER BY 2",
    "SELECT 'choice', * FROM choice ORDER BY 2, 3",
    "SELECT 'sponsor', * FROM sponsor ORDER BY 2, 3, 4",
    "SELECT 'ballot2', * FROM ballot2 ORDER BY 2, 3",
];

/// The database that these statements make.
fn database(rt: &impl Abort, alloc: Global, statements: &[&str]) -> Connection<MemStore> {
    let mut conn = Connection::open_in_memory(alloc).expect(rt, "memory");
    execute(rt, &mut conn, statements);
    conn
}

fn execute<S: Alter>(rt: &impl Abort, conn: &mut Connection<S>, statements: &[&str]) {
    for text in statements {
        conn.execute_batch(text).expect(rt, text);
    }
}

/// Wants the text to be this one. Whoever compares texts does it here, since each assertion costs
/// its function a proof.
fn same(rt: &impl Abort, found: &str, wanted: &str, about: &str) {
    assert_eq!(rt; found, wanted, "{about}");
}

/// Wants this to be found in the database that the first statements make, after the statements of
/// each case by itself.
fn each_is_found(rt: &impl Abort, alloc: Global, before: &[&str], cases: &[(&str, &str)]) {
    for (statements, wanted) in cases {
        is_found(rt, alloc, before, statements, wanted);
    }
}

/// Wants this to be found in the database that the first statements make, after the others.
fn is_found(rt: &impl Abort, alloc: Global, before: &[&str], statements: &str, wanted: &str) {
    let mut conn = database(rt, alloc, before);
    execute(rt, &mut conn, &[statements]);
    is_found_in(rt, alloc, conn, wanted, statements);
}

/// Tells what the store finds in the database, and wants that database to be as it was.
fn is_found_in<S: Alter + Drop>(
    rt: &impl Abort,
    alloc: Global,
    conn: Connection<S>,
    wanted: &str,
    about: &str,
) {
    let mut conn = conn;
    let before = content(rt, alloc, &mut conn);
    let (found, mut conn) = loaded(rt, alloc, conn);
    same(rt, found.as_str(), wanted, about);
    has_content(rt, alloc, &mut conn, before.as_str(), about);
}

/// Wants the database to have this content.
fn has_content<S: Alter>(
    rt: &impl Abort,
    alloc: Global,
    conn: &mut Connection<S>,
    wanted: &str,
    about: &str,
) {
    let found = content(rt, alloc, conn);
    same(rt, found.as_str(), wanted, about);
}

/// What `adopt` and `load` answer in words, and the connection.
fn loaded<S: Alter + Drop>(
    rt: &impl Abort,
    alloc: Global,
    conn: Connection<S>,
) -> (String, Connection<S>) {
    found_in(rt, alloc, adopted(conn))
}

/// Why there is no store, or what it loads, in words; and the connection.
fn found_in<S: Alter + Drop>(
    rt: &impl Abort,
    alloc: Global,
    opened: Result<Store<S>, NotOpened<S>>,
) -> (String, Connection<S>) {
    match opened {
        Ok(mut store) => {
            let found = found(rt, alloc, &mut store);
            (found, database_of(store))
        }
        Err(NotOpened { conn, fault }) => (words_of(rt, alloc, fault), conn),
    }
}

/// The store over a database.
fn adopted<S: Alter>(conn: Connection<S>) -> Result<Store<S>, NotOpened<S>> {
    Store::adopt(conn)
}

/// The same, where it has to be one.
fn store_over<S: Alter + Drop>(rt: &impl Abort, conn: Connection<S>) -> Store<S> {
    store_of(rt, adopted(conn), "an adoption")
}

/// The store that was opened, where it has to be one.
fn store_of<S: Alter + Drop>(
    rt: &impl Abort,
    opened: Result<Store<S>, NotOpened<S>>,
    about: &str,
) -> Store<S> {
    match opened {
        Ok(store) => store,
        Err(NotOpened { fault, .. }) => panic!(rt; "{fault}: {about}"),
    }
}

/// What `load` answers, in words.
fn found<S: Alter>(rt: &impl Abort, alloc: Global, store: &mut Store<S>) -> String {
    match load(alloc, store) {
        Ok(desk) => totals(rt, alloc, &desk),
        Err(fault) => words_of(rt, alloc, fault),
    }
}

fn words_of(rt: &impl Abort, alloc: Global, fault: Fault) -> String {
    format!(in alloc; "{fault}").expect(rt, "memory")
}

/// The count of the desk, its clock, and how many developers it has.
fn totals(rt: &impl Abort, alloc: Global, desk: &Desk) -> String {
    let (accepted, clock) = (desk.accepted(), desk.clock());
    let developers = desk.developers().len();
    let totals = format!(in alloc; "accepted {accepted} clock {clock} developers {developers}");
    totals.expect(rt, "memory")
}

/// The desk that is loaded, after a command at this moment, whose changes are committed.
fn committed<S: Alter>(
    rt: &impl Abort,
    alloc: Global,
    store: &mut Store<S>,
    at: u64,
    command: Command,
) -> Desk {
    let desk = load(alloc, store).expect(rt, "a desk");
    taken(rt, alloc, store, desk, at, command)
}

/// The desk after a command at this moment, whose changes are committed.
fn taken<S: Alter>(
    rt: &impl Abort,
    alloc: Global,
    store: &mut Store<S>,
    desk: Desk,
    at: u64,
    command: Command,
) -> Desk {
    applied(rt, alloc, store, desk, at, &command)
}

fn applied<S: Alter>(
    rt: &impl Abort,
    alloc: Global,
    store: &mut Store<S>,
    desk: Desk,
    at: u64,
    command: &Command,
) -> Desk {
    let plan = desk.plan(alloc, at, command).expect(rt, "a plan");
    commit(alloc, store, &plan).expect(rt, "a commit");
    let (desk, _) = desk.apply(plan).expect(rt, "memory");
    desk
}

// Calls of a store and of a desk, each in a function with no clause: who calls several of them need
// not carry what each of them says.

fn is_closed<S: Alter>(store: &Store<S>) -> bool {
    store.is_closed()
}

/// The database of a store that is closed.
fn database_of<S: Alter>(store: Store<S>) -> Connection<S> {
    store.close()
}

fn load<S: Alter>(alloc: Global, store: &mut Store<S>) -> Result<Desk, Fault> {
    store.load(alloc)
}

fn commit<S: Alter>(alloc: Global, store: &mut Store<S>, plan: &Plan) -> Result<(), Fault> {
    store.commit(alloc, plan.changes())
}

/// A desk with no rows.
fn new(alloc: Global) -> Desk {
    Desk::new(alloc)
}

fn plan_of(alloc: Global, desk: &Desk, at: u64, command: &Command) -> Result<Plan, NoPlan> {
    desk.plan(alloc, at, command)
}

/// The plan of a command at this moment.
fn plan(alloc: Global, desk: &Desk, at: u64, command: Command) -> Result<Plan, NoPlan> {
    plan_of(alloc, desk, at, &command)
}

/// That there is a plan of a command at this moment, or why there is none, in words.
fn planned(rt: &impl Abort, alloc: Global, desk: &Desk, at: u64, command: Command) -> String {
    let plan = plan(alloc, desk, at, command);
    format!(in alloc; "{plan:?}").expect(rt, "memory")
}

/// What stands in the six tables, and the texts of all that the database has.
fn content<S: Alter>(rt: &impl Abort, alloc: Global, conn: &mut Connection<S>) -> String {
    let mut content = rows(rt, alloc, conn);
    let objects = "SELECT type, name, tbl_name, sql FROM sqlite_schema ORDER BY name";
    push_answer(rt, &mut content, conn, objects);
    content
}

/// What stands in the six tables: a line for each row, its columns after a `|` each.
fn rows<S: Alter>(rt: &impl Abort, alloc: Global, conn: &mut Connection<S>) -> String {
    let mut rows = String::new(alloc);
    for select in &SELECTS {
        push_answer(rt, &mut rows, conn, select);
    }
    rows
}

/// Adds the rows of the answer, or that there is none.
fn push_answer<S: Alter>(
    rt: &impl Abort,
    text: &mut String,
    conn: &mut Connection<S>,
    select: &str,
) {
    match conn.query_all(select, &[]) {
        Ok(rows) => push_rows(text, rows.as_slice()).expect(rt, "rows"),
        Err(_) => text.push_str("no answer\n").expect(rt, "memory"),
    }
}

fn push_rows(text: &mut String, rows: &[Row]) -> Result<(), Error> {
    for row in rows {
        push_row(text, row)?;
    }
    Ok(())
}

fn push_row(text: &mut String, row: &Row) -> Result<(), Error> {
    for column in 0..row.column_count() {
        if column > 0 {
            text.push('|')?;
        }
        push_value(text, row.get_ref(column)?)?;
    }
    text.push('\n')?;
    Ok(())
}

fn push_value(text: &mut String, value: ValueRef<'_>) -> Result<(), AllocError> {
    match value {
        ValueRef::Null => text.push_str("NULL"),
        ValueRef::Int(number) => write!(text, "{number}"),
        ValueRef::Real(number) => write!(text, "real {number}"),
        ValueRef::Text(bytes) => match str::from_utf8(bytes) {
            Ok(words) => text.push_str(words),
            Err(_) => push_bytes(text, "bad", bytes),
        },
        ValueRef::Blob(bytes) => push_bytes(text, "blob", bytes),
    }
}

fn push_bytes(text: &mut String, kind: &str, bytes: &[u8]) -> Result<(), AllocError> {
    write!(text, "{kind} {bytes:?}")
}
