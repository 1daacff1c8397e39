//! What a new desk is made over.
use super::{
    DESK, OTHERS, adopted, content, database, database_of, execute, found, has_content, is_closed,
    same, store_of, words_of,
};
use gr_store::{Fault, NotOpened, Store};
use sqlite::{Alter, Connection};
use std::alloc::Global;
use std::process::Abort;

/// Statements that take one of the names of the tables.
const TAKEN: [&str; 20] = [
    DESK,
    "CREATE TABLE desk (a)",
    "CREATE TABLE Developer (a)",
    "CREATE TABLE resolution (a)",
    "CREATE TABLE choice (a)",
    "CREATE TABLE sponsor (a)",
    "CREATE TABLE BALLOT2 (a)",
    "CREATE TABLE other (a); CREATE INDEX desk ON other (a)",
    "CREATE TABLE other (a); CREATE INDEX developer ON other (a)",
    "CREATE TABLE other (a); CREATE INDEX Resolution ON other (a)",
    "CREATE TABLE other (a); CREATE INDEX choice ON other (a)",
    "CREATE TABLE other (a); CREATE INDEX SPONSOR ON other (a)",
    "CREATE TABLE other (a); CREATE INDEX ballot2 ON other (a)",
    "CREATE VIEW desk AS SELECT 1 AS id",
    "CREATE VIEW Developer AS SELECT 1 AS active",
    "CREATE VIEW resolution AS SELECT 1 AS number",
    "CREATE VIEW choice AS SELECT 1 AS number",
    "CREATE VIEW sponsor AS SELECT 1 AS active",
    "CREATE VIEW BALLOT2 AS SELECT 1 AS ranks",
    OTHERS,
];

/// Statements that leave all six names.
const FREE: [&str; 5] = [
    "",
    "CREATE TABLE desks (desk INTEGER, developer TEXT)",
    "CREATE TABLE ballot (a); CREATE INDEX ballots ON ballot (a)",
    "CREATE VIEW a AS SELECT 1 AS desk",
    "CREATE TABLE member (login TEXT REFERENCES developer)",
];

/// What is found of a new desk.
const EMPTY: &str = "accepted 0 clock 0 developers 0";

/// Each fault, and what it prints.
const FAULTS: [(Fault, &str); 8] = [
    (Fault::Memory, "out of memory"),
    (Fault::Store, "the database failed"),
    (Fault::Closed, "closed by an earlier fault"),
    (Fault::Damaged, "the rows of no valid desk"),
    (Fault::TooNew, "a desk of a later version"),
    (Fault::TooOld, "a desk of an earlier version"),
    (Fault::NotADesk, "no table desk"),
    (Fault::Occupied, "a name of the tables is taken"),
];

#[test]
fn each_fault_is_told(rt: HostRuntime) {
    for (fault, wanted) in &FAULTS {
        has_words(&rt, rt.alloc(), *fault, wanted);
    }
}

fn has_words(rt: &impl Abort, alloc: Global, fault: Fault, wanted: &str) {
    let found = words_of(rt, alloc, fault);
    same(rt, found.as_str(), wanted, "a fault");
}

#[test]
fn a_name_that_is_taken_is_left(rt: HostRuntime) {
    for taken in &TAKEN {
        is_left(&rt, rt.alloc(), taken);
    }
}

#[test]
fn a_new_desk_is_made_once(rt: HostRuntime) {
    for free in &FREE {
        is_made_once(&rt, rt.alloc(), free);
    }
}

/// Wants no desk to be made where the statements have taken a name.
fn is_left(rt: &impl Abort, alloc: Global, taken: &str) {
    is_occupied(rt, alloc, database(rt, alloc, &[taken]), taken);
}

/// Wants one desk to be made after the statements, and no second one.
fn is_made_once(rt: &impl Abort, alloc: Global, free: &str) {
    has_one_desk(rt, alloc, database(rt, alloc, &[free]), free);
}

fn has_one_desk<S: Alter + Drop>(rt: &impl Abort, alloc: Global, conn: Connection<S>, about: &str) {
    let mut store = store_of(rt, made(alloc, conn), about);
    is_new(rt, alloc, &mut store, about);
    is_occupied(rt, alloc, database_of(store), about);
}

/// Wants the store to be open, and the desk that it loads to be a new one.
fn is_new<S: Alter>(rt: &impl Abort, alloc: Global, store: &mut Store<S>, about: &str) {
    assert!(rt; !is_closed(store));
    let found = found(rt, alloc, store);
    same(rt, found.as_str(), EMPTY, about);
}

/// The store with a new desk.
pub fn made<S: Alter>(alloc: Global, conn: Connection<S>) -> Result<Store<S>, NotOpened<S>> {
    Store::create(alloc, conn)
}

/// Wants a new desk to be refused, and the database to be as it was.
fn is_occupied<S: Alter + Drop>(rt: &impl Abort, alloc: Global, conn: Connection<S>, about: &str) {
    let mut conn = conn;
    let before = content(rt, alloc, &mut conn);
    let mut conn = refused(rt, made(alloc, conn), Fault::Occupied, about);
    has_content(rt, alloc, &mut conn, before.as_str(), about);
}

/// The database, over which there is no store for this reason.
fn refused<S: Alter + Drop>(
    rt: &impl Abort,
    opened: Result<Store<S>, NotOpened<S>>,
    wanted: Fault,
    about: &str,
) -> Connection<S> {
    match opened {
        Ok(_) => panic!(rt; "a store: {about}"),
        Err(NotOpened { conn, fault }) => {
            assert!(rt; fault == wanted, "{about}");
            conn
        }
    }
}

#[test]
fn a_transaction_is_left_open(rt: HostRuntime) {
    let begun = database(&rt, rt.alloc(), &["BEGIN; CREATE TABLE note (a)"]);
    goes_on(&rt, rt.alloc(), begun);
}

/// Wants no store to be had inside the transaction, which makes a table `note`, and a new desk to
/// be made after its end.
fn goes_on<S: Alter + Drop>(rt: &impl Abort, alloc: Global, conn: Connection<S>) {
    let conn = refused(rt, made(alloc, conn), Fault::Store, "a creation");
    let mut conn = refused(rt, adopted(conn), Fault::Store, "an adoption");
    execute(rt, &mut conn, &["COMMIT", "DROP TABLE note"]);
    has_one_desk(rt, alloc, conn, "behind a transaction");
}
