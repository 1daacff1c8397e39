//! An office in memory that is asked, refuses, is closed and opened again; and what faults print.
mod beside;
mod commands;
mod disks;
mod large;
mod memory;
mod migrations;
mod office;
mod refusals;
mod script;
mod statements;
mod stops;
mod texts;

use commands::{NEW_YEAR, developer};
use gr_core::Refusal;
use gr_office::{ActFault, Fault, Kind, NotOpened, Office, SheetFault, Stopped};
use gr_sheet::NoSheet;
use office::{answer, close, create, open, sheet};
use sqlite::{Alter, Connection};
use statements::{execute, in_memory};
use std::alloc::Global;
use std::fmt::Display;
use std::process::Abort;

/// Wants the text to be this one. Whoever compares texts does it here, since each assertion costs
/// its function a proof.
fn same(rt: &impl Abort, found: &str, wanted: &str) {
    assert_eq!(rt; found, wanted);
}

/// Wants the fault to be this one.
fn is_fault(rt: &impl Abort, found: Fault, wanted: Fault) {
    assert_eq!(rt; found, wanted);
}

/// An office with a new desk.
fn created<S: Alter + Drop>(alloc: Global, conn: Connection<S>) -> Result<Office<S>, Fault> {
    match create(alloc, conn) {
        Ok(office) => Ok(office),
        Err(NotOpened { fault, .. }) => Err(fault),
    }
}

/// The office that is found in a database.
fn opened<S: Alter + Drop>(alloc: Global, conn: Connection<S>) -> Result<Office<S>, Fault> {
    match open(alloc, conn) {
        Ok(office) => Ok(office),
        Err(NotOpened { fault, .. }) => Err(fault),
    }
}

/// The office, closed and opened again.
fn reopened<S: Alter + Drop>(alloc: Global, office: Office<S>) -> Result<Office<S>, Fault> {
    opened(alloc, close(office))
}

/// Wants the command that puts a developer on the roll at this moment to be answered so.
fn puts_alice<S: Alter>(
    rt: &impl Abort,
    alloc: Global,
    office: &mut Office<S>,
    at: u64,
    text: &str,
) {
    let alice = developer(alloc, "alice", "A Name").expect(rt, "memory");
    let words = answer(alloc, office, at, alice).expect(rt, "memory");
    same(rt, words.as_str(), text);
}

/// Wants the office to be open.
fn is_open<S: Alter>(rt: &impl Abort, office: &Office<S>) {
    assert!(rt; !office.is_closed());
}

/// Wants the office to be open, and this sheet, of the first resolution where it is of one, to read
/// so.
fn shows<S: Alter>(rt: &impl Abort, alloc: Global, office: &Office<S>, kind: Kind, wanted: &str) {
    is_open(rt, office);
    let text = sheet(alloc, office, kind).expect(rt, "a sheet");
    same(rt, text.as_str(), wanted);
}

const NO_ONE: &str = "Developers: 0\nCurrent: 0\n";

const WITH_ALICE: &str = "Developers: 1\nCurrent: 1\nD: alice current A Name\n";

/// The moments of four acts that put a developer on the roll of a new desk, what they are answered,
/// and the roll after each.
const ACTS: [(u64, &str, &str); 4] = [
    (0, "BadMoment", NO_ONE),
    (NEW_YEAR, "1 Done", WITH_ALICE),
    (1, "ClockBack", WITH_ALICE),
    (NEW_YEAR, "2 Done", WITH_ALICE),
];

#[test]
fn keeps_a_desk(rt: HostRuntime) {
    let alloc = rt.alloc();
    keeps_alice(&rt, alloc, in_memory(alloc).expect(&rt, "memory"));
}

/// Wants a new desk to take a developer, and to have her after an opening.
fn keeps_alice<S: Alter + Drop>(rt: &impl Abort, alloc: Global, conn: Connection<S>) {
    let mut office = created(alloc, conn).expect(rt, "a new desk");
    takes_alice(rt, alloc, &mut office);
    let mut office = reopened(alloc, office).expect(rt, "a desk");
    takes_alice_again(rt, alloc, &mut office);
}

/// Wants the answers to four acts on a new desk, two of which it refuses, and the roll after each.
fn takes_alice<S: Alter>(rt: &impl Abort, alloc: Global, office: &mut Office<S>) {
    for (at, answer, sheet) in &ACTS {
        puts_alice(rt, alloc, office, *at, answer);
        shows(rt, alloc, office, Kind::Roll, sheet);
    }
}

/// Wants the same roll after an opening, and the next count.
fn takes_alice_again<S: Alter>(rt: &impl Abort, alloc: Global, office: &mut Office<S>) {
    shows(rt, alloc, office, Kind::Roll, WITH_ALICE);
    puts_alice(rt, alloc, office, NEW_YEAR, "3 Done");
}

#[test]
fn is_not_opened_over_what_it_cannot_use(rt: HostRuntime) {
    let alloc = rt.alloc();
    is_found_behind_a_second_creation(&rt, alloc, in_memory(alloc).expect(&rt, "memory"));
    is_not_opened(
        &rt,
        alloc,
        in_memory(alloc).expect(&rt, "memory"),
        Fault::NotADesk,
    );
    is_damaged(&rt, alloc, in_memory(alloc).expect(&rt, "memory"));
}

/// Wants no office to be opened over the database, for this reason.
fn is_not_opened<S: Alter + Drop>(
    rt: &impl Abort,
    alloc: Global,
    conn: Connection<S>,
    wanted: Fault,
) {
    match opened(alloc, conn) {
        Ok(_) => panic!(rt; "an office"),
        Err(fault) => is_fault(rt, fault, wanted),
    }
}

/// Wants no second office to be made in a database, and the first to be found there.
fn is_found_behind_a_second_creation<S: Alter + Drop>(
    rt: &impl Abort,
    alloc: Global,
    conn: Connection<S>,
) {
    let office = created(alloc, conn).expect(rt, "a new desk");
    let conn = refused(rt, create(alloc, close(office)), Fault::Occupied);
    let office = opened(alloc, conn).expect(rt, "a desk");
    shows(rt, alloc, &office, Kind::Roll, NO_ONE);
}

/// The database, over which there is no office for this reason.
fn refused<S: Alter + Drop>(
    rt: &impl Abort,
    office: Result<Office<S>, NotOpened<S>>,
    wanted: Fault,
) -> Connection<S> {
    match office {
        Ok(_) => panic!(rt; "an office"),
        Err(NotOpened { conn, fault }) => {
            is_fault(rt, fault, wanted);
            conn
        }
    }
}

/// Wants no office to be opened over a desk that counts fewer commands than none.
fn is_damaged<S: Alter + Drop>(rt: &impl Abort, alloc: Global, conn: Connection<S>) {
    let mut conn = close(created(alloc, conn).expect(rt, "a new desk"));
    let damage = execute(&mut conn, &["UPDATE desk SET accepted = -1"]);
    damage.expect(rt, "a damage");
    is_not_opened(rt, alloc, conn, Fault::Damaged);
}

#[test]
fn a_transaction_is_left_open(rt: HostRuntime) {
    let alloc = rt.alloc();
    goes_on(&rt, alloc, in_memory(alloc).expect(&rt, "memory"));
}

/// Wants no office to be made or opened inside a transaction, which makes a table `note`, and a new
/// desk to be made after its end.
fn goes_on<S: Alter + Drop>(rt: &impl Abort, alloc: Global, conn: Connection<S>) {
    let mut conn = conn;
    let begun = execute(&mut conn, &["BEGIN", "CREATE TABLE note (a)"]);
    begun.expect(rt, "a transaction");
    let conn = refused(rt, create(alloc, conn), Fault::Store);
    let mut conn = refused(rt, open(alloc, conn), Fault::Store);
    let ended = execute(&mut conn, &["COMMIT", "DROP TABLE note"]);
    ended.expect(rt, "the end of it");
    let office = created(alloc, conn).expect(rt, "a new desk");
    shows(rt, alloc, &office, Kind::Roll, NO_ONE);
}

#[test]
fn faults_print_what_they_are(rt: HostRuntime) {
    let alloc = rt.alloc();
    stops_print(&rt, alloc, Fault::Memory, "out of memory");
    stops_print(&rt, alloc, Fault::Store, "the database failed");
    stops_print(&rt, alloc, Fault::Closed, "closed by an earlier fault");
    let refused = ActFault::Refused(Refusal::ClockBack);
    prints(&rt, alloc, &refused, "ClockBack");
    sheet_faults_print(&rt, alloc);
}

/// Wants an act and a list that are stopped by this fault to print this text.
fn stops_print(rt: &impl Abort, alloc: Global, fault: Fault, text: &str) {
    prints(rt, alloc, &ActFault::Fault(fault), text);
    let answers = Vec::new(alloc);
    prints(rt, alloc, &Stopped { answers, fault }, text);
}

/// Wants what no sheet is shown for to print what it is.
fn sheet_faults_print(rt: &impl Abort, alloc: Global) {
    let refused = SheetFault::Refused(Refusal::NotRevealed);
    prints(rt, alloc, &refused, "NotRevealed");
    let closed = SheetFault::Fault(Fault::Closed);
    prints(rt, alloc, &closed, "closed by an earlier fault");
    let missing = NoSheet::Refused(Refusal::NoResolution);
    prints(rt, alloc, &missing, "NoResolution");
    prints(rt, alloc, &NoSheet::Memory, "out of memory");
}

/// Wants this to print this text.
fn prints<T: Display>(rt: &impl Abort, alloc: Global, what: &T, text: &str) {
    let printed = format!(in alloc; "{what}").expect(rt, "memory");
    same(rt, printed.as_str(), text);
}
