//! The calls of an office, and the load of a store, each in a function with no clause. So a test
//! carries nothing of what they promise, and its proof stays short.
use super::texts::words;
use gr_core::{Command, Desk, Reply};
use gr_office::{ActFault, Answer, Fault, Kind, NotOpened, Office, SheetFault, Stopped};
use gr_store::Store;
use sqlite::{Alter, Connection};
use std::alloc::{AllocError, Global};

/// An office with a new desk.
pub fn create<S: Alter>(alloc: Global, conn: Connection<S>) -> Result<Office<S>, NotOpened<S>> {
    Office::create(alloc, conn)
}

/// The office that is found in a database.
pub fn open<S: Alter>(alloc: Global, conn: Connection<S>) -> Result<Office<S>, NotOpened<S>> {
    Office::open(alloc, conn)
}

/// What a migration answers over a database.
pub fn migrate<S: Alter>(alloc: Global, conn: Connection<S>) -> Result<Office<S>, NotOpened<S>> {
    Office::migrate(alloc, conn)
}

/// The database that it was kept in.
pub fn close<S: Alter>(office: Office<S>) -> Connection<S> {
    office.close()
}

/// The desk that the store loads from a database.
pub fn load<S: Alter + Drop>(alloc: Global, conn: Connection<S>) -> Result<Desk, gr_store::Fault> {
    match Store::adopt(conn) {
        Ok(mut store) => store.load(alloc),
        Err(gr_store::NotOpened { fault, .. }) => Err(fault),
    }
}

pub fn act<S: Alter>(
    alloc: Global,
    office: &mut Office<S>,
    at: u64,
    command: &Command,
) -> Result<Reply, ActFault> {
    office.act(alloc, at, command)
}

/// What the command is answered, in words.
pub fn answer<S: Alter>(
    alloc: Global,
    office: &mut Office<S>,
    at: u64,
    command: Command,
) -> Result<String, AllocError> {
    words(alloc, &act(alloc, office, at, &command))
}

pub fn run<S: Alter>(
    alloc: Global,
    office: &mut Office<S>,
    commands: &[(u64, Command)],
) -> Result<Vec<Answer>, Stopped> {
    office.run(alloc, commands)
}

/// The office after these commands.
pub fn behind<S: Alter + Drop>(
    alloc: Global,
    office: Office<S>,
    commands: &[(u64, Command)],
) -> Result<Office<S>, Fault> {
    let mut office = office;
    carry_out(alloc, &mut office, commands)?;
    Ok(office)
}

fn carry_out<S: Alter>(
    alloc: Global,
    office: &mut Office<S>,
    commands: &[(u64, Command)],
) -> Result<(), Fault> {
    match run(alloc, office, commands) {
        Ok(_) => Ok(()),
        Err(Stopped { fault, .. }) => Err(fault),
    }
}

/// The sheet of this kind, of the first resolution where it is of one.
pub fn sheet<S: Alter>(
    alloc: Global,
    office: &Office<S>,
    kind: Kind,
) -> Result<String, SheetFault> {
    office.sheet(alloc, kind, 1)
}
