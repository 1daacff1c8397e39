//! The two files of a database, in memory: each lets so many calls pass, and fails each one after.
use gr_office::Fault;
use sqlite::{Connection, FileStore, Files, Options};
use sqlite_disk::{Crash, Disk, Fuse, Memory};
use std::alloc::Global;
use std::process::Abort;

/// How many calls the log and the file let pass.
#[derive(Clone, Copy)]
pub struct Calls {
    pub log: u64,
    pub db: u64,
}

/// None of them fails.
pub const ALL: Calls = Calls {
    log: u64::MAX,
    db: u64::MAX,
};

/// How many frames a log gets before it is copied into the file, where nothing else is said.
pub const FRAMES: usize = 1_000;

/// So few frames that each commit has the log copied into the file.
pub const FEW: usize = 1;

/// More calls than a run makes on either file.
pub const MANY: u64 = 5_000;

/// Why there is no database, and the files that it was to have.
#[derive(Drop)]
pub struct NoDatabase<D: Disk> {
    pub fault: Fault,
    pub files: Files<D>,
}

/// So many calls on the log and all on the file, or the other way round.
pub fn calls_on(is_log: bool, calls: u64) -> Calls {
    if is_log {
        Calls { log: calls, ..ALL }
    } else {
        Calls { db: calls, ..ALL }
    }
}

/// Two empty files.
pub fn empty(alloc: Global, calls: Calls) -> Files<Fuse<Memory>> {
    Files {
        log: Fuse::new(Memory::new(alloc), calls.log),
        db: Fuse::new(Memory::new(alloc), calls.db),
    }
}

/// The database in these files, whose log gets so many frames before it is copied into the file.
pub fn database<D: Disk + Drop>(
    alloc: Global,
    files: Files<D>,
    frames: usize,
) -> Result<Connection<FileStore<D>>, NoDatabase<D>> {
    let fault = Fault::Store;
    if !files.may_be_used() {
        return Err(NoDatabase { fault, files });
    }
    let mut options = Options::new(7);
    options.checkpoint_frames = frames;
    match Connection::open_files(alloc, files, options) {
        Ok(conn) => Ok(conn),
        Err((error, left)) => Err(NoDatabase {
            fault: Fault::from(error),
            files: left.into_files(),
        }),
    }
}

/// The database in these files, which has to be one.
pub fn usable<D: Disk + Drop>(
    rt: &impl Abort,
    alloc: Global,
    files: Files<D>,
) -> Connection<FileStore<D>> {
    match database(alloc, files, FRAMES) {
        Ok(conn) => conn,
        Err(NoDatabase { fault, .. }) => panic!(rt; "no database: {fault}"),
    }
}

/// The files of a database that is closed, and whether its log was copied into the file.
pub fn closed<D: Disk + Drop>(conn: Connection<FileStore<D>>) -> (Files<D>, bool) {
    match conn.close_files() {
        Ok(files) => (files, true),
        Err((_, store)) => (store.close(), false),
    }
}

/// The files after a cut of the power, which loses all that was not synced. The disk works again.
pub fn cut<D: Crash>(files: Files<D>) -> Files<D> {
    let mut files = files;
    files.log.crash();
    files.db.crash();
    files
}

/// Files with all that was written to these, of which each lets so many calls pass.
pub fn copied(
    rt: &impl Abort,
    alloc: Global,
    files: &Files<Fuse<Memory>>,
    calls: Calls,
) -> Files<Fuse<Memory>> {
    Files {
        log: written(rt, alloc, files.log.inner().bytes(), calls.log),
        db: written(rt, alloc, files.db.inner().bytes(), calls.db),
    }
}

/// A file with these bytes, which lets so many calls pass.
fn written(rt: &impl Abort, alloc: Global, bytes: &[u8], calls: u64) -> Fuse<Memory> {
    let mut file = Memory::new(alloc);
    file.write_at(0, bytes).expect(rt, "a write");
    file.sync().expect(rt, "a sync");
    Fuse::new(file, calls)
}
