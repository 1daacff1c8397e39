//! Where a desk is kept: in a file, or in memory.
ghost use Rattle.std.specs.Prelude.{◌≡◌, ◌⊎◌, ℕ, false, string_bytes, IfOk, IfErr, IsTrue, List, [], Some};
ghost use Rattle.gr_core.specs.Desks.State.{State, new_state};
ghost use Rattle.gr_core.specs.Desks.Valid.{IsValid};
ghost use Rattle.gr_store.specs.Commits.{LeavesDesk};
ghost use Rattle.gr_store.specs.Faults.{IsOfStore, CanFailToLoad};
ghost use Rattle.gr_store.specs.declared.fault.Fault.TheVariants as faults;
ghost use Rattle.gr_office.specs.Office.{IsOpenWith};
ghost use Rattle.gr_desk.specs.Openings.{IsNotOpened, HasCleanLeft, HasStill};
ghost use Rattle.gr_desk.specs.Path.{path_text};
ghost use Rattle.gr_desk.specs.Ended.{IsEndedSo};
ghost use Rattle.gr_desk.specs.Life.{AreLeftOf, IsLeftOver};
ghost use Rattle.gr_desk.specs.Sums.{HasWrongSum};
ghost use Rattle.gr_desk.specs.Stops.{ClosedFilesHoldAPrefix, StoppedFilesHoldAPrefix, StopsHoldAPrefix, UnclosedStoreHoldsAPrefix};
ghost use Rattle.sqlite.specs.Files.{file_state, over_files, FailsToClose, HoldsDatabase};
ghost use Rattle.sqlite_trees.specs.Tree.{Trees};
ghost use Rattle.sqlite.specs.State.{HasCleanDisk};
ghost use Rattle.sqlite.specs.Steps.{over_memory};
ghost use Rattle.sqlite_store.specs.FileStore.{view};
ghost use Rattle.sqlite_trees.specs.View.{IsClean};
ghost use Rattle.sqlite_wal.specs.Files.{image_at};

use crate::any_store::{given_up, opened, stops_of};
use crate::ending::Ending;
use crate::no_office::{NoOffice, open_connection};
use gr_office::{Fault, Office};
use sqlite::{Connection, Error, FileFrom, FileStore, Files, MemStore, Start};
use sqlite_disk::Disk;
use sqlite_trees::store::Alter;
use std::alloc::{AllocError, Global};
use std::fs::{self, OpenOptions};
use std::io::{self, ErrorKind};
use std::os::unix::fs::OpenOptionsExt;

/// The name of a new desk in memory, which ends with the program.
pub const IN_MEMORY: &str = ":memory:";

/// The mode of a new file: its owner alone may read and write it.
const PRIVATE: u32 = 0o600;

/// Whether something may be under this name. Nothing is where the way to it leads through a file,
/// or a name is longer than any. Where the system does not tell, the opening has to.
///
/// [`Fault::Memory`] alone: nothing was looked at.
pub(crate) fn is_there(rt: &HostRuntime, file: &str) -> Result<bool, Fault>
    ensures { IfErr result (λ fault. fault ≡ faults.Memory) }
{
    match fs::exists(rt, file) {
        Ok(is_there) => Ok(is_there),
        Err(error) => match error.kind() {
            ErrorKind::OutOfMemory => Err(Fault::Memory),
            ErrorKind::NotADirectory | ErrorKind::InvalidFilename => Ok(false),
            _ => Ok(true),
        },
    }
}

/// A new desk in memory. [`Fault::Memory`], [`Fault::Store`]: as [`Office::create`] says it. No
/// name is taken there.
pub fn new_in_memory(alloc: Global) -> Result<Office<MemStore>, Fault>
    ensures new { IfOk result (λ office. IsOpenWith over_memory new_state office) }
    ensures faults { IfErr result IsOfStore }
{
    let conn = Connection::open_in_memory(alloc)?;
    match Office::create(alloc, conn) {
        Ok(office) => Ok(office),
        Err(not_opened) => Err(not_opened.fault),
    }
}

/// The desk of a file, for the contents of which `S` stands. Where these hold a desk, it is that
/// one. So it is where a stop left one, as [`stopped_files_hold_a_prefix`] says. Where their pages
/// end in sums, and one of them is wrong, there is none.
///
/// The laws of a restart call it. A line opens its file by way of a host, as
/// [`open`](crate::open::open) says it, and over the system that comes to the same two calls.
/// Before them it looks whether the file is blank, and then makes no database of it.
///
/// It has no clause on prefixes of its own, which would need the premise that the desk after a
/// prefix is valid. The law
/// [`reopened_files_hold_a_prefix`](crate::restart::reopened_files_hold_a_prefix) says the same of
/// the start of a life.
///
/// [`NoOffice`] gives back what there is of the file, which has what it had, or, where it had no
/// database, an empty one. [`Fault::NotADesk`]: there is no table `desk`. [`Fault::TooNew`],
/// [`Fault::TooOld`], [`Fault::Damaged`]: as [`Office::open`] says it. [`Fault::Memory`],
/// [`Fault::Store`]: so too, or the file could not be opened. Contents with a valid desk meet no
/// other fault, and have that desk still, so that it may be tried again.
pub fn open_file<S: Start>(
    rt: &HostRuntime,
    file: &str,
    start: S,
) -> Result<Office<FileStore<FileFrom<S>>>, NoOffice<FileFrom<S>>>
    ensures held { IfOk result (λ office. HasCleanDisk (file_state office.conn)
        → (db : Trees) → HoldsDatabase (image_at S.Start) db → (s : State) → IsValid s
        → LeavesDesk s db → IsOpenWith over_files s office) }
    ensures right_sums { IfOk result (λ office. HasCleanDisk (file_state office.conn)
        → ¬ (HasWrongSum (image_at S.Start))) }
    ensures faults { IfErr result (λ e. CanFailToLoad e.fault ⊎ (e.fault ≡ faults.NotADesk)) }
    ensures failed { IfErr result (λ e. IsNotOpened (image_at S.Start) e.fault e.left) }
    ensures valid { IfErr result (λ e. HasCleanLeft e.left
        → (db : Trees) → HoldsDatabase (image_at S.Start) db → (s : State) → IsValid s
        → LeavesDesk s db → IsOfStore e.fault × HasStill (image_at S.Start) s e.left) }
{
    let conn = open_connection(rt, file, false, start)?;
    match opened(rt.alloc(), conn) {
        Ok(office) => Ok(office),
        Err(not_opened) => Err(NoOffice::from(not_opened)),
    }
}

/// Makes an empty file where there is none, for its owner alone to read and write. The database
/// would make one that others may read, and gives its log the mode that the file has. A file that
/// is there keeps its mode, and the name of a desk in memory is none of a file.
pub(crate) fn make_private(rt: &HostRuntime, file: &str) -> Result<(), Fault>
    ensures { IfErr result IsOfStore }
{
    if file == IN_MEMORY {
        return Ok(());
    }
    let made = OpenOptions::new()
        .write(true)
        .create_new(true)
        .mode(PRIVATE)
        .open(rt, file);
    match made {
        Ok(_) => Ok(()),
        Err(error) if error.kind() == ErrorKind::AlreadyExists => Ok(()),
        Err(error) => Err(fault_of(&error)),
    }
}

/// What an error of the system at a file of the desk is reported as: [`Fault::Memory`] where memory
/// ran out, and else [`Fault::Store`].
pub(crate) fn fault_of(error: &io::Error) -> Fault
    ensures { IsOfStore result }
{
    match error.kind() {
        ErrorKind::OutOfMemory => Fault::Memory,
        _ => Fault::Store,
    }
}

/// The path that the database is given for a name. The system takes a name that begins with `file:`
/// as it stands, and to the database it would be a URI.
pub(crate) fn database_path(alloc: Global, file: &str) -> Result<String, AllocError>
    ensures { IfOk result (λ path. string_bytes path ≡ path_text file.now) }
{
    if file.starts_with("file:") {
        format!(in alloc; "./{file}")
    } else {
        String::from_str(alloc, file)
    }
}

/// The log of a desk was not copied into its file.
pub struct NotCopied<D: Disk> {
    /// What the engine says.
    pub error: Error,

    /// The store of the desk, with its log.
    pub store: FileStore<D>,
}

// It is written out, so that not each part of a store is dropped by itself.
impl<D: Disk + Drop> Drop for NotCopied<D> {
    fn drop(self) {
        let NotCopied { error: _, store } = self;
        drop(store.close());
    }
}

/// Copies the log of a desk into its file, and gives the two back: whatever a stop may leave of
/// them, the file alone then holds the desk, with every acknowledged command. So it is of whatever
/// office had this connection last.
///
/// [`NotCopied`] has the engine's error and the store: whatever may be recovered from what a stop
/// leaves of it is the desk after a prefix of the accepted commands, as after any call. The error
/// is a lack of memory, or the disk failed, or a failure had shut the connection before.
pub fn close_files<D: Disk + Drop>(conn: Connection<FileStore<D>>) -> Result<Files<D>, NotCopied<D>>
    ensures copied { IfOk result (ClosedFilesHoldAPrefix conn) }
    ensures left { IfOk result (AreLeftOf conn) }
    ensures failed { IfErr result (λ e. UnclosedStoreHoldsAPrefix conn e.store) }
    ensures over { IfErr result (λ e. IsLeftOver conn e.store) }
    ensures caused { IfErr result (λ e. IsClean (view e.store)
        → FailsToClose conn e.store e.error) }
{
    stops_of(&conn);
    match conn.close_files() {
        Ok(files) => Ok(files),
        Err((error, store)) => Err(NotCopied { error, store }),
    }
}

/// Gives a connection up, as a process does that ends: the log is not copied. Whatever a crash may
/// leave of the files then holds a database that a stop may leave of the connection.
pub fn give_up<D: Disk + Drop>(conn: Connection<FileStore<D>>) -> Files<D>
    ensures { AreLeftOf conn result }
{
    conn.into_store().close()
}

/// Does with the connection of a line what it left to be done: closes it, or lets it go. None where
/// there is nothing to be closed.
pub fn close_ending<D: Disk + Drop>(
    ending: Ending<FileStore<D>>,
) -> Option<Result<Files<D>, NotCopied<D>>>
    ensures { IsEndedSo ending result }
{
    match ending {
        Ending::Close(conn) => Some(close_files(conn)),
        Ending::LetGo(_) | Ending::Nothing => None,
    }
}

/// A stop leaves files that hold a desk. Whatever calls were made on an open office over files, and
/// whatever a stop may leave of its files then, they hold a database that is the desk after a
/// prefix of the accepted commands, with every acknowledged one and at most one more. So it is of
/// the office as it stands, whose connection is not closed (stopped), and of the files that are
/// left where the connection is given up (left). [`open_file`] finds that desk.
///
/// The connection is ended for the second, since only then the toolchain says that the store
/// numbers its tables. So the disk must have been right up to this end. A process that dies makes
/// no such end. It would have nothing to roll back: an office is never inside a transaction between
/// two calls.
pub fn stopped_files_hold_a_prefix<D: Disk + Drop>(office: Office<FileStore<D>>) -> FileStore<D>
    ensures left { StoppedFilesHoldAPrefix office result }
    ensures stopped { StopsHoldAPrefix office result }
{
    given_up(office)
}
