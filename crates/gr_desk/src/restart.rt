//! Laws: what is found in files after a stop.
//!
//! The headline of `gr_office` is said of connections over one kind of store: that of the office
//! before the stop and that of the one after it. Here they are over files, with a type for the
//! contents before the stop (`S`) and another for those after it (`T`).
ghost use Rattle.std.specs.Prelude.{◌≡◌, ◌-◌, ◌+◌, ◌^◌, ◌<◌, false, List, IfOk, IfErr, MatchResult};
ghost use Rattle.gr_core.specs.Desks.State.{State};
ghost use Rattle.gr_store.specs.Faults.{IsOfStore};
ghost use Rattle.gr_office.specs.Crash.{IsAfterPrefix};
ghost use Rattle.gr_office.specs.History.{Attempt, IsStart};
ghost use Rattle.gr_office.specs.Office.{IsOpenWith, Office as Shown};
ghost use Rattle.gr_http.specs.Answer.{lost_reads, lost_writes};
ghost use Rattle.gr_desk.specs.Openings.{HasCleanLeft, HasStill};
ghost use Rattle.gr_desk.specs.Restart.{FindsAPrefix, GivesFilesBack, IsFoundWith, IsLeftBehind, StillHasAPrefix};
ghost use Rattle.gr_desk.specs.Stops.{IsStoppedAt};
ghost use Rattle.sqlite.specs.Files.{file_state, over_files};
ghost use Rattle.sqlite.specs.State.{HasCleanDisk, Opens};
ghost use Rattle.sqlite_store.specs.FileStore.{view};
ghost use Rattle.sqlite_store.specs.declared.store.FileStore.{FileStore as FilesOf};
ghost use Rattle.sqlite_trees.specs.View.{IsClean};
ghost use Rattle.sqlite_wal.specs.Files.{image_at};

use crate::any_store::{given_up, shown_and_answered};
use crate::file::{open_file, stopped_files_hold_a_prefix};
use crate::no_office::NoOffice;
use gr_core::Desk;
use gr_http::answer::{Lost, Served};
use gr_http::input::Input;
use gr_http::output::Output;
use gr_http::route::Routes;
use gr_office::laws::starts_are_reopened;
use gr_office::{Fault, Kind, Office, SheetFault};
use sqlite::{Connection, FileFrom, FileStore, Leftover, Options, Start};
use sqlite_disk::{Crash, Disk, Memory};
use std::alloc::Global;

/// What is found after a stop.
#[derive(Drop)]
pub struct Found<D: Disk> {
    /// The office, after the request.
    pub office: Office<FileStore<D>>,

    /// The sheet that was asked of it, or why there is none.
    pub sheet: Result<String, SheetFault>,

    /// How the request that came then was answered.
    pub served: Result<Served, Lost>,
}

/// What is asked of a desk that is opened anew: a sheet, and a request at this moment.
#[derive(Clone, Copy)]
pub struct Asked {
    /// The kind of the sheet.
    pub kind: Kind,

    /// The number of its resolution.
    pub number: u32,

    /// The moment of the request, in seconds since 1970-01-01T00:00:00Z.
    pub at: u64,
}

/// The headline over files. An office was open with the desk `first`: a new one, one that a
/// migration upgraded to this version, or one that an opening found. Whatever calls were made on
/// it, and wherever a stop fell among them: `T` stands for contents that the stop may leave of its
/// files, and a file with these is opened. The office is open with the desk after a prefix of the
/// accepted commands, with every acknowledged one and at most one more. The files after the stop
/// are given back as the first value.
///
/// [`NoOffice`]: memory ran out or the database failed. What is given back of the file still
/// has that desk.
pub fn reopened_files_hold_a_prefix<S: Start, T: Start>(
    rt: &HostRuntime,
    first: &Desk,
    stopped: Office<FileStore<FileFrom<S>>>,
    file: &str,
    start: T,
) -> (
    FileStore<FileFrom<S>>,
    Result<Office<FileStore<FileFrom<T>>>, NoOffice<FileFrom<T>>>,
)
    ensures opened { IsClean (view result.0) → (attempts : List Attempt)
        → IsStoppedAt first.now attempts stopped (image_at T.Start)
        → IfOk result.1 (λ office. HasCleanDisk (file_state office.conn)
        → ∥ ((t : State) × IsAfterPrefix first.now attempts t
        × IsOpenWith over_files t office) ∥₁) }
    ensures failed { IsClean (view result.0) → (attempts : List Attempt)
        → IsStoppedAt first.now attempts stopped (image_at T.Start)
        → IfErr result.1 (λ e. HasCleanLeft e.left
        → ∥ ((t : State) × IsAfterPrefix first.now attempts t × IsOfStore e.fault
        × HasStill (image_at T.Start) t e.left) ∥₁) }
{
    gr_office::laws::desks_are_starts(first);
    gr_core::laws::lifted_desks_are_valid();
    gr_core::laws::commands_keep_a_desk_valid();
    let ended = stopped_files_hold_a_prefix(stopped);
    (ended, open_file(rt, file, start))
}

/// The headline over files, on sheets and requests. The office that is opened is as
/// [`reopened_files_hold_a_prefix`] says it, of every state that a life may begin with. The sheet
/// is that of its desk, and the request is answered by it. The files after the stop are given back
/// as the first value.
///
/// [`NoOffice`]: memory ran out or the database failed. What is given back of the file still
/// has that desk, and nothing was read or written of the request.
pub fn restarted_files_hold_a_prefix<S: Start, T: Start, I: Input, O: Output>(
    rt: &HostRuntime,
    stopped: Office<FileStore<FileFrom<S>>>,
    file: &str,
    start: T,
    routes: &Routes,
    asked: Asked,
    input: &mut I,
    output: &mut O,
) -> (
    FileStore<FileFrom<S>>,
    Result<Found<FileFrom<T>>, NoOffice<FileFrom<T>>>,
)
    requires reads { I.failed input.old < 2 ^ 64 - 1 }
    requires writes { O.failed output.old < 2 ^ 64 - 1 }
    ensures found { IsClean (view result.0) → (s : State) → IsStart s → (attempts : List Attempt)
        → IsStoppedAt s attempts stopped (image_at T.Start)
        → IfOk result.1 (λ found. HasCleanDisk (file_state found.office.conn)
        → ∥ ((t : State) × IsAfterPrefix s attempts t
        × IsFoundWith t asked (I.coming input.old) (O.written output.old) (O.written output.new)
        found) ∥₁) }
    ensures failed { IsClean (view result.0) → (s : State) → IsStart s → (attempts : List Attempt)
        → IsStoppedAt s attempts stopped (image_at T.Start)
        → IfErr result.1 (λ e. HasCleanLeft e.left
        → ∥ ((t : State) × IsAfterPrefix s attempts t × IsOfStore e.fault
        × HasStill (image_at T.Start) t e.left) ∥₁) }
    ensures reads_failed { MatchResult result.1
        (λ found. I.failed input.new ≡ I.failed input.old + lost_reads found.served)
        (λ _. I.failed input.new ≡ I.failed input.old) }
    ensures writes_failed { MatchResult result.1
        (λ found. O.failed output.new ≡ O.failed output.old + lost_writes found.served)
        (λ _. O.failed output.new ≡ O.failed output.old) }
    ensures unwritten { IfErr result.1 (λ _. O.written output.new ≡ O.written output.old) }
{
    gr_core::laws::lifted_desks_are_valid();
    gr_core::laws::commands_keep_a_desk_valid();
    let ended = stopped_files_hold_a_prefix(stopped);
    let office = match open_file(rt, file, start) {
        Ok(office) => office,
        Err(no_office) => return (ended, Err(no_office)),
    };
    let (office, sheet, served) = shown_and_answered(
        rt.alloc(),
        office,
        routes,
        asked,
        input,
        output,
    );
    let found = Found {
        office,
        sheet,
        served,
    };
    (ended, Ok(found))
}

/// A stop over the files of whatever disk, and an opening after it: the office is given up, and a
/// new connection goes over the files that it had. So what the headline says of a connection that
/// was just opened speaks of one over files, whatever calls were made on the office before.
///
/// [`Fault::Memory`] and [`Fault::Store`]: the files could not be opened; or a sync of them had
/// failed, after which they may not be used.
pub fn any_disks_are_opened<D: Disk + Drop>(
    alloc: Global,
    office: Office<FileStore<D>>,
    options: Options,
) -> Result<Connection<FileStore<D>>, NoOffice<D>>
    ensures opens { IfOk result (λ conn. HasCleanDisk (file_state conn)
        → Opens (file_state conn)) }
    ensures left { IfOk result (λ conn. HasCleanDisk (file_state conn) → IsLeftBehind office conn) }
    ensures outside { IfOk result (λ conn. conn.in_transaction ≡ false) }
    ensures failed { IfErr result (λ e. GivesFilesBack e.fault e.left) }
{
    let files = given_up(office).close();
    if !files.log.may_be_used() || !files.db.may_be_used() {
        return Err(NoOffice::over_files(Fault::Store, Leftover::Files(files)));
    }
    match Connection::open_files(alloc, files, options) {
        Ok(conn) => Ok(conn),
        Err((error, left)) => Err(NoOffice::over_files(Fault::from(error), left)),
    }
}

/// The same after a cut of the power, which may lose of each file what was written to it and not
/// synced, and leaves whatever the disk says that it may leave.
///
/// [`Fault::Memory`] and [`Fault::Store`]: the files could not be opened.
pub fn crashed_disks_are_opened<D: Crash + Drop>(
    alloc: Global,
    office: Office<FileStore<D>>,
    options: Options,
) -> Result<Connection<FileStore<D>>, NoOffice<D>>
    ensures opens { IfOk result (λ conn. HasCleanDisk (file_state conn)
        → Opens (file_state conn)) }
    ensures left { IfOk result (λ conn. HasCleanDisk (file_state conn) → IsLeftBehind office conn) }
    ensures outside { IfOk result (λ conn. conn.in_transaction ≡ false) }
    ensures failed { IfErr result (λ e. GivesFilesBack e.fault e.left) }
{
    let mut files = given_up(office).close();
    files.log.crash();
    files.db.crash();
    match Connection::open_files(alloc, files, options) {
        Ok(conn) => Ok(conn),
        Err((error, left)) => Err(NoOffice::over_files(Fault::from(error), left)),
    }
}

/// The same over disks in memory, which always return what was written.
///
/// [`Fault::Memory`] and [`Fault::Store`]: as there.
pub fn stopped_disks_are_opened(
    alloc: Global,
    office: Office<FileStore<Memory>>,
    options: Options,
) -> Result<Connection<FileStore<Memory>>, NoOffice<Memory>>
    ensures opens { IfOk result (λ conn. HasCleanDisk (file_state conn) × Opens (file_state conn)) }
    ensures left { IfOk result (IsLeftBehind office) }
    ensures outside { IfOk result (λ conn. conn.in_transaction ≡ false) }
    ensures failed { IfErr result (λ e. GivesFilesBack e.fault e.left) }
{
    any_disks_are_opened(alloc, office, options)
}

/// The office of a connection that was just opened over what a stop left of another one.
///
/// [`Fault::Memory`] and [`Fault::Store`]: the desk could not be read.
fn reopened<D: Disk + Drop>(
    alloc: Global,
    conn: Connection<FileStore<D>>,
) -> Result<Office<FileStore<D>>, NoOffice<D>>
    ensures found { IfOk result (λ office. HasCleanDisk (file_state office.conn)
        → HasCleanDisk (file_state conn) × (Opens (file_state conn)
        → (last : Shown (FilesOf D D.Disk)) → IsLeftBehind last conn
        → FindsAPrefix last office)) }
    ensures failed { IfErr result (λ e. HasCleanLeft e.left
        → HasCleanDisk (file_state conn) × (Opens (file_state conn)
        → (last : Shown (FilesOf D D.Disk)) → IsLeftBehind last conn
        → StillHasAPrefix last e.fault e.left)) }
{
    match starts_are_reopened(alloc, conn) {
        Ok(office) => Ok(office),
        Err(not_opened) => Err(NoOffice::from(not_opened)),
    }
}

/// The headline over the files of whatever disk: a stop, and an opening after it, whatever calls
/// were made on the office before. It speaks of what the files hold when the office is given up,
/// as [`reopened_files_hold_a_prefix`] does of what a stop may leave of them.
///
/// [`Fault::Memory`] and [`Fault::Store`]: as [`any_disks_are_opened`] says it, or the desk could
/// not be read.
pub fn any_disks_hold_a_prefix<D: Disk + Drop>(
    alloc: Global,
    office: Office<FileStore<D>>,
    options: Options,
) -> Result<Office<FileStore<D>>, NoOffice<D>>
    ensures found { IfOk result (λ reopened. HasCleanDisk (file_state reopened.conn)
        → FindsAPrefix office reopened) }
    ensures failed { IfErr result (λ e. HasCleanLeft e.left
        → StillHasAPrefix office e.fault e.left) }
{
    match any_disks_are_opened(alloc, office, options) {
        Ok(conn) => reopened(alloc, conn),
        Err(no_office) => Err(no_office),
    }
}

/// The headline over the files of whatever disk that can crash: a cut of the power at the end of
/// whatever calls, and an opening after it. A disk that a call was refused by before is one too:
/// so a cut inside a call is one after the call in which the disk failed.
///
/// [`Fault::Memory`] and [`Fault::Store`]: as [`crashed_disks_are_opened`] says it, or the desk
/// could not be read.
pub fn crashed_disks_hold_a_prefix<D: Crash + Drop>(
    alloc: Global,
    office: Office<FileStore<D>>,
    options: Options,
) -> Result<Office<FileStore<D>>, NoOffice<D>>
    ensures found { IfOk result (λ reopened. HasCleanDisk (file_state reopened.conn)
        → FindsAPrefix office reopened) }
    ensures failed { IfErr result (λ e. HasCleanLeft e.left
        → StillHasAPrefix office e.fault e.left) }
{
    match crashed_disks_are_opened(alloc, office, options) {
        Ok(conn) => reopened(alloc, conn),
        Err(no_office) => Err(no_office),
    }
}

/// The same over disks in memory: files whose bytes a program has in hand, so it can be applied to
/// any that a test makes.
///
/// [`Fault::Memory`] and [`Fault::Store`]: as there.
pub fn restarted_disks_hold_a_prefix(
    alloc: Global,
    office: Office<FileStore<Memory>>,
    options: Options,
) -> Result<Office<FileStore<Memory>>, NoOffice<Memory>>
    ensures found { IfOk result (FindsAPrefix office) }
    ensures failed { IfErr result (λ e. HasCleanLeft e.left
        → StillHasAPrefix office e.fault e.left) }
{
    any_disks_hold_a_prefix(alloc, office, options)
}
