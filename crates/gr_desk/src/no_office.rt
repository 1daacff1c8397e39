//! How a connection to a file is made; and why there is no office over a file, with what is given
//! back of it then.
ghost use Rattle.std.specs.Prelude.{◌≡◌, false, IfErr, IfOk};
ghost use Rattle.gr_store.specs.Faults.{IsOfStore, fault_of_error};
ghost use Rattle.gr_desk.specs.Openings.{IsNotConnected, given_back};
ghost use Rattle.gr_desk.specs.Sums.{HasWrongSum};
ghost use Rattle.gr_desk.specs.declared.no_office.Left.TheVariants as given;
ghost use Rattle.sqlite.specs.Files.{file_state, IsBlankAs, IsOpened};
ghost use Rattle.sqlite.specs.Held.{IsNew};
ghost use Rattle.sqlite.specs.Start.{FindsIn};
ghost use Rattle.sqlite.specs.State.{HasCleanDisk};
ghost use Rattle.sqlite_store.specs.FileStore.{view};
ghost use Rattle.sqlite_wal.specs.Files.{image_at};

use crate::file::database_path;
use gr_office::{Fault, NotOpened};
use sqlite::{Connection, Error, FileFrom, FileStore, Leftover, Start};
use sqlite_disk::Disk;

/// No office was opened over a file. That nothing is given back of it, [`open_connection`] alone
/// can say, and only where it made no connection: whoever has a connection gives that back.
#[derive(Drop)]
pub struct NoOffice<D: Disk> {
    fault: Fault,
    left: Left<D>,
}

/// What is given back of a file over which no office was opened.
#[derive(Drop)]
pub enum Left<D: Disk> {
    /// Nothing: no file was opened.
    Nothing,

    /// The file and its log, over which there is no connection.
    Files(Leftover<D>),

    /// The connection to the database of the file.
    Connection(Connection<FileStore<D>>),
}

impl<D: Disk> NoOffice<D> {
    /// There is no connection over these files.
    pub(crate) fn over_files(fault: Fault, left: Leftover<D>) -> Self
        ensures fault { result.fault ≡ fault }
        ensures left { result.left ≡ given.Files left }
    {
        NoOffice {
            fault,
            left: Left::Files(left),
        }
    }

    /// What happened.
    pub fn fault(&self) -> Fault
        ensures { result ≡ self.now.fault }
    {
        self.fault
    }

    /// What is given back of the file.
    pub fn left(&self) -> &Left<D>
        ensures { result.now ≡ self.now.left }
    {
        &self.left
    }
}

/// The connection over which no office was opened is given back.
impl<D: Disk> From<NotOpened<FileStore<D>>> for NoOffice<D> {
    ghost from_gives = { λ not_opened no_office. no_office ≡ record {
      fault = not_opened.fault;
      left = given.Connection not_opened.conn;
    } };

    fn from(not_opened: NotOpened<FileStore<D>>) -> NoOffice<D> {
        NoOffice {
            fault: not_opened.fault,
            left: Left::Connection(not_opened.conn),
        }
    }
}

/// A connection to the database of a file, which is made where there is none, with sums on its
/// pages where `new_has_sums` asks for them. It shows what the file holds, for which `S` stands.
///
/// [`Fault::Memory`], [`Fault::Store`]: it could not be opened.
pub(crate) fn open_connection<S: Start>(
    rt: &HostRuntime,
    file: &str,
    new_has_sums: bool,
    start: S,
) -> Result<Connection<FileStore<FileFrom<S>>>, NoOffice<FileFrom<S>>>
    ensures outside { IfOk result (λ conn. conn.in_transaction ≡ false) }
    ensures fresh { IfOk result IsNew }
    ensures opened { IfOk result (λ conn. HasCleanDisk (file_state conn) → IsOpened conn) }
    ensures found { IfOk result (λ conn. HasCleanDisk (file_state conn)
        → FindsIn (image_at S.Start) (file_state conn)) }
    ensures sums { IfOk result (λ conn. HasCleanDisk (file_state conn)
        → IsBlankAs new_has_sums (image_at S.Start)
        → (view conn.store).has_sums ≡ new_has_sums) }
    ensures right_sums { IfOk result (λ conn. HasCleanDisk (file_state conn)
        → ¬ (HasWrongSum (image_at S.Start))) }
    ensures faults { IfErr result (λ e. IsOfStore e.fault) }
    ensures failed { IfErr result (λ e. IsNotConnected (image_at S.Start) e.fault e.left) }
{
    let Ok(path) = database_path(rt.alloc(), file) else {
        return Err(NoOffice {
            fault: Fault::Memory,
            left: Left::Nothing,
        });
    };
    match Connection::open_from(rt, path.as_str(), new_has_sums, start) {
        Ok(conn) => Ok(conn),
        Err((error, left)) => Err(unconnected(error, left)),
    }
}

/// What the engine's error is reported as, with what it gives back of the files, if they were
/// opened.
fn unconnected<D: Disk>(error: Error, left: Option<Leftover<D>>) -> NoOffice<D>
    ensures fault { result.fault ≡ fault_of_error error }
    ensures store { IsOfStore result.fault }
    ensures left { result.left ≡ given_back left }
{
    NoOffice {
        fault: Fault::from(error),
        left: match left {
            Some(left) => Left::Files(left),
            None => Left::Nothing,
        },
    }
}
