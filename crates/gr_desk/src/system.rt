//! The machine that the program runs on: files of the system, and ports of 127.0.0.1.
ghost use Rattle.std.specs.Prelude.{◌≡◌, ℕ, List, None, Some, false, IfOk, IfErr, IsTrue};
ghost use Rattle.gr_store.specs.Faults.{IsOfStore};
ghost use Rattle.gr_desk.specs.Host.{HasSumsAsAsked, IsConnected};
ghost use Rattle.gr_desk.specs.System.{machine_with, waiting};
ghost use Rattle.sqlite.specs.Files.{file_state, over_files};
ghost use Rattle.sqlite.specs.State.{HasCleanDisk};
ghost use Rattle.sqlite_wal.specs.Files.{image_at};

use crate::blank::is_blank;
use crate::csv_file::bytes_of_file;
use crate::failure::Failure;
use crate::file::{is_there, make_private};
use crate::host::Host;
use crate::no_office::open_connection;
use crate::serve::PortDoor;
use gr_office::Fault;
use sqlite::{Connection, FileFrom, FileStore, Start};
use std::net::{Ipv4Addr, TcpListener};

/// What a connection to a file of the machine is over.
pub type FileOf<S> = FileStore<FileFrom<S>>;

/// The machine: its files, of which one holds a desk, and its ports. `S` stands for the contents of
/// that file and its log, until it is opened. It is one type, whatever the names of files, and is
/// given to the first that is opened. What else is under a name, or comes on a port, the machine
/// does not say.
#[derive(Drop)]
pub struct SystemHost<'a, S: Start> {
    rt: &'a HostRuntime,

    /// Until the file is opened.
    start: Option<S>,
}

impl<'a, S: Start> SystemHost<'a, S> {
    /// The machine, with no file opened so far.
    pub fn new(rt: &'a HostRuntime, start: S) -> Self
        ensures { ⟦<SystemHost<'a, S> as Host>⟧.known result ≡ machine_with (image_at S.Start) }
    {
        SystemHost {
            rt,
            start: Some(start),
        }
    }

    /// A connection to the database of a file, which is made where there is none, with sums on its
    /// pages or without. A second one is refused by [`Fault::Store`].
    fn connect_to(&mut self, file: &str, has_sums: bool) -> Result<Connection<FileOf<S>>, Fault>
        ensures outside { IfOk result (λ conn. conn.in_transaction ≡ false) }
        ensures live { IfOk result (λ conn. HasCleanDisk (file_state conn)
            → IsTrue (file_state conn).is_open) }
        ensures found { IfOk result
            (IsConnected over_files (waiting (image_at S.Start) self.old.start)) }
        ensures sums { IfOk result
            (HasSumsAsAsked over_files has_sums (waiting (image_at S.Start) self.old.start)) }
        ensures faults { IfErr result IsOfStore }
        ensures taken { self.new.start ≡ None }
    {
        let Some(start) = self.start.take() else {
            return Err(Fault::Store);
        };
        match open_connection(self.rt, file, has_sums, start) {
            Ok(conn) => Ok(conn),
            Err(no_office) => Err(no_office.fault()),
        }
    }
}

impl<'a, S: Start> Host for SystemHost<'a, S> {
    type Store = FileOf<S>;

    type Door = PortDoor<'a, HostRuntime>;

    ghost use Rattle.gr_desk.specs.System.{machine, waiting};
    ghost use Rattle.sqlite_wal.specs.Files.{image_at};

    ghost known = { λ it. machine (waiting (image_at S.Start) it.start) };

    fn is_there(&self, file: &str) -> Result<bool, Fault> {
        is_there(self.rt, file)
    }

    fn connect(&mut self, file: &str) -> Result<Connection<FileOf<S>>, Fault> {
        if is_blank(self.rt, file)? {
            return Err(Fault::NotADesk);
        }
        self.connect_to(file, false)
    }

    fn make(&mut self, file: &str, has_sums: bool) -> Result<Connection<FileOf<S>>, Fault> {
        make_private(self.rt, file)?;
        self.connect_to(file, has_sums)
    }

    fn read_roll(&mut self, file: &str, most: usize) -> Result<Vec<u8>, Failure> {
        bytes_of_file(self.rt, file, most)
    }

    fn listen(&mut self, port: u16) -> Result<PortDoor<'a, HostRuntime>, Failure> {
        match TcpListener::bind(self.rt, (Ipv4Addr::LOCALHOST, port)) {
            Ok(listener) => Ok(PortDoor::of(listener, self.rt)),
            Err(_) => Err(Failure::CannotListen),
        }
    }
}
