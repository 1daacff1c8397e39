//! A machine in memory, of which it is known what its file has and what was asked of it.
ghost use Rattle.std.specs.Prelude.{◌≡◌, ◌+◌, ◌<◌, false, take, string_bytes, vec_len, vec_capacity, IfOk, IfErr, IsTrue, OnOk, Some};
ghost use Rattle.std.specs.Str.{bytes_eq};
ghost use Rattle.gr_store.specs.Faults.{IsOfStore};
ghost use Rattle.gr_desk.specs.Host.{Bytes, HasSumsAsAsked, IsConnected};
ghost use Rattle.gr_desk.specs.Life.{IsLeftOf};
ghost use Rattle.sqlite.specs.Files.{file_state, image_of, over_files};
ghost use Rattle.sqlite.specs.State.{HasCleanDisk};
ghost use Rattle.sqlite_wal.specs.Files.{outcomes};
ghost use Rattle.sqlite_wal.specs.Recovery.{Image};

use crate::asked::Asked;
use crate::lasting_host::LastingHost;
use crate::truthful::Truthful;
use gr_desk::ending::Ending;
use gr_desk::failure::Failure;
use gr_desk::file::give_up;
use gr_desk::host::Host;
use gr_http::memory_door::MemoryDoor;
use gr_office::Fault;
use sqlite::{Connection, FileStore, Files, Options};
use sqlite_disk::Disk;
use std::alloc::{AllocError, Global};
use std::mem;

/// How many reads a connection may have.
const READS: usize = 100;

/// A machine with one file, one roll file, whatever its name, and connections that wait at each
/// port. Two files would need a map, and say no more of a line, which gets one name.
#[derive(Drop)]
pub struct OneFile<'a, D: Disk + Drop> {
    /// Where its memory comes from.
    pub alloc: Global,

    /// The name of the file. Nothing is under any other one.
    pub name: &'a str,

    /// The file and its log, which are empty until a desk is made; none while a connection to them
    /// is lent.
    pub files: Option<Files<D>>,

    /// Whether the file was made.
    pub is_made: bool,

    /// The bytes of the roll file.
    pub roll: &'a [u8],

    /// What the connections at each port bring.
    pub awaited: &'a [&'a [u8]],

    /// What it was asked for since that was looked at.
    pub asked: Vec<Asked>,
}

impl<D: Disk + Drop> OneFile<'_, D> {
    /// Whether the name is that of the file.
    fn is_its(&self, file: &str) -> bool
        ensures { result ≡ bytes_eq file.now self.now.name.now }
    {
        file == self.name
    }
}

impl<'a, D: Disk + Drop> Host for OneFile<'a, D> {
    type Store = FileStore<D>;

    type Door = MemoryDoor<'a>;

    ghost use Rattle.std.specs.Prelude.{Some, map};
    ghost use Rattle.gr_desk_tests.specs.Hosts.{access_of, one_file};

    ghost known = { λ it. one_file D.Disk it.name.now it.is_made it.files it.roll.now
        (map (λ bytes. bytes.now) it.awaited.now) };

    ghost asked = { λ it. Some (map access_of it.asked.items) };

    fn is_there(&self, file: &str) -> Result<bool, Fault> {
        Ok(self.is_made && self.is_its(file))
    }

    fn connect(&mut self, file: &str) -> Result<Connection<FileStore<D>>, Fault> {
        if !self.is_its(file) {
            return Err(Fault::Store);
        }
        let name = match room_for(self.alloc, &mut self.asked, file) {
            Ok(name) => name,
            Err(fault) => return Err(fault),
        };
        let Some(files) = self.files.take() else {
            return Err(Fault::Store);
        };
        match connected(self.alloc, files, false) {
            Ok(conn) => {
                self.asked.push_reserved(Asked::Opens(name));
                Ok(conn)
            }
            Err(fault) => Err(fault),
        }
    }

    fn make(&mut self, file: &str, has_sums: bool) -> Result<Connection<FileStore<D>>, Fault> {
        if !self.is_its(file) {
            return Err(Fault::Store);
        }
        let name = match room_for(self.alloc, &mut self.asked, file) {
            Ok(name) => name,
            Err(fault) => return Err(fault),
        };
        let Some(files) = self.files.take() else {
            return Err(Fault::Store);
        };
        self.is_made = true;
        match connected(self.alloc, files, has_sums) {
            Ok(conn) => {
                self.asked.push_reserved(Asked::Makes(name, has_sums));
                Ok(conn)
            }
            Err(fault) => Err(fault),
        }
    }

    fn read_roll(&mut self, file: &str, most: usize) -> Result<Vec<u8>, Failure> {
        let Ok(name) = room_for(self.alloc, &mut self.asked, file) else {
            return Err(Failure::Fault(Fault::Memory));
        };
        match beginning_of(self.alloc, self.roll, most) {
            Ok(bytes) => {
                self.asked.push_reserved(Asked::Reads(name));
                Ok(bytes)
            }
            Err(_) => Err(Failure::Fault(Fault::Memory)),
        }
    }

    fn listen(&mut self, port: u16) -> Result<MemoryDoor<'a>, Failure> {
        if self.asked.reserve(1).is_err() {
            return Err(Failure::Fault(Fault::Memory));
        }
        self.asked.push_reserved(Asked::Listens(port));
        Ok(MemoryDoor::new(self.alloc, self.awaited, READS))
    }
}

/// The name, for which there is room after what was asked.
fn room_for(alloc: Global, asked: &mut Vec<Asked>, file: &str) -> Result<String, Fault>
    ensures name { IfOk result (λ name. string_bytes name ≡ file.now) }
    ensures room { OnOk result (vec_len asked.new < vec_capacity asked.new) }
    ensures same { asked.new.items ≡ asked.old.items }
    ensures faults { IfErr result IsOfStore }
{
    if asked.reserve(1).is_err() {
        return Err(Fault::Memory);
    }
    match String::from_str(alloc, file) {
        Ok(name) => Ok(name),
        Err(_) => Err(Fault::Memory),
    }
}

/// As many bytes as `most` and one more, or all.
fn beginning_of(alloc: Global, bytes: &[u8], most: usize) -> Result<Vec<u8>, AllocError>
    ensures { IfOk result (λ beginning. beginning.items ≡ take (most + 1) bytes.now) }
{
    if bytes.len() <= most {
        return Vec::from_slice(alloc, bytes);
    }
    Vec::from_slice(alloc, &bytes[..most + 1])
}

/// A connection to these files, which get sums on their pages or not where they are empty.
fn connected<D: Disk + Drop>(
    alloc: Global,
    files: Files<D>,
    has_sums: bool,
) -> Result<Connection<FileStore<D>>, Fault>
    ensures outside { IfOk result (λ conn. conn.in_transaction ≡ false) }
    ensures live { IfOk result (λ conn. HasCleanDisk (file_state conn)
        → IsTrue (file_state conn).is_open) }
    ensures found { IfOk result
        (IsConnected over_files
        (Some (Bytes (image_of D.Disk files)))) }
    ensures sums { IfOk result
        (HasSumsAsAsked over_files has_sums
        (Some (Bytes (image_of D.Disk files)))) }
    ensures faults { IfErr result IsOfStore }
{
    if !files.may_be_used() {
        return Err(Fault::Store);
    }
    match Connection::open_files_with(alloc, files, Options::new(7), has_sums) {
        Ok(conn) => Ok(conn),
        Err((error, _)) => Err(Fault::from(error)),
    }
}

/// The process is ended after each line, and no log is copied: no clause says what the files hold
/// of a store whose log could not be copied. So a crash in a close is not among those that this
/// shows. After a line that left no connection it does not say what its file has, and no sheet is
/// asked for.
impl<D: Truthful + Drop> LastingHost for OneFile<'_, D> {
    fn take_back(&mut self, file: &str, left: &mut Ending<FileStore<D>>) -> bool {
        let conn = match mem::replace(left, Ending::Nothing) {
            Ending::Nothing => return false,
            Ending::Close(conn) | Ending::LetGo(conn) => conn,
        };
        if !self.is_its(file) {
            return false;
        }
        self.files = Some(come_back(conn));
        true
    }
}

/// The files of a connection whose process was ended. Where a disk does not answer any more, the
/// machine comes back, and what was not synced may be lost.
fn come_back<D: Truthful + Drop>(conn: Connection<FileStore<D>>) -> Files<D>
    ensures { IsLeftOf over_files conn (image_of D.Disk result) }
{
    let mut files = give_up(conn);
    if !still_answer(&mut files) {
        files.log.crash();
        files.db.crash();
    }
    files
}

/// Whether both disks may be used, and the log answers.
fn still_answer<D: Disk>(files: &mut Files<D>) -> bool
    ensures same { image_of D.Disk files.new ≡ image_of D.Disk files.old }
    ensures outcomes { (image : Image) → outcomes D.Disk files.new.log files.new.db image
        → outcomes D.Disk files.old.log files.old.db image }
{
    files.may_be_used() && files.log.len().is_ok()
}
