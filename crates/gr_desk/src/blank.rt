//! Files that hold no database yet, of which an opening would make an empty one.
ghost use Rattle.std.specs.Prelude.{IfErr};
ghost use Rattle.gr_store.specs.Faults.{IsOfStore};

use crate::file::{database_path, fault_of};
use gr_office::Fault;
use sqlite::{FileFrom, Files, Wary};
use sqlite_disk::Disk;
use sqlite_pool::probe_blank;
use sqlite_std_file::OpenError;
use sqlite_wal::PageSize;
use std::fs;

/// The page size of a new database.
const PAGE_BYTES: usize = 4_096;

/// Whether this is a file of no bytes, or one of a single byte whose log has no commit. Neither
/// holds a desk, the first whatever its log has, and to open it would make an empty database of it.
/// Nothing is written to it.
///
/// [`Fault::Memory`]: the memory for its path was refused. [`Fault::Store`]: the system does not
/// say what it is. [`Fault::Memory`], [`Fault::Store`]: a file of one byte, or its log, cannot be
/// opened or read.
pub(crate) fn is_blank(rt: &HostRuntime, file: &str) -> Result<bool, Fault>
    ensures { IfErr result IsOfStore }
{
    match fs::metadata(rt, file) {
        Ok(about) if about.is_file() => match about.len() {
            0 => Ok(true),
            1 => has_no_commit(rt, file),
            _ => Ok(false),
        },
        Ok(_) => Ok(false),
        Err(error) => Err(fault_of(&error)),
    }
}

/// Whether the log of a file of one byte has no commit. It is read as the engine reads it.
fn has_no_commit(rt: &HostRuntime, file: &str) -> Result<bool, Fault>
    ensures { IfErr result IsOfStore }
{
    let mut files = files_of(rt, file)?;
    if !files.log.may_be_used() || !files.db.may_be_used() {
        return Err(Fault::Store);
    }
    let Some(size) = PageSize::new(PAGE_BYTES) else {
        unreachable!()
    };
    match probe_blank(rt.alloc(), &mut files, size, false) {
        Ok(is_blank) => Ok(is_blank),
        Err(sqlite_wal::Error::OutOfMemory) => Err(Fault::Memory),
        Err(_) => Err(Fault::Store),
    }
}

/// The file and its log. A log is made where there is none.
fn files_of(rt: &HostRuntime, file: &str) -> Result<Files<FileFrom<Wary>>, Fault>
    ensures { IfErr result IsOfStore }
{
    let Ok(path) = database_path(rt.alloc(), file) else {
        return Err(Fault::Memory);
    };
    match sqlite_std_file::open(rt, path.as_str(), Wary) {
        Ok(files) => Ok(files),
        Err(OpenError::Io(error)) => Err(fault_of(&error)),
        Err(OpenError::OutOfMemory) => Err(Fault::Memory),
        Err(OpenError::Busy | OpenError::HotJournal) => Err(Fault::Store),
    }
}
