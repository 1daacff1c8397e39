//! Roll files of the system.
ghost use Rattle.std.specs.Prelude.{◌≡◌, ◌+◌, ⊤, None, take, IfErr, IfOk, MatchOption};
ghost use Rattle.gr_desk.specs.Host.{IsUnreadable};

use crate::failure::Failure;
use gr_office::Fault;
use std::alloc::Global;
use std::fs::File;
use std::io::{self, ErrorKind, Read};

/// The bytes of a roll file; of one with more than `most`, as many as that and one.
///
/// [`Failure::CannotRead`]: they cannot be read. [`Failure::Fault`]: memory ran out.
pub(crate) fn bytes_of_file(rt: &HostRuntime, path: &str, most: usize) -> Result<Vec<u8>, Failure>
    ensures { IfErr result (IsUnreadable None) }
{
    match read_file(rt, path, most) {
        Ok(bytes) => Ok(bytes),
        Err(error) => Err(failure_of(error)),
    }
}

/// The bytes of the file at a path; of one with more than `most`, as many as that and one.
fn read_file(rt: &HostRuntime, path: &str, most: usize) -> io::Result<Vec<u8>> {
    let file = File::open(rt, path)?;
    bytes_of(rt.alloc(), file, most)
}

/// The bytes of a file; of one with more than `most`, as many as that and one.
fn bytes_of<R: Read + Drop>(alloc: Global, reader: R, most: usize) -> io::Result<Vec<u8>>
    ensures { IfOk result (λ bytes. MatchOption (R.remaining reader) ⊤
        (λ all. bytes.items ≡ take (most + 1) all)) }
{
    let mut bytes = Vec::new(alloc);
    let limit = (most as u64).saturating_add(1);
    reader.take(limit).read_to_end(&mut bytes)?;
    Ok(bytes)
}

fn failure_of(error: io::Error) -> Failure
    ensures { IsUnreadable None result }
{
    if error.kind() == ErrorKind::OutOfMemory {
        Failure::Fault(Fault::Memory)
    } else {
        Failure::CannotRead
    }
}
