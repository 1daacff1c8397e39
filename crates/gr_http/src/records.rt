//! The records of comma-separated fields that stand in bytes.
ghost use Rattle.std.specs.Prelude.{◌≡◌, true, IfOk};
ghost use Rattle.csv.specs.Reading.{default_config, error_kind, records, stops_reader, strip_bom};
ghost use Rattle.csv.specs.Records.{fields_of};
ghost use Rattle.gr_http.specs.Records.{IsBetweenRecords, ReadsRecord, records_left};

use csv::{ByteRecord, Error, ErrorKind, Reader, ReaderBuilder};
use std::alloc::{AllocError, Global};

/// A reader of the records of these bytes, after a byte order mark at their start. Fields are
/// separated by commas and quoted by double quotes, and a record has any number of them.
pub fn reader_of(alloc: Global, bytes: &[u8]) -> Reader<&[u8]>
    ensures between { IsBetweenRecords result }
    ensures all { records_left result ≡ records default_config (strip_bom bytes.now) }
{
    ReaderBuilder::new()
        .has_headers(false)
        .flexible(true)
        .from_reader(alloc, bytes)
}

/// Reads the next record, and says whether there is one. `Err`: the memory for it was refused, and
/// the reader gives no more records.
pub fn read_next(reader: &mut Reader<&[u8]>, fields: &mut ByteRecord) -> Result<bool, AllocError>
    requires { IsBetweenRecords reader.old }
    ensures { IfOk result (λ found.
        ReadsRecord reader.old reader.new found (fields_of fields.new)) }
{
    reader.read_byte_record(fields).map_err(want_of_memory)
}

/// The want of memory that stopped a reader. The crate `csv` reads bytes in memory as it reads a
/// file, and its contract leaves open whether such a read may fail. It never does.
fn want_of_memory(error: Error) -> AllocError
    requires { stops_reader (error_kind error) ≡ true }
{
    match error.into_kind() {
        ErrorKind::OutOfMemory | ErrorKind::Io(_) => AllocError,
        _ => unreachable!(),
    }
}
