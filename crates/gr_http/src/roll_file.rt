//! Roll files: a developer's login, name and status in each record.
ghost use Rattle.std.specs.Prelude.{◌≡◌, ◌≢◌, [], ◌∷◌, length, Some, IfOk, IfSome, IfNone, option_map};
ghost use Rattle.csv.specs.Records.{fields_of};
ghost use Rattle.gr_core.specs.Machine.Import.{roll_row};
ghost use Rattle.gr_http.specs.RollFile.{is_column_names, row_in, ReadsRoll, no_roll_text};
ghost use Rattle.gr_http.specs.declared.roll_file.NoRoll.TheVariants as none;

use crate::problem::Problem;
use crate::records::{read_next, reader_of};
use csv::ByteRecord;
use gr_core::RollRow;
use std::alloc::{AllocError, AllocFailed, Global};
use std::error::Error;
use std::{fmt, str};

/// Why bytes are not read as a roll.
#[derive(Clone, Copy, Debug, PartialEq, Eq)]
pub enum NoRoll {
    /// The record with this number is the first that is not of its form: the first record, with
    /// number 1, is the three fields `login`, `name` and `status`, and each further one has three
    /// fields, each UTF-8.
    BadLine(usize),

    /// The memory to read them was refused.
    Memory,
}

impl fmt::Display for NoRoll {
    ghost output = { λ none. Some (no_roll_text none) };

    fn fmt<W: fmt::Write>(&self, f: &mut fmt::Formatter<W>) -> fmt::Result {
        match self {
            NoRoll::BadLine(line) => {
                let problem = Problem::BadRoll(*line);
                write!(f, "{problem}")
            }
            NoRoll::Memory => f.write_str("out of memory"),
        }
    }
}

impl Error for NoRoll {}

impl From<AllocError> for NoRoll {
    ghost from_gives = { λ _ e. e ≡ none.Memory };

    fn from(_error: AllocError) -> NoRoll {
        NoRoll::Memory
    }
}

impl<T: Drop> From<AllocFailed<T>> for NoRoll {
    ghost from_gives = { λ _ e. e ≡ none.Memory };

    fn from(_error: AllocFailed<T>) -> NoRoll {
        NoRoll::Memory
    }
}

/// The rows of a roll file, in their order.
///
/// A byte order mark at the start is passed over. The records are those of comma-separated fields
/// (RFC 4180), where any of LF, CR and CRLF ends a line, an empty line is no record, and a record
/// may have any number of fields. The first is the names of the columns, `login,name,status`, and
/// each further one is a row of three fields, each UTF-8. Nothing is trimmed, and what the fields
/// say is not judged.
///
/// [`NoRoll::BadLine`]: the number of the first record that is not so, counted from 1, which is 1
/// too where there is no record. [`NoRoll::Memory`]: the memory for the rows was refused.
#[tactic(auto, unfolding(crate::specs::RollFile::roll_in))]
pub fn read_roll(alloc: Global, bytes: &[u8]) -> Result<Vec<RollRow>, NoRoll>
    ensures { ReadsRoll bytes.now result }
{
    let mut reader = reader_of(alloc, bytes);
    let mut fields = ByteRecord::new(alloc);
    if !read_next(&mut reader, &mut fields)? || !is_column_names(&fields) {
        return Err(NoRoll::BadLine(1));
    }
    let mut rows = Vec::new(alloc);
    while read_next(&mut reader, &mut fields)? {
        let Some(row) = row_in(alloc, &fields)? else {
            return Err(NoRoll::BadLine(rows.len() + 2));
        };
        rows.push(row)?;
    }
    Ok(rows)
}

/// Whether a record is the names of the columns.
fn is_column_names(fields: &ByteRecord) -> bool
    ensures { result ≡ is_column_names (fields_of fields.now) }
{
    let Some((login, name, status)) = three_fields(fields) else {
        return false;
    };
    login == b"login".as_slice() && name == b"name".as_slice() && status == b"status".as_slice()
}

/// The row of a record, where it is one. `Err`: the memory for its texts was refused.
fn row_in(alloc: Global, fields: &ByteRecord) -> Result<Option<RollRow>, AllocError>
    ensures { IfOk result (λ row. option_map roll_row row ≡ row_in (fields_of fields.now)) }
{
    let Some((login, name, status)) = three_fields(fields) else {
        return Ok(None);
    };
    let Ok(login) = str::from_utf8(login) else {
        return Ok(None);
    };
    let Ok(name) = str::from_utf8(name) else {
        return Ok(None);
    };
    let Ok(status) = str::from_utf8(status) else {
        return Ok(None);
    };
    Ok(Some(RollRow {
        login: String::from_str(alloc, login)?,
        name: String::from_str(alloc, name)?,
        status: String::from_str(alloc, status)?,
    }))
}

/// The fields of a record that has three.
fn three_fields(fields: &ByteRecord) -> Option<(&[u8], &[u8], &[u8])>
    ensures some { IfSome result (λ three.
        fields_of fields.now ≡ three.0.now ∷ three.1.now ∷ three.2.now ∷ []) }
    ensures none { IfNone result (length (fields_of fields.now) ≢ 3) }
{
    if fields.len() != 3 {
        return None;
    }
    Some((fields.get(0)?, fields.get(1)?, fields.get(2)?))
}
