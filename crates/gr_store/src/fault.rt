//! Faults: why the store could not do what it was asked.
ghost use Rattle.std.specs.Prelude.{◌≡◌, ◌≢◌, ◌↔◌, Some, IsTrue};
ghost use Rattle.gr_store.specs.declared.fault.Fault.TheVariants as faults;
ghost use Rattle.gr_store.specs.Faults.{IsOfStore, is_unreadable, fault_of_error, fault_of_read, fault_of_unfit, fault_of_no_row, fault_text};

use gr_core::{NoRow, Unfit};
use sqlite::ErrorCode;
use std::alloc::{AllocError, AllocFailed};
use std::error::Error;
use std::fmt;

/// Why the store could not do what it was asked.
#[derive(Clone, Copy, Debug, PartialEq, Eq)]
pub enum Fault {
    /// Memory was refused, to this program or to the database.
    Memory,

    /// The database failed for another cause: its disk, the size of what it was to keep, or, beside
    /// tables of another program, a rule of theirs.
    Store,

    /// A commit failed earlier, and closed the store; or a fault closed the office that had it.
    Closed,

    /// The database has a table `desk`, but no valid desk: a rule of a valid desk is broken in the
    /// rows, a table or a column is missing, or a column holds a value of another type.
    Damaged,

    /// The rows are of a later version than this program's, [`VERSION`](gr_core::VERSION).
    TooNew,

    /// The rows are of an earlier version than this program's, 0 and less too, so that one clause
    /// serves this and `TooNew`. A migration may bring them to it. It never reports `TooOld`, which
    /// would send its reader to `migrate` again.
    TooOld,

    /// There is no table `desk`.
    NotADesk,

    /// One of the names of the tables is taken already.
    Occupied,
}

/// As of a refusal of `gr_core`, no contract says that printing one succeeds where the writer takes
/// all. So tests print each fault, and a response has a fixed text.
impl fmt::Display for Fault {
    ghost output = { λ fault. Some (fault_text fault) };

    fn fmt<W: fmt::Write>(&self, f: &mut fmt::Formatter<W>) -> fmt::Result {
        match self {
            Fault::Memory => f.write_str("out of memory"),
            Fault::Store => f.write_str("the database failed"),
            Fault::Closed => f.write_str("closed by an earlier fault"),
            Fault::Damaged => f.write_str("the rows of no valid desk"),
            Fault::TooNew => f.write_str("a desk of a later version"),
            Fault::TooOld => f.write_str("a desk of an earlier version"),
            Fault::NotADesk => f.write_str("no table desk"),
            Fault::Occupied => f.write_str("a name of the tables is taken"),
        }
    }
}

impl Error for Fault {}

/// Why a statement that writes failed.
impl From<sqlite::Error> for Fault {
    ghost from_gives = { λ error fault. IsOfStore fault × (fault ≡ fault_of_error error) };

    fn from(error: sqlite::Error) -> Fault {
        match error {
            sqlite::Error::SqliteFailure(ErrorCode::OutOfMemory) => Fault::Memory,
            _ => Fault::Store,
        }
    }
}

/// Why a select of a table's columns failed, or one of its rows could not be read: where the text
/// does not fit the schema, or the value the column, the tables are damaged. That is promised where
/// the schema is right: only then an answer that is cut off there is the beginning of a whole one.
pub(crate) fn unread(error: sqlite::Error) -> Fault
    ensures damaged { (result ≡ faults.Damaged) ↔ IsTrue (is_unreadable error) }
    ensures other { result ≢ faults.Damaged → IsOfStore result }
    ensures fault { result ≡ fault_of_read error }
{
    match error {
        sqlite::Error::SqlInputError(_)
        | sqlite::Error::InvalidColumnIndex(_)
        | sqlite::Error::InvalidColumnType(_, _)
        | sqlite::Error::IntegralValueOutOfRange(_)
        | sqlite::Error::Utf8Error(_) => Fault::Damaged,
        error => Fault::from(error),
    }
}

impl From<AllocError> for Fault {
    ghost from_gives = { λ _ fault. fault ≡ faults.Memory };

    fn from(_error: AllocError) -> Fault {
        Fault::Memory
    }
}

impl<T: Drop> From<AllocFailed<T>> for Fault {
    ghost from_gives = { λ _ fault. fault ≡ faults.Memory };

    fn from(_error: AllocFailed<T>) -> Fault {
        Fault::Memory
    }
}

impl From<Unfit> for Fault {
    ghost from_gives = { λ unfit fault. fault ≡ fault_of_unfit unfit };

    fn from(unfit: Unfit) -> Fault {
        match unfit {
            Unfit::Damaged => Fault::Damaged,
            Unfit::Memory => Fault::Memory,
        }
    }
}

impl From<gr_core::Memory> for Fault {
    ghost from_gives = { λ _ fault. fault ≡ faults.Memory };

    fn from(_memory: gr_core::Memory) -> Fault {
        Fault::Memory
    }
}

impl From<NoRow> for Fault {
    ghost from_gives = { λ no_row fault. IsOfStore fault × (fault ≡ fault_of_no_row no_row) };

    fn from(no_row: NoRow) -> Fault {
        match no_row {
            NoRow::TooGreat => Fault::Store,
            NoRow::Memory => Fault::Memory,
        }
    }
}
