//! The steps of a line: what it writes.
ghost use Rattle.std.specs.Prelude.{◌≡◌, ◌-◌, ◌^◌, ◌<◌, map, IfErr, OnOk};
ghost use Rattle.std.specs.Io.KnownBytes.{Appends};
ghost use Rattle.gr_core.specs.Machine.Import.{roll_row};
ghost use Rattle.gr_http.specs.Streams.{AppendsBeginning};
ghost use Rattle.gr_desk.specs.declared.failure.Failure.TheVariants as failures;
ghost use Rattle.gr_desk.specs.Steps.{PrintsSheet, ImportsRows};

use crate::failure::Failure;
use gr_core::{Command, RollRow};
use gr_http::line::reply_line;
use gr_http::output::{Output, write_all};
use gr_office::{Kind, Office};
use sqlite_trees::store::Alter;
use std::alloc::Global;

/// Writes a text, whole. [`Failure::Lost`]: a write failed, and a beginning of it was written.
pub fn print<O: Output>(output: &mut O, text: &str) -> Result<(), Failure>
    requires { O.failed output.old < 2 ^ 64 - 1 }
    ensures whole { OnOk result (Appends (O.written output.old) (O.written output.new) text.now) }
    ensures lost { IfErr result (λ failure. (failure ≡ failures.Lost)
        × AppendsBeginning (O.written output.old) (O.written output.new) text.now) }
{
    match write_all(output, text.as_bytes()) {
        Ok(()) => Ok(()),
        Err(_) => Err(Failure::Lost),
    }
}

/// Writes a sheet, whole.
///
/// [`Failure::Lost`]: a write failed, and a beginning of the sheet was written.
/// [`Failure::Refused`], [`Failure::Fault`]: there is none, as [`Office::sheet`] says it, and
/// nothing was written.
pub fn print_sheet<S: Alter, O: Output>(
    alloc: Global,
    office: &Office<S>,
    kind: Kind,
    number: u32,
    output: &mut O,
) -> Result<(), Failure>
    requires { O.failed output.old < 2 ^ 64 - 1 }
    ensures { PrintsSheet office.now.desk kind number (O.written output.old) (O.written output.new)
        result }
{
    let text = office.sheet(alloc, kind, number)?;
    print(output, text.as_str())
}

/// Imports the rows by one command, and writes the line of its reply, whole. The line takes no
/// memory.
///
/// [`Failure::Lost`]: a write failed; the rows are imported, and a beginning of the line was
/// written. [`Failure::Refused`], [`Failure::Fault`]: as [`Office::act`] says it, and nothing was
/// written.
pub fn import_rows<S: Alter, O: Output>(
    alloc: Global,
    office: &mut Office<S>,
    at: u64,
    rows: Vec<RollRow>,
    output: &mut O,
) -> Result<(), Failure>
    requires { O.failed output.old < 2 ^ 64 - 1 }
    ensures { ImportsRows S.Store office.old at (map roll_row rows.items)
        (O.written output.old) (O.written output.new) result office.new }
{
    let reply = office.act(alloc, at, &Command::ImportRoll { rows })?;
    print(output, reply_line(reply).as_str())
}
