//! `roll`, `status`, `tally` and `result`: a sheet.
ghost use Rattle.std.specs.Prelude.{◌≡◌, ◌⊎◌, ◌-◌, ◌^◌, ◌<◌};
ghost use Rattle.gr_desk.specs.Host.{AsksFor, LeavesOthers, ToOpen};
ghost use Rattle.gr_desk.specs.Lines.{ShowDoes};

use crate::any_store::connection_of;
use crate::ending::Ending;
use crate::failure::Failure;
use crate::host::Host;
use crate::open::open;
use crate::steps::print_sheet;
use gr_http::output::Output;
use gr_office::Kind;
use std::alloc::Global;

/// Writes a sheet of the desk that the file of a host holds, whole. The file stays as it was.
///
/// [`Failure::NoFile`], [`Failure::Fault`]: no desk was opened, as [`open`](crate::open) says it.
/// [`Failure::Lost`], [`Failure::Refused`], [`Failure::Fault`]: as [`print_sheet`] says it.
pub fn show<H: Host, O: Output>(
    alloc: Global,
    host: &mut H,
    file: &str,
    kind: Kind,
    number: u32,
    output: &mut O,
) -> (Result<(), Failure>, Ending<H::Store>)
    requires writes { O.failed output.old < 2 ^ 64 - 1 }
    ensures does { ShowDoes H.Store.Store (H.known host.old) file.now kind number
        (O.written output.old) (O.written output.new) result.0 result.1 }
    ensures asked { AsksFor result.1 (ToOpen file.now) (H.asked host.old) (H.asked host.new) }
    ensures behind { H.behind host.new ≡ H.behind host.old }
    ensures others { LeavesOthers file.now (H.known host.old) (H.known host.new) }
{
    let office = match open(alloc, host, file) {
        Ok(office) => office,
        Err(unopened) => return (Err(unopened.failure), unopened.ending),
    };
    let printed = print_sheet(alloc, &office, kind, number, output);
    (printed, Ending::LetGo(connection_of(office)))
}
