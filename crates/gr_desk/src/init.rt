//! `init`: a new desk.
ghost use Rattle.std.specs.Prelude.{◌≡◌, ◌⊎◌, ◌-◌, ◌^◌, ◌<◌};
ghost use Rattle.gr_desk.specs.Host.{AsksFor, LeavesOthers, ToMake};
ghost use Rattle.gr_desk.specs.Lines.{InitDoes};

use crate::any_store::{connection_of, made};
use crate::ending::Ending;
use crate::failure::Failure;
use crate::host::Host;
use crate::open::make;
use crate::steps::print;
use gr_http::output::Output;
use std::alloc::Global;

/// Makes a desk in the file of a host, which is made where there is none, and says so. Each page of
/// a new file ends in its sum where `has_sums` asks for that.
///
/// [`Failure::Fault`]: there is a desk, or a name of one of its tables is taken; or it could not be
/// made, as [`Office::create`](gr_office::Office::create) says it. [`Failure::Lost`]: a write
/// failed, and the desk is made.
pub fn init<H: Host, O: Output>(
    alloc: Global,
    host: &mut H,
    file: &str,
    has_sums: bool,
    output: &mut O,
) -> (Result<(), Failure>, Ending<H::Store>)
    requires writes { O.failed output.old < 2 ^ 64 - 1 }
    ensures does { InitDoes H.Store.Store (H.known host.old) file.now has_sums
        (O.written output.old) (O.written output.new) result.0 result.1 }
    ensures asked { AsksFor result.1 (ToMake file.now has_sums) (H.asked host.old)
        (H.asked host.new) }
    ensures behind { H.behind host.new ≡ H.behind host.old }
    ensures others { LeavesOthers file.now (H.known host.old) (H.known host.new) }
{
    let conn = match make(host, file, has_sums) {
        Ok(conn) => conn,
        Err(fault) => return (Err(Failure::Fault(fault)), Ending::Nothing),
    };
    let office = match made(alloc, conn) {
        Ok(office) => office,
        Err(not_made) => {
            return (
                Err(Failure::Fault(not_made.fault)),
                Ending::LetGo(not_made.conn),
            );
        }
    };
    let printed = print(output, "ok\n");
    (printed, Ending::Close(connection_of(office)))
}
