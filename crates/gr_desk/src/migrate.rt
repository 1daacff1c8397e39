//! `migrate`: a desk is upgraded to this version.
ghost use Rattle.std.specs.Prelude.{◌≡◌, ◌⊎◌, ◌-◌, ◌^◌, ◌<◌};
ghost use Rattle.gr_desk.specs.Host.{AsksFor, LeavesOthers, ToOpen};
ghost use Rattle.gr_desk.specs.Lines.{MigrateDoes};

use crate::any_store::{connection_of, migrated_office};
use crate::ending::Ending;
use crate::failure::Failure;
use crate::host::Host;
use crate::open::connect;
use crate::steps::print;
use gr_http::output::Output;
use std::alloc::Global;

/// Brings the desk that the file of a host holds to this version where it is of version 1, and says
/// so. To one of this version nothing is written.
///
/// [`Failure::NoFile`], [`Failure::Fault`]: no desk was migrated, as
/// [`Office::migrate`](gr_office::Office::migrate) says it. [`Failure::Lost`]: a write failed, and
/// the desk is of this version.
pub fn migrate<H: Host, O: Output>(
    alloc: Global,
    host: &mut H,
    file: &str,
    output: &mut O,
) -> (Result<(), Failure>, Ending<H::Store>)
    requires writes { O.failed output.old < 2 ^ 64 - 1 }
    ensures does { MigrateDoes H.Store.Store (H.known host.old) file.now (O.written output.old)
        (O.written output.new) result.0 result.1 }
    ensures asked { AsksFor result.1 (ToOpen file.now) (H.asked host.old) (H.asked host.new) }
    ensures behind { H.behind host.new ≡ H.behind host.old }
    ensures others { LeavesOthers file.now (H.known host.old) (H.known host.new) }
{
    let conn = match connect(host, file) {
        Ok(conn) => conn,
        Err(failure) => return (Err(failure), Ending::Nothing),
    };
    let migrated = match migrated_office(alloc, conn) {
        Ok(migrated) => migrated,
        Err(not_migrated) => {
            return (
                Err(Failure::Fault(not_migrated.fault)),
                Ending::LetGo(not_migrated.conn),
            );
        }
    };
    let printed = print(output, "ok schema 2\n");
    let conn = connection_of(migrated.office);
    if migrated.is_migrated {
        (printed, Ending::Close(conn))
    } else {
        (printed, Ending::LetGo(conn))
    }
}
