//! How a line opens the desk of its file.
ghost use Rattle.std.specs.Prelude.{◌≡◌, false, IfOk, IfErr, IsTrue, MatchResult, OnOk};
ghost use Rattle.gr_desk.specs.Spans.{ComesNext};
ghost use Rattle.gr_desk.specs.Host.{AsksFor, HasSumsAsAsked, IsConnected, IsDeskOf, IsThere, IsUnconnected, IsUnopened, KeepsItsDesk, LeavesOthers, LeavesPorts, ToMake, ToOpen};
ghost use Rattle.gr_store.specs.Faults.{IsOfStore};
ghost use Rattle.sqlite.specs.Held.{state};
ghost use Rattle.sqlite.specs.State.{HasCleanDisk};

use crate::any_store::{opened, shown_desks_are_kept};
use crate::ending::Ending;
use crate::failure::Failure;
use crate::host::Host;
use gr_office::{Fault, Office};
use sqlite::Connection;
use sqlite_trees::store::Alter;
use std::alloc::Global;

/// No desk was opened.
#[derive(Drop)]
pub struct Unopened<S: Alter> {
    /// Why, and never [`Failure::Lost`].
    pub failure: Failure,

    /// The connection over which no office was opened, if there was one.
    pub ending: Ending<S>,
}

/// The desk that the file of a host holds, which stays as it is. A log of it may be made or begun
/// anew (docs/formats.md, "Files").
///
/// [`Unopened`]: [`Failure::NoFile`]: there is no such file, and nothing was opened.
/// [`Failure::Fault`]: it could not be opened, or holds no desk of this version, as
/// [`Office::open`] says it.
pub(crate) fn open<H: Host>(
    alloc: Global,
    host: &mut H,
    file: &str,
) -> Result<Office<H::Store>, Unopened<H::Store>>
    ensures desk { IfOk result (λ office. IsDeskOf H.Store.Store (H.known host.old) file.now
        office office.conn) }
    ensures unopened { IfErr result (λ e. IsUnopened H.Store.Store (H.known host.old) file.now
        e.failure e.ending) }
    ensures asked { MatchResult result
        (λ _. ComesNext (H.asked host.old) (H.asked host.new) (ToOpen file.now))
        (λ e. AsksFor e.ending (ToOpen file.now) (H.asked host.old) (H.asked host.new)) }
    ensures behind { H.behind host.new ≡ H.behind host.old }
    ensures others { LeavesOthers file.now (H.known host.old) (H.known host.new)
        × LeavesPorts (H.known host.old) (H.known host.new) }
{
    let conn = match connect(host, file) {
        Ok(conn) => conn,
        Err(failure) => {
            return Err(Unopened {
                failure,
                ending: Ending::Nothing,
            });
        }
    };
    match opened(alloc, conn) {
        Ok(office) => Ok(office),
        Err(not_opened) => Err(Unopened {
            failure: Failure::Fault(not_opened.fault),
            ending: Ending::LetGo(not_opened.conn),
        }),
    }
}

/// Looks whether the file of a host is there. Nothing is opened.
///
/// [`Failure::NoFile`]: there is none. [`Failure::Fault`]: memory ran out, and nothing was looked
/// at.
pub(crate) fn look_for<H: Host>(host: &H, file: &str) -> Result<(), Failure>
    ensures there { OnOk result (IsThere ((H.known host.now).there file.now)) }
    ensures failed { IfErr result (IsUnconnected ((H.known host.now).there file.now)
        ((H.known host.now).content file.now)) }
{
    if host.is_there(file)? {
        Ok(())
    } else {
        Err(Failure::NoFile)
    }
}

/// A connection to the file of a host that is there. Its desk stays as it is, and a log may be
/// made.
///
/// [`Failure::NoFile`]: there is no such file, and nothing was opened. [`Failure::Fault`]: it could
/// not be opened.
pub(crate) fn connect<H: Host>(host: &mut H, file: &str) -> Result<Connection<H::Store>, Failure>
    ensures outside { IfOk result (λ conn. conn.in_transaction ≡ false) }
    ensures found { IfOk result
        (IsConnected H.Store.Store ((H.known host.old).content file.now)) }
    ensures keeps { IfOk result (KeepsItsDesk H.Store.Store ((H.known host.old).content file.now)) }
    ensures there { IfOk result (λ _. IsThere ((H.known host.old).there file.now)) }
    ensures failed { IfErr result (IsUnconnected ((H.known host.old).there file.now)
        ((H.known host.old).content file.now)) }
    ensures asked { MatchResult result
        (λ _. ComesNext (H.asked host.old) (H.asked host.new) (ToOpen file.now))
        (λ _. H.asked host.new ≡ H.asked host.old) }
    ensures behind { H.behind host.new ≡ H.behind host.old }
    ensures others { LeavesOthers file.now (H.known host.old) (H.known host.new)
        × LeavesPorts (H.known host.old) (H.known host.new) }
{
    look_for(host, file)?;
    let conn = host.connect(file)?;
    shown_desks_are_kept(&conn);
    Ok(conn)
}

/// A connection to the file of a host, which is made where there is none, with sums on its pages or
/// without.
///
/// [`Fault::Memory`], [`Fault::Store`]: it could not be made or opened.
pub(crate) fn make<H: Host>(
    host: &mut H,
    file: &str,
    has_sums: bool,
) -> Result<Connection<H::Store>, Fault>
    ensures outside { IfOk result (λ conn. conn.in_transaction ≡ false) }
    ensures live { IfOk result (λ conn. HasCleanDisk (state H.Store.Store conn)
        → IsTrue (state H.Store.Store conn).is_open) }
    ensures found { IfOk result
        (IsConnected H.Store.Store ((H.known host.old).content file.now)) }
    ensures sums { IfOk result
        (HasSumsAsAsked H.Store.Store has_sums ((H.known host.old).content file.now)) }
    ensures keeps { IfOk result (KeepsItsDesk H.Store.Store ((H.known host.old).content file.now)) }
    ensures faults { IfErr result IsOfStore }
    ensures asked { MatchResult result
        (λ _. ComesNext (H.asked host.old) (H.asked host.new) (ToMake file.now has_sums))
        (λ _. H.asked host.new ≡ H.asked host.old) }
    ensures behind { H.behind host.new ≡ H.behind host.old }
    ensures others { LeavesOthers file.now (H.known host.old) (H.known host.new)
        × LeavesPorts (H.known host.old) (H.known host.new) }
{
    let conn = host.make(file, has_sums)?;
    shown_desks_are_kept(&conn);
    Ok(conn)
}
