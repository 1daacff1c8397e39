//! Offices over any store: how they are opened, upgraded to this version and given up.
//!
//! A call of a function over any store is dear to prove at the store of a file. So what one caller
//! there wants of several such calls stands here, over any store too, and is one call.
ghost use Rattle.std.specs.Prelude.{◌≡◌, ◌⊎◌, ◌-◌, ◌+◌, ◌^◌, ◌<◌, false, IfOk, IfErr, IsTrue, Some};
ghost use Rattle.gr_core.specs.Desks.State.{State, new_state};
ghost use Rattle.gr_core.specs.Desks.Valid.{IsValid};
ghost use Rattle.gr_core.specs.Desks.Version1.{IsValid1, lifted};
ghost use Rattle.gr_store.specs.Commits.{LeavesDesk};
ghost use Rattle.gr_store.specs.Content.{WritesNothing};
ghost use Rattle.gr_store.specs.Faults.{IsOfStore, CanFailToLoad, CanFailToMigrate};
ghost use Rattle.gr_store.specs.Holds.{Holds};
ghost use Rattle.gr_store.specs.Makes.{AddsDesk};
ghost use Rattle.gr_store.specs.Version1.{HoldsValid1, LeavesDesk1};
ghost use Rattle.gr_store.specs.declared.fault.Fault.TheVariants as faults;
ghost use Rattle.gr_office.specs.Crash.{EveryStopLeavesAPrefix};
ghost use Rattle.gr_office.specs.History.{keeper};
ghost use Rattle.gr_office.specs.NotOpened.{FailsToMake, FailsToMigrate, FailsToOpen};
ghost use Rattle.gr_office.specs.Office.{IsOpenWith, Keeps, ShowsSheet, StillKeeps};
ghost use Rattle.gr_http.specs.Answer.{lost_reads, lost_writes};
ghost use Rattle.gr_desk.specs.Host.{KeepsDesk1, StopsKeepDesk};
ghost use Rattle.gr_desk.specs.Steps.{IsAnswered};
ghost use Rattle.sqlite.specs.Held.{AreDatabases, state};
ghost use Rattle.sqlite.specs.State.{HasCleanDisk, Opens};
ghost use Rattle.sqlite_trees.specs.View.{IsClean, IsQuiet};

use crate::restart::Asked;
use gr_http::answer::{Lost, Served, answer};
use gr_http::input::Input;
use gr_http::output::Output;
use gr_http::route::Routes;
use gr_office::{NotOpened, Office, SheetFault};
use gr_store::lacks_ballots;
use sqlite::Connection;
use sqlite_trees::store::Alter;
use std::alloc::Global;

/// A desk in this program's version.
#[derive(Drop)]
pub(crate) struct Migrated<S: Alter> {
    /// The office.
    pub(crate) office: Office<S>,

    /// Whether the desk was of version 1 till now, so that something was written.
    pub(crate) is_migrated: bool,
}

/// This does nothing. A connection that was just opened keeps the desk whose trees it shows, in
/// this version or in version 1.
pub(crate) fn shown_desks_are_kept<S: Alter>(conn: &Connection<S>)
    ensures current { HasCleanDisk (state S.Store conn.now) → Opens (state S.Store conn.now)
        → (s : State) → LeavesDesk s (state S.Store conn.now).now.trees
        → Keeps S.Store s conn.now }
    ensures desk1 { HasCleanDisk (state S.Store conn.now) → Opens (state S.Store conn.now)
        → (s : State) → LeavesDesk1 s (state S.Store conn.now).now.trees
        → KeepsDesk1 S.Store s conn.now }
{
    gr_store::laws::left_desks_are_held(conn);
    gr_store::laws::left_desks_of_version_1_are_held(conn);
}

/// The desk of a connection that was just opened, upgraded to this version where it is of version
/// 1. The error is that of [`Office::migrate`].
pub(crate) fn migrated_office<S: Alter>(
    alloc: Global,
    conn: Connection<S>,
) -> Result<Migrated<S>, NotOpened<S>>
    ensures clean { IfOk result (λ migrated. HasCleanDisk (state S.Store migrated.office.conn)
        → HasCleanDisk (state S.Store conn)) }
    ensures held { IfOk result (λ migrated. HasCleanDisk (state S.Store migrated.office.conn)
        → Opens (state S.Store conn) → (s : State) → IsValid s
        → LeavesDesk s (state S.Store conn).now.trees → IsOpenWith S.Store s migrated.office
        × (migrated.is_migrated ≡ false)) }
    ensures lifted { IfOk result (λ migrated. HasCleanDisk (state S.Store migrated.office.conn)
        → Opens (state S.Store conn) → (s : State) → IsValid1 s
        → LeavesDesk1 s (state S.Store conn).now.trees
        → IsOpenWith S.Store (lifted s) migrated.office × IsTrue migrated.is_migrated) }
    ensures found { IfOk result (λ migrated. HasCleanDisk (state S.Store migrated.office.conn)
        → (s : State) × (migrated.office.desk ≡ Some s) × IsValid s) }
    ensures untouched { IfOk result (λ migrated. (¬ (HoldsValid1 (state S.Store conn).now))
        → WritesNothing (state S.Store conn) (state S.Store migrated.office.conn)) }
    ensures keeps { IfOk result (λ migrated. HasCleanDisk (state S.Store migrated.office.conn)
        → (s : State) → IsValid s → Keeps S.Store s conn → IsOpenWith S.Store s migrated.office
        × (migrated.is_migrated ≡ false)) }
    ensures faults { IfErr result (λ e. CanFailToMigrate e.fault ⊎ (e.fault ≡ faults.NotADesk)) }
    ensures failed { IfErr result (λ e. FailsToMigrate S.Store conn e.conn e.fault) }
    ensures still { IfErr result (λ e. HasCleanDisk (state S.Store e.conn)
        → (s : State) → IsValid s → Keeps S.Store s conn → StopsKeepDesk S.Store s e.conn) }
    ensures still_desk1 { IfErr result (λ e. HasCleanDisk (state S.Store e.conn) → (s : State)
        → IsValid1 s → KeepsDesk1 S.Store s conn → StopsKeepDesk S.Store (lifted s) e.conn) }
{
    // These two do nothing: their clauses say what a desk's files hold, of either version.
    gr_store::laws::left_desks_are_held(&conn);
    gr_store::laws::left_desks_of_version_1_are_held(&conn);
    let is_migrated = lacks_ballots(&conn);
    match Office::migrate(alloc, conn) {
        Ok(office) => Ok(Migrated {
            office,
            is_migrated,
        }),
        Err(not_migrated) => Err(not_migrated),
    }
}

/// The desk of a connection that was just opened. The error is that of [`Office::open`], after
/// which the connection has the desk still.
pub(crate) fn opened<S: Alter>(
    alloc: Global,
    conn: Connection<S>,
) -> Result<Office<S>, NotOpened<S>>
    ensures clean { IfOk result (λ office. HasCleanDisk (state S.Store office.conn)
        → HasCleanDisk (state S.Store conn)) }
    ensures held { IfOk result (λ office. HasCleanDisk (state S.Store office.conn)
        → Opens (state S.Store conn) → (s : State) → IsValid s
        → LeavesDesk s (state S.Store conn).now.trees → IsOpenWith S.Store s office) }
    ensures keeps { IfOk result (λ office. HasCleanDisk (state S.Store office.conn)
        → (s : State) → IsValid s → Keeps S.Store s conn → IsOpenWith S.Store s office) }
    ensures writes_nothing { IfOk result (λ office.
        WritesNothing (state S.Store conn) (state S.Store office.conn)) }
    ensures found { IfOk result (λ office. HasCleanDisk (state S.Store office.conn)
        → (s : State) × (office.desk ≡ Some s) × IsValid s × Holds s (state S.Store conn).now) }
    ensures faults { IfErr result (λ e. CanFailToLoad e.fault ⊎ (e.fault ≡ faults.NotADesk)) }
    ensures failed { IfErr result (λ e. FailsToOpen S.Store conn e.conn e.fault) }
    ensures valid { IfErr result (λ e. HasCleanDisk (state S.Store e.conn)
        → Opens (state S.Store conn) → (s : State) → IsValid s
        → LeavesDesk s (state S.Store conn).now.trees → IsOfStore e.fault
        × StillKeeps S.Store s e.conn) }
    ensures not_desk1 { IfOk result (λ office. HasCleanDisk (state S.Store office.conn)
        → (s : State) → IsValid1 s → ¬ (KeepsDesk1 S.Store s conn)) }
    ensures still { IfErr result (λ e. HasCleanDisk (state S.Store e.conn)
        → (s : State) → IsValid s → Keeps S.Store s conn → StopsKeepDesk S.Store s e.conn) }
    ensures still_desk1 { IfErr result (λ e. HasCleanDisk (state S.Store e.conn) → (s : State)
        → IsValid1 s → KeepsDesk1 S.Store s conn → StopsKeepDesk S.Store (lifted s) e.conn) }
{
    // These two do nothing: their clauses say what a desk's files hold.
    gr_store::laws::left_desks_are_held(&conn);
    gr_store::laws::tables_made_are_right();
    match Office::open(alloc, conn) {
        Ok(office) => Ok(office),
        Err(not_opened) => Err(not_opened),
    }
}

/// A new desk in the database of a connection that was just opened. The error is that of
/// [`Office::create`], after which the database has the desk that it had, if it had one.
pub(crate) fn made<S: Alter>(alloc: Global, conn: Connection<S>) -> Result<Office<S>, NotOpened<S>>
    ensures desk { IfOk result (λ office. office.desk ≡ Some new_state) }
    ensures new { IfOk result (λ office. HasCleanDisk (state S.Store office.conn)
        → IsTrue (state S.Store conn).is_open → IsOpenWith S.Store new_state office) }
    ensures adds { IfOk result (λ office. HasCleanDisk (state S.Store office.conn)
        → IsTrue (state S.Store conn).is_open
        → AddsDesk (state S.Store conn).now (state S.Store office.conn).now) }
    ensures clean { IfOk result (λ office. HasCleanDisk (state S.Store office.conn)
        → HasCleanDisk (state S.Store conn)) }
    ensures vacant { IfOk result (λ _. (s : State) → ¬ (Keeps S.Store s conn)) }
    ensures vacant_desk1 { IfOk result (λ _. (s : State) → ¬ (KeepsDesk1 S.Store s conn)) }
    ensures failed { IfErr result (λ e. FailsToMake S.Store conn e.conn e.fault) }
    ensures still { IfErr result (λ e. HasCleanDisk (state S.Store e.conn)
        → (s : State) → IsValid s → Keeps S.Store s conn → StopsKeepDesk S.Store s e.conn) }
    ensures still_desk1 { IfErr result (λ e. HasCleanDisk (state S.Store e.conn) → (s : State)
        → IsValid1 s → KeepsDesk1 S.Store s conn → StopsKeepDesk S.Store (lifted s) e.conn) }
{
    match Office::create(alloc, conn) {
        Ok(office) => Ok(office),
        Err(not_made) => Err(not_made),
    }
}

/// A sheet of an office, and how it answers a request after that. The office is given back as the
/// first value.
pub(crate) fn shown_and_answered<S: Alter, I: Input, O: Output>(
    alloc: Global,
    mut office: Office<S>,
    routes: &Routes,
    asked: Asked,
    input: &mut I,
    output: &mut O,
) -> (Office<S>, Result<String, SheetFault>, Result<Served, Lost>)
    requires reads { I.failed input.old < 2 ^ 64 - 1 }
    requires writes { O.failed output.old < 2 ^ 64 - 1 }
    ensures shows { ShowsSheet office.desk asked.kind asked.number result.1 }
    ensures answered { IsAnswered S.Store office asked.at (I.coming input.old)
        (O.written output.old) (O.written output.new) result.2 result.0 }
    ensures clean { HasCleanDisk (state S.Store result.0.conn)
        → HasCleanDisk (state S.Store office.conn) }
    ensures reads_failed { I.failed input.new ≡ I.failed input.old + lost_reads result.2 }
    ensures writes_failed { O.failed output.new ≡ O.failed output.old + lost_writes result.2 }
{
    let sheet = office.sheet(alloc, asked.kind, asked.number);
    let served = answer(alloc, routes, &mut office, asked.at, input, output);
    (office, sheet, served)
}

/// The connection of an office that is ended. Whatever calls were made on an office, a stop leaves
/// a desk after a prefix of its commands; and of an open connection it may leave what was committed
/// last.
pub(crate) fn connection_of<S: Alter>(office: Office<S>) -> Connection<S>
    ensures same { result ≡ office.conn }
    ensures stops { EveryStopLeavesAPrefix (keeper S.Store) }
    ensures stays { IsTrue (state S.Store result).is_open
        → (state S.Store result).may_leave (state S.Store result).committed.trees }
{
    gr_office::laws::every_stop_leaves_a_prefix(&office);
    let conn = office.close();
    last_commit_may_be_left(&conn);
    conn
}

/// This does nothing. Whatever calls were made on an office, a stop leaves a desk after a prefix of
/// its commands; and of an open connection it may leave what was committed last.
pub(crate) fn stops_of<S: Alter>(conn: &Connection<S>)
    ensures stops { EveryStopLeavesAPrefix (keeper S.Store) }
    ensures stays { IsTrue (state S.Store conn.now).is_open
        → (state S.Store conn.now).may_leave (state S.Store conn.now).committed.trees }
{
    last_commit_may_be_left(conn);
}

/// A stop may leave what an open connection's last commit left.
fn last_commit_may_be_left<S: Alter>(conn: &Connection<S>)
    ensures { IsTrue (state S.Store conn.now).is_open
        → (state S.Store conn.now).may_leave (state S.Store conn.now).committed.trees }
{}

/// The store of an office that is given up, where what is not committed is rolled back. Of stops it
/// is as at [`connection_of`].
pub(crate) fn given_up<S: Alter + Drop>(office: Office<S>) -> S
    ensures stops { EveryStopLeavesAPrefix (keeper S.Store) }
    ensures quiet { IsQuiet S.Store.view S.Store.faults S.Store.recovers S.Store.is_shielded
        office.conn.store result }
    ensures numbered { IsClean (S.Store.view result) → IsTrue (S.Store.view result).is_numbered }
    ensures alike { (S.Store.view result).is_numbered
        ≡ (S.Store.view office.conn.store).is_numbered }
    ensures sound { IsClean (S.Store.view result) → AreDatabases (S.Store.recovers result) }
{
    connection_of(office).into_store()
}
