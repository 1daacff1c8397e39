//! Laws: what stands after a stop, whatever calls came before it.
//!
//! Each is carried by a function that does nothing else than to open an office or to make one,
//! where it speaks of one. The theorem over any machine is a lemma, and these are its instances for
//! an office over any store: a clause may not range over machines, since that is a larger type than
//! a clause has.
ghost use Rattle.std.specs.Prelude.{◌≡◌, false, IfOk, IfErr, MatchResult, List, Some};
ghost use Rattle.gr_core.specs.Desks.State.{State, new_state};
ghost use Rattle.gr_core.specs.Desks.Valid.{IsValid};
ghost use Rattle.gr_store.specs.Faults.{IsOfStore};
ghost use Rattle.gr_office.specs.Crash.{AttemptsGoOn, EveryStopLeavesAPrefix, LeavesItsState, OpenHasTheFinished, IsAfterPrefix};
ghost use Rattle.gr_office.specs.History.{Attempt, AreMade, IsLeftBy, IsStart, PrefixesAreStarts, StartsAreValid, keeper};
ghost use Rattle.gr_office.specs.Office.{Office as Shown, Keeps, IsOpenWith, ShowsSheet, StillKeeps};
ghost use Rattle.sqlite_trees.specs.declared.memory.MemStore.{MemStore as Memory};
ghost use Rattle.sqlite.specs.Held.{state};
ghost use Rattle.sqlite.specs.State.{HasCleanDisk, Opens};
ghost use Rattle.sqlite.specs.Steps.{over_memory};
ghost use Rattle.sqlite_trees.specs.Tree.{Trees};

use crate::fault::SheetFault;
use crate::office::Office;
use gr_core::Desk;
use gr_sheet::Kind;
use gr_store::laws::new_desk_of_version_1_in_memory;
use gr_store::{Fault, NotOpened};
use sqlite::{Connection, MemStore};
use sqlite_trees::store::Alter;
use std::alloc::Global;

/// Attempts that are made after others are made with these as one list.
pub fn attempts_go_on<S: Alter>(_office: &Office<S>)
    ensures { AttemptsGoOn (keeper S.Store) }
{}

/// What a stop may leave of an open office has the state of its desk. The crash theorem asks this
/// of whatever keeps a machine.
pub fn an_open_office_leaves_its_state<S: Alter>(_office: &Office<S>)
    ensures { LeavesItsState (keeper S.Store) }
{}

/// Whatever came, and at whichever exit a stop fell: each content that the stop may leave is that
/// of the state after the finished commands, or after these and the one in which the stop fell.
pub fn every_stop_leaves_a_prefix<S: Alter>(_office: &Office<S>)
    ensures { EveryStopLeavesAPrefix (keeper S.Store) }
{}

/// An office that is still open has the state after the finished commands: those that were refused
/// or not done leave no trace in it.
pub fn an_open_office_has_the_finished<S: Alter>(_office: &Office<S>)
    ensures { OpenHasTheFinished (keeper S.Store) }
{}

/// A stop leaves something: of an open office what its connection shows, and of any office some
/// content, as long as the disk returns what was written.
pub fn every_stop_leaves_something<S: Alter>(office: &Office<S>)
    ensures shown { (s : State) → IsOpenWith S.Store s office.now
        → (state S.Store office.now.conn).may_leave (state S.Store office.now.conn).now.trees }
    ensures some { HasCleanDisk (state S.Store office.now.conn)
        → ¬ ((trees : Trees) → ¬ ((state S.Store office.now.conn).may_leave trees)) }
{}

/// A desk that a life begins with is valid: a new one, one that a migration upgraded to this
/// version, and one that an opening found.
pub fn starts_are_valid()
    ensures { StartsAreValid }
{
    gr_core::laws::lifted_desks_are_valid();
}

/// Each desk that a program has is one that a life may begin with.
pub fn desks_are_starts(desk: &Desk)
    ensures { IsStart desk.now }
{
    let _accepted = desk.accepted();
}

/// The desk after a prefix is again one that a life may begin with: so what
/// [`reopening_finds_a_prefix`] says of one life of a desk goes on over all of them.
pub fn prefixes_are_starts()
    ensures { PrefixesAreStarts }
{
    gr_core::laws::lifted_desks_are_valid();
    gr_core::laws::commands_keep_a_desk_valid();
}

/// A connection that keeps a valid desk opens with it; or memory or the database fails, and the
/// connection, unless that has shut it, still keeps the desk, so that it may be tried again. Shut
/// or not, a stop then leaves that desk and nothing else.
pub fn a_kept_desk_opens<S: Alter>(
    alloc: Global,
    conn: Connection<S>,
) -> Result<Office<S>, NotOpened<S>>
    ensures opened { (s : State) → IsValid s → Keeps S.Store s conn
        → IfOk result (λ office. HasCleanDisk (state S.Store office.conn)
        → IsOpenWith S.Store s office) }
    ensures failed { (s : State) → IsValid s → Keeps S.Store s conn
        → IfErr result (λ e. HasCleanDisk (state S.Store e.conn)
        → IsOfStore e.fault × StillKeeps S.Store s e.conn) }
    ensures clean { MatchResult result
        (λ office. HasCleanDisk (state S.Store office.conn) → HasCleanDisk (state S.Store conn))
        (λ e. HasCleanDisk (state S.Store e.conn) → HasCleanDisk (state S.Store conn)) }
{
    gr_store::laws::tables_made_are_right();
    Office::open(alloc, conn)
}

/// The headline. An office was open with the desk `first`: a new one, one that a migration upgraded
/// to this version, or one that an opening found. Whatever calls were made on it, and wherever a
/// stop fell among them: a connection that was just opened over what the stop left opens with the
/// desk after a prefix of the accepted commands, with all acknowledged ones and at most one more.
/// Or memory or the database fails, and the connection, unless that has shut it, keeps that desk,
/// so that [`a_kept_desk_opens`] speaks of the next try. Shut or not, what a stop leaves then is
/// again of such a desk.
///
/// A stop in a creation or in a migration is not one of these: [`Office::create`] and
/// [`Office::migrate`] say what it may leave.
///
/// Both offices are over one kind of store, memory or a file. Between them are the files: `gr_desk`
/// says what a stop leaves of these, and which desk is found in what they hold.
pub fn reopening_finds_a_prefix<S: Alter>(
    alloc: Global,
    first: &Desk,
    conn: Connection<S>,
) -> Result<Office<S>, NotOpened<S>>
    ensures opened { Opens (state S.Store conn)
        → (attempts : List Attempt) → IsLeftBy S.Store first.now attempts conn
        → IfOk result (λ office. HasCleanDisk (state S.Store office.conn)
        → (t : State) × IsAfterPrefix first.now attempts t × IsOpenWith S.Store t office) }
    ensures failed { Opens (state S.Store conn)
        → (attempts : List Attempt) → IsLeftBy S.Store first.now attempts conn
        → IfErr result (λ e. HasCleanDisk (state S.Store e.conn) → IsOfStore e.fault
        × ((t : State) × IsAfterPrefix first.now attempts t × StillKeeps S.Store t e.conn)) }
{
    desks_are_starts(first);
    starts_are_reopened(alloc, conn)
}

/// The same of every state that a life may begin with, also where no desk in memory has it.
pub fn starts_are_reopened<S: Alter>(
    alloc: Global,
    conn: Connection<S>,
) -> Result<Office<S>, NotOpened<S>>
    ensures opened { Opens (state S.Store conn)
        → (s : State) → IsStart s → (attempts : List Attempt) → IsLeftBy S.Store s attempts conn
        → IfOk result (λ office. HasCleanDisk (state S.Store office.conn)
        → (t : State) × IsAfterPrefix s attempts t × IsOpenWith S.Store t office) }
    ensures failed { Opens (state S.Store conn)
        → (s : State) → IsStart s → (attempts : List Attempt) → IsLeftBy S.Store s attempts conn
        → IfErr result (λ e. HasCleanDisk (state S.Store e.conn) → IsOfStore e.fault
        × ((t : State) × IsAfterPrefix s attempts t × StillKeeps S.Store t e.conn)) }
    ensures clean { MatchResult result
        (λ office. HasCleanDisk (state S.Store office.conn) → HasCleanDisk (state S.Store conn))
        (λ e. HasCleanDisk (state S.Store e.conn) → HasCleanDisk (state S.Store conn)) }
{
    gr_store::laws::left_desks_are_held(&conn);
    gr_core::laws::lifted_desks_are_valid();
    gr_core::laws::commands_keep_a_desk_valid();
    a_kept_desk_opens(alloc, conn)
}

/// The headline on sheets. The connection is as [`starts_are_reopened`] wants it, and the
/// sheet is asked of the office that it opens: it is the sheet of the desk after that same prefix,
/// or its refusal. So the tally has just the ballots of the prefix, and the result is what the
/// Constitution, A.5, makes of them (`IsSheet`); or memory is wanted for a sheet that is not
/// refused. Where nothing is opened, it is as there.
pub fn reopened_sheets_are_of_a_prefix<S: Alter>(
    alloc: Global,
    conn: Connection<S>,
    kind: Kind,
    number: u32,
) -> Result<(Office<S>, Result<String, SheetFault>), NotOpened<S>>
    ensures opened { Opens (state S.Store conn)
        → (s : State) → IsStart s → (attempts : List Attempt) → IsLeftBy S.Store s attempts conn
        → IfOk result (λ reopened. HasCleanDisk (state S.Store reopened.0.conn)
        → (t : State) × IsAfterPrefix s attempts t × IsOpenWith S.Store t reopened.0
        × ShowsSheet (Some t) kind number reopened.1) }
    ensures failed { Opens (state S.Store conn)
        → (s : State) → IsStart s → (attempts : List Attempt) → IsLeftBy S.Store s attempts conn
        → IfErr result (λ e. HasCleanDisk (state S.Store e.conn) → IsOfStore e.fault
        × ((t : State) × IsAfterPrefix s attempts t × StillKeeps S.Store t e.conn)) }
{
    let office = starts_are_reopened(alloc, conn)?;
    let sheet = office.sheet(alloc, kind, number);
    Ok((office, sheet))
}

/// A new office in memory: what is said of open offices speaks of it.
///
/// [`Fault::Memory`] and [`Fault::Store`]: the database or its tables could not be made.
pub fn new_office_in_memory(alloc: Global) -> Result<Office<MemStore>, Fault>
    ensures { IfOk result (λ office. IsOpenWith over_memory new_state office) }
{
    let conn = Connection::open_in_memory(alloc)?;
    match Office::create(alloc, conn) {
        Ok(office) => Ok(office),
        Err(refused) => Err(refused.fault),
    }
}

/// An office in memory over a new desk of version 1 that was upgraded to this version: what is said
/// of migrations speaks of it.
///
/// [`Fault::Memory`] and [`Fault::Store`]: the database could not be made, or the migration failed.
pub fn migrated_office_in_memory(alloc: Global) -> Result<Office<MemStore>, Fault>
    ensures { IfOk result (λ office. IsOpenWith over_memory new_state office) }
{
    let conn = new_desk_of_version_1_in_memory(alloc)?;
    match Office::migrate(alloc, conn) {
        Ok(office) => Ok(office),
        Err(refused) => Err(refused.fault),
    }
}

/// A stop in memory, and an opening after it: the office is given up, and a new connection goes
/// over the store that it had. So what [`reopening_finds_a_prefix`] says of a connection that was
/// just opened speaks of one, whatever calls were made on the office before.
///
/// [`Fault::Memory`] and [`Fault::Store`]: the store could not be opened.
pub fn stopped_memory_is_opened(
    alloc: Global,
    office: Office<MemStore>,
) -> Result<Connection<MemStore>, Fault>
    ensures opens { IfOk result (λ conn. HasCleanDisk (state over_memory conn)
        × Opens (state over_memory conn)) }
    ensures left { IfOk result (λ conn. (s : State) (first : Shown Memory)
        (attempts : List Attempt) → IsOpenWith over_memory s first
        → AreMade over_memory first attempts office
        → IsLeftBy over_memory s attempts conn) }
    ensures outside { IfOk result (λ conn. conn.in_transaction ≡ false) }
{
    let store = office.close().into_store();
    match Connection::over(alloc, store) {
        Ok(conn) => Ok(conn),
        Err((error, _)) => Err(Fault::from(error)),
    }
}
