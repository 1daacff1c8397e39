//! Laws: facts about the definitions that the contracts cite, each carried by a function that does
//! nothing else.
ghost use Rattle.std.specs.Prelude.{◌≡◌, false, IfOk};
ghost use Rattle.gr_core.specs.Desks.State.{State, new_state};
ghost use Rattle.gr_core.specs.Desks.Version1.{IsValid1};
ghost use Rattle.gr_store.specs.Commits.{LeavesDesk};
ghost use Rattle.gr_store.specs.Content.{IsSettled};
ghost use Rattle.gr_store.specs.Holds.{Holds, HasDeskTables, HasDeskTables1};
ghost use Rattle.gr_store.specs.Version1.{Holds1, LeavesDesk1, new_state1};
ghost use Rattle.gr_store.specs.Laws.{TablesMadeAreRight, DesksAnswerPlainly, TablesHaveTheirColumns, RightTablesAreSelected, OneDeskIsHeld, OneDeskOfVersion1IsHeld, BallotTablesMayBeWider};
ghost use Rattle.sqlite.specs.Does.{lacks_sequence};
ghost use Rattle.sqlite.specs.Held.{state};
ghost use Rattle.sqlite.specs.State.{HasCleanDisk, Opens};
ghost use Rattle.sqlite.specs.Steps.{over_memory};

use crate::{Fault, Store, version_1};
use sqlite::{Connection, MemStore};
use sqlite_trees::store::Alter;
use std::alloc::Global;

/// A database with a desk's tables has right tables: what [`Store::load`] says of right tables
/// speaks of it.
pub fn tables_made_are_right()
    ensures { TablesMadeAreRight }
{}

/// Where the table `desk` has columns of the four names, whatever else it has, what [`Store::load`]
/// says of a later version speaks of the database. A table that is as its text defines it has them.
pub fn desks_answer_plainly()
    ensures plainly { DesksAnswerPlainly }
    ensures columns { TablesHaveTheirColumns }
{}

/// Where the tables are right, and no limit on steps is set, only a failure of the disk is told as
/// [`Fault::Store`] by [`Store::load`].
pub fn right_tables_are_selected()
    ensures { RightTablesAreSelected }
{}

/// Where the tables are right, a database holds at most one valid desk: so the desk that is loaded,
/// and the one that a commit leaves, is the one that it holds.
pub fn one_desk_is_held()
    ensures { OneDeskIsHeld }
{}

/// The same of version 1: where the tables have the columns of that version, and maybe further
/// ones, a migration makes one desk of whatever valid desk the database holds.
pub fn one_desk_of_version_1_is_held()
    ensures { OneDeskOfVersion1IsHeld }
{}

/// Memory returns what was written: what is said of a clean disk speaks of each connection to it.
pub fn memory_is_clean(_conn: &Connection<MemStore>)
    ensures { HasCleanDisk (state over_memory _conn.now) }
{}

/// What a creation or a commit may leave is found again: a connection that was just opened over it
/// is settled, and has the tables of a desk, which hold the state that was left.
pub fn left_desks_are_held<S: Alter>(conn: &Connection<S>)
    ensures { HasCleanDisk (state S.Store conn.now) → Opens (state S.Store conn.now)
        → (s : State) → LeavesDesk s (state S.Store conn.now).now.trees
        → IsSettled (state S.Store conn.now) × HasDeskTables (state S.Store conn.now).now
        × Holds s (state S.Store conn.now).now }
{
    conn.schema();
}

/// The same of a desk of version 1, which a migration may leave as it was.
pub fn left_desks_of_version_1_are_held<S: Alter>(conn: &Connection<S>)
    ensures { HasCleanDisk (state S.Store conn.now) → Opens (state S.Store conn.now)
        → (s : State) → LeavesDesk1 s (state S.Store conn.now).now.trees
        → IsSettled (state S.Store conn.now) × HasDeskTables1 (state S.Store conn.now).now
        × Holds1 s (state S.Store conn.now).now }
{
    conn.schema();
}

/// A new desk in memory: what [`Store::commit`] says of a database with a desk's tables speaks of
/// it.
///
/// [`Fault::Memory`] and [`Fault::Store`]: the database could not be made.
pub fn new_desk_in_memory(alloc: Global) -> Result<Store<MemStore>, Fault>
    ensures holds { IfOk result (λ store. HasDeskTables (state over_memory store.conn).now
        × Holds new_state (state over_memory store.conn).now) }
    ensures settled { IfOk result (λ store. IsSettled (state over_memory store.conn)) }
{
    let conn = Connection::open_in_memory(alloc)?;
    match Store::create(alloc, conn) {
        Ok(store) => Ok(store),
        Err(refused) => Err(refused.fault),
    }
}

/// The table of ballots of version 1 may have further columns, of any kind, in front of those that
/// that version made and after them: what [`Store::migrate`] says of the tables of version 1
/// speaks of it too.
pub fn ballots_of_version_1_may_have_further_columns()
    ensures { BallotTablesMayBeWider }
{}

/// A new desk of version 1 in memory, in the tables that the program of that version made: what
/// [`Store::migrate`] says of a database with the tables of version 1 speaks of it.
///
/// [`Fault::Memory`] and [`Fault::Store`]: the database could not be made.
pub fn new_desk_of_version_1_in_memory(alloc: Global) -> Result<Connection<MemStore>, Fault>
    ensures holds { IfOk result (λ conn. HasDeskTables1 (state over_memory conn).now
        × IsValid1 new_state1 × Holds1 new_state1 (state over_memory conn).now) }
    ensures counted { IfOk result (λ conn.
        lacks_sequence (state over_memory conn).now.schema ≡ false) }
    ensures settled { IfOk result (λ conn. IsSettled (state over_memory conn)) }
    ensures outside { IfOk result (λ conn. conn.in_transaction ≡ false) }
{
    let mut conn = Connection::open_in_memory(alloc)?;
    version_1::create(&mut conn)?;
    Ok(conn)
}

/// The same desk, upgraded to this version: it is a new desk then.
///
/// [`Fault::Memory`] and [`Fault::Store`]: the database could not be made, or the migration failed.
pub fn migrated_desk_in_memory(alloc: Global) -> Result<Store<MemStore>, Fault>
    ensures holds { IfOk result (λ store. HasDeskTables (state over_memory store.conn).now
        × Holds new_state (state over_memory store.conn).now) }
    ensures settled { IfOk result (λ store. IsSettled (state over_memory store.conn)) }
{
    let conn = new_desk_of_version_1_in_memory(alloc)?;
    match Store::migrate(alloc, conn) {
        Ok(store) => Ok(store),
        Err(refused) => Err(refused.fault),
    }
}
