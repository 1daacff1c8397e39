//! The store: a desk's tables in one database.
ghost use Rattle.std.specs.Prelude.{◌≡◌, ◌⊎◌, ◌↔◌, false, Ok, Err, IfOk, IfErr, OnOk, OnErr, IsOk, IsSome, IsTrue, MatchResult, None, [], map, codes};
ghost use Rattle.gr_core.specs.Columns.Stored.{BallotTable};
ghost use Rattle.gr_core.specs.Machine.Row.{row_of, put_all};
ghost use Rattle.gr_core.specs.Desks.State.{State, new_state};
ghost use Rattle.gr_core.specs.Desks.Valid.{IsValid};
ghost use Rattle.gr_core.specs.Desks.Version1.{IsValid1, lifted};
ghost use Rattle.gr_store.specs.declared.fault.Fault.TheVariants as faults;
ghost use Rattle.gr_store.specs.Causes.{DiskFails, CannotPutAll, CannotMakeDesk, CannotMigrate, CannotSelect, CannotSelectBy};
ghost use Rattle.gr_store.specs.Commits.{LeavesDesk, LeavesNewDesk, PutsAll, KeepsBeside, LeavesBeside};
ghost use Rattle.gr_store.specs.Content.{IsSettled, WritesNothing};
ghost use Rattle.gr_store.specs.Faults.{IsOfStore, CanFailToLoad, CanFailToMigrate};
ghost use Rattle.gr_store.specs.Holds.{Holds, HasDeskTables, HasDeskTables1, IsCurrent, IsTooNew, IsTooOld};
ghost use Rattle.gr_store.specs.Makes.{AddsDesk};
ghost use Rattle.gr_store.specs.Migrates.{AddsBallotTable, LeavesBallots, StaysCurrent};
ghost use Rattle.gr_store.specs.Schema.{is_occupied};
ghost use Rattle.gr_store.specs.SelectedTables.{HasPlainAnswer};
ghost use Rattle.gr_store.specs.Selects.{desk_select, ballot1_select};
ghost use Rattle.gr_store.specs.Tabled.{HasColumns1, HasTables};
ghost use Rattle.gr_store.specs.Version1.{Holds1, HoldsValid1, OwnsValid1};
ghost use Rattle.sqlite.specs.Does.{lacks_sequence};
ghost use Rattle.sqlite.specs.Held.{state};
ghost use Rattle.sqlite.specs.State.{HasCleanDisk, Survives};
ghost use Rattle.sqlite_catalog.specs.Change.{is_used};
ghost use Rattle.sqlite_schema.specs.Names.{table_named};

use crate::commit::commit;
use crate::create::create;
use crate::fault::Fault;
use crate::load::load;
use crate::migrate::migrate;
use crate::tables;
use gr_core::{Change, Desk};
use sqlite::Connection;
use sqlite_trees::store::Alter;
use std::alloc::Global;

/// A connection to a database that has a desk's tables. A commit that fails closes it.
#[derive(Drop)]
pub struct Store<S: Alter> {
    conn: Connection<S>,
    closed: bool,
    ghost outside: { conn.in_transaction ≡ false },
}

/// Why there is no store, and the connection that it was to have. It is not an error in Rust's
/// sense, since a connection has no text to print. The fault is one.
#[derive(Drop)]
pub struct NotOpened<S: Alter> {
    /// The connection.
    pub conn: Connection<S>,

    /// What happened.
    pub fault: Fault,
}

impl<S: Alter> Store<S> {
    /// Makes the six tables with the header of a new desk, in one transaction, and nothing else:
    /// every other table, index and view stays, and every other table keeps its place and its rows.
    /// Of a table that the engine does not read, as one with a trigger, nothing is said.
    ///
    /// [`NotOpened`] hands the connection back. [`Fault::Occupied`]: one of the six names is taken
    /// already, by a table, an index or a view, with no regard to the case of ASCII letters;
    /// nothing was done. The names are looked for first, since the error by which a statement would
    /// refuse one says less. [`Fault::Memory`] and [`Fault::Store`]: what a crash may leave, and so
    /// what a later opening may find, is what it was, or the tables of a new desk. Inside a
    /// transaction: [`Fault::Store`]; the connection is handed back as it was.
    pub fn create(alloc: Global, conn: Connection<S>) -> Result<Store<S>, NotOpened<S>>
        ensures holds { IfOk result (λ store. HasCleanDisk (state S.Store store.conn)
            → IsTrue (state S.Store conn).is_open
            → HasDeskTables (state S.Store store.conn).now
            × Holds new_state (state S.Store store.conn).now) }
        ensures adds { IfOk result (λ store. HasCleanDisk (state S.Store store.conn)
            → IsTrue (state S.Store conn).is_open
            → AddsDesk (state S.Store conn).now (state S.Store store.conn).now) }
        ensures settled { IfOk result (λ store. HasCleanDisk (state S.Store store.conn)
            → IsSettled (state S.Store store.conn)) }
        ensures opened { IfOk result (λ store. store.closed ≡ false) }
        ensures crash { IfOk result (λ store.
            Survives (state S.Store conn) (state S.Store store.conn)
            (LeavesNewDesk (state S.Store conn).now)) }
        ensures clean { IfOk result (λ store. HasCleanDisk (state S.Store store.conn)
            → HasCleanDisk (state S.Store conn)) }
        ensures inside { IsTrue conn.in_transaction
            → result ≡ Err (record { conn = conn; fault = faults.Store }) }
        ensures occupied { conn.in_transaction ≡ false
            → (IsTrue (is_occupied (state S.Store conn).now.schema)
            ↔ (result ≡ Err (record { conn = conn; fault = faults.Occupied }))) }
        ensures faults { IfErr result (λ e. IsOfStore e.fault ⊎ ((e.fault ≡ faults.Occupied)
            × IsTrue (is_occupied (state S.Store conn).now.schema))) }
        ensures caused { IfErr result (λ e. HasCleanDisk (state S.Store e.conn)
            → e.fault ≡ faults.Store → DiskFails (state S.Store conn) (state S.Store e.conn)
            ⊎ (CannotMakeDesk (state S.Store conn).step_limit (state S.Store conn).now
            ⊎ IsTrue conn.in_transaction)) }
        ensures back { IfErr result (λ e. e.conn.in_transaction ≡ conn.in_transaction) }
        ensures failed { IfErr result (λ e.
            Survives (state S.Store conn) (state S.Store e.conn)
            (LeavesNewDesk (state S.Store conn).now)) }
    {
        let mut conn = conn;
        if !conn.is_autocommit() {
            return Err(NotOpened {
                conn,
                fault: Fault::Store,
            });
        }
        if tables::is_occupied(conn.schema()) {
            return Err(NotOpened {
                conn,
                fault: Fault::Occupied,
            });
        }
        match create(alloc, &mut conn) {
            Ok(()) => Ok(Store {
                conn,
                closed: false,
            }),
            Err(fault) => Err(NotOpened { conn, fault }),
        }
    }

    /// Takes a database that has a table `desk`. It looks at the schema alone, and there for this
    /// table alone: nothing is written and nothing read, and no memory is taken. [`Store::load`]
    /// finds what else may be wrong.
    ///
    /// [`NotOpened`] hands the connection back, with [`Fault::NotADesk`]: there is no such table.
    /// Inside a transaction: [`Fault::Store`]; the connection is handed back as it was.
    pub fn adopt(conn: Connection<S>) -> Result<Store<S>, NotOpened<S>>
        ensures adopted { IfOk result (λ store. (store.conn ≡ conn) × (store.closed ≡ false)) }
        ensures inside { IsTrue conn.in_transaction
            → result ≡ Err (record { conn = conn; fault = faults.Store }) }
        ensures not_a_desk { conn.in_transaction ≡ false → IfErr result (λ e.
            e ≡ record { conn = conn; fault = faults.NotADesk }) }
        ensures named { conn.in_transaction ≡ false → (IsOk result
            ↔ IsSome (table_named (state S.Store conn).now.schema (codes "desk"))) }
    {
        if !conn.is_autocommit() {
            return Err(NotOpened {
                conn,
                fault: Fault::Store,
            });
        }
        if tables::is_there(conn.schema(), "desk") {
            Ok(Store {
                conn,
                closed: false,
            })
        } else {
            Err(NotOpened {
                conn,
                fault: Fault::NotADesk,
            })
        }
    }

    /// Takes a database that has a table `desk`, and upgrades a desk of version 1 to this version,
    /// in one transaction: the table of ballots of this version is made, each ballot is put into it
    /// with one vote received, the rows of the table of ballots of version 1 are taken out, and the
    /// header is put with this version. A desk of this version is taken as [`Store::adopt`] does,
    /// and nothing is written. Every other table, index and view stays, and every other table with
    /// no foreign key keeps its rows.
    ///
    /// [`NotOpened`] hands the connection back. [`Fault::Store`], where the connection is inside a
    /// transaction: nothing was done. [`Fault::NotADesk`]: there is no table `desk`.
    /// [`Fault::TooNew`]: it has one row, with the id 1 and a version above this program's.
    /// [`Fault::Damaged`]: no valid desk of version 1 has the rows, or a table or a column is
    /// missing. [`Fault::Occupied`]: it is a valid desk of version 1, and the name of the table of
    /// ballots of this version is taken. Nothing was written then. [`Fault::Memory`] and
    /// [`Fault::Store`]: what a crash may leave, and so what a later opening may find, is what it
    /// was, or the same desk in this version; it may be tried again.
    pub fn migrate(alloc: Global, conn: Connection<S>) -> Result<Store<S>, NotOpened<S>>
        ensures inside { IsTrue conn.in_transaction
            → result ≡ Err (record { conn = conn; fault = faults.Store }) }
        ensures migrates { IfOk result (λ store. HasCleanDisk (state S.Store store.conn)
            → HasDeskTables1 (state S.Store conn).now → (s : State) → IsValid1 s
            → Holds1 s (state S.Store conn).now → HasDeskTables (state S.Store store.conn).now
            × Holds (lifted s) (state S.Store store.conn).now) }
        ensures adds { IfOk result (λ store. HasCleanDisk (state S.Store store.conn)
            → (tables : HasDeskTables1 (state S.Store conn).now)
            → lacks_sequence (state S.Store conn).now.schema ≡ false
            → HoldsValid1 (state S.Store conn).now → AddsBallotTable (state S.Store conn).now
            tables.has.own (state S.Store store.conn).now) }
        ensures empties { IfOk result (λ store. HasCleanDisk (state S.Store store.conn)
            → (tables : HasDeskTables1 (state S.Store conn).now)
            → HoldsValid1 (state S.Store conn).now
            → (state S.Store store.conn).now.trees (tables.has.own BallotTable).has.tree ≡ []) }
        ensures settled { IfOk result (λ store. HasCleanDisk (state S.Store store.conn)
            → IsSettled (state S.Store conn) → IsSettled (state S.Store store.conn)) }
        ensures opened { IfOk result (λ store. store.closed ≡ false) }
        ensures known { IfOk result (λ store. HasCleanDisk (state S.Store store.conn)
            → StaysCurrent (state S.Store conn) (state S.Store store.conn)
            ⊎ HoldsValid1 (state S.Store conn).now) }
        ensures untouched { IfOk result (λ store. (¬ (HoldsValid1 (state S.Store conn).now))
            → WritesNothing (state S.Store conn) (state S.Store store.conn)) }
        ensures crash { IfOk result (λ store. HasDeskTables1 (state S.Store conn).now
            → (s : State) → IsValid1 s → Holds1 s (state S.Store conn).now
            → Survives (state S.Store conn) (state S.Store store.conn) (LeavesDesk (lifted s))) }
        ensures clean { MatchResult result
            (λ store. HasCleanDisk (state S.Store store.conn) → HasCleanDisk (state S.Store conn))
            (λ e. HasCleanDisk (state S.Store e.conn) → HasCleanDisk (state S.Store conn)) }
        ensures vacant { IfOk result (λ store. HasCleanDisk (state S.Store store.conn)
            → HasColumns1 (state S.Store conn).now.schema → HoldsValid1 (state S.Store conn).now
            → is_used (state S.Store conn).now.schema (codes "ballot2") ≡ false) }
        ensures early { IfOk result (λ store. HasCleanDisk (state S.Store store.conn)
            → HasPlainAnswer desk_select (state S.Store conn).now
            → ¬ (IsTooNew (state S.Store conn).now)) }
        ensures not_a_desk { conn.in_transaction ≡ false
            → ((table_named (state S.Store conn).now.schema (codes "desk") ≡ None)
            ↔ (result ≡ Err (record { conn = conn; fault = faults.NotADesk }))) }
        ensures too_new { IfErr result (λ e. HasCleanDisk (state S.Store e.conn)
            → e.fault ≡ faults.TooNew → IsTooNew (state S.Store conn).now) }
        ensures later { IfErr result (λ e. HasCleanDisk (state S.Store e.conn)
            → HasPlainAnswer desk_select (state S.Store conn).now
            → IsTooNew (state S.Store conn).now → (e.fault ≡ faults.TooNew)
            ⊎ (IsOfStore e.fault ⊎ (e.fault ≡ faults.NotADesk))) }
        ensures current { IfErr result (λ e. HasCleanDisk (state S.Store e.conn)
            → HasPlainAnswer desk_select (state S.Store conn).now
            → IsCurrent (state S.Store conn).now
            → IsOfStore e.fault ⊎ (e.fault ≡ faults.NotADesk)) }
        ensures finds { IfErr result (λ e. HasCleanDisk (state S.Store e.conn)
            → HasColumns1 (state S.Store conn).now.schema → HoldsValid1 (state S.Store conn).now
            → IsOfStore e.fault ⊎ (e.fault ≡ faults.Occupied)) }
        ensures occupied { IfErr result (λ e. HasCleanDisk (state S.Store e.conn)
            → e.fault ≡ faults.Occupied
            → IsTrue (is_used (state S.Store conn).now.schema (codes "ballot2"))
            × HoldsValid1 (state S.Store conn).now) }
        ensures faults { IfErr result (λ e. CanFailToMigrate e.fault
            ⊎ ((e.fault ≡ faults.NotADesk)
            × (table_named (state S.Store conn).now.schema (codes "desk") ≡ None))) }
        ensures caused { IfErr result (λ e. HasCleanDisk (state S.Store e.conn)
            → (tables : OwnsValid1 (state S.Store conn).now) → e.fault ≡ faults.Store
            → IsTrue conn.in_transaction ⊎ (DiskFails (state S.Store conn) (state S.Store e.conn)
            ⊎ (CannotSelectBy ballot1_select (state S.Store conn).step_limit
            (state S.Store conn).now
            ⊎ CannotMigrate (state S.Store conn).step_limit (state S.Store conn).now tables))) }
        ensures taken { IfErr result (λ e. HasCleanDisk (state S.Store e.conn)
            → HasColumns1 (state S.Store conn).now.schema → HoldsValid1 (state S.Store conn).now
            → IsTrue (is_used (state S.Store conn).now.schema (codes "ballot2"))
            → (e.fault ≡ faults.Occupied) ⊎ ((e.fault ≡ faults.Memory)
            ⊎ ((e.fault ≡ faults.Store) × (IsTrue conn.in_transaction
            ⊎ (DiskFails (state S.Store conn) (state S.Store e.conn)
            ⊎ CannotSelectBy ballot1_select (state S.Store conn).step_limit
            (state S.Store conn).now))))) }
        ensures spared { IfErr result (λ e. (¬ (IsOfStore e.fault))
            ⊎ (¬ (HoldsValid1 (state S.Store conn).now))
            → WritesNothing (state S.Store conn) (state S.Store e.conn)) }
        ensures failed { IfErr result (λ e. HasDeskTables1 (state S.Store conn).now
            → (s : State) → IsValid1 s → Holds1 s (state S.Store conn).now
            → Survives (state S.Store conn) (state S.Store e.conn) (LeavesDesk (lifted s))) }
        ensures leaves { (tables : HasDeskTables1 (state S.Store conn).now)
            → lacks_sequence (state S.Store conn).now.schema ≡ false
            → IfOk result (λ store. Survives (state S.Store conn) (state S.Store store.conn)
            (LeavesBallots (state S.Store conn).now tables.has.own))
            × IfErr result (λ e. Survives (state S.Store conn) (state S.Store e.conn)
            (LeavesBallots (state S.Store conn).now tables.has.own)) }
        ensures back { IfErr result (λ e. e.conn.in_transaction ≡ conn.in_transaction) }
    {
        // The tests of `adopt`, written out: the clauses speak of this connection, and of no store.
        if !conn.is_autocommit() {
            return Err(NotOpened {
                conn,
                fault: Fault::Store,
            });
        }
        let mut conn = conn;
        if !tables::is_there(conn.schema(), "desk") {
            return Err(NotOpened {
                conn,
                fault: Fault::NotADesk,
            });
        }
        match migrate(alloc, &mut conn) {
            Ok(()) => Ok(Store {
                conn,
                closed: false,
            }),
            Err(fault) => Err(NotOpened { conn, fault }),
        }
    }

    /// The desk of the rows that stand in the six tables. Nothing is written, and an error leaves
    /// the store open and as it was.
    ///
    /// [`Fault::Closed`]: an earlier commit failed, and nothing was done. [`Fault::TooNew`]: the
    /// table `desk` has one row, with the id 1 and a version above this program's.
    /// [`Fault::TooOld`]: it has one with a version below it. [`Fault::Damaged`]: no valid desk has
    /// the rows, or a table or a column is missing.
    /// [`Fault::Memory`] and [`Fault::Store`]: the rows could not be read; it may be tried again,
    /// unless a failure of the disk has shut the connection.
    pub fn load(&mut self, alloc: Global) -> Result<Desk, Fault>
        ensures holds { HasCleanDisk (state S.Store self.new.conn)
            → IfOk result (λ desk. Holds desk (state S.Store self.old.conn).now) }
        ensures valid { IfOk result IsValid }
        ensures damaged { HasCleanDisk (state S.Store self.new.conn)
            → HasTables (state S.Store self.old.conn).now.schema → result ≡ Err faults.Damaged
            → (s : State) → IsValid s → ¬ (Holds s (state S.Store self.old.conn).now) }
        ensures finds { HasCleanDisk (state S.Store self.new.conn)
            → HasTables (state S.Store self.old.conn).now.schema → (s : State) → IsValid s
            → Holds s (state S.Store self.old.conn).now → IfOk result (λ desk. desk ≡ s)
            × IfErr result (λ fault. IsOfStore fault ⊎ (fault ≡ faults.Closed)) }
        ensures later { HasCleanDisk (state S.Store self.new.conn)
            → HasPlainAnswer desk_select (state S.Store self.old.conn).now
            → IsTooNew (state S.Store self.old.conn).now → OnOk result ⊥
            × IfErr result (λ fault. (fault ≡ faults.TooNew)
            ⊎ (IsOfStore fault ⊎ (fault ≡ faults.Closed))) }
        ensures too_new { HasCleanDisk (state S.Store self.new.conn) → result ≡ Err faults.TooNew
            → IsTooNew (state S.Store self.old.conn).now }
        ensures earlier { HasCleanDisk (state S.Store self.new.conn)
            → HasPlainAnswer desk_select (state S.Store self.old.conn).now
            → IsTooOld (state S.Store self.old.conn).now → OnOk result ⊥
            × IfErr result (λ fault. (fault ≡ faults.TooOld)
            ⊎ (IsOfStore fault ⊎ (fault ≡ faults.Closed))) }
        ensures too_old { HasCleanDisk (state S.Store self.new.conn) → result ≡ Err faults.TooOld
            → IsTooOld (state S.Store self.old.conn).now }
        ensures faults { IfErr result (λ fault. CanFailToLoad fault ⊎ (fault ≡ faults.Closed)) }
        ensures caused { HasCleanDisk (state S.Store self.new.conn)
            → IfErr result (λ fault. fault ≡ faults.Store
            → DiskFails (state S.Store self.old.conn) (state S.Store self.new.conn)
            ⊎ CannotSelect (state S.Store self.old.conn).step_limit
            (state S.Store self.old.conn).now) }
        ensures closed { (result ≡ Err faults.Closed) ↔ IsTrue self.old.closed }
        ensures same { IsTrue self.old.closed → self.new ≡ self.old }
        ensures as_it_was { self.new.closed ≡ self.old.closed }
        ensures live { HasCleanDisk (state S.Store self.new.conn)
            → IfOk result (λ _. IsTrue (state S.Store self.new.conn).is_open) }
        ensures writes_nothing { WritesNothing (state S.Store self.old.conn)
            (state S.Store self.new.conn) }
    {
        if self.is_closed() {
            return Err(Fault::Closed);
        }
        load(alloc, &mut self.conn)
    }

    /// Puts the rows of the changes in one transaction, the first of them first. What is said of
    /// the database's values holds where it has the six tables, each its own, beside whatever else.
    /// The schema stays as it is, and another table with no foreign key keeps its rows.
    ///
    /// [`Fault::Closed`]: an earlier commit failed, and nothing was done. After [`Fault::Memory`]
    /// and [`Fault::Store`] the store is closed, and what a crash may leave, and so what a later
    /// opening may find, is what it was, or the rows after all puts.
    pub fn commit(&mut self, alloc: Global, changes: &[Change]) -> Result<(), Fault>
        ensures holds { HasCleanDisk (state S.Store self.new.conn)
            → IsTrue (state S.Store self.old.conn).is_open
            → HasDeskTables (state S.Store self.old.conn).now
            → (s : State) → Holds s (state S.Store self.old.conn).now
            → OnOk result (HasDeskTables (state S.Store self.new.conn).now
            × Holds (put_all s (map row_of changes.now)) (state S.Store self.new.conn).now) }
        ensures settled { HasCleanDisk (state S.Store self.new.conn)
            → OnOk result (IsSettled (state S.Store self.new.conn)) }
        ensures puts { HasCleanDisk (state S.Store self.new.conn)
            → IsTrue (state S.Store self.old.conn).is_open
            → (tables : HasDeskTables (state S.Store self.old.conn).now)
            → OnOk result (PutsAll tables.own (map row_of changes.now)
            (state S.Store self.old.conn).now (state S.Store self.new.conn).now) }
        ensures keeps { HasCleanDisk (state S.Store self.new.conn)
            → IsTrue (state S.Store self.old.conn).is_open
            → (tables : HasDeskTables (state S.Store self.old.conn).now)
            → OnOk result (KeepsBeside tables.own (state S.Store self.old.conn).now
            (state S.Store self.new.conn).now) }
        ensures crash { HasDeskTables (state S.Store self.old.conn).now
            → (s : State) → Holds s (state S.Store self.old.conn).now
            → Survives (state S.Store self.old.conn) (state S.Store self.new.conn)
            (LeavesDesk (put_all s (map row_of changes.now))) }
        ensures leaves { (tables : HasDeskTables (state S.Store self.old.conn).now)
            → Survives (state S.Store self.old.conn) (state S.Store self.new.conn)
            (LeavesBeside tables.own (state S.Store self.old.conn).now) }
        ensures clean { HasCleanDisk (state S.Store self.new.conn)
            → HasCleanDisk (state S.Store self.old.conn) }
        ensures faults { IfErr result (λ fault. IsOfStore fault ⊎ (fault ≡ faults.Closed)) }
        ensures caused { HasCleanDisk (state S.Store self.new.conn)
            → (tables : HasDeskTables (state S.Store self.old.conn).now)
            → IfErr result (λ fault. fault ≡ faults.Store
            → DiskFails (state S.Store self.old.conn) (state S.Store self.new.conn)
            ⊎ CannotPutAll tables.own (state S.Store self.old.conn).step_limit
            (map row_of changes.now) (state S.Store self.old.conn).now) }
        ensures closed { (result ≡ Err faults.Closed) ↔ IsTrue self.old.closed }
        ensures same { IsTrue self.old.closed → self.new ≡ self.old }
        ensures ok { OnOk result (self.new.closed ≡ false) }
        ensures err { OnErr result (IsTrue self.new.closed) }
    {
        if self.closed {
            return Err(Fault::Closed);
        }
        let done = commit(alloc, &mut self.conn, changes);
        self.closed = done.is_err();
        done
    }

    /// Whether a commit has failed.
    pub fn is_closed(&self) -> bool
        ensures { result ≡ self.now.closed }
    {
        self.closed
    }

    /// The connection, with the database as it is.
    pub fn close(self) -> Connection<S>
        ensures same { result ≡ self.conn }
        ensures outside { result.in_transaction ≡ false }
    {
        self.conn
    }
}
