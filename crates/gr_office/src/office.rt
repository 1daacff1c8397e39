//! The office: a desk in memory that is kept in a database, until a fault closes it.
ghost use Rattle.std.specs.Prelude.{◌≡◌, ◌↔◌, ◌⊎◌, [], map, false, IsTrue, IsSome, Some, None, IfOk, IfErr, IfSome, OnOk, OnErr, Ok, Err, codes, MatchResult};
ghost use Rattle.gr_core.specs.Columns.Stored.{BallotTable};
ghost use Rattle.gr_core.specs.Desks.State.{State, new_state};
ghost use Rattle.gr_core.specs.Desks.Valid.{IsValid};
ghost use Rattle.gr_core.specs.Desks.Version1.{IsValid1, lifted};
ghost use Rattle.gr_core.specs.Machine.Act.{act_of};
ghost use Rattle.gr_core.specs.Machine.Effect.{rows_by};
ghost use Rattle.gr_core.specs.Machine.Row.{put_all};
ghost use Rattle.gr_core.specs.Machine.Plan.{HasCountingOf, HasRowsOf, IsPlanOn, rows_of};
ghost use Rattle.gr_store.specs.declared.fault.Fault.TheVariants as faults;
ghost use Rattle.gr_store.specs.Causes.{DiskFails, CannotPutAll};
ghost use Rattle.gr_store.specs.Commits.{KeepsBeside, LeavesBeside, LeavesDesk, LeavesNewDesk, PutsAll};
ghost use Rattle.gr_store.specs.Content.{IsSettled, WritesNothing};
ghost use Rattle.gr_store.specs.Faults.{IsOfStore};
ghost use Rattle.gr_store.specs.Holds.{Holds, HasDeskTables, HasDeskTables1, IsTooNew, IsTooOld};
ghost use Rattle.gr_store.specs.Makes.{AddsDesk};
ghost use Rattle.gr_store.specs.Migrates.{AddsBallotTable, LeavesBallots};
ghost use Rattle.gr_store.specs.Schema.{is_occupied};
ghost use Rattle.gr_store.specs.SelectedTables.{HasPlainAnswer};
ghost use Rattle.gr_store.specs.Selects.{desk_select};
ghost use Rattle.gr_store.specs.Tabled.{HasColumns1, HasTables};
ghost use Rattle.gr_store.specs.Version1.{Holds1, HoldsValid1};
ghost use Rattle.gr_office.specs.declared.fault.ActFault.TheVariants as acts;
ghost use Rattle.gr_office.specs.History.{AcceptedArePut, AreMade, FailsAt, Makes, act_attempt, run_attempts};
ghost use Rattle.gr_office.specs.NotOpened.{FailsToMake, FailsToMigrate, FailsToOpen};
ghost use Rattle.gr_office.specs.Office.{Acts, CannotKeep, IsOpenWith, PlansFor, Runs};
ghost use Rattle.gr_office.specs.Office.{ShowsSheet, Spares, command_of, fault_of_act, fault_of_run, remembered};
ghost use Rattle.sqlite.specs.Held.{state};
ghost use Rattle.sqlite.specs.State.{HasCleanDisk, Survives};
ghost use Rattle.sqlite_catalog.specs.Change.{is_used};
ghost use Rattle.sqlite.specs.Does.{lacks_sequence};
ghost use Rattle.sqlite_schema.specs.Names.{table_named};

use crate::fault::{ActFault, SheetFault, behind_a_migration};
use crate::run::{Answer, Stopped};
use gr_core::{Command, Desk, Memory, Plan, Reply};
use gr_sheet::{Kind, sheet_text};
use gr_store::{Fault, NotOpened, Store};
use sqlite::Connection;
use sqlite_trees::store::Alter;
use std::alloc::Global;
use std::marker::Model;
use std::mem;

/// A desk in memory, and the database that it is kept in. A contract sees the state of the desk, or
/// `None` once a fault has closed the office, this fault, and the connection.
#[derive(Drop)]
pub struct Office<S: Alter> {
    store: Store<S>,

    /// The desk, or the fault that has closed the office.
    desk: Result<Desk, Fault>,
}

impl<S: Alter> Model for Office<S> {
    ghost use Rattle.std.specs.Prelude.{◌≡◌, false, IsOk};
    ghost use Rattle.std.specs.Result.{result_err, result_ok};
    ghost use Rattle.std.specs.Coded.{codes};
    ghost use Rattle.std.specs.FinMap as finite;
    ghost use Rattle.gr_office.specs.Office.{Office, office_code};

    ghost Value = { Office S };

    ghost coded = { office_code (Prim.hlevel (codes, finite.code))
        (Prim.hlevel (codes, finite.code)) S.code };

    ghost view = { λ office. record {
      desk = result_ok office.desk;
      closed_by = result_err office.desk;
      conn = office.store.conn;
    } };

    ghost invariant = { λ office. IsOk office.desk → office.store.closed ≡ false };
}

impl<S: Alter> Office<S> {
    /// An open office with a new desk, in a database that gets the tables for it, and nothing else:
    /// every other table, index and view stays, and every other table keeps its place and its rows.
    ///
    /// [`NotOpened`] hands the connection back. [`Fault::Occupied`]: one of the names of the tables
    /// is taken; nothing was done. [`Fault::Memory`] and [`Fault::Store`]: a stop leaves what was
    /// there before, or the tables of a new desk, and then a new `create` answers
    /// [`Fault::Occupied`]. Inside a transaction: [`Fault::Store`]; the connection is handed back
    /// as it was.
    pub fn create(alloc: Global, conn: Connection<S>) -> Result<Office<S>, NotOpened<S>>
        ensures new { IfOk result (λ office. HasCleanDisk (state S.Store office.conn)
            → IsTrue (state S.Store conn).is_open → IsOpenWith S.Store new_state office) }
        ensures adds { IfOk result (λ office. HasCleanDisk (state S.Store office.conn)
            → IsTrue (state S.Store conn).is_open
            → AddsDesk (state S.Store conn).now (state S.Store office.conn).now) }
        ensures desk { IfOk result (λ office. office.desk ≡ Some new_state) }
        ensures settled { IfOk result (λ office. HasCleanDisk (state S.Store office.conn)
            → IsSettled (state S.Store office.conn)) }
        ensures crash { IfOk result (λ office.
            Survives (state S.Store conn) (state S.Store office.conn)
            (LeavesNewDesk (state S.Store conn).now)) }
        ensures clean { IfOk result (λ office. HasCleanDisk (state S.Store office.conn)
            → HasCleanDisk (state S.Store conn)) }
        ensures inside { IsTrue conn.in_transaction
            → result ≡ Err (record { conn = conn; fault = faults.Store }) }
        ensures vacant { IfOk result (λ _. is_occupied (state S.Store conn).now.schema ≡ false) }
        ensures failed { IfErr result (λ e. FailsToMake S.Store conn e.conn e.fault) }
    {
        let store = Store::create(alloc, conn)?;
        let desk = Ok(Desk::new(alloc));
        Ok(Office { store, desk })
    }

    /// An open office with the desk that the database has. Nothing is written.
    ///
    /// [`NotOpened`] hands the connection back, and its database is as it was.
    /// [`Fault::NotADesk`]: there is no table `desk`. [`Fault::TooNew`]: it has one row, with the
    /// id 1 and a version above this program's. [`Fault::TooOld`]: it has one with a version below
    /// it; [`Office::migrate`] may bring it to this version. [`Fault::Damaged`]: no valid desk has
    /// the rows, or a table or a column is missing. [`Fault::Memory`] and [`Fault::Store`]: the
    /// rows could not be read; it may be tried again, unless a failure of the disk has shut the
    /// connection. Inside a transaction: [`Fault::Store`]; the connection is handed back as it was.
    pub fn open(alloc: Global, conn: Connection<S>) -> Result<Office<S>, NotOpened<S>>
        ensures found { IfOk result (λ office. HasCleanDisk (state S.Store office.conn)
            → (s : State) × (office.desk ≡ Some s) × IsValid s × Holds s (state S.Store conn).now) }
        ensures open_with { IfOk result (λ office. HasCleanDisk (state S.Store office.conn)
            → IsSettled (state S.Store conn) → HasDeskTables (state S.Store conn).now
            → (s : State) × IsOpenWith S.Store s office) }
        ensures valid_is_found { HasTables (state S.Store conn).now.schema → (s : State)
            → IsValid s → Holds s (state S.Store conn).now
            → IfOk result (λ office. HasCleanDisk (state S.Store office.conn)
            → office.desk ≡ Some s) }
        ensures later { HasPlainAnswer desk_select (state S.Store conn).now
            → IsTooNew (state S.Store conn).now
            → IfOk result (λ office. ¬ (HasCleanDisk (state S.Store office.conn))) }
        ensures earlier { HasPlainAnswer desk_select (state S.Store conn).now
            → IsTooOld (state S.Store conn).now
            → IfOk result (λ office. ¬ (HasCleanDisk (state S.Store office.conn))) }
        ensures live { IfOk result (λ office. HasCleanDisk (state S.Store office.conn)
            → IsTrue (state S.Store office.conn).is_open) }
        ensures inside { IsTrue conn.in_transaction
            → result ≡ Err (record { conn = conn; fault = faults.Store }) }
        ensures named { IfOk result (λ _.
            IsSome (table_named (state S.Store conn).now.schema (codes "desk"))) }
        ensures writes_nothing { IfOk result (λ office.
            WritesNothing (state S.Store conn) (state S.Store office.conn)) }
        ensures failed { IfErr result (λ e. FailsToOpen S.Store conn e.conn e.fault) }
    {
        let mut store = Store::adopt(conn)?;
        match store.load(alloc) {
            Ok(desk) => Ok(Office {
                store,
                desk: Ok(desk),
            }),
            Err(fault) => Err(NotOpened {
                conn: store.close(),
                fault,
            }),
        }
    }

    /// An open office with the desk that the database has, in this version. One of version 1 is
    /// upgraded to this version first, in one transaction, with one vote received of each ballot. A
    /// desk of this version is opened as [`Office::open`] does, and nothing is written.
    ///
    /// [`NotOpened`] hands the connection back. [`Fault::Store`], where the connection is inside a
    /// transaction: nothing was done. [`Fault::NotADesk`]: there is no table `desk`.
    /// [`Fault::TooNew`]: it has one row, with the id 1 and a version above this program's.
    /// [`Fault::Damaged`]: no valid desk of version 1 or of this one has the rows, or a table or a
    /// column is missing. [`Fault::Occupied`]: it is a valid desk of version 1, and the name of the
    /// table of ballots of this version is taken. Nothing was written then. [`Fault::Memory`] and
    /// [`Fault::Store`]: a stop leaves the desk as it was, or the same desk in this version; it may
    /// be tried again. It is never [`Fault::TooOld`].
    pub fn migrate(alloc: Global, conn: Connection<S>) -> Result<Office<S>, NotOpened<S>>
        ensures inside { IsTrue conn.in_transaction
            → result ≡ Err (record { conn = conn; fault = faults.Store }) }
        ensures found { IfOk result (λ office. HasCleanDisk (state S.Store office.conn)
            → (s : State) × (office.desk ≡ Some s) × IsValid s
            × (IsSettled (state S.Store conn) → Holds s (state S.Store office.conn).now)) }
        ensures migrates { IfOk result (λ office. HasCleanDisk (state S.Store office.conn)
            → IsSettled (state S.Store conn) → HasDeskTables1 (state S.Store conn).now
            → (s : State) → IsValid1 s → Holds1 s (state S.Store conn).now
            → IsOpenWith S.Store (lifted s) office) }
        ensures adds { IfOk result (λ office. HasCleanDisk (state S.Store office.conn)
            → IsSettled (state S.Store conn) → (tables : HasDeskTables1 (state S.Store conn).now)
            → lacks_sequence (state S.Store conn).now.schema ≡ false
            → HoldsValid1 (state S.Store conn).now → AddsBallotTable (state S.Store conn).now
            tables.has.own (state S.Store office.conn).now) }
        ensures empties { IfOk result (λ office. HasCleanDisk (state S.Store office.conn)
            → IsSettled (state S.Store conn) → (tables : HasDeskTables1 (state S.Store conn).now)
            → HoldsValid1 (state S.Store conn).now
            → (state S.Store office.conn).now.trees (tables.has.own BallotTable).has.tree ≡ []) }
        ensures opens { IfOk result (λ office. HasCleanDisk (state S.Store office.conn)
            → IsSettled (state S.Store conn) → HasDeskTables (state S.Store conn).now
            → (s : State) → IsValid s → Holds s (state S.Store conn).now
            → IsOpenWith S.Store s office) }
        ensures settled { IfOk result (λ office. HasCleanDisk (state S.Store office.conn)
            → IsSettled (state S.Store conn) → IsSettled (state S.Store office.conn)) }
        ensures untouched { IfOk result (λ office. (¬ (HoldsValid1 (state S.Store conn).now))
            → WritesNothing (state S.Store conn) (state S.Store office.conn)) }
        ensures crash { IfOk result (λ office. HasDeskTables1 (state S.Store conn).now
            → (s : State) → IsValid1 s → Holds1 s (state S.Store conn).now
            → Survives (state S.Store conn) (state S.Store office.conn) (LeavesDesk (lifted s))) }
        ensures clean { IfOk result (λ office. HasCleanDisk (state S.Store office.conn)
            → HasCleanDisk (state S.Store conn)) }
        ensures vacant { IfOk result (λ office. HasCleanDisk (state S.Store office.conn)
            → HasColumns1 (state S.Store conn).now.schema → HoldsValid1 (state S.Store conn).now
            → is_used (state S.Store conn).now.schema (codes "ballot2") ≡ false) }
        ensures later { HasPlainAnswer desk_select (state S.Store conn).now
            → IsTooNew (state S.Store conn).now
            → IfOk result (λ office. ¬ (HasCleanDisk (state S.Store office.conn))) }
        ensures leaves { IfOk result (λ office. (tables : HasDeskTables1 (state S.Store conn).now)
            → lacks_sequence (state S.Store conn).now.schema ≡ false
            → Survives (state S.Store conn) (state S.Store office.conn)
            (LeavesBallots (state S.Store conn).now tables.has.own)) }
        ensures named { IfOk result (λ _.
            IsSome (table_named (state S.Store conn).now.schema (codes "desk"))) }
        ensures failed { IfErr result (λ e. FailsToMigrate S.Store conn e.conn e.fault) }
    {
        let store = Store::migrate(alloc, conn)?;
        match Office::open(alloc, store.close()) {
            Ok(office) => Ok(office),
            Err(not_opened) => Err(NotOpened {
                conn: not_opened.conn,
                fault: behind_a_migration(not_opened.fault),
            }),
        }
    }

    /// Whether a fault has closed the office. Takes no memory.
    pub fn is_closed(&self) -> bool
        ensures { IsTrue result ↔ (self.now.desk ≡ None) }
    {
        self.desk.is_err()
    }

    /// The fault that has closed the office, if one has. Takes no memory.
    pub fn closed_by(&self) -> Option<Fault>
        ensures same { result ≡ self.now.closed_by }
        ensures closed { IsSome result ↔ (self.now.desk ≡ None) }
    {
        match &self.desk {
            Ok(_) => None,
            Err(fault) => Some(*fault),
        }
    }

    /// The connection, with the database as it is.
    pub fn close(self) -> Connection<S>
        ensures same { result ≡ self.conn }
        ensures outside { result.in_transaction ≡ false }
    {
        self.store.close()
    }

    /// Carries out the command at this moment, in seconds since 1970-01-01T00:00:00Z: plans it,
    /// commits the rows of the plan, and applies them to the desk in memory.
    ///
    /// [`ActFault::Refused`]: the desk does not accept it, and nothing was done. [`Fault::Memory`],
    /// with the office still open: nothing was done either. [`Fault::Memory`] or [`Fault::Store`],
    /// with the office closed: the commit failed, or what came after it; a later opening finds the
    /// desk as it was before this command, or as it is after it. [`Fault::Closed`]: a fault had
    /// closed the office before, and nothing was done. That the office stays open where the memory
    /// for the plan was refused, no definition can say.
    pub fn act(&mut self, alloc: Global, at: u64, command: &Command) -> Result<Reply, ActFault>
        // The answer is that of the desk, and after it the desk is as its step leaves it.
        ensures acts { Acts self.old.desk at (act_of command.now) result self.new.desk }

        // The fault that closed the office in this call, and no other, is remembered.
        ensures remembers { self.new.closed_by
            ≡ remembered (fault_of_act result) self.old.desk self.new.desk self.old.closed_by }

        // An error that leaves the office open leaves it as it was.
        ensures kept { OnErr result (IsSome self.new.desk → self.new ≡ self.old) }

        // The database of an accepted act is what its rows, put one after the other, make of it.
        ensures puts { HasCleanDisk (state S.Store self.new.conn) → (s : State)
            → (is : IsOpenWith S.Store s self.old)
            → OnOk result (PutsAll is.kept.tables.own (rows_by s at (act_of command.now))
            (state S.Store self.old.conn).now (state S.Store self.new.conn).now) }

        // Each table beside the desk's own stays.
        ensures spares { Spares S.Store self.old self.new }

        // A failed database has its cause: the disk, or a row of the act that cannot be put.
        ensures caused { HasCleanDisk (state S.Store self.new.conn) → (s : State)
            → IsOpenWith S.Store s self.old → result ≡ Err (acts.Fault faults.Store)
            → DiskFails (state S.Store self.old.conn) (state S.Store self.new.conn)
            ⊎ CannotKeep s at (act_of command.now) (state S.Store self.old.conn) }

        // The database has the step, or what was there before it.
        ensures makes { Makes S.Store self.old
            (act_attempt at (act_of command.now) result self.new.desk) self.new }
    {
        let plan = self.plan(alloc, at, command)?;
        Ok(self.keep(alloc, plan)?)
    }

    /// Carries out the commands, each at its moment, in seconds since 1970-01-01T00:00:00Z, one
    /// after the other. A refusal does not stop them. Room for all answers is taken first, so that
    /// lack of memory never loses the answers to commands that were carried out.
    ///
    /// [`Stopped`]: a fault stopped them; it holds the answers before it, and the commands with
    /// these answers stand as they are answered. [`Fault::Memory`], with the office still open: the
    /// room for the answers was refused, and there are none; or the memory for the plan of the next
    /// command. [`Fault::Memory`] or [`Fault::Store`], with the office closed: keeping the next
    /// command failed, and a later opening finds it or not. [`Fault::Closed`]: a fault had closed
    /// the office before, and nothing was done.
    pub fn run(
        &mut self,
        alloc: Global,
        commands: &[(u64, Command)],
    ) -> Result<Vec<Answer>, Stopped>
        // The answers are those of the desk, up to a fault.
        ensures runs { Runs self.old.desk (map command_of commands.now) result self.new.desk }

        // The fault that closed the office in this call, and no other, is remembered.
        ensures remembers { self.new.closed_by
            ≡ remembered (fault_of_run result) self.old.desk self.new.desk self.old.closed_by }

        // The database has the steps of the answered commands, and at most the next one.
        ensures makes { AreMade S.Store self.old
            (run_attempts (map command_of commands.now) result self.new.desk) self.new }

        // The database is what the rows of the accepted ones, put one after the other, make of it.
        ensures puts { HasCleanDisk (state S.Store self.new.conn) → (s : State)
            → IfOk result (λ answers. AcceptedArePut S.Store s self.old
            (map command_of commands.now) answers.items self.new) }

        // Each table beside the desk's own stays.
        ensures spares { Spares S.Store self.old self.new }

        // A failed database has its cause in the command that it ended.
        ensures caused { HasCleanDisk (state S.Store self.new.conn) → (s : State)
            → IsOpenWith S.Store s self.old
            → IfErr result (λ stopped. stopped.fault ≡ faults.Store
            → FailsAt S.Store s self.old (map command_of commands.now) stopped.answers.items
            self.new) }

        // With no answer, an office that is still open is as it was.
        ensures kept { IfErr result (λ stopped. stopped.answers.items ≡ []
            → IsSome self.new.desk → self.new ≡ self.old) }
    {
        if self.is_closed() {
            return Err(Stopped::before_all(alloc, Fault::Closed));
        }
        let Ok(mut answers) = Vec::with_capacity(alloc, commands.len()) else {
            return Err(Stopped::before_all(alloc, Fault::Memory));
        };
        for (at, command) in commands {
            let answer = match self.act(alloc, *at, command) {
                Ok(reply) => Ok(reply),
                Err(ActFault::Refused(refusal)) => Err(refusal),
                Err(ActFault::Fault(fault)) => return Err(Stopped { answers, fault }),
            };
            let Ok(()) = answers.push(answer) else {
                unreachable!()
            };
        }
        Ok(answers)
    }

    /// The plan of a command, for the desk of an open office.
    fn plan(&self, alloc: Global, at: u64, command: &Command) -> Result<Plan, ActFault>
        ensures plans { PlansFor self.now.desk at (act_of command.now) result }
        ensures rows { IfSome self.now.desk (λ s. IfOk result
            (HasRowsOf s at (act_of command.now))) }
        ensures counts { IfSome self.now.desk (λ s. IfOk result
            (HasCountingOf s at (act_of command.now))) }
    {
        let Ok(desk) = &self.desk else {
            return Err(ActFault::Fault(Fault::Closed));
        };
        Ok(desk.plan(alloc, at, command)?)
    }

    /// Commits the rows of a plan that was made on the desk of this office, and applies them. An
    /// error closes the office, also where memory was refused after the commit: the database has
    /// the command then, and the desk in memory has not. So it is the command in which the crash
    /// fell, and the next opening finds it. From then on the office answers `Closed`, whichever of
    /// the two failed.
    fn keep(&mut self, alloc: Global, plan: Plan) -> Result<Reply, Fault>
        requires { (s : State) × (self.old.desk ≡ Some s) × IsPlanOn s plan }
        ensures done { IfOk result (λ reply. (reply ≡ plan.reply)
            × IfSome self.old.desk (λ s. self.new.desk ≡ Some (put_all s (rows_of plan)))) }
        ensures failed { OnErr result (self.new.desk ≡ None) }
        ensures faults { IfErr result IsOfStore }
        ensures remembers { MatchResult result (λ reply. self.new.closed_by ≡ self.old.closed_by)
            (λ fault. self.new.closed_by ≡ Some fault) }
        ensures caused { HasCleanDisk (state S.Store self.new.conn)
            → (tables : HasDeskTables (state S.Store self.old.conn).now)
            → IfErr result (λ fault. fault ≡ faults.Store
            → DiskFails (state S.Store self.old.conn) (state S.Store self.new.conn)
            ⊎ CannotPutAll tables.own (state S.Store self.old.conn).step_limit (rows_of plan)
            (state S.Store self.old.conn).now) }
        ensures clean { HasCleanDisk (state S.Store self.new.conn)
            → HasCleanDisk (state S.Store self.old.conn) }
        ensures holds { HasCleanDisk (state S.Store self.new.conn)
            → IsTrue (state S.Store self.old.conn).is_open
            → HasDeskTables (state S.Store self.old.conn).now
            → (s : State) → Holds s (state S.Store self.old.conn).now
            → OnOk result (HasDeskTables (state S.Store self.new.conn).now
            × Holds (put_all s (rows_of plan)) (state S.Store self.new.conn).now) }
        ensures settled { HasCleanDisk (state S.Store self.new.conn)
            → OnOk result (IsSettled (state S.Store self.new.conn)) }
        ensures crash { HasDeskTables (state S.Store self.old.conn).now
            → (s : State) → Holds s (state S.Store self.old.conn).now
            → Survives (state S.Store self.old.conn) (state S.Store self.new.conn)
            (LeavesDesk (put_all s (rows_of plan))) }
        ensures puts { HasCleanDisk (state S.Store self.new.conn)
            → IsTrue (state S.Store self.old.conn).is_open
            → (tables : HasDeskTables (state S.Store self.old.conn).now)
            → OnOk result (PutsAll tables.own (rows_of plan) (state S.Store self.old.conn).now
            (state S.Store self.new.conn).now) }
        ensures keeps { HasCleanDisk (state S.Store self.new.conn)
            → IsTrue (state S.Store self.old.conn).is_open
            → (tables : HasDeskTables (state S.Store self.old.conn).now)
            → OnOk result (KeepsBeside tables.own (state S.Store self.old.conn).now
            (state S.Store self.new.conn).now) }
        ensures leaves { (tables : HasDeskTables (state S.Store self.old.conn).now)
            → Survives (state S.Store self.old.conn) (state S.Store self.new.conn)
            (LeavesBeside tables.own (state S.Store self.old.conn).now) }
    {
        if let Err(fault) = self.store.commit(alloc, plan.changes()) {
            self.desk = Err(fault);
            return Err(fault);
        }
        // `apply` takes the desk, so until it answers something stands in its place.
        let Ok(desk) = mem::replace(&mut self.desk, Err(Fault::Closed)) else {
            unreachable!()
        };
        match desk.apply(plan) {
            Ok((desk, reply)) => {
                self.desk = Ok(desk);
                Ok(reply)
            }
            Err(Memory) => {
                self.desk = Err(Fault::Memory);
                Err(Fault::Memory)
            }
        }
    }

    /// The sheet of this kind, of the resolution with this number; for the roll the number is not
    /// looked at. The office and its database stay as they are.
    ///
    /// [`SheetFault::Refused`] with [`NoResolution`](gr_core::Refusal::NoResolution): there is no
    /// such resolution; with [`NotRevealed`](gr_core::Refusal::NotRevealed): a tally or a result is
    /// asked for, and the vote is not closed. [`Fault::Memory`]: the memory for the text was
    /// refused. [`Fault::Closed`]: a fault closed the office earlier; this comes before all else.
    pub fn sheet(&self, alloc: Global, kind: Kind, number: u32) -> Result<String, SheetFault>
        ensures { ShowsSheet self.now.desk kind number result }
    {
        let Ok(desk) = &self.desk else {
            return Err(SheetFault::Fault(Fault::Closed));
        };
        Ok(sheet_text(alloc, desk, kind, number)?)
    }
}
