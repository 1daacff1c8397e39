//! Which version a database's tables are of.
ghost use Rattle.std.specs.Prelude.{◌≡◌, ◌↔◌, IsTrue, None, codes};
ghost use Rattle.sqlite.specs.Held.{state};
ghost use Rattle.sqlite_schema.specs.Names.{table_named};

use crate::tables::is_there;
use sqlite::Connection;
use sqlite_trees::store::Alter;

/// Whether a database lacks the table of ballots of this version. Where it does, and holds a desk
/// of version 1, a migration that succeeds has made it; where it has one, no migration writes
/// anything. Takes no memory.
pub fn lacks_ballots<S: Alter>(conn: &Connection<S>) -> bool
    ensures { IsTrue result
        ↔ (table_named (state S.Store conn.now).now.schema (codes "ballot2") ≡ None) }
{
    !is_there(conn.schema(), "ballot2")
}
