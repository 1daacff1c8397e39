//! Laws: what becomes of the desk of a file, whatever lines run over it.
ghost use Rattle.std.specs.Prelude.{⊤, Option, MatchOption};
ghost use Rattle.gr_desk.specs.Connections.{DoorRefuses};
ghost use Rattle.gr_desk.specs.Host.{Content, IsConnected};
ghost use Rattle.gr_desk.specs.Life.{HoldsOne, RunsLeadToAPrefix};
ghost use Rattle.sqlite.specs.Held.{state};
ghost use Rattle.sqlite.specs.State.{HasCleanDisk};

use crate::any_store::shown_desks_are_kept;
use crate::host::Host;
use sqlite::Connection;
use sqlite_trees::store::Alter;

/// At most one database is held under a name, and at most one desk: whatever is known of the file
/// under it, once a connection to that was opened. So the desk that a line finds is the one that
/// the file holds.
pub fn one_desk_is_under_a_name<S: Alter>(conn: &Connection<S>)
    ensures { (known : Option Content) → IsConnected S.Store known conn.now
        → HasCleanDisk (state S.Store conn.now) → MatchOption known ⊤ HoldsOne }
{
    // These do nothing: their clauses say what the tables of a connection hold.
    shown_desks_are_kept(conn);
    gr_store::laws::tables_made_are_right();
    gr_store::laws::one_desk_is_held();
    gr_store::laws::one_desk_of_version_1_is_held();
}

/// Whatever lines run over the file of a host, and wherever a stop falls in each: the next one
/// finds the desk after a prefix of the accepted commands of each line. It has every acknowledged
/// one, every one of which only the reply was lost, and at most one more of each line. So it is of
/// a file with a desk of this version and with one of version 1.
///
/// That is said of the connection that a line left, and not of the one that its host lends next. A
/// host that runs several lines must take its file back, and say what it holds then. That is a
/// trait of its own in `gr_desk_tests` (`LastingHost`), since no line needs it.
pub fn runs_lead_to_a_prefix<H: Host, N: Fn() -> u64>(_host: &H, now: &N)
    ensures { RunsLeadToAPrefix H.Store.Store
        (DoorRefuses H.Door.Door.refuses H.Door.Door.awaited H.Door.Door.ended) (N.post now.now) }
{
    // This does nothing: its clause says that a desk stays valid.
    gr_core::laws::commands_keep_a_desk_valid();
}
