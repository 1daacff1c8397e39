//! What the lines of the program run on: files by their names, and ports.
ghost use Rattle.std.specs.Prelude.{◌≡◌, ◌⊎◌, ◌+◌, ⊤, Bool, ℕ, List, Option, None, Some, false, take, IfOk, IfErr, IsTrue, MatchOption, MatchResult};
ghost use Rattle.gr_store.specs.Faults.{IsOfStore};
ghost use Rattle.gr_store.specs.declared.fault.Fault.TheVariants as faults;
ghost use Rattle.gr_desk.specs.Host.{Access, AsksBehind, Behind, HasSumsAsAsked, IsConnected, IsNoDatabase, IsTaken, IsUnreadable, Known, LeavesFiles, LeavesOthers, LeavesPorts, ToListen, ToMake, ToOpen, ToRead, nobody, nothing_known};
ghost use Rattle.gr_desk.specs.Spans.{ComesNext};
ghost use Rattle.sqlite.specs.Held.{state};
ghost use Rattle.sqlite.specs.State.{HasCleanDisk};

use crate::failure::Failure;
use gr_http::door::Door;
use gr_office::Fault;
use sqlite::Connection;
use sqlite_trees::store::Alter;

/// What a line of the program runs on. Each name leads to a file, or to none.
///
/// No contract can name what a file of the machine has. So each line is one function over any host,
/// whose ghost members say what it knows. A contract then says which desk a line answers from,
/// which names it opens, in which order, and what it leaves. It is proved once, and not at the
/// store of a file and at that of memory: `:memory:` is a host too.
///
/// A host gives what it knows, or memory runs out. It says that a roll file cannot be read only
/// where it does not know what that has, and the same of a port that cannot be listened on. It does
/// not say so of the database of a file: the machine looks by the name whether a file has no bytes,
/// and the contents that are known are not tied to the name.
pub trait Host {
    /// What a connection to a file is over.
    type Store: Alter + Drop;

    /// Where the connections of a port come from.
    type Door: Door + Drop;

    /// What is known of its names and ports. What is known of another name than that of a call may
    /// be forgotten after it, and is never another thing.
    ghost known: { Self → Known } = { λ _. nothing_known };

    /// What it was asked for so far and gave, the first one first; None where it does not say. What
    /// it looked at is not among that. So a line is refused that says "no connection" of a file for
    /// which it had one. A name that may be made and one that must be there differ in it. So `init`
    /// that only opens is refused too, and `serve` that listens before it opens.
    ghost asked: { Self → Option (List Access) } = { λ _. None };

    /// What is known of a host that stands behind it, and what that was asked for: for roll files
    /// and ports alone. Nothing, where there is none.
    ghost behind: { Self → Behind } = { λ _. nobody };

    /// Whether something may be under this name. Nothing is opened.
    ///
    /// [`Fault::Memory`] alone: nothing was looked at.
    fn is_there(&self, file: &str) -> Result<bool, Fault>
        ensures there { IfOk result (λ is_there. MatchOption ((known self.now).there file.now) ⊤
            (λ it. is_there ≡ it)) }
        ensures faults { IfErr result (λ fault. fault ≡ faults.Memory) };

    /// A connection to the database of a file that is there.
    ///
    /// [`Fault::NotADesk`]: the file has no database, and nothing was written to it.
    /// [`Fault::Memory`], [`Fault::Store`]: it could not be opened.
    fn connect(&mut self, file: &str) -> Result<Connection<Self::Store>, Fault>
        ensures outside { IfOk result (λ conn. conn.in_transaction ≡ false) }
        ensures live { IfOk result (λ conn. HasCleanDisk (state Self.Store.Store conn)
            → IsTrue (state Self.Store.Store conn).is_open) }
        ensures found { IfOk result
            (IsConnected Self.Store.Store ((known self.old).content file.now)) }
        ensures faults { IfErr result (λ fault. IsOfStore fault ⊎ (fault ≡ faults.NotADesk)) }
        ensures empty { IfErr result (λ fault. fault ≡ faults.NotADesk
            → IsNoDatabase ((known self.old).there file.now) ((known self.old).content file.now)) }
        ensures asked { MatchResult result
            (λ _. ComesNext (asked self.old) (asked self.new) (ToOpen file.now))
            (λ _. asked self.new ≡ asked self.old) }
        ensures behind { behind self.new ≡ behind self.old }
        ensures others { LeavesOthers file.now (known self.old) (known self.new)
            × LeavesPorts (known self.old) (known self.new) };

    /// A connection to the database of a file, which is made where there is none, for its owner
    /// alone to read and write. Each page of a new database ends in its sum where `has_sums` asks
    /// for that; one that is there keeps its kind.
    ///
    /// [`Fault::Memory`], [`Fault::Store`]: it could not be made or opened.
    fn make(&mut self, file: &str, has_sums: bool) -> Result<Connection<Self::Store>, Fault>
        ensures outside { IfOk result (λ conn. conn.in_transaction ≡ false) }
        ensures live { IfOk result (λ conn. HasCleanDisk (state Self.Store.Store conn)
            → IsTrue (state Self.Store.Store conn).is_open) }
        ensures found { IfOk result
            (IsConnected Self.Store.Store ((known self.old).content file.now)) }
        ensures sums { IfOk result
            (HasSumsAsAsked Self.Store.Store has_sums ((known self.old).content file.now)) }
        ensures faults { IfErr result IsOfStore }
        ensures asked { MatchResult result
            (λ _. ComesNext (asked self.old) (asked self.new) (ToMake file.now has_sums))
            (λ _. asked self.new ≡ asked self.old) }
        ensures behind { behind self.new ≡ behind self.old }
        ensures others { LeavesOthers file.now (known self.old) (known self.new)
            × LeavesPorts (known self.old) (known self.new) };

    /// The bytes of a roll file; of one with more than `most`, as many as that and one.
    ///
    /// [`Failure::CannotRead`]: they cannot be read, and it is not known what they are.
    /// [`Failure::Fault`]: memory ran out.
    fn read_roll(&mut self, file: &str, most: usize) -> Result<Vec<u8>, Failure>
        ensures bytes { IfOk result (λ bytes. MatchOption ((known self.old).roll file.now) ⊤
            (λ all. bytes.items ≡ take (most + 1) all)) }
        ensures failed { IfErr result (IsUnreadable ((known self.old).roll file.now)) }
        ensures asked { MatchResult result
            (λ _. ComesNext (asked self.old) (asked self.new) (ToRead file.now))
            (λ _. asked self.new ≡ asked self.old) }
        ensures behind { AsksBehind (behind self.old) (behind self.new) (ToRead file.now) }
        ensures others { LeavesFiles (known self.old) (known self.new)
            × LeavesPorts (known self.old) (known self.new) };

    /// Listens on a port of 127.0.0.1.
    ///
    /// [`Failure::CannotListen`]: it cannot be listened on, and it is not known what its
    /// connections bring. [`Failure::Fault`]: memory ran out.
    fn listen(&mut self, port: u16) -> Result<Self::Door, Failure>
        ensures came { IfOk result (λ door. MatchOption ((known self.old).awaited port) ⊤
            (λ all. Self.Door.awaited door ≡ Some all)) }
        ensures failed { IfErr result (IsTaken ((known self.old).awaited port)) }
        ensures asked { MatchResult result
            (λ _. ComesNext (asked self.old) (asked self.new) (ToListen port))
            (λ _. asked self.new ≡ asked self.old) }
        ensures behind { AsksBehind (behind self.old) (behind self.new) (ToListen port) }
        ensures others { LeavesFiles (known self.old) (known self.new) };
}
