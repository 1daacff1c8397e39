//! Hosts that run one line after the other.
ghost use Rattle.std.specs.Prelude.{◌≡◌, Some, IsTrue};
ghost use Rattle.gr_desk.specs.Host.{Content, LeavesOthers};
ghost use Rattle.gr_desk.specs.Life.{IsNext};

use gr_desk::ending::Ending;
use gr_desk::host::Host;

/// A host that has its file back after each line, so that the next one may run over it.
pub trait LastingHost: Host {
    /// Takes back what a line left of its connection to the file, as when its process is ended:
    /// nothing is copied. Where the disk failed, the machine comes back.
    ///
    /// Whether there was a connection, and the host has the file again. Then it says what the file
    /// holds, and that is what the next line may find.
    fn take_back(&mut self, file: &str, left: &mut Ending<Self::Store>) -> bool
        ensures next { IsTrue result → (next : Content)
            × ((Self.known self.new).content file.now ≡ Some next)
            × ((found : Content) → IsNext Self.Store.Store found left.old next) }
        ensures others { LeavesOthers file.now (Self.known self.old) (Self.known self.new) };
}
