//! A clock that is asked for moments.
ghost use Rattle.std.specs.Prelude.{List, Option, None, Some, MatchResult};
ghost use Rattle.std.specs.declared.time.Duration.{Duration};
ghost use Rattle.gr_desk.specs.Spans.{ComesNext};

use std::io;
use std::rt::Clock;
use std::time::Duration;

/// A clock that never goes back, as the machine's monotonic one does not. It is asked by
/// `&mut self`, since a contract of a call on `&self` says nothing of when it was made. Over one
/// that knows which moments it gave, each read is proved to ask once and to wait for what is left
/// then. The proof is of any clock and any stream, so it stands for the machine's two, which say
/// nothing of themselves.
pub trait Watch {
    /// What it gave each time that it was asked, the first time first: a moment, as the time since
    /// some start, or none where it failed. None in place of the list where the type does not say.
    ghost gave: { Self → Option (List (Option Duration)) } = { λ _. None };

    /// The moment.
    fn ask(&mut self) -> io::Result<Duration>
        ensures { MatchResult result (λ now. ComesNext (gave self.old) (gave self.new) (Some now))
            (λ _. ComesNext (gave self.old) (gave self.new) None) };
}

/// What a clock of the system gives, the system does not say.
impl<C: Clock> Watch for &C {
    fn ask(&mut self) -> io::Result<Duration> {
        self.monotonic()
    }
}
