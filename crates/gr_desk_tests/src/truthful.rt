//! Disks that never tell a lie.
ghost use Rattle.std.specs.Prelude.{IsTrue, refl};

use sqlite_disk::{Crash, Fuse, Memory};

/// A disk that always returns what was written to it, where it returns anything.
pub trait Truthful: Crash {
    /// It has told no lie.
    ghost told_no_lie: { (disk : Self) → IsTrue (Self.is_clean disk) };
}

impl Truthful for Memory {
    ghost told_no_lie = { λ _. refl };
}

/// One that fails for good after so many calls.
impl Truthful for Fuse<Memory> {
    ghost told_no_lie = { λ _. refl };
}
