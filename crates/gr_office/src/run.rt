//! Lists of commands: what each was answered, and what stopped them.
ghost use Rattle.std.specs.Prelude.{◌≡◌, [], Some};
ghost use Rattle.gr_store.specs.Faults.{fault_text};

use gr_core::{Refusal, Reply};
use gr_store::Fault;
use std::alloc::Global;
use std::error::Error;
use std::fmt;

/// What a command of a list was answered: the reply where it was accepted, else the refusal.
pub type Answer = Result<Reply, Refusal>;

/// A fault stopped a list of commands.
#[derive(Debug, Drop)]
pub struct Stopped {
    /// The answers to the commands before it, the first of them first.
    pub answers: Vec<Answer>,

    /// What happened.
    pub fault: Fault,
}

impl Stopped {
    /// A list that was stopped before its first command. Takes no memory.
    pub(crate) fn before_all(alloc: Global, fault: Fault) -> Stopped
        ensures { (result.answers.items ≡ []) × (result.fault ≡ fault) }
    {
        Stopped {
            answers: Vec::new(alloc),
            fault,
        }
    }
}

impl fmt::Display for Stopped {
    ghost output = { λ stopped. Some (fault_text stopped.fault) };

    fn fmt<W: fmt::Write>(&self, f: &mut fmt::Formatter<W>) -> fmt::Result {
        write!(f, "{}", self.fault)
    }
}

impl Error for Stopped {}
