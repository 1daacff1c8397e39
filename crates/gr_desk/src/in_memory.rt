//! `:memory:`: each opening finds a new desk in memory, which ends with its connection.
ghost use Rattle.std.specs.Prelude.{◌≡◌, false, IfOk, IfErr, IsTrue};
ghost use Rattle.gr_core.specs.Desks.State.{new_state};
ghost use Rattle.gr_store.specs.Faults.{IsOfStore};
ghost use Rattle.gr_office.specs.Office.{Keeps};
ghost use Rattle.sqlite.specs.Held.{state};
ghost use Rattle.sqlite.specs.Steps.{over_memory};

use crate::failure::Failure;
use crate::file::new_in_memory;
use crate::host::Host;
use gr_office::Fault;
use sqlite::{Connection, MemStore};
use std::alloc::Global;

/// A host whose files are new desks in memory. Its roll files and ports are those of the host
/// behind it.
#[derive(Drop)]
pub(crate) struct InMemory<'a, H: Host> {
    pub(crate) alloc: Global,

    /// The host of the roll files and ports.
    pub(crate) behind: &'a mut H,
}

impl<'a, H: Host> Host for InMemory<'a, H> {
    type Store = MemStore;

    type Door = H::Door;

    ghost use Rattle.gr_desk.specs.Program.{in_memory};

    ghost known = { λ it. in_memory (H.known it.behind.now) };

    ghost behind = { λ it. record {
      known = H.known it.behind.now;
      asked = H.asked it.behind.now;
      name = it.behind.ghost_name;
    } };

    fn is_there(&self, _file: &str) -> Result<bool, Fault> {
        Ok(true)
    }

    fn connect(&mut self, _file: &str) -> Result<Connection<MemStore>, Fault> {
        new_desk(self.alloc)
    }

    fn make(&mut self, _file: &str, _has_sums: bool) -> Result<Connection<MemStore>, Fault> {
        new_desk(self.alloc)
    }

    fn read_roll(&mut self, file: &str, most: usize) -> Result<Vec<u8>, Failure> {
        self.behind.read_roll(file, most)
    }

    fn listen(&mut self, port: u16) -> Result<H::Door, Failure> {
        self.behind.listen(port)
    }
}

/// The connection of a new desk in memory.
///
/// [`Fault::Memory`], [`Fault::Store`]: as [`Office::create`](gr_office::Office::create) says it.
/// No name is taken there.
fn new_desk(alloc: Global) -> Result<Connection<MemStore>, Fault>
    ensures outside { IfOk result (λ conn. conn.in_transaction ≡ false) }
    ensures live { IfOk result (λ conn. IsTrue (state over_memory conn).is_open) }
    ensures keeps { IfOk result (Keeps over_memory new_state) }
    ensures faults { IfErr result IsOfStore }
{
    Ok(new_in_memory(alloc)?.close())
}
