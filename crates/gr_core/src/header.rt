//! The header of a desk.
ghost use Rattle.std.specs.Prelude.{◌≡◌, ◌≢◌, ◌+◌, ◌^◌, ◌<◌, IfOk, IsErr};
ghost use Rattle.gr_core.specs.declared.limits.TheConstants.{VERSION, VERSION_1};

use crate::limits::{VERSION, VERSION_1};
use crate::unfit::Damaged;

/// Which version of the rows a desk has, and how far it has come.
#[derive(Clone, Copy, Debug, PartialEq, Eq)]
pub struct Header {
    /// The version of the rows, which is [`VERSION`](crate::VERSION) in every desk of this program.
    pub version: u32,

    /// How many commands the desk accepted, at most [`MAX_ACCEPTED`](crate::MAX_ACCEPTED).
    pub accepted: u64,

    /// The moment of the last accepted command, in seconds since 1970-01-01T00:00:00Z and at most
    /// [`MAX_MOMENT`](crate::MAX_MOMENT), or 0 before the first.
    pub clock: u64,
}

impl Header {
    /// The header of a desk that has accepted nothing yet, of this version.
    pub const NEW: Header = Header {
        version: VERSION,
        accepted: 0,
        clock: 0,
    };

    /// The header after one more accepted command, at this moment.
    pub(crate) fn next(self, at: u64) -> Header
        requires { self.accepted + 1 < 2 ^ 64 }
        ensures { result ≡ record self { accepted = self.accepted + 1; clock = at } }
    {
        Header {
            accepted: self.accepted + 1,
            clock: at,
            ..self
        }
    }

    /// The header of version 1 in this version.
    ///
    /// [`Damaged`]: it is of another version.
    pub(crate) fn lifted(self) -> Result<Header, Damaged>
        ensures ok { IfOk result (λ header. (self.version ≡ VERSION_1)
            × (header ≡ record self { version = VERSION })) }
        ensures err { IsErr result → self.version ≢ VERSION_1 }
    {
        if self.version != VERSION_1 {
            return Err(Damaged);
        }
        Ok(Header {
            version: VERSION,
            ..self
        })
    }
}
