//! Where connections come from.
ghost use Rattle.std.specs.Prelude.{◌≡◌, ℕ, List, Option, None, ⊤, IfOk, IfErr, OnOk, MatchResult};
ghost use Rattle.gr_http.specs.Door.{Ended, Brings, IsFresh, Ends};

use crate::input::Input;
use crate::output::Output;

/// No connection could be accepted.
#[derive(Clone, Copy, Debug, PartialEq, Eq)]
pub struct NotAccepted;

/// Connections that come one after the other. Each is accepted, and ended before the next one.
pub trait Door {
    /// What a connection sends.
    type In: Input + Drop;

    /// What a connection gets.
    type Out: Output + Drop;

    /// What the connections to come bring, each its bytes up to their end; None where the type does
    /// not say.
    ghost awaited: { Self → Option (List (List ℕ)) } = { λ _. None };

    /// How the connections so far ended, the first one first; None where the type does not say.
    ghost ended: { Self → Option (List Ended) } = { λ _. None };

    /// The connection that was accepted may be ended.
    ghost can_end: { Self → Type 0 } = { λ _. ⊤ };

    /// An accept failed between these.
    ghost refuses: { Self → Self → Type 0 } = { λ _ _. ⊤ };

    /// Accepts the next connection. Nothing was read of it and nothing written to it.
    ///
    /// [`NotAccepted`]: none could be accepted to be read and written, and it is not known why.
    fn accept(&mut self) -> Result<(Self::In, Self::Out), NotAccepted>
        ensures came { MatchResult result
            (λ c. Brings (awaited self.old) (awaited self.new) (Self.In.coming c.0))
            (λ _. awaited self.new ≡ awaited self.old) }
        ensures fresh { IfOk result (λ c. (Self.In.Input.failed c.0 ≡ 0)
            × (Self.Out.Output.failed c.1 ≡ 0) × IsFresh (ended self.old) (Self.In.taken c.0)
            × IsFresh (ended self.old) (Self.Out.written c.1)) }
        ensures open { OnOk result (can_end self.new) }
        ensures ended { ended self.new ≡ ended self.old }
        ensures refused { IfErr result (λ _. refuses self.old self.new) };

    /// Ends a connection that was accepted. It may have a rest where it was answered, and no
    /// request was received: the peer may still be sending one.
    fn end(&mut self, input: Self::In, output: Self::Out, may_have_rest: bool)
        requires { can_end self.old }
        ensures awaited { awaited self.new ≡ awaited self.old }
        ensures ended { Ends (ended self.old) (ended self.new) (Self.In.taken input)
            (Self.Out.written output) (Self.In.Input.failed input)
            (Self.Out.Output.failed output) };
}
