//! What the commands put that take votes, close them and use the casting vote.
ghost use Rattle.std.specs.Prelude.{◌≡◌, ℕ, ◌<◌, List, Option, Some, IfOk, map, option_map};
ghost use Rattle.std.specs.FinMap as finite;
ghost use Rattle.gr_count.specs.Ballot.{mark_of};
ghost use Rattle.gr_count.specs.Shown.{marks_in};
ghost use Rattle.gr_core.specs.declared.limits.TheConstants.{MAX_ACCEPTED};
ghost use Rattle.gr_core.specs.declared.resolution.Resolution.TheVariants.{Voting, Closed};
ghost use Rattle.gr_core.specs.declared.counting.Counting.TheVariants.{Nothing, Replaces};
ghost use Rattle.gr_core.specs.declared.reply.Note.TheVariants.{Done};
ghost use Rattle.gr_core.specs.Parts.Receipt.{receipt_of};
ghost use Rattle.gr_core.specs.Parts.Ballot.{ballot_model};
ghost use Rattle.gr_core.specs.Parts.Ballot as ballot;
ghost use Rattle.gr_core.specs.Desks.State.{State};
ghost use Rattle.gr_core.specs.Machine.Act.{Vote, Close, Cast};
ghost use Rattle.gr_core.specs.Machine.Row.{row_of};
ghost use Rattle.gr_core.specs.Machine.Effect.{puts_by};

use crate::ballot::Ballot;
use crate::change::Change;
use crate::counting::Counting;
use crate::finding::cases;
use crate::memory::Memory;
use crate::plan::Effect;
use crate::receipt::Receipt;
use crate::reply::Note;
use crate::resolution::Resolution;
use std::alloc::Global;

/// The ballot of the developer on the resolution, with its receipt, in the place of the earlier
/// one.
pub(crate) fn vote(alloc: Global, found: &cases::Vote<'_>) -> Result<Effect, Memory>
    requires { ballot.received_of (option_map ballot_model found.now.earlier) < MAX_ACCEPTED }
    ensures rows { (s : State) (at : ℕ) (text : List ℕ)
        → map mark_of text ≡ marks_in found.now.ranks
        → option_map ballot_model found.now.earlier
        ≡ finite.get s.ballots (found.now.resolution, found.now.login.now)
        → IfOk result (λ own. map row_of own.changes.items
        ≡ puts_by s at (Vote found.now.resolution found.now.login.now text found.now.token.now)) }
    ensures note { IfOk result (λ own. own.note ≡ Note.Receipt
        (receipt_of found.now.resolution found.now.login.now found.now.token.now)) }
    ensures counts { IfOk result (λ own. own.counting ≡ Replaces found.now.resolution
        (option_map (λ ballot. ballot.ranks) found.now.earlier) found.now.ranks) }
{
    let (resolution, login, token) = (found.resolution, found.login, found.token);
    let receipt = Receipt::of(alloc, resolution, login, token)?;
    let received = earlier_received(found.earlier) + 1;
    let mut changes = Vec::new(alloc);
    changes.push(Change::Ballot {
        resolution,
        login: String::from_str(alloc, login)?,
        ballot: Ballot {
            ranks: found.ranks,
            receipt,
            received,
        },
    })?;
    Ok(Effect {
        changes,
        note: Note::Receipt(receipt),
        counting: Counting::Replaces {
            resolution,
            earlier: found.earlier.map(|ballot| ballot.ranks),
            ranks: found.ranks,
        },
    })
}

/// How many votes were accepted of the developer whose ballot stood.
fn earlier_received(stood: Option<Ballot>) -> u32
    ensures { result ≡ ballot.received_of (option_map ballot_model stood) }
{
    match stood {
        Some(ballot) => ballot.received,
        None => 0,
    }
}

/// The resolution with its vote over (Constitution, 4.2.3).
pub(crate) fn close(alloc: Global, found: &cases::Close) -> Result<Effect, Memory>
    ensures rows { (s : State) (at : ℕ)
        → finite.get s.resolutions found.now.number
        ≡ Some (Voting found.now.discussion found.now.poll)
        → IfOk result (λ own. map row_of own.changes.items
        ≡ puts_by s at (Close found.now.number)) }
    ensures note { IfOk result (λ own. own.note ≡ Done) }
    ensures counts { IfOk result (λ own. own.counting ≡ Nothing) }
{
    let closed = Resolution::Closed(found.discussion, found.poll, None);
    Effect::altered(alloc, found.number, closed)
}

/// The resolution with this place chosen by the casting vote (Constitution, A.5.8).
pub(crate) fn cast(alloc: Global, found: &cases::Cast) -> Result<Effect, Memory>
    ensures rows { (s : State) (at : ℕ) (chosen : Option ℕ)
        → finite.get s.resolutions found.now.number
        ≡ Some (Closed found.now.discussion found.now.poll chosen)
        → IfOk result (λ own. map row_of own.changes.items
        ≡ puts_by s at (Cast found.now.number found.now.place)) }
    ensures note { IfOk result (λ own. own.note ≡ Done) }
    ensures counts { IfOk result (λ own. own.counting ≡ Nothing) }
{
    let decided = Resolution::Closed(found.discussion, found.poll, Some(found.place));
    Effect::altered(alloc, found.number, decided)
}
