//! Plans: what a command would do.
ghost use Rattle.std.specs.Prelude.{◌≡◌, [], ◌∷◌, ◌++◌, IfOk, IfErr, OnOk, map, option_map, option_to_list};
ghost use Rattle.gr_core.specs.declared.plan.NoPlan.TheVariants.{Refused, Memory};
ghost use Rattle.gr_core.specs.Desks.Valid.{IsValid};
ghost use Rattle.gr_core.specs.InMemory.KeptPairs.{KeepsPairs};
ghost use Rattle.gr_core.specs.Machine.Act.{act_of};
ghost use Rattle.gr_core.specs.Machine.Finding.{act_in, IsFoundOn};
ghost use Rattle.gr_core.specs.Machine.Refusal.{IsAccepted};
ghost use Rattle.gr_core.specs.declared.reply.Note.TheVariants.{Done};
ghost use Rattle.gr_core.specs.Machine.Row.{ResolutionOf, row_of};
ghost use Rattle.gr_core.specs.Machine.Effect.{puts_by, note_of};
ghost use Rattle.gr_core.specs.Machine.Counting.{Counts};
ghost use Rattle.gr_core.specs.declared.counting.Counting.TheVariants.{Nothing};
ghost use Rattle.gr_core.specs.Machine.Plan.{changes_of, IsPlanFor, HasRowsOf, HasCountingOf, IsNoPlanFor};

mod choices;
mod discussion;
mod roll_changes;
mod rows;
mod sponsors;
mod voting;

use crate::change::Change;
use crate::check::check;
use crate::command::Command;
use crate::counting::Counting;
use crate::finding::Finding;
use crate::kept_pairs::KeptPairs;
use crate::memory::Memory;
use crate::refusal::Refusal;
use crate::reply::{Note, Reply};
use crate::resolution::Resolution;
use crate::tables::Tables;
use choices::{add_choice, amend, propose};
use discussion::{call, vary};
use roll_changes::{import_roll, set_developer};
use sponsors::{adopt, sponsor, unsponsor, withdraw};
use std::alloc::{AllocFailed, Global};
use std::error::Error;
use std::fmt;
use voting::{cast, close, vote};

/// What a command would do: the rows that it puts, the reply to it, and what it counts.
/// [`Desk::plan`](crate::Desk::plan) makes one, and [`Desk::apply`](crate::Desk::apply) carries it
/// out.
#[derive(Debug, Drop)]
pub struct Plan {
    pub(crate) changes: Vec<Change>,
    pub(crate) reply: Reply,
    pub(crate) counting: Counting,
}

impl Plan {
    /// The rows that the command puts, the first of them first. Takes no memory.
    pub fn changes(&self) -> &[Change]
        ensures { result.now ≡ changes_of self.now }
    {
        self.changes.as_slice()
    }

    /// What the command would do to the tables at this moment. Its own rows come first, the header
    /// last.
    ///
    /// Apart from a count of the roll, at bookkeeping and at a call, this walks at most over the
    /// choices of the command's resolution and the sponsors of its choice. It never walks over
    /// ballots or over rows of another resolution.
    pub(crate) fn of(
        alloc: Global,
        tables: &Tables,
        kept: &KeptPairs,
        at: u64,
        command: &Command,
    ) -> Result<Plan, NoPlan>
        requires valid { IsValid tables.now }
        requires kept { KeepsPairs tables.now kept.now }
        ensures planned { IfOk result (IsPlanFor tables.now at (act_of command.now)) }
        ensures rows { IfOk result (HasRowsOf tables.now at (act_of command.now)) }
        ensures counts { IfOk result (HasCountingOf tables.now at (act_of command.now)) }
        ensures none { IfErr result (IsNoPlanFor tables.now at (act_of command.now)) }
    {
        let finding = check(tables, kept, at, command)?;
        let Effect {
            mut changes,
            note,
            counting,
        } = Effect::of(alloc, tables, at, &finding)?;
        let header = tables.header().next(at);
        changes.push(Change::Header(header))?;
        let reply = Reply {
            accepted: header.accepted,
            note,
        };
        Ok(Plan {
            changes,
            reply,
            counting,
        })
    }
}

/// What a command puts, the header aside, what is noted of it, and what it counts.
#[derive(Drop)]
struct Effect {
    changes: Vec<Change>,
    note: Note,
    counting: Counting,
}

impl Effect {
    /// What the command puts by its family, with what was found of it.
    fn of(alloc: Global, tables: &Tables, at: u64, finding: &Finding) -> Result<Effect, Memory>
        requires valid { IsValid tables.now }
        requires accepted { IsAccepted tables.now at (act_in finding.now) }
        requires found { IsFoundOn tables.now at finding.now }
        ensures rows { IfOk result (λ own. map row_of own.changes.items
            ≡ puts_by tables.now at (act_in finding.now)) }
        ensures note { IfOk result (λ own. own.note
            ≡ note_of tables.now at (act_in finding.now)) }
        ensures counts { IfOk result (λ own.
            Counts tables.now at (act_in finding.now) own.counting) }
    {
        match finding {
            Finding::SetDeveloper(found) => set_developer(alloc, found),
            Finding::ImportRoll(rows) => import_roll(alloc, tables.roll(), *rows),
            Finding::Propose(found) => propose(alloc, tables, at, found),
            Finding::AddChoice(found) => add_choice(alloc, tables, at, found),
            Finding::Sponsor(found) => sponsor(alloc, tables, at, found),
            Finding::Unsponsor(found) => unsponsor(alloc, tables, at, found),
            Finding::Withdraw(found) => withdraw(alloc, tables, at, found),
            Finding::Adopt(found) => adopt(alloc, tables, at, found),
            Finding::Amend(found) => amend(alloc, at, found),
            Finding::Vary(found) => vary(alloc, found),
            Finding::Call(found) => call(alloc, tables, at, found),
            Finding::Vote(found) => vote(alloc, found),
            Finding::Close(found) => close(alloc, found),
            Finding::Cast(found) => cast(alloc, found),
        }
    }

    /// The row of the resolution, which is all that is done.
    fn altered(alloc: Global, number: u32, resolution: Resolution) -> Result<Effect, Memory>
        ensures rows { IfOk result (λ own. map row_of own.changes.items
            ≡ ResolutionOf number resolution ∷ []) }
        ensures note { IfOk result (λ own. own.note ≡ Done) }
        ensures counts { IfOk result (λ own. own.counting ≡ Nothing) }
    {
        let row = Some(Change::Resolution { number, resolution });
        Effect::rows(alloc, row, None, None, Note::Done)
    }

    /// These rows, as far as there are any, and this note. Nothing is counted.
    fn rows(
        alloc: Global,
        resolution: Option<Change>,
        choice: Option<Change>,
        sponsor: Option<Change>,
        note: Note,
    ) -> Result<Effect, Memory>
        ensures rows { IfOk result (λ own. map row_of own.changes.items
            ≡ option_to_list (option_map row_of resolution)
            ++ option_to_list (option_map row_of choice)
            ++ option_to_list (option_map row_of sponsor)) }
        ensures note { IfOk result (λ own. own.note ≡ note) }
        ensures counts { IfOk result (λ own. own.counting ≡ Nothing) }
    {
        let mut changes = Vec::new(alloc);
        add(&mut changes, resolution)?;
        add(&mut changes, choice)?;
        add(&mut changes, sponsor)?;
        Ok(Effect {
            changes,
            note,
            counting: Counting::Nothing,
        })
    }
}

/// One change more, if there is one.
fn add(changes: &mut Vec<Change>, change: Option<Change>) -> Result<(), Memory>
    ensures { OnOk result (map row_of changes.new.items
        ≡ map row_of changes.old.items ++ option_to_list (option_map row_of change)) }
{
    if let Some(change) = change {
        changes.push(change)?;
    }
    Ok(())
}

/// Why there is no plan. The desk is as it was.
#[derive(Clone, Copy, Debug, PartialEq, Eq)]
pub enum NoPlan {
    /// The desk does not accept the command.
    Refused(Refusal),

    /// The command is acceptable, and the memory for the plan was refused.
    Memory,
}

impl fmt::Display for NoPlan {
    ghost use Rattle.std.specs.Prelude.{Some};
    ghost use Rattle.gr_core.specs.Machine.Plan.{reason};

    ghost output = { λ no_plan. Some (reason no_plan) };

    fn fmt<W: fmt::Write>(&self, f: &mut fmt::Formatter<W>) -> fmt::Result {
        match self {
            NoPlan::Refused(refusal) => write!(f, "{refusal}"),
            NoPlan::Memory => write!(f, "{Memory}"),
        }
    }
}

impl Error for NoPlan {}

impl From<Refusal> for NoPlan {
    ghost from_gives = { λ refusal e. e ≡ Refused refusal };

    fn from(refusal: Refusal) -> NoPlan {
        NoPlan::Refused(refusal)
    }
}

impl From<Memory> for NoPlan {
    ghost from_gives = { λ _ e. e ≡ Memory };

    fn from(_memory: Memory) -> NoPlan {
        NoPlan::Memory
    }
}

impl<T: Drop> From<AllocFailed<T>> for NoPlan {
    ghost from_gives = { λ _ e. e ≡ Memory };

    fn from(_error: AllocFailed<T>) -> NoPlan {
        NoPlan::Memory
    }
}
