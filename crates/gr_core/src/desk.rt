//! The desk: what the Secretary keeps.
ghost use Rattle.std.specs.Prelude.{◌≡◌, ◌<◌, ◌≤◌, ◌^◌, ◌↔◌, IfOk, IfErr, Err, IfSome, IsSome, IsSomeAnd, IsTrue, length, map, option_and_then};
ghost use Rattle.std.specs.List.{All};
ghost use Rattle.std.specs.FinMap as finite;
ghost use Rattle.std.specs.BTreeMap.{btree_map_len};
ghost use Rattle.gr_core.specs.declared.limits.TheConstants.{MAX_ACCEPTED, MAX_CHOICES, MAX_MOMENT};
ghost use Rattle.gr_count.specs.declared.limits.TheConstants.{MAX_BALLOTS, MAX_DEVELOPERS};
ghost use Rattle.gr_count.specs.Shown.{options_of_pairs};
ghost use Rattle.gr_count.specs.PairwiseCount.{IsPairwiseCountOf};
ghost use Rattle.gr_core.specs.Desks.State.{State, new_state};
ghost use Rattle.gr_core.specs.Desks.Version1.{IsValid1};
ghost use Rattle.gr_core.specs.Parts.Developer.{current_count};
ghost use Rattle.gr_core.specs.Parts.Resolution.{is_closed, poll_of};
ghost use Rattle.gr_core.specs.Parts.Choice.{choices_of};
ghost use Rattle.gr_core.specs.Parts.Sponsor.{sponsors_of_choice};
ghost use Rattle.gr_core.specs.InMemory.Sponsors.{sponsor_entry};
ghost use Rattle.gr_core.specs.Parts.Ballot.{ballots_of, vote_of, votes_received};
ghost use Rattle.gr_core.specs.InMemory.Ballots.{ballot_entry};
ghost use Rattle.gr_core.specs.Desks.Outcome.{place_count, election_at, IsCountOf};
ghost use Rattle.gr_core.specs.Desks.Valid.{IsValid, IsChoiceIn};
ghost use Rattle.gr_core.specs.Columns.Stored.{stored, HasRows};
ghost use Rattle.gr_core.specs.Columns.Rows1.{stored1, HasRows1, IsLiftedOf};
ghost use Rattle.gr_core.specs.Machine.Act.{act_of};
ghost use Rattle.gr_core.specs.Machine.Refusal.{Refuses};
ghost use Rattle.gr_core.specs.Machine.Row.{put_all};
ghost use Rattle.gr_core.specs.InMemory.Table.{entries_in};
ghost use Rattle.gr_core.specs.InMemory.Tables.{developer_entry, choice_entry};
ghost use Rattle.gr_core.specs.Machine.Plan.{rows_of, reply_of, IsPlanOn, IsPlanFor, HasRowsOf, HasCountingOf, IsNoPlanFor};

use crate::ballot::Ballot;
use crate::ballots::Ballots;
use crate::change::Change;
use crate::choice::{Choice, ChoiceKey};
use crate::command::Command;
use crate::developer::Developer;
use crate::election::count_of;
use crate::intake::Intake;
use crate::kept_pairs::KeptPairs;
use crate::memory::Memory;
use crate::plan::{NoPlan, Plan};
use crate::refusal::Refusal;
use crate::reply::Reply;
use crate::resolution::Resolution;
use crate::rows::{Rows, Rows1};
use crate::sponsor::Sponsorship;
use crate::tables::Tables;
use crate::unfit::Unfit;
use crate::valid::{check_chosen, check_tables};
use gr_count::{Count, Pairs};
use std::alloc::Global;
use std::collections::BTreeMap;
use std::collections::btree_map::Range;
use std::marker::Model;

/// The roll, the resolutions with their choices, sponsors and ballots, and how many commands were
/// accepted until when. A contract sees its `State`, which is valid. Beside the ballots the desk
/// keeps the preference counts of each resolution on which votes are taken or were, and how many
/// votes were accepted on it. No row has them. An invariant (`KeepsPairs`) says that they are those
/// of the ballots, so no caller can see others. A casting vote and a result then walk over no
/// ballots. The rounds of a count are found anew where they are asked for: at a casting vote, and
/// by [`Desk::count`].
#[derive(Drop)]
pub struct Desk {
    tables: Tables,
    kept: KeptPairs,
}

impl Model for Desk {
    ghost use Rattle.std.specs.FinMap as finite;
    ghost use Rattle.std.specs.Coded.{codes};
    ghost use Rattle.gr_core.specs.Desks.State.{State};

    ghost Value = { State };

    ghost coded = { Prim.hlevel (codes, finite.code) };

    ghost use Rattle.gr_core.specs.Desks.Valid.{IsValid};
    ghost use Rattle.gr_core.specs.InMemory.KeptPairs.{KeepsPairs};

    ghost view = { λ desk. desk.tables };

    ghost invariant = { λ desk. IsValid desk.tables × KeepsPairs desk.tables desk.kept };
}

impl Desk {
    /// A desk with no rows, that has accepted nothing. Takes no memory; `alloc` is for the rows to
    /// come.
    pub fn new(alloc: Global) -> Desk
        ensures new { result ≡ new_state }
        ensures valid { IsValid result }
    {
        Desk {
            tables: Tables::new(alloc),
            kept: KeptPairs::new(alloc),
        }
    }

    /// The desk with these rows, each table's in any order.
    ///
    /// [`Unfit::Damaged`]: no valid desk has these rows: a rule of a valid desk is broken, or two
    /// rows of a table have one key. [`Unfit::Memory`]: the memory for the desk was refused.
    pub fn from_rows(alloc: Global, rows: Rows) -> Result<Desk, Unfit>
        ensures ok { IfOk result (λ desk. HasRows desk (stored rows)) }
        ensures damaged { result ≡ Err Unfit.Damaged → (s : State) → IsValid s
            → ¬ (HasRows s (stored rows)) }
        ensures valid { IfOk result IsValid }
    {
        let mut intake = Intake::new(alloc);
        intake.take_all(rows)?;
        intake.finish()
    }

    /// What becomes in this version of the desk of version 1 with these rows, each table's in any
    /// order: the same desk, where each voter is said to have voted once on a resolution.
    ///
    /// [`Unfit::Damaged`]: no valid desk of version 1 had these rows: a rule of one is broken, or
    /// two rows of a table have one key. [`Unfit::Memory`]: the memory for the desk was refused.
    pub fn from_rows_1(alloc: Global, rows: Rows1) -> Result<Desk, Unfit>
        ensures ok { IfOk result (IsLiftedOf (stored1 rows)) }
        ensures damaged { result ≡ Err Unfit.Damaged → (s : State) → IsValid1 s
            → ¬ (HasRows1 s (stored1 rows)) }
        ensures valid { IfOk result IsValid }
    {
        let mut intake = Intake::new(alloc);
        intake.take_all_1(rows)?;
        intake.finish_1()
    }

    /// The desk with these tables. Counts the ballots of each vote.
    ///
    /// [`Unfit::Damaged`]: a rule of a valid desk is broken. [`Unfit::Memory`]: the memory for the
    /// preference counts was refused.
    pub(crate) fn of(alloc: Global, tables: Tables) -> Result<Desk, Unfit>
        ensures ok { IfOk result (λ desk. desk ≡ tables) }
        ensures damaged { result ≡ Err Unfit.Damaged → ¬ (IsValid tables) }
        ensures valid { IfOk result IsValid }
    {
        check_tables(&tables)?;
        let kept = KeptPairs::of(alloc, &tables)?;
        check_chosen(&tables, &kept)?;
        Ok(Desk { tables, kept })
    }

    /// How many commands were accepted, at most [`MAX_ACCEPTED`](crate::MAX_ACCEPTED). Takes no
    /// memory.
    pub fn accepted(&self) -> u64
        ensures accepted { result ≡ self.now.header.accepted }
        ensures bound { result ≤ MAX_ACCEPTED }
        ensures valid { IsValid self.now }
    {
        self.tables.header().accepted
    }

    /// The moment of the last accepted command, in seconds since 1970-01-01T00:00:00Z and at most
    /// [`MAX_MOMENT`](crate::MAX_MOMENT), or 0 before the first. Takes no memory.
    pub fn clock(&self) -> u64
        ensures clock { result ≡ self.now.header.clock }
        ensures bound { result ≤ MAX_MOMENT }
        ensures valid { IsValid self.now }
    {
        self.tables.header().clock
    }

    /// The roll: the developers by login, in the order of the logins' bytes, at most
    /// [`MAX_DEVELOPERS`](gr_count::MAX_DEVELOPERS). Takes no memory.
    pub fn developers(&self) -> &BTreeMap<String, Developer>
        ensures roll { map developer_entry result.now.entries ≡ finite.entries self.now.developers }
        ensures bound { btree_map_len result.now ≤ MAX_DEVELOPERS }
        ensures valid { IsValid self.now }
    {
        self.tables.roll().developers()
    }

    /// How many developers on the roll are current. Walks over the roll. Takes no memory.
    pub fn current_count(&self) -> usize
        ensures count { result ≡ current_count self.now.developers }
        ensures valid { IsValid self.now }
    {
        self.tables.roll().current_count()
    }

    /// What the desk keeps of the resolution with this number. `None` where there is no such
    /// resolution. Takes no memory.
    pub fn resolution(&self, number: u32) -> Option<Resolution>
        ensures row { result ≡ finite.get self.now.resolutions number }
        ensures valid { IsValid self.now }
    {
        self.tables.resolutions().get(number)
    }

    /// The choices of the resolution with this number, in the order of their own numbers, at most
    /// [`MAX_CHOICES`](crate::MAX_CHOICES). Takes no memory.
    pub fn choices(&self, resolution: u32) -> Range<'_, ChoiceKey, Choice>
        ensures rows { map choice_entry result ≡ choices_of self.now.choices resolution }
        ensures bound { length (choices_of self.now.choices resolution) ≤ MAX_CHOICES }
        ensures fits { length result < 2 ^ 63 }
        ensures each { All (IsChoiceIn self.now resolution)
            (choices_of self.now.choices resolution) }
        ensures valid { IsValid self.now }
    {
        self.tables.choices().of_resolution(resolution)
    }

    /// How many places the ballot of the resolution with this number has: one for each choice that
    /// has a place, and one for the default option (Constitution, A.3.2). Takes no memory.
    pub fn place_count(&self, resolution: u32) -> usize
        ensures count { result ≡ place_count self.now.choices resolution }
        ensures valid { IsValid self.now }
    {
        self.tables.choices().place_count(resolution)
    }

    /// The sponsors of the choice by login, in the order of the logins' bytes, those who withdrew
    /// among them. Nobody has sponsored it where it is `None`, or empty. Takes no memory.
    pub fn sponsors(&self, choice: ChoiceKey) -> Option<&BTreeMap<String, Sponsorship>>
        ensures rows { map (sponsor_entry choice) (entries_in result)
            ≡ sponsors_of_choice self.now.sponsors choice }
        ensures valid { IsValid self.now }
    {
        self.tables.sponsors().of_choice(choice)
    }

    /// The ballots on the resolution with this number by login, in the order of the logins' bytes,
    /// at most [`MAX_BALLOTS`](gr_count::MAX_BALLOTS). Nobody has voted on it where it is `None`,
    /// or empty. Takes no memory.
    pub fn ballots(&self, resolution: u32) -> Option<&BTreeMap<String, Ballot>>
        ensures rows { map (ballot_entry resolution) (entries_in result)
            ≡ ballots_of self.now.ballots resolution }
        ensures bound { length (entries_in result) ≤ MAX_BALLOTS }
        ensures valid { IsValid self.now }
    {
        self.tables.ballots().on_resolution(resolution)
    }

    /// The ballots of the desk. What else it holds goes. Takes no memory.
    pub fn into_ballots(self) -> Ballots
        ensures ballots { result ≡ self.ballots }
        ensures valid { IsValid self }
    {
        let Desk { tables, .. } = self;
        tables.into_ballots()
    }

    /// The preference counts of the ballots on the resolution with this number (Constitution,
    /// A.5.3.1): options from 0, the default option last. `None` where there is no such resolution,
    /// or no vote was called for. They are kept, and no ballot is looked at. Takes no memory.
    pub fn pairs(&self, resolution: u32) -> Option<&Pairs>
        ensures called { let row = finite.get self.now.resolutions resolution in
            IsSome result ↔ IsSome (option_and_then poll_of row) }
        ensures options { IfSome result (λ pairs.
            options_of_pairs pairs.now ≡ place_count self.now.choices resolution) }
        ensures tally { IfSome result (λ pairs.
            IsPairwiseCountOf pairs.now (vote_of self.now.ballots resolution)) }
        ensures valid { IsValid self.now }
    {
        self.kept.pairs(resolution)
    }

    /// How many votes were accepted on the resolution with this number: 0 where there is no such
    /// resolution, or no vote was called for, and at most [`MAX_ACCEPTED`](crate::MAX_ACCEPTED).
    /// The number is kept, and no ballot is looked at. Takes no memory.
    pub fn received(&self, resolution: u32) -> u64
        ensures received { result ≡ votes_received self.now.ballots resolution }
        ensures valid { IsValid self.now }
    {
        self.kept.received(resolution)
    }

    /// What the counting finds of the ballots on the resolution with this number (Constitution,
    /// A.5): options from 0, the default option last. `None` where there is no such resolution, or
    /// its vote is not closed. Looks at the preference counts that are kept, and at no ballot.
    /// Takes no memory.
    pub fn count(&self, resolution: u32) -> Option<Count>
        ensures closed { let row = finite.get self.now.resolutions resolution in
            IsSome result ↔ IsSomeAnd row (λ row. IsTrue (is_closed row)) }
        ensures count { let row = finite.get self.now.resolutions resolution in
            let places = place_count self.now.choices resolution in
            IfSome result (λ count. IsSomeAnd (option_and_then poll_of row) (λ poll.
            IsCountOf (election_at self.now resolution poll) places count)) }
        ensures valid { IsValid self.now }
    {
        match self.tables.resolutions().get(resolution)? {
            Resolution::Closed(_, poll, _) => {
                Some(count_of(&self.tables, &self.kept, resolution, poll))
            }
            _ => None,
        }
    }

    /// What the command would do at this moment, in seconds since 1970-01-01T00:00:00Z. The desk
    /// stays as it is.
    ///
    /// The plan's rows, put, make the state after the command, and its reply is the one to it. The
    /// rows stand table by table, one for each key that the command puts, those of an import in its
    /// order, and the header last.
    ///
    /// There is no plan where a refusal applies: that of least number is answered, which takes no
    /// memory. [`NoPlan::Memory`]: no refusal applies, and the memory for the plan was refused.
    pub fn plan(&self, alloc: Global, at: u64, command: &Command) -> Result<Plan, NoPlan>
        ensures planned { IfOk result (IsPlanFor self.now at (act_of command.now)) }
        ensures rows { IfOk result (HasRowsOf self.now at (act_of command.now)) }
        ensures counts { IfOk result (HasCountingOf self.now at (act_of command.now)) }
        ensures none { IfErr result (IsNoPlanFor self.now at (act_of command.now)) }
        ensures refused { (refusal : Refusal) → Refuses self.now at (act_of command.now) refusal
            → result ≡ Err (NoPlan.Refused refusal) }
        ensures valid { IsValid self.now }
        ensures next { IfOk result (λ plan. IsValid (put_all self.now (rows_of plan))) }
    {
        Plan::of(alloc, &self.tables, &self.kept, at, command)
    }

    /// The desk with the plan's rows put, and the plan's reply. The plan was made on a desk with
    /// this state, for some act at some moment. No allocator is handed over, since the rows of the
    /// plan and the map of the desk have theirs.
    ///
    /// [`Memory`]: the memory for a row was refused, or for the preference counts of a vote that
    /// begins, and the desk is gone.
    pub fn apply(self, plan: Plan) -> Result<(Desk, Reply), Memory>
        requires { IsPlanOn self plan }
        ensures desk { IfOk result (λ done. done.0 ≡ put_all self (rows_of plan)) }
        ensures reply { IfOk result (λ done. done.1 ≡ reply_of plan) }
        ensures valid { IfOk result (λ done. IsValid done.0) }
    {
        let Plan {
            changes,
            reply,
            counting,
        } = plan;
        let Desk { tables, mut kept } = self;
        let tables = tables.with_all(changes)?;
        kept.follow(&tables, counting)?;
        Ok((Desk { tables, kept }, reply))
    }
}
