//! The tables of a desk, with no say on which rows may stand together.
ghost use Rattle.std.specs.Prelude.{◌≡◌, IfOk, OnOk, OnErr, map};
ghost use Rattle.gr_core.specs.Desks.State.{new_state};
ghost use Rattle.gr_core.specs.Machine.Row.{row_of, put, put_all};
ghost use Rattle.gr_core.specs.InMemory.Tables.{state_of};

use crate::ballots::Ballots;
use crate::change::Change;
use crate::choices::Choices;
use crate::header::Header;
use crate::memory::Memory;
use crate::resolutions::Resolutions;
use crate::roll::Roll;
use crate::sponsors::Sponsors;
use std::alloc::Global;
use std::marker::Model;

/// The header, the roll, the resolutions, the choices with their sponsors, and the ballots. A
/// contract sees their `State`.
#[derive(Drop)]
pub(crate) struct Tables {
    header: Header,
    roll: Roll,
    resolutions: Resolutions,
    choices: Choices,
    sponsors: Sponsors,
    ballots: Ballots,
}

impl Model for Tables {
    ghost use Rattle.std.specs.FinMap as finite;
    ghost use Rattle.std.specs.Coded.{codes};
    ghost use Rattle.gr_core.specs.Desks.State.{State};

    ghost Value = { State };

    ghost coded = { Prim.hlevel (codes, finite.code) };

    ghost use Rattle.gr_core.specs.InMemory.Tables.{state_of};

    ghost view = { λ tables.
        state_of tables.header tables.roll tables.resolutions tables.choices tables.sponsors
        tables.ballots };
}

impl Tables {
    /// The tables of a new desk. Takes no memory.
    pub(crate) fn new(alloc: Global) -> Tables
        ensures { result ≡ new_state }
    {
        Tables {
            header: Header::NEW,
            roll: Roll::new(alloc),
            resolutions: Resolutions::new(alloc),
            choices: Choices::new(alloc),
            sponsors: Sponsors::new(alloc),
            ballots: Ballots::new(alloc),
        }
    }

    /// The tables with this header and these rows.
    pub(crate) fn of(
        header: Header,
        roll: Roll,
        resolutions: Resolutions,
        choices: Choices,
        sponsors: Sponsors,
        ballots: Ballots,
    ) -> Tables
        ensures { result ≡ state_of header roll resolutions choices sponsors ballots }
    {
        Tables {
            header,
            roll,
            resolutions,
            choices,
            sponsors,
            ballots,
        }
    }

    /// The header.
    pub(crate) fn header(&self) -> Header
        ensures { result ≡ self.now.header }
    {
        self.header
    }

    /// The roll.
    pub(crate) fn roll(&self) -> &Roll
        ensures { result.now ≡ self.now.developers }
    {
        &self.roll
    }

    /// The resolutions.
    pub(crate) fn resolutions(&self) -> &Resolutions
        ensures { result.now ≡ self.now.resolutions }
    {
        &self.resolutions
    }

    /// The choices.
    pub(crate) fn choices(&self) -> &Choices
        ensures { result.now ≡ self.now.choices }
    {
        &self.choices
    }

    /// The sponsors of the choices.
    pub(crate) fn sponsors(&self) -> &Sponsors
        ensures { result.now ≡ self.now.sponsors }
    {
        &self.sponsors
    }

    /// The ballots.
    pub(crate) fn ballots(&self) -> &Ballots
        ensures { result.now ≡ self.now.ballots }
    {
        &self.ballots
    }

    /// The ballots. What else there is goes.
    pub(crate) fn into_ballots(self) -> Ballots
        ensures { result ≡ self.ballots }
    {
        let Tables { ballots, .. } = self;
        ballots
    }

    /// The tables with the rows put in turn.
    pub(crate) fn with_all(self, changes: Vec<Change>) -> Result<Tables, Memory>
        ensures { IfOk result (λ tables. tables ≡ put_all self (map row_of changes.items)) }
    {
        let mut tables = self;
        for change in changes {
            tables.put(change)?;
        }
        Ok(tables)
    }

    /// Puts one row, in the place of the row under its key. Where memory fails, the tables stay as
    /// they were.
    pub(crate) fn put(&mut self, change: Change) -> Result<(), Memory>
        ensures ok { OnOk result (self.new ≡ put self.old (row_of change)) }
        ensures err { OnErr result (self.new ≡ self.old) }
    {
        match change {
            Change::Header(header) => self.header = header,
            Change::Developer { login, developer } => {
                self.roll.put(login, developer)?;
            }
            Change::Resolution { number, resolution } => {
                self.resolutions.put(number, resolution)?;
            }
            Change::Choice { key, choice } => {
                self.choices.put(key, choice)?;
            }
            Change::Sponsor {
                choice,
                login,
                sponsorship,
            } => {
                self.sponsors.put(choice, login, sponsorship)?;
            }
            Change::Ballot {
                resolution,
                login,
                ballot,
            } => {
                self.ballots.put(resolution, login, ballot)?;
            }
        }
        Ok(())
    }
}
