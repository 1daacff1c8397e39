//! Rows of the table `resolution`.
ghost use Rattle.std.specs.Prelude.{◌≡◌, ◌≢◌, ℕ, pos, Ok, IfErr, IfOk, IsErr, unwrap_or};
ghost use Rattle.gr_core.specs.declared.discussion.Discussion.{Discussion};
ghost use Rattle.gr_core.specs.declared.resolution.Poll.{Poll};
ghost use Rattle.gr_core.specs.declared.resolution.Resolution.{Resolution};
ghost use Rattle.gr_core.specs.declared.resolution.Resolution.TheVariants.{Draft};
ghost use Rattle.gr_core.specs.declared.rows.NoRow.TheVariants.{TooGreat};
ghost use Rattle.gr_core.specs.Columns.Fields.{resolution_fields, FitsDiscussion, FitsPoll, FitsStage, FitsResolution};
ghost use Rattle.gr_core.specs.Columns.Stored.{fields_of_resolution};

use super::number::{moment, place, read_moment, read_place, read_small, read_whole, whole};
use super::{NoRow, ResolutionRow};
use crate::discussion::Discussion;
use crate::resolution::{Poll, Resolution};
use crate::unfit::Damaged;

/// The numbers of the column `stage`.
const DRAFT: i64 = 0;

const DISCUSSING: i64 = 1;

const VOTING: i64 = 2;

const CLOSED: i64 = 3;

const CANCELLED: i64 = 4;

impl ResolutionRow {
    /// The row of the resolution with this number. [`NoRow::TooGreat`] alone: a moment is too great
    /// for a column.
    pub fn of(number: u32, resolution: Resolution) -> Result<ResolutionRow, NoRow>
        ensures ok { IfOk result (λ row. fields_of_resolution row
            ≡ resolution_fields (number, resolution)) }
        ensures err { IfErr result (λ no_row. (no_row ≡ TooGreat)
            × (¬ (FitsResolution number resolution))) }
    {
        let row = ResolutionRow::draft(number);
        match resolution {
            Resolution::Draft => Ok(row),
            Resolution::Discussing(discussion) => row.discussed(DISCUSSING, discussion),
            Resolution::Voting(discussion, poll) => {
                row.discussed(VOTING, discussion)?.polled(poll, None)
            }
            Resolution::Closed(discussion, poll, chosen) => {
                row.discussed(CLOSED, discussion)?.polled(poll, chosen)
            }
            Resolution::Cancelled(discussion) => row.discussed(CANCELLED, discussion),
        }
    }

    /// The row of a draft.
    fn draft(number: u32) -> ResolutionRow
        ensures { fields_of_resolution result ≡ resolution_fields (number, Draft) }
    {
        ResolutionRow {
            number: i64::from(number),
            stage: DRAFT,
            start: 0,
            changed: 0,
            shift: 0,
            called: 0,
            days: 0,
            devs: 0,
            chosen: 0,
        }
    }

    /// The row with this stage and this discussion.
    fn discussed(self, stage: i64, discussion: Discussion) -> Result<ResolutionRow, NoRow>
        ensures ok { IfOk result (λ row. row ≡ record self {
          stage = stage;
          start = pos discussion.start;
          changed = pos (unwrap_or discussion.changed 0);
          shift = discussion.shift;
        }) }
        ensures err { IfErr result (λ no_row. (no_row ≡ TooGreat)
            × (¬ (FitsDiscussion discussion))) }
    {
        Ok(ResolutionRow {
            stage,
            start: whole(discussion.start)?,
            changed: moment(discussion.changed)?,
            shift: i64::from(discussion.shift),
            ..self
        })
    }

    /// The row with this poll, and the place that was chosen.
    fn polled(self, poll: Poll, chosen: Option<u32>) -> Result<ResolutionRow, NoRow>
        ensures ok { IfOk result (λ row. row ≡ record self {
          called = pos poll.called;
          days = pos poll.days;
          devs = pos poll.developers;
          chosen = pos (unwrap_or chosen 0);
        }) }
        ensures err { IfErr result (λ no_row. (no_row ≡ TooGreat) × (¬ (FitsPoll poll))) }
    {
        Ok(ResolutionRow {
            called: whole(poll.called)?,
            days: i64::from(poll.days),
            devs: i64::from(poll.developers),
            chosen: place(chosen),
            ..self
        })
    }

    /// The number and the resolution that the row says. It is read from the columns that its stage
    /// has. Then the row that it makes must be the one that was read.
    pub(crate) fn resolution(self) -> Result<(u32, Resolution), Damaged>
        ensures ok { IfOk result (λ entry. (resolution_fields entry ≡ fields_of_resolution self)
            × FitsResolution entry.0 entry.1) }
        ensures err { IsErr result → (number : ℕ) (resolution : Resolution)
            → FitsResolution number resolution
            → resolution_fields (number, resolution) ≢ fields_of_resolution self }
    {
        let number = read_small(self.number)?;
        let resolution = self.by_stage()?;
        // So what the stage has no use for is 0.
        match ResolutionRow::of(number, resolution) {
            Ok(row) if row == self => Ok((number, resolution)),
            _ => Err(Damaged),
        }
    }

    /// The resolution that the columns of its stage say, whatever the others do.
    fn by_stage(self) -> Result<Resolution, Damaged>
        ensures fits { IfOk result FitsStage }
        ensures ok { (number : ℕ) (resolution : Resolution) → FitsStage resolution
            → resolution_fields (number, resolution) ≡ fields_of_resolution self
            → result ≡ Ok resolution }
    {
        match self.stage {
            DRAFT => Ok(Resolution::Draft),
            DISCUSSING => Ok(Resolution::Discussing(self.discussion()?)),
            VOTING => Ok(Resolution::Voting(self.discussion()?, self.poll()?)),
            CLOSED => Ok(Resolution::Closed(
                self.discussion()?,
                self.poll()?,
                read_place(self.chosen)?,
            )),
            CANCELLED => Ok(Resolution::Cancelled(self.discussion()?)),
            _ => Err(Damaged),
        }
    }

    /// The discussion that the row says.
    fn discussion(self) -> Result<Discussion, Damaged>
        ensures fits { IfOk result FitsDiscussion }
        ensures ok { (discussion : Discussion) → FitsDiscussion discussion
            → self.start ≡ pos discussion.start
            → self.changed ≡ pos (unwrap_or discussion.changed 0)
            → self.shift ≡ discussion.shift → result ≡ Ok discussion }
    {
        Ok(Discussion {
            start: read_whole(self.start)?,
            changed: read_moment(self.changed)?,
            shift: i32::try_from(self.shift).map_err(|_| Damaged)?,
        })
    }

    /// The poll that the row says.
    fn poll(self) -> Result<Poll, Damaged>
        ensures fits { IfOk result FitsPoll }
        ensures ok { (poll : Poll) → FitsPoll poll → self.called ≡ pos poll.called
            → self.days ≡ pos poll.days → self.devs ≡ pos poll.developers → result ≡ Ok poll }
    {
        Ok(Poll {
            called: read_whole(self.called)?,
            days: read_small(self.days)?,
            developers: read_small(self.devs)?,
        })
    }
}
