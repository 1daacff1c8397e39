//! Moments as dates: what a clock in UTC shows, as text.
ghost use Rattle.std.specs.Prelude.{◌≡◌, pos, Some};
ghost use Rattle.jiff_core.specs.Date.{epoch_day};
ghost use Rattle.jiff_core.specs.Time.{time_seconds};
ghost use Rattle.gr_sheet.specs.Date.{IsShown, days_at, seconds_at, moment_text};

use gr_core::{DAY, MAX_MOMENT, MAX_VOTING_DAYS};
use jiff_core::civil::{Date, DateTime, Time};
use std::fmt;

/// The last moment that a sheet shows, 2100-01-21T23:59:59Z: no discussion and no vote that a
/// command begins ends later.
pub const LAST_SHOWN: u64 = MAX_MOMENT + MAX_VOTING_DAYS as u64 * DAY;

/// A second in nanoseconds.
const SECOND: i128 = 1_000_000_000;

/// A moment, which prints as what a clock in UTC shows then: `2026-01-31T23:59:59Z`.
#[derive(Clone, Copy, Debug)]
pub struct Moment {
    /// Since 1970-01-01T00:00:00Z, up to [`LAST_SHOWN`].
    pub seconds: u64,
    pub ghost shown: { IsShown seconds },
}

impl Moment {
    /// What a clock in UTC shows. `jiff_core` is the part of `jiff` that knows the calendar and
    /// needs no memory: a clock in UTC needs no time zone.
    fn datetime(self) -> DateTime
        ensures date { epoch_day result.date ≡ pos (days_at self.seconds) }
        ensures time { time_seconds result.time ≡ seconds_at self.seconds }
    {
        DateTime::from_nanosecond_in_range(self.seconds as i128 * SECOND)
    }
}

impl fmt::Display for Moment {
    ghost output = { λ moment. Some (moment_text moment.seconds) };

    fn fmt<W: fmt::Write>(&self, f: &mut fmt::Formatter<W>) -> fmt::Result {
        let DateTime { date, time } = self.datetime();
        let Date { year, month, day } = date;
        let Time {
            hour,
            minute,
            second,
            ..
        } = time;
        write!(
            f,
            "{year:04}-{month:02}-{day:02}T{hour:02}:{minute:02}:{second:02}Z"
        )
    }
}
