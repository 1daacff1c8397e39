//! The limits of the desk, each once: where no paragraph is named, this project's profile.
//!
//! How many developers there may be, and the greatest majority ratio, are the counting's
//! [`MAX_DEVELOPERS`](gr_count::MAX_DEVELOPERS) and [`MAX_RATIO`](gr_count::MAX_RATIO).

use gr_count::MAX_OPTIONS;

/// The latest moment, 2099-12-31T23:59:59Z, in seconds since 1970-01-01T00:00:00Z.
pub const MAX_MOMENT: u64 = 4_102_444_799;

/// The most characters of a login.
pub const MAX_LOGIN_CHARACTERS: usize = 32;

/// The most characters of a developer's name.
pub const MAX_NAME_CHARACTERS: usize = 80;

/// The most characters of a choice's summary.
pub const MAX_SUMMARY_CHARACTERS: usize = 80;

/// The fewest characters of a token.
pub const MIN_TOKEN_CHARACTERS: usize = 8;

/// The most characters of a token.
pub const MAX_TOKEN_CHARACTERS: usize = 64;

/// The most bytes of a choice's text.
pub const MAX_TEXT_BYTES: usize = 20_000;

/// The most resolutions.
pub const MAX_RESOLUTIONS: usize = 200;

/// The most choices of one resolution: the default option is one more on its ballot.
pub const MAX_CHOICES: usize = MAX_OPTIONS - 1;

/// The most commands that a desk accepts.
pub const MAX_ACCEPTED: u64 = 1_000_000_000;

/// The version of the rows that this program keeps.
///
/// A new column makes a new version, since no older program would put it. Its table then has a new
/// name, so that each table has one text in all versions, and an interrupted migration leaves the
/// old table or the new one, and never half of a changed one. A limit that grows leaves the version
/// as it is: a program with lower limits calls what goes past them damaged, and takes all else. A
/// new version would keep it from every file.
pub const VERSION: u32 = 2;

/// The version before it, whose ballots do not say how often their voters voted.
pub const VERSION_1: u32 = 1;

/// The seconds of a day.
pub const DAY: u64 = 86_400;

/// The days of the shortest discussion (Constitution, A.1.1).
pub const MIN_DISCUSSION_DAYS: i32 = 14;

/// The days of the longest discussion (Constitution, A.1.1).
pub const MAX_DISCUSSION_DAYS: i32 = 21;

/// The most days by which these two are varied, up or down (Constitution, A.1.6).
pub const MAX_SHIFT_DAYS: i32 = 7;

/// The days from a change of the ballot to the end of the discussion (Constitution, A.1.4).
pub const CHANGE_DAYS: u64 = 7;

/// The least time from a variation to the end that it sets, in seconds (Constitution, A.1.6).
pub const MIN_NOTICE: u64 = 2 * DAY;

/// The days of the shortest voting period (Constitution, 4.2.3).
pub const MIN_VOTING_DAYS: i32 = 7;

/// The days of the longest voting period (Constitution, 4.2.3).
pub const MAX_VOTING_DAYS: i32 = 21;
