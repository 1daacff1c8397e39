//! The limits of a vote and the alphabet of ranks, each named once. They are this project's
//! profile, but for the cap on required sponsors.

/// The fewest options of one vote: one choice and the default option.
pub const MIN_OPTIONS: usize = 2;

/// The most options of one vote, the default one counted.
pub const MAX_OPTIONS: usize = 35;

/// The most developers, and so the most who are current in one vote.
pub const MAX_DEVELOPERS: u32 = 2_000;

/// The most ballots of one vote: one of each developer.
pub const MAX_BALLOTS: u32 = MAX_DEVELOPERS;

/// The greatest majority ratio of an option.
pub const MAX_RATIO: u32 = 9;

/// The most sponsors that can be required, however many developers there are (Constitution, 4.2.7).
pub const MAX_REQUIRED_SPONSORS: usize = 5;

/// The character of the most preferred rank: of those that are digits, the first.
pub const FIRST_DIGIT: u8 = b'1';

/// The character of the last rank that is a digit.
pub const LAST_DIGIT: u8 = b'9';

/// The character of the rank after the digits: of those that are letters, the first.
pub const FIRST_LETTER: u8 = b'a';

/// The character of the least preferred rank.
pub const LAST_LETTER: u8 = b'z';

/// How many ranks are digits.
pub const DIGIT_RANKS: u8 = LAST_DIGIT - FIRST_DIGIT + 1;

/// How many ranks there are: the digits, and after them the letters.
pub const RANKS: u8 = DIGIT_RANKS + (LAST_LETTER - FIRST_LETTER + 1);

/// The character of an option that is not ranked.
pub const UNRANKED: u8 = b'-';
