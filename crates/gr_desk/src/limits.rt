//! The numbers that the words of a command line are held to, and how long a connection may take.
ghost use Rattle.gr_desk.specs.Limits.{LimitsAreThoseOfTheProgram};

/// The least number of a port. By 0 the system would choose one.
pub const MIN_PORT: u64 = 1;

/// The greatest number of a port.
pub const MAX_PORT: u64 = 65_535;

/// The fewest connections that one call serves.
pub const MIN_COUNT: u64 = 1;

/// The most connections that one call serves.
pub const MAX_COUNT: u64 = 1_000_000;

/// The latest moment that can be given, in seconds since 1970-01-01T00:00:00Z. The desk itself
/// takes moments up to [`MAX_MOMENT`](gr_core::MAX_MOMENT).
pub const MAX_AT: u64 = 9_999_999_999;

/// The least number of a resolution.
pub const MIN_NUMBER: u64 = 1;

/// The greatest number of a resolution.
pub const MAX_NUMBER: u64 = 999_999_999;

/// How many seconds from its accept on a connection has for its whole request.
pub const REQUEST_SECONDS: u64 = 5;

/// How many seconds the system has to take the whole response.
pub const RESPONSE_SECONDS: u64 = 5;

/// How many seconds at most the desk reads on where it answered and had received no request.
pub const DRAIN_SECONDS: u64 = 1;

/// The constants of this file are the numbers of docs/formats.md.
pub fn limits_are_those_of_the_program()
    ensures { LimitsAreThoseOfTheProgram }
{}
