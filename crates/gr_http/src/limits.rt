//! How large a request may be.
ghost use Rattle.gr_http.specs.Limits.{LimitsAreThoseOfTheFormats};

/// The most bytes of a request's head, the empty lines before it and the one that ends it counted.
pub const MAX_HEAD_BYTES: usize = 8_192;

/// The most fields of a request's head.
pub const MAX_HEAD_FIELDS: usize = 32;

/// The most bytes of a request's body.
pub const MAX_BODY_BYTES: usize = 1_048_576;

/// The most digits of a number in a path or a field.
pub const MAX_NUMBER_DIGITS: usize = 9;

/// The constants of this file are the numbers of the formats.
pub fn limits_are_those_of_the_formats()
    ensures { LimitsAreThoseOfTheFormats }
{}
