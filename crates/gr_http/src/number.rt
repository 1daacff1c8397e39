//! The numbers that a path or a field writes.
ghost use Rattle.std.specs.Prelude.{◌≡◌, ◌<◌, ◌^◌, IfSome, length, decimal};
ghost use Rattle.gr_http.specs.Number.{number_said, signed_number_said};

use crate::limits::MAX_NUMBER_DIGITS;

/// The number that a text writes: `0`, or a digit from 1 to 9 and others after it, at most
/// [`MAX_NUMBER_DIGITS`] in all.
/// Takes no memory.
pub fn number_said(text: &str) -> Option<u32>
    ensures value { result ≡ number_said text.now }
    ensures bound { IfSome result (λ n. n < 10 ^ MAX_NUMBER_DIGITS) }
{
    let number = text.parse().ok()?;
    // `parse` also takes a plus sign, and zeros before other digits. A text with either is longer
    // than the digits of its number.
    let is_plain = text.len() == digit_count(number) && text.len() <= MAX_NUMBER_DIGITS;
    is_plain.then_some(number)
}

/// The number that a text writes as above, or a minus sign and such a number. Takes no memory.
pub fn signed_number_said(text: &str) -> Option<i32>
    ensures { result ≡ signed_number_said text.now }
{
    match text.strip_prefix('-') {
        Some(digits) => Some(-i32::try_from(number_said(digits)?).ok()?),
        None => i32::try_from(number_said(text)?).ok(),
    }
}

/// How many digits a number is written with.
fn digit_count(number: u32) -> usize
    ensures { result ≡ length (decimal number) }
{
    match number.checked_ilog10() {
        Some(power) => power as usize + 1,
        None => 1,
    }
}
