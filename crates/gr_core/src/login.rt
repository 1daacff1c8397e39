//! Logins: the names by which the roll knows developers.
ghost use Rattle.std.specs.Prelude.{◌≡◌, ◌↔◌, IsTrue};
ghost use Rattle.gr_core.specs.Parts.Login.{IsLogin, is_letter_or_digit, is_login_character};

use crate::limits::MAX_LOGIN_CHARACTERS;

/// Whether the text is a login: 1 to [`MAX_LOGIN_CHARACTERS`] of `a`..`z`, `0`..`9`, `.`, `_` and
/// `-`, of which the first is a letter or a digit.
pub(crate) fn is_login(text: &str) -> bool
    ensures { IsTrue result ↔ IsLogin text.now }
{
    let bytes = text.as_bytes();
    bytes.len() <= MAX_LOGIN_CHARACTERS
        && bytes.first().copied().is_some_and(is_letter_or_digit)
        && bytes.iter().all(|byte| is_login_character(*byte))
}

/// Whether a login may begin with the byte.
fn is_letter_or_digit(byte: u8) -> bool
    ensures { result ≡ is_letter_or_digit byte }
{
    byte.is_ascii_lowercase() || byte.is_ascii_digit()
}

/// Whether a login may have the byte.
fn is_login_character(byte: u8) -> bool
    ensures { result ≡ is_login_character byte }
{
    is_letter_or_digit(byte) || matches!(byte, b'.' | b'_' | b'-')
}
