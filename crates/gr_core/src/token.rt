//! Tokens: the words by which voters know their own receipts.
ghost use Rattle.std.specs.Prelude.{◌↔◌, IsTrue};
ghost use Rattle.gr_core.specs.Parts.Token.{IsToken};

use crate::limits::{MAX_TOKEN_CHARACTERS, MIN_TOKEN_CHARACTERS};

/// Whether the text is a token: [`MIN_TOKEN_CHARACTERS`] to [`MAX_TOKEN_CHARACTERS`] of `A`..`Z`,
/// `a`..`z` and `0`..`9`.
pub(crate) fn is_token(text: &str) -> bool
    ensures { IsTrue result ↔ IsToken text.now }
{
    let bytes = text.as_bytes();
    (MIN_TOKEN_CHARACTERS..=MAX_TOKEN_CHARACTERS).contains(&bytes.len())
        && bytes.iter().all(u8::is_ascii_alphanumeric)
}
