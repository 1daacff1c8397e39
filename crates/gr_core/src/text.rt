//! Texts that people read: those of one line, and the texts of choices.
ghost use Rattle.std.specs.Prelude.{◌≡◌, ◌↔◌, IsTrue, length};
ghost use Rattle.std.specs.Str.{chars};
ghost use Rattle.std.specs.List.{AllPass};
ghost use Rattle.gr_core.specs.Parts.Text.{IsLine, IsName, IsPrintable, IsSummary, IsText, is_text_character};

use crate::limits::{MAX_NAME_CHARACTERS, MAX_SUMMARY_CHARACTERS, MAX_TEXT_BYTES};

/// Whether a developer may be called so.
pub(crate) fn is_name(text: &str) -> bool
    ensures { IsTrue result ↔ IsName text.now }
{
    is_line(text, MAX_NAME_CHARACTERS)
}

/// Whether a choice may have the summary.
pub(crate) fn is_summary(text: &str) -> bool
    ensures { IsTrue result ↔ IsSummary text.now }
{
    is_line(text, MAX_SUMMARY_CHARACTERS)
}

/// Whether the text is a line of 1 to `limit` characters and no control character.
fn is_line(text: &str, limit: usize) -> bool
    ensures { IsTrue result ↔ IsLine limit text.now }
{
    (1..=limit).contains(&character_count(text)) && is_printable(text)
}

/// How many characters the text has.
fn character_count(text: &str) -> usize
    ensures { result ≡ length (chars text.now) }
{
    text.chars().count()
}

/// Whether no character of the text is a control character.
fn is_printable(text: &str) -> bool
    ensures { IsTrue result ↔ IsPrintable text.now }
{
    text.chars().all(|character| !character.is_control())
}

/// Whether the text is one that a choice may have: 1 to [`MAX_TEXT_BYTES`] bytes, and no control
/// character but tabs, line feeds and carriage returns.
pub(crate) fn is_text(text: &str) -> bool
    ensures { IsTrue result ↔ IsText text.now }
{
    (1..=MAX_TEXT_BYTES).contains(&text.len()) && has_text_characters(text)
}

/// Whether a choice's text may have each character of this one.
fn has_text_characters(text: &str) -> bool
    ensures { IsTrue result ↔ AllPass is_text_character (chars text.now) }
{
    text.chars().all(is_text_character)
}

/// Whether a choice's text may have the character.
fn is_text_character(character: char) -> bool
    ensures { result ≡ is_text_character character }
{
    matches!(character, '\t' | '\n' | '\r') || !character.is_control()
}
