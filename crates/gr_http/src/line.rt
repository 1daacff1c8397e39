//! Lines: what a command is answered by, and what is wrong with a request. They are here alone, but
//! for the line of a fault (`src/response.rt`): `import` prints the body of the response that a
//! request would get.
//!
//! A response to a command must be written without memory. So a line stands in a text of fixed
//! size, in the value itself (`arrayvec`), and `itoa` makes the digits of numbers on the stack. A
//! command then needs no room before it, and its line can be had alone. The contract of such a text
//! says that a piece is added where there is room; that of `write!` into it does not say that it
//! succeeds. Numbers in sheets go by `format!`.
ghost use Rattle.std.specs.Prelude.{◌≡◌, ◌≤◌, ◌∷◌, [], length, codes, decimal};
ghost use Rattle.std.specs.List.{concat};
ghost use Rattle.gr_http.specs.Line.{note_words};
ghost use Rattle.gr_http.specs.Line.{problem_line as line_of_problem};
ghost use Rattle.gr_http.specs.Line.{reply_line as line_of_reply, refusal_line as line_of_refusal};
ghost use Rattle.gr_http.specs.Problem.{words_of, detail_of};

use crate::pieces::text_of;
use crate::problem::Problem;
use arrayvec::ArrayString;
use gr_core::{Imported, Note, Receipt, Refusal, Reply};
use itoa::Buffer;

/// The most bytes of a line.
pub const MAX_LINE_BYTES: usize = 256;

/// A line, ended by a line feed.
pub type Line = ArrayString<MAX_LINE_BYTES>;

/// The line of what is wrong with a request. Takes no memory.
pub fn problem_line(problem: Problem) -> Line
    ensures { result.bytes ≡ line_of_problem problem }
{
    let mut digits = Buffer::new();
    line_with(problem, problem.words(), problem.detail(&mut digits))
}

/// The line of what is wrong with a request, in these words, with the field or the record that it
/// names.
fn line_with(problem: Problem, words: &str, detail: &str) -> Line
    requires words { words.now ≡ words_of problem }
    requires short { length detail.now ≤ 20 }
    requires detail { detail.now ≡ detail_of problem }
    ensures { result.bytes ≡ line_of_problem problem }
{
    text_of(&[words, detail, "\n"])
}

/// The line of the reply to an accepted command. Takes no memory.
pub fn reply_line(reply: Reply) -> Line
    ensures { result.bytes ≡ line_of_reply reply }
{
    let mut accepted = Buffer::new();
    let accepted = accepted.format(reply.accepted);
    match reply.note {
        Note::Done => text_of(&["ok ", accepted, "\n"]),
        Note::Roll(rows) => roll_line(accepted, rows),
        Note::Resolution(number) => number_line(accepted, " resolution ", number),
        Note::Choice(number) => number_line(accepted, " choice ", number),
        Note::Called { places, until } => call_line(accepted, places, until),
        Note::Cancelled => text_of(&["ok ", accepted, " cancelled\n"]),
        Note::Receipt(receipt) => receipt_line(accepted, receipt),
    }
}

/// The reply to a command that made what has this number, with the count of accepted commands.
fn number_line(accepted: &str, words: &str, number: u32) -> Line
    requires short { length accepted.now ≤ 20 }
    requires words { length words.now ≤ 20 }
    ensures { result.bytes ≡ concat (codes "ok " ∷ accepted.now
        ∷ concat (words.now ∷ decimal number ∷ []) ∷ codes "\n" ∷ []) }
{
    let mut digits = Buffer::new();
    text_of(&["ok ", accepted, words, digits.format(number), "\n"])
}

/// The reply to a call for a vote, with the count of accepted commands.
fn call_line(accepted: &str, places: usize, until: u64) -> Line
    requires short { length accepted.now ≤ 20 }
    ensures { result.bytes ≡ concat (codes "ok " ∷ accepted.now
        ∷ note_words (Note.Called places until) ∷ codes "\n" ∷ []) }
{
    let mut digits = Buffer::new();
    let mut moment = Buffer::new();
    text_of(&[
        "ok ",
        accepted,
        " places ",
        digits.format(places),
        " until ",
        moment.format(until),
        "\n",
    ])
}

/// The reply to a vote, with the count of accepted commands.
fn receipt_line(accepted: &str, receipt: Receipt) -> Line
    requires short { length accepted.now ≤ 20 }
    ensures { result.bytes ≡ concat (codes "ok " ∷ accepted.now
        ∷ note_words (Note.Receipt receipt) ∷ codes "\n" ∷ []) }
{
    let digits = receipt.digits();
    text_of(&["ok ", accepted, " receipt ", digits.as_str(), "\n"])
}

/// The reply to an import of a roll, with the count of accepted commands.
fn roll_line(accepted: &str, rows: Imported) -> Line
    requires short { length accepted.now ≤ 20 }
    ensures { result.bytes
        ≡ concat (codes "ok " ∷ accepted.now ∷ note_words (Note.Roll rows) ∷ codes "\n" ∷ []) }
{
    let mut added = Buffer::new();
    let mut changed = Buffer::new();
    let mut same = Buffer::new();
    text_of(&[
        "ok ",
        accepted,
        " added ",
        added.format(rows.added),
        " changed ",
        changed.format(rows.changed),
        " same ",
        same.format(rows.same),
        "\n",
    ])
}

/// The line of the refusal of a command or of a sheet. Takes no memory.
pub fn refusal_line(refusal: Refusal) -> Line
    ensures { result.bytes ≡ line_of_refusal refusal }
{
    let mut number = Buffer::new();
    let number = number.format(refusal.number());
    match refusal {
        Refusal::BadRoll { line } => {
            let mut digits = Buffer::new();
            let line = digits.format(line);
            text_of(&["refused ", number, " ", refusal.name(), " ", line, "\n"])
        }
        _ => text_of(&["refused ", number, " ", refusal.name(), "\n"]),
    }
}
