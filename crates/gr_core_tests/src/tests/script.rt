//! A small language for tests: a desk that is asked in words and answers in words.
//!
//! A test is one text, a line for each step. So a step costs no proof: only the functions here are
//! proved, each once, and a test over them is a call.
//!
//! - `MOMENT COMMAND -> ANSWER` is a command and the answer to it. A moment is a number of seconds,
//!   `NEW_YEAR` or `LAST`, or one of these or nothing, for the new year, and `+` or `-` some
//!   seconds. The file `command.rt` reads commands, and `answer.rt` writes answers; a further
//!   command is an arm in each of these, and its tests are lines. The answer `accepted` stands for
//!   any that is no refusal.
//! - `repeat COUNT STEP` takes such a step so many times, and `each FIRST LAST STEP` takes it for
//!   each number from the first to the last, with the number in the place of `%`.
//! - `pairs RESOLUTION BALLOTS COUNTS` wants the preference counts of so many ballots: of each two
//!   places, the lower one first, `2:1` says that two ballots prefer the one, and one the other.
//!   `pairs RESOLUTION none` wants none, and `1-9` in the place of the resolution asks for each.
//! - `received RESOLUTION VOTES` wants so many accepted votes on the resolution.
//! - `reload` goes on with the desk that the rows of this one make.
//! - `outcome RESOLUTION ROUNDS PLACES` wants a count with so many rounds and this outcome set, and
//!   `outcome RESOLUTION none` wants none.
//! - `desk COUNT` goes on with another desk, on which so many developers came one by one, `d1` at
//!   the moment 1 and so on. Without it a text begins with a desk of nobody.
//! - `| LINE` is a line of a sheet, and `sheet KIND RESOLUTION` after such lines wants the sheet
//!   of this kind to have these and no others, or to be refused in these words. A space at the end
//!   of a line is written `{ *1}`.
//! - `totals ACCEPTED CLOCK DEVELOPERS` wants so many commands accepted, this clock and so many
//!   developers; `roll ACCEPTED CLOCK ROWS` wants this roll, in the words of an import.
//! - `# ..` says what the steps after it are about.
//!
//! In any line `{a*3}` stands for `aaa`, `{a^3}` for three lines of `a`, `{a%b#8-10}` for
//! `a8ba9ba10b`, and `{a%b~8-10}` for these in a line each. A line that is none of these fails.
ghost use Rattle.gr_core.specs.Machine.Plan.{IsPlanOn};

use super::answer::{
    accepted_text, developer_text, outcome_text, pairs_text, refused_text, roll_text, rows_text,
};
use super::command::{command_of, cut, halves, small};
use super::reload::reloaded;
use super::rows::desk_of;
use super::{LAST, NEW_YEAR, owned, same};
use gr_core::{Command, Desk, NoPlan, Plan, Refusal};
use gr_sheet::{Kind, NoSheet, sheet_text};
use std::alloc::Global;
use std::mem;
use std::process::Abort;

/// Takes the steps in turn, a line for each.
pub(super) fn follow(rt: &impl Abort, alloc: Global, steps: &str) {
    let mut script = Script::new(alloc);
    script.take_lines(rt, steps);
    script.end(rt);
}

/// Takes the steps of the texts in turn, on one desk.
pub(super) fn follow_all(rt: &impl Abort, alloc: Global, texts: &[&str]) {
    let mut script = Script::new(alloc);
    for steps in texts {
        script.take_lines(rt, steps);
    }
    script.end(rt);
}

/// Takes the steps in turn, on the desk of these rows.
pub(super) fn follow_over(rt: &impl Abort, alloc: Global, rows: &str, steps: &str) {
    let mut script = Script::over(alloc, desk_of(rt, alloc, rows));
    script.take_lines(rt, steps);
    script.end(rt);
}

/// The words, with what their braces stand for.
pub(super) fn expanded(rt: &impl Abort, alloc: Global, words: &str) -> String {
    let mut whole = String::new(alloc);
    push_expanded(rt, &mut whole, words);
    whole
}

fn push_expanded(rt: &impl Abort, whole: &mut String, words: &str) {
    let mut pieces = words.split('{');
    if let Some(before) = pieces.next() {
        push(rt, whole, before);
    }
    for piece in pieces {
        push_filled(rt, whole, piece);
    }
}

/// Adds the text.
pub(super) fn push(rt: &impl Abort, whole: &mut String, text: &str) {
    whole.push_str(text).expect(rt, "memory");
}

/// What stands after a brace, with `aaa` in the place of `a*3}`.
fn push_filled(rt: &impl Abort, whole: &mut String, piece: &str) {
    let (filling, rest) = cut(rt, piece, "}");
    if let Some((line, times)) = halves(filling, "^") {
        push_times(rt, whole, line, "\n", times);
    } else if let Some((line, range)) = halves(filling, "~") {
        push_numbered(rt, whole, line, "\n", range);
    } else if let Some((text, range)) = halves(filling, "#") {
        push_numbered(rt, whole, text, "", range);
    } else {
        let (text, times) = cut(rt, filling, "*");
        push_times(rt, whole, text, "", times);
    }
    push(rt, whole, rest);
}

/// The text and the end, so many times.
fn push_times(rt: &impl Abort, whole: &mut String, text: &str, end: &str, times: &str) {
    for _ in 0..count(rt, times) {
        push(rt, whole, text);
        push(rt, whole, end);
    }
}

/// The text and the end, with each number of the range in the place of the percent signs.
fn push_numbered(rt: &impl Abort, whole: &mut String, text: &str, end: &str, range: &str) {
    let (first, last) = cut(rt, range, "-");
    for index in number(rt, first)..=number(rt, last) {
        push_number(rt, whole, text, index);
        push(rt, whole, end);
    }
}

/// The text with the number in the place of each percent sign.
fn push_number(rt: &impl Abort, whole: &mut String, text: &str, index: u64) {
    let mut pieces = text.split('%');
    if let Some(before) = pieces.next() {
        push(rt, whole, before);
    }
    for piece in pieces {
        write!(whole, "{index}{piece}").expect(rt, "memory");
    }
}

/// The moment that the words say.
pub(super) fn moment_of(rt: &impl Abort, words: &str) -> u64 {
    if let Some((base, seconds)) = halves(words, "+") {
        named(rt, base).saturating_add(number(rt, seconds))
    } else if let Some((base, seconds)) = halves(words, "-") {
        named(rt, base).saturating_sub(number(rt, seconds))
    } else {
        named(rt, words)
    }
}

fn named(rt: &impl Abort, word: &str) -> u64 {
    match word {
        "" | "NEW_YEAR" => NEW_YEAR,
        "LAST" => LAST,
        _ => number(rt, word),
    }
}

/// The number that the decimal digits say.
pub(super) fn number(rt: &impl Abort, digits: &str) -> u64 {
    digits.parse().expect(rt, digits)
}

/// So many, as the decimal digits say.
pub(super) fn count(rt: &impl Abort, digits: &str) -> usize {
    digits.parse().expect(rt, digits)
}

/// How many commands were accepted until when, and how many developers there are.
pub(super) type Totals = (u64, u64, usize);

/// A desk, the memory of its rows, and the lines of the next sheet.
#[derive(Drop)]
pub(super) struct Script {
    alloc: Global,
    desk: Desk,
    sheet: String,
}

impl Script {
    /// A new desk.
    pub(super) fn new(alloc: Global) -> Script {
        Script::over(alloc, Desk::new(alloc))
    }

    /// This desk.
    pub(super) fn over(alloc: Global, desk: Desk) -> Script {
        Script {
            alloc,
            desk,
            sheet: String::new(alloc),
        }
    }

    /// Takes the steps in turn, a line for each.
    pub(super) fn take_lines(&mut self, rt: &impl Abort, lines: &str) {
        for line in lines.lines() {
            let step = expanded(rt, self.alloc, line.trim());
            self.do_step(rt, step.as_str());
        }
    }

    /// Wants no line of a sheet after which no sheet was asked for.
    fn end(&self, rt: &impl Abort) {
        same(rt, self.sheet.as_str(), "", "lines of no sheet");
    }

    fn do_step(&mut self, rt: &impl Abort, step: &str) {
        let (kind, rest) = halves(step, " ").unwrap_or((step, ""));
        match kind {
            "" | "#" => {}
            "desk" => self.begin(rt, rest),
            "repeat" => self.repeat(rt, rest),
            "each" => self.each(rt, rest),
            "reload" => self.reload(rt),
            "|" => self.expect_line(rt, rest),
            _ => self.look_or_ask(rt, step, kind, rest),
        }
    }

    /// Takes a step that looks at the desk, or one that asks a command.
    fn look_or_ask(&mut self, rt: &impl Abort, step: &str, kind: &str, rest: &str) {
        match kind {
            "pairs" => self.shows_pairs(rt, rest),
            "received" => self.shows_received(rt, rest),
            "outcome" => self.shows_outcome(rt, rest),
            "sheet" => self.shows_sheet(rt, rest),
            "totals" => self.shows_totals(rt, rest),
            "roll" => self.shows_roll(rt, rest),
            _ => self.ask(rt, step),
        }
    }

    /// Goes on with a desk on which so many developers came one by one, `d1` at the moment 1 and so
    /// on.
    fn begin(&mut self, rt: &impl Abort, developers: &str) {
        self.desk = Desk::new(self.alloc);
        for number in 1..=number(rt, developers) {
            self.add_developer(rt, number);
        }
    }

    fn add_developer(&mut self, rt: &impl Abort, number: u64) {
        let step = format!(in self.alloc;
            "{number} developer d{number}|Dora Dean|current -> accepted"
        );
        self.ask(rt, step.expect(rt, "memory").as_str());
    }

    fn repeat(&mut self, rt: &impl Abort, words: &str) {
        let (times, step) = cut(rt, words, " ");
        for _ in 0..number(rt, times) {
            self.ask(rt, step);
        }
    }

    fn each(&mut self, rt: &impl Abort, words: &str) {
        let (first, rest) = cut(rt, words, " ");
        let (last, step) = cut(rt, rest, " ");
        for index in number(rt, first)..=number(rt, last) {
            self.ask_for(rt, step, index);
        }
    }

    /// Asks the command of the step with the number in the place of each percent sign.
    fn ask_for(&mut self, rt: &impl Abort, step: &str, index: u64) {
        let mut filled = String::new(self.alloc);
        push_number(rt, &mut filled, step, index);
        self.ask(rt, filled.as_str());
    }

    /// Asks the command of the step, and wants its answer. A plan and a refused command have to
    /// leave the totals, and an accepted one to count itself and to move the clock to its moment.
    pub(super) fn ask(&mut self, rt: &impl Abort, step: &str) {
        let (at, rest) = cut(rt, step, " ");
        let (asked, answer) = cut(rt, rest, " -> ");
        let command = command_of(rt, self.alloc, asked);
        let found = self.answer_of(rt, moment_of(rt, at), &command, step);
        compare_answers(rt, found.as_str(), answer, step);
    }

    /// What the desk answers to the command, in words.
    pub(super) fn answer_of(
        &mut self,
        rt: &impl Abort,
        at: u64,
        command: &Command,
        step: &str,
    ) -> String {
        let before = self.totals();
        let planned = self.desk.plan(self.alloc, at, command);
        self.compare_totals(rt, before, step);
        match planned {
            Ok(plan) => {
                let answer = self.apply(rt, plan);
                let (accepted, _, _) = before;
                let (_, _, developers) = self.totals();
                self.compare_totals(rt, (accepted.saturating_add(1), at, developers), step);
                answer
            }
            Err(NoPlan::Refused(refusal)) => refused_text(rt, self.alloc, refusal),
            Err(NoPlan::Memory) => panic!(rt; "memory"),
        }
    }

    /// The answer of the plan, in words, once its rows are put.
    fn apply(&mut self, rt: &impl Abort, plan: Plan) -> String
        requires { IsPlanOn self.old.desk plan }
    {
        let rows = rows_text(rt, self.alloc, plan.changes());
        let desk = mem::replace(&mut self.desk, Desk::new(self.alloc));
        let (desk, reply) = desk.apply(plan).expect(rt, "memory");
        self.desk = desk;
        accepted_text(rt, self.alloc, reply, rows.as_str())
    }

    /// How many commands were accepted until when, and how many developers there are.
    pub(super) fn totals(&self) -> Totals {
        (
            self.desk.accepted(),
            self.desk.clock(),
            self.desk.developers().len(),
        )
    }

    /// Wants these totals.
    pub(super) fn compare_totals(&self, rt: &impl Abort, totals: Totals, step: &str) {
        assert_eq!(rt; self.totals(), totals, "{step}");
    }

    fn shows_totals(&self, rt: &impl Abort, words: &str) {
        let (accepted, rest) = cut(rt, words, " ");
        let (clock, developers) = cut(rt, rest, " ");
        let totals = (
            number(rt, accepted),
            moment_of(rt, clock),
            count(rt, developers),
        );
        self.compare_totals(rt, totals, words);
    }

    fn shows_roll(&self, rt: &impl Abort, words: &str) {
        let (accepted, rest) = cut(rt, words, " ");
        let (clock, roll) = halves(rest, " ").unwrap_or((rest, ""));
        let (_, _, developers) = self.totals();
        let totals = (number(rt, accepted), moment_of(rt, clock), developers);
        self.compare_totals(rt, totals, words);
        let shown = roll_text(rt, self.alloc, self.desk.developers());
        same(rt, shown.as_str(), roll, words);
    }

    /// Wants these preference counts of the resolution, or of each in the range.
    fn shows_pairs(&self, rt: &impl Abort, words: &str) {
        let (resolutions, pairs) = cut(rt, words, " ");
        let (first, last) = halves(resolutions, "-").unwrap_or((resolutions, resolutions));
        for resolution in small(rt, first)..=small(rt, last) {
            let shown = self.shown_pairs(rt, resolution);
            same(rt, shown.as_str(), pairs, words);
        }
    }

    /// The preference counts of the resolution, in words.
    fn shown_pairs(&self, rt: &impl Abort, resolution: u32) -> String {
        match self.desk.pairs(resolution) {
            Some(pairs) => pairs_text(rt, self.alloc, pairs),
            None => owned(rt, self.alloc, "none"),
        }
    }

    /// Wants so many accepted votes on the resolution.
    fn shows_received(&self, rt: &impl Abort, words: &str) {
        let (resolution, votes) = cut(rt, words, " ");
        let received = self.desk.received(small(rt, resolution));
        assert_eq!(rt; received, number(rt, votes), "{words}");
    }

    /// Goes on with the desk that the rows of this one make.
    fn reload(&mut self, rt: &impl Abort) {
        self.desk = reloaded(rt, self.alloc, &self.desk);
    }

    fn shows_outcome(&self, rt: &impl Abort, words: &str) {
        let (resolution, outcome) = cut(rt, words, " ");
        let shown = self.shown_outcome(rt, small(rt, resolution));
        same(rt, shown.as_str(), outcome, words);
    }

    /// The outcome of the resolution, in words.
    fn shown_outcome(&self, rt: &impl Abort, resolution: u32) -> String {
        match self.desk.count(resolution) {
            Some(count) => outcome_text(rt, self.alloc, &count),
            None => owned(rt, self.alloc, "none"),
        }
    }

    /// Adds a line to those that the next sheet has to have.
    fn expect_line(&mut self, rt: &impl Abort, line: &str) {
        write!(self.sheet, "{line}\n").expect(rt, "memory");
    }

    /// Wants the sheet to have the lines that stood before, or to be refused in these words.
    fn shows_sheet(&mut self, rt: &impl Abort, words: &str) {
        let (kind, resolution) = cut(rt, words, " ");
        let shown = self.shown_sheet(rt, kind_of(rt, kind), small(rt, resolution));
        same(rt, shown.as_str(), self.sheet.as_str(), words);
        self.sheet.clear();
    }

    /// The sheet, or the line of its refusal.
    fn shown_sheet(&self, rt: &impl Abort, kind: Kind, resolution: u32) -> String {
        match sheet_text(self.alloc, &self.desk, kind, resolution) {
            Ok(text) => text,
            Err(NoSheet::Refused(refusal)) => refusal_line(rt, self.alloc, refusal),
            Err(NoSheet::Memory) => panic!(rt; "memory"),
        }
    }

    /// Wants this row on the roll.
    pub(super) fn has(&self, rt: &impl Abort, row: &str) {
        let (login, _) = cut(rt, row, "|");
        let developer = self.desk.developers().get(login).expect(rt, row);
        let found = developer_text(rt, self.alloc, login, developer);
        same(rt, found.as_str(), row, "on the roll");
    }
}

/// Wants this answer, or one that is no refusal.
fn compare_answers(rt: &impl Abort, found: &str, answer: &str, step: &str) {
    if answer == "accepted" {
        assert!(rt; found.starts_with("ok "), "{step}: {found}");
    } else {
        same(rt, found, answer, step);
    }
}

fn refusal_line(rt: &impl Abort, alloc: Global, refusal: Refusal) -> String {
    let mut line = refused_text(rt, alloc, refusal);
    push(rt, &mut line, "\n");
    line
}

/// The kind of sheet that the word says.
fn kind_of(rt: &impl Abort, word: &str) -> Kind {
    match word {
        "roll" => Kind::Roll,
        "status" => Kind::Status,
        "tally" => Kind::Tally,
        "result" => Kind::Result,
        _ => panic!(rt; "no kind of sheet"),
    }
}
