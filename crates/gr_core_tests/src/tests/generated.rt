//! Some thousand generated commands and imports, beside a plain list of the rows that the roll is
//! to have, which is searched from its first one.
use super::command::{cut, halves};
use super::script::{Script, expanded, push};
use super::{NEW_YEAR, owned};
use gr_core::Imported;
use std::alloc::Global;
use std::process::Abort;

/// Each kind of character that a login may have, more of them than it may have.
const LONGER_THAN_A_LOGIN: &str = "-abc.def_ghi-jkl.mno_pqr-stu.vwx_yz";

/// Seconds from the clock, the answer to a login and that to a malformed one, or `ok`, and a name
/// and a status: letters of one to four bytes, and moments round a clock that runs on for years.
const NAMES: &str = "\
    +86400|ok|refused 3 BadLogin|a|current
    -1|refused 2 ClockBack|refused 2 ClockBack|a|current
    +86400|ok|refused 3 BadLogin|{\u{e9}*80}|retired
    -1|refused 2 ClockBack|refused 2 ClockBack|{\u{e9}*81}|retired
    +0|refused 4 BadText|refused 3 BadLogin|{\u{e9}*81}|current
    +0|ok|refused 3 BadLogin|{\u{1f600}*80}|current
    +4102444798|refused 1 BadMoment|refused 1 BadMoment|{\u{1f600}*79}|retired
    +0|refused 4 BadText|refused 3 BadLogin|\u{1f}|retired
    +86400|refused 4 BadText|refused 3 BadLogin||current
    +0|ok|refused 3 BadLogin|aaa|retired";

/// A hundred and twenty logins of each length with each name.
#[test]
fn generated_commands_are_answered_as_by_a_plain_list(rt: HostRuntime) {
    let mut twins = Twins::new(rt.alloc());
    twins.take_logins(&rt);
}

/// Imports of a hundred rows each, of which some are new, some bring another name or another
/// standing, and the others say what is known.
#[test]
fn generated_imports_are_counted_as_by_a_plain_list(rt: HostRuntime) {
    let mut twins = Twins::new(rt.alloc());
    twins.take_imports(&rt);
}

/// A login of this length, or of one more than a login may have.
fn generated_login(rt: &impl Abort, alloc: Global, number: u32, length: usize) -> String {
    let longer = format!(in alloc; "{number}{LONGER_THAN_A_LOGIN}").expect(rt, "memory");
    let login = longer.as_str().get(..length).expect(rt, "a length");
    owned(rt, alloc, login)
}

/// A hundred rows, whose names and standings are other ones with each turn, with semicolons between
/// them.
fn generated_rows(rt: &impl Abort, alloc: Global, first: u32, turn: u32) -> String {
    let mut rows = String::new(alloc);
    for index in 0..100u32 {
        let number = first.saturating_add(index);
        let login = generated_login(rt, alloc, number, 4 + index as usize % 29);
        push_row(rt, &mut rows, login.as_str(), number.saturating_add(turn));
    }
    rows
}

fn push_row(rt: &impl Abort, rows: &mut String, login: &str, turned: u32) {
    let status = if turned % 4 == 0 {
        "retired"
    } else {
        "current"
    };
    write!(rows, "{login}|Dora {}|{status};", turned / 3).expect(rt, "memory");
}

/// A desk, and the rows `LOGIN|NAME|STATUS` that its roll is to have, in the order in which the
/// developers came.
#[derive(Drop)]
struct Twins {
    alloc: Global,
    script: Script,
    rows: Vec<String>,
}

impl Twins {
    fn new(alloc: Global) -> Twins {
        Twins {
            alloc,
            script: Script::new(alloc),
            rows: Vec::new(alloc),
        }
    }

    fn take_logins(&mut self, rt: &impl Abort) {
        for number in 0..120 {
            self.take_lengths(rt, number);
        }
        self.compare_rolls(rt);
    }

    /// Gives both the logins of this number, and two that are none.
    fn take_lengths(&mut self, rt: &impl Abort, number: u32) {
        for (length, is_login) in [
            (1, true),
            (2, true),
            (3, true),
            (31, true),
            (32, true),
            (33, false),
            (0, false),
        ] {
            let login = generated_login(rt, self.alloc, number, length);
            self.take_names(rt, login.as_str(), is_login);
        }
    }

    /// Gives both the login with each name.
    fn take_names(&mut self, rt: &impl Abort, login: &str, is_login: bool) {
        for name in NAMES.lines() {
            let name = expanded(rt, self.alloc, name.trim());
            self.take_name(rt, login, is_login, name.as_str());
        }
    }

    fn take_name(&mut self, rt: &impl Abort, login: &str, is_login: bool, name: &str) {
        let (ahead, rest) = cut(rt, name, "|");
        let (to_login, rest) = cut(rt, rest, "|");
        let (to_malformed, rest) = cut(rt, rest, "|");
        let row = format!(in self.alloc; "{login}|{rest}").expect(rt, "memory");
        if !is_login {
            self.ask(rt, ahead, row.as_str(), to_malformed);
        } else if to_login == "ok" {
            self.accept(rt, ahead, row.as_str(), login);
        } else {
            self.ask(rt, ahead, row.as_str(), to_login);
        }
    }

    /// Puts the row of the login in the list, and wants the desk to put it.
    fn accept(&mut self, rt: &impl Abort, ahead: &str, row: &str, login: &str) {
        let _ = put(rt, self.alloc, &mut self.rows, row);
        let number = self.next_number();
        let answer = format!(in self.alloc; "ok {number}: {login} header").expect(rt, "memory");
        self.ask(rt, ahead, row, answer.as_str());
    }

    /// Gives the desk a developer's row, so many seconds from its clock, and wants this answer.
    fn ask(&mut self, rt: &impl Abort, ahead: &str, row: &str, answer: &str) {
        let (_, clock, _) = self.script.totals();
        let clock = clock.max(NEW_YEAR);
        let step = format!(in self.alloc; "{clock}{ahead} developer {row} -> {answer}");
        self.ask_step(rt, step.expect(rt, "memory").as_str());
    }

    /// Asks the command of the step, and wants as many developers on the roll as the list has rows.
    fn ask_step(&mut self, rt: &impl Abort, step: &str) {
        self.script.ask(rt, step);
        let (accepted, clock, _) = self.script.totals();
        let totals = (accepted, clock, self.rows.len());
        self.script.compare_totals(rt, totals, step);
    }

    /// Which number the next accepted command has.
    fn next_number(&self) -> u64 {
        let (accepted, _, _) = self.script.totals();
        accepted.saturating_add(1)
    }

    fn take_imports(&mut self, rt: &impl Abort) {
        for (first, turn) in [
            (0, 0),
            (0, 0),
            (40, 0),
            (40, 1),
            (20, 1),
            (90, 4),
            (200, 2),
            (0, 2),
            (150, 7),
        ] {
            self.take_import(rt, first, turn);
            self.compare_rolls(rt);
        }
    }

    /// Gives both an import of these rows.
    fn take_import(&mut self, rt: &impl Abort, first: u32, turn: u32) {
        let rows = generated_rows(rt, self.alloc, first, turn);
        let rows = rows.as_str().trim_end_matches(';');
        let noted = put_each(rt, self.alloc, &mut self.rows, rows);
        let number = self.next_number();
        let step = format!(in self.alloc; "NEW_YEAR import {rows} -> ok {number}{noted}");
        self.ask_step(rt, step.expect(rt, "memory").as_str());
    }

    /// Whether the desk has each row of the list. Each command compares how many there are.
    fn compare_rolls(&self, rt: &impl Abort) {
        for row in &self.rows {
            self.script.has(rt, row.as_str());
        }
    }
}

/// Puts the rows in turn, and says what they did and which they were, in the words of answers.
fn put_each(rt: &impl Abort, alloc: Global, known: &mut Vec<String>, rows: &str) -> String {
    let mut keys = String::new(alloc);
    let mut counts = Imported {
        added: 0,
        changed: 0,
        same: 0,
    };
    for row in rows.split(';') {
        let done = put(rt, alloc, known, row);
        note(rt, &mut keys, &mut counts, row, done);
    }
    put_text(rt, alloc, keys.as_str(), counts)
}

/// Puts the row in the place of that of its login, or after the others, and says what it did.
fn put(rt: &impl Abort, alloc: Global, known: &mut Vec<String>, row: &str) -> &'static str {
    let (login, _) = cut(rt, row, "|");
    for other in known.iter_mut() {
        if is_of(other.as_str(), login) {
            return replace(rt, other, row);
        }
    }
    known.push(owned(rt, alloc, row)).expect(rt, "memory");
    "added"
}

/// Whether the row is that of the login.
fn is_of(row: &str, login: &str) -> bool {
    match halves(row, "|") {
        Some((other, _)) => other == login,
        None => false,
    }
}

fn replace(rt: &impl Abort, known: &mut String, row: &str) -> &'static str {
    if known.as_str() == row {
        return "same";
    }
    known.clear();
    push(rt, known, row);
    "changed"
}

/// Counts what the row did, and adds its login to the keys, if it was put.
fn note(rt: &impl Abort, keys: &mut String, counts: &mut Imported, row: &str, done: &str) {
    match done {
        "added" => counts.added = counts.added.saturating_add(1),
        "changed" => counts.changed = counts.changed.saturating_add(1),
        _ => {
            counts.same = counts.same.saturating_add(1);
            return;
        }
    }
    let (login, _) = cut(rt, row, "|");
    push(rt, keys, login);
    push(rt, keys, " ");
}

/// What rows did, and these keys and the header's, or how many those are where they are more than
/// ten.
fn put_text(rt: &impl Abort, alloc: Global, keys: &str, counts: Imported) -> String {
    let Imported {
        added,
        changed,
        same,
    } = counts;
    let put = added.saturating_add(changed).saturating_add(1);
    let text = if put > 10 {
        format!(in alloc; " added {added} changed {changed} same {same}: {put} rows")
    } else {
        format!(in alloc; " added {added} changed {changed} same {same}: {keys}header")
    };
    text.expect(rt, "memory")
}
