//! Rows that an intake takes one at a time: in an order other than that of their keys, and rows
//! that no desk can have.
use super::rows::{By, DAMAGES, ROWS, backwards, desk_of, each_damages, push_line, row_of};
use super::script::expanded;
use super::{prints, same};
use gr_core::{Desk, Intake};
use std::alloc::Global;
use std::collections::BTreeMap;
use std::fmt::Debug;
use std::process::Abort;

#[test]
fn rows_are_taken_in_any_order(rt: HostRuntime) {
    let alloc = rt.alloc();
    let wanted = shown(&rt, alloc, &desk_of(&rt, alloc, ROWS));
    let wanted = wanted.as_str();
    is_taken(&rt, alloc, ROWS, wanted);
    is_taken(&rt, alloc, backwards(&rt, alloc, ROWS).as_str(), wanted);
    is_taken(&rt, alloc, in_turns(&rt, alloc, ROWS).as_str(), wanted);
}

/// Wants an intake of these rows to make a desk that has this.
fn is_taken(rt: &impl Abort, alloc: Global, lines: &str, wanted: &str) {
    let desk = intake_of(rt, alloc, lines).finish().expect(rt, "a desk");
    has_all(rt, alloc, &desk, wanted);
}

/// Wants the desk to have this, and nothing else.
pub(super) fn has_all(rt: &impl Abort, alloc: Global, desk: &Desk, wanted: &str) {
    let found = shown(rt, alloc, desk);
    same(rt, found.as_str(), wanted, "a desk of rows");
}

#[test]
fn an_intake_tells_of_damage_when_it_is_finished(rt: HostRuntime) {
    each_damages(&rt, rt.alloc(), By::Intake, ROWS, DAMAGES);
}

#[test]
fn an_intake_knows_its_row_of_the_desk(rt: HostRuntime) {
    for (lines, row) in [
        ("", "None"),
        (
            "desk|1|3|0|0",
            "Some(HeaderRow { id: 1, version: 3, accepted: 0, clock: 0 })",
        ),
        (
            "desk|7|3|0|0\ndeveloper|alice|Alice Adams|9",
            "Some(HeaderRow { id: 7, version: 3, accepted: 0, clock: 0 })",
        ),
        ("desk|1|3|0|0\ndesk|2|3|0|0", "None"),
    ] {
        has_header_row(&rt, rt.alloc(), lines, row);
    }
}

/// Wants an intake of these rows to know this row of the desk.
fn has_header_row(rt: &impl Abort, alloc: Global, lines: &str, row: &str) {
    let intake = intake_of(rt, alloc, lines);
    prints(rt, alloc, &intake.header_row(), row);
}

/// An intake that has taken the rows that the lines say.
pub(super) fn intake_of(rt: &impl Abort, alloc: Global, lines: &str) -> Intake {
    let mut intake = Intake::new(alloc);
    for line in expanded(rt, alloc, lines).lines() {
        let line = line.trim();
        if !line.is_empty() {
            intake.take(row_of(rt, alloc, line)).expect(rt, "memory");
        }
    }
    intake
}

/// The lines with an even number, and then the others.
fn in_turns(rt: &impl Abort, alloc: Global, lines: &str) -> String {
    let mut turned = String::new(alloc);
    for turn in 0..2usize {
        push_turn(rt, &mut turned, lines, turn);
    }
    turned
}

/// Adds each second line, from the one with this number on.
fn push_turn(rt: &impl Abort, turned: &mut String, lines: &str, turn: usize) {
    for (number, line) in lines.lines().enumerate() {
        if number % 2 == turn {
            push_line(rt, turned, line);
        }
    }
}

/// All that the desk has, in words.
pub(super) fn shown(rt: &impl Abort, alloc: Global, desk: &Desk) -> String {
    let (accepted, clock) = (desk.accepted(), desk.clock());
    let mut shown = format!(in alloc; "{accepted} {clock}").expect(rt, "memory");
    push_each(rt, &mut shown, desk.developers());
    for number in 1..=6 {
        push_resolution(rt, &mut shown, desk, number);
    }
    shown
}

/// Adds a line for each login, with what the table has of it.
fn push_each<T: Debug>(rt: &impl Abort, shown: &mut String, table: &BTreeMap<String, T>) {
    for (login, row) in table {
        write!(shown, "\n{login} {row:?}").expect(rt, "memory");
    }
}

fn push_resolution(rt: &impl Abort, shown: &mut String, desk: &Desk, number: u32) {
    let resolution = desk.resolution(number);
    write!(shown, "\n{number} {resolution:?}").expect(rt, "memory");
    push_choices(rt, shown, desk, number);
    if let Some(ballots) = desk.ballots(number) {
        push_each(rt, shown, ballots);
    }
}

/// Adds a line for each choice of the resolution, with its sponsors after it.
fn push_choices(rt: &impl Abort, shown: &mut String, desk: &Desk, number: u32) {
    for (key, choice) in desk.choices(number) {
        write!(shown, "\n{key:?} {choice:?}").expect(rt, "memory");
        if let Some(sponsors) = desk.sponsors(*key) {
            push_each(rt, shown, sponsors);
        }
    }
}
