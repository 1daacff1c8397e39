//! Desks made of rows: of those of a valid desk, and of rows that break each rule of one.
//!
//! Rows are a text, a line for each: the table, and its columns after a `|` each. The braces of
//! `script` stand here for the same.
use super::command::cut;
use super::intake::intake_of;
use super::script::{expanded, push};
use super::version_1::rows1_of;
use super::{owned, same};
use gr_core::{
    BallotRow, ChoiceRow, Desk, DeveloperRow, HeaderRow, ResolutionRow, Row, Rows, SponsorRow,
    Unfit,
};
use std::alloc::Global;
use std::process::Abort;
use std::str::Split;

/// A desk with a resolution in each stage, that of the closed one chosen by a casting vote.
pub(super) const ROWS: &str = "
    desk|1|2|20|1000
    developer|alice|Alice Adams|1
    developer|bob|Bob Brown|1
    developer|carol|Carol Clark|0
    resolution|1|0|0|0|0|0|0|0|0
    choice|1|1|1|alice|Draft|Text|1|0|0|0
    sponsor|1|1|bob|1
    resolution|2|1|100|150|-7|0|0|0|0
    choice|2|1|2||First|Text|9|100|0|0
    choice|2|2|1|bob|Second|Text|1|0|0|0
    choice|2|3|1|bob|Third|Text|1|100|120|0
    sponsor|2|3|carol|0
    resolution|3|2|100|0|7|200|7|2000|0
    choice|3|1|3||One|Text|1|100|0|1
    choice|3|2|0||Two|Text|2|100|0|2
    choice|3|3|1|bob|Three|Text|1|0|0|0
    ballot|3|alice|12-|{0*64}|1
    ballot|3|carol|---|{f*64}|20
    resolution|4|3|100|0|0|200|21|1|1
    choice|4|1|2||One|Text|1|100|0|1
    choice|4|2|2||Two|Text|1|100|0|2
    ballot|4|alice|123|{a*64}|1
    ballot|4|bob|213|{9*64}|1
    resolution|5|4|100|0|0|0|0|0|0
    choice|5|1|2||One|Text|1|100|0|0
";

/// A change of those rows a line, from a row to another one or to none, each of which breaks a
/// rule; ` + ` puts a row beside them.
pub(super) const DAMAGES: &str = "
    # the header
    desk|1|2|20|1000 ->
    + desk|1|2|20|1000
    desk|1|2|20|1000 -> desk|0|2|20|1000
    desk|1|2|20|1000 -> desk|2|2|20|1000
    desk|1|2|20|1000 -> desk|1|2|-1|1000
    desk|1|2|20|1000 -> desk|1|2|1000000001|1000
    desk|1|2|20|1000 -> desk|1|2|20|-1
    desk|1|2|20|1000 -> desk|1|2|20|4102444800
    desk|1|2|20|1000 -> desk|1|2|0|1000
    desk|1|2|20|1000 -> desk|1|2|20|0
    # developers
    developer|carol|Carol Clark|0 -> developer|carol|Carol Clark|2
    developer|carol|Carol Clark|0 -> developer|carol|Carol Clark|-1
    developer|carol|Carol Clark|0 -> developer|carol||0
    developer|carol|Carol Clark|0 -> developer|carol|{c*81}|0
    + developer|Dave|Dave|1
    + developer||Dave|1
    + developer|{d*33}|Dave|1
    # resolutions are numbered, and no moment is after the clock
    resolution|5|4|100|0|0|0|0|0|0 -> resolution|6|4|100|0|0|0|0|0|0
    resolution|1|0|0|0|0|0|0|0|0 ->
    + resolution|0|0|0|0|0|0|0|0|0
    + resolution|6|0|0|0|0|0|0|0|0
    resolution|2|1|100|150|-7|0|0|0|0 -> resolution|2|5|100|150|-7|0|0|0|0
    resolution|2|1|100|150|-7|0|0|0|0 -> resolution|2|-1|100|150|-7|0|0|0|0
    resolution|2|1|100|150|-7|0|0|0|0 -> resolution|2|1|100|1001|-7|0|0|0|0
    resolution|3|2|100|0|7|200|7|2000|0 -> resolution|3|2|100|0|7|1001|7|2000|0
    choice|2|1|2||First|Text|9|100|0|0 -> choice|2|1|2||First|Text|9|1001|0|0
    choice|2|3|1|bob|Third|Text|1|100|120|0 -> choice|2|3|1|bob|Third|Text|1|100|1001|0
    choice|2|3|1|bob|Third|Text|1|100|120|0 -> choice|2|3|1|bob|Third|Text|1|100|-1|0
    # a draft
    resolution|1|0|0|0|0|0|0|0|0 -> resolution|1|0|100|0|0|0|0|0|0
    resolution|1|0|0|0|0|0|0|0|0 -> resolution|1|0|0|100|0|0|0|0|0
    resolution|1|0|0|0|0|0|0|0|0 -> resolution|1|0|0|0|1|0|0|0|0
    resolution|1|0|0|0|0|0|0|0|0 -> resolution|1|0|0|0|0|100|0|0|0
    resolution|1|0|0|0|0|0|0|0|0 -> resolution|1|0|0|0|0|0|7|0|0
    resolution|1|0|0|0|0|0|0|0|0 -> resolution|1|0|0|0|0|0|0|1|0
    resolution|1|0|0|0|0|0|0|0|0 -> resolution|1|0|0|0|0|0|0|0|1
    choice|1|1|1|alice|Draft|Text|1|0|0|0 -> choice|1|1|1|alice|Draft|Text|1|100|0|0
    + choice|1|2|1|alice|More|Text|1|0|0|0
    # a discussion
    resolution|2|1|100|150|-7|0|0|0|0 -> resolution|2|1|0|150|-7|0|0|0|0
    resolution|2|1|100|150|-7|0|0|0|0 -> resolution|2|1|-1|150|-7|0|0|0|0
    resolution|2|1|100|150|-7|0|0|0|0 -> resolution|2|1|100|99|-7|0|0|0|0
    resolution|2|1|100|150|-7|0|0|0|0 -> resolution|2|1|100|-1|-7|0|0|0|0
    resolution|2|1|100|150|-7|0|0|0|0 -> resolution|2|1|100|150|-8|0|0|0|0
    resolution|2|1|100|150|-7|0|0|0|0 -> resolution|2|1|100|150|8|0|0|0|0
    resolution|2|1|100|150|-7|0|0|0|0 -> resolution|2|1|100|150|-7|200|0|0|0
    resolution|2|1|100|150|-7|0|0|0|0 -> resolution|2|1|100|150|-7|0|7|0|0
    resolution|2|1|100|150|-7|0|0|0|0 -> resolution|2|1|100|150|-7|0|0|1|0
    resolution|2|1|100|150|-7|0|0|0|0 -> resolution|2|1|100|150|-7|0|0|0|1
    resolution|5|4|100|0|0|0|0|0|0 -> resolution|5|4|0|0|0|0|0|0|0
    resolution|5|4|100|0|0|0|0|0|0 -> resolution|5|4|100|0|0|200|0|0|0
    # a vote
    resolution|3|2|100|0|7|200|7|2000|0 -> resolution|3|2|0|0|7|200|7|2000|0
    resolution|3|2|100|0|7|200|7|2000|0 -> resolution|3|2|100|99|7|200|7|2000|0
    resolution|3|2|100|0|7|200|7|2000|0 -> resolution|3|2|100|0|8|200|7|2000|0
    resolution|3|2|100|0|7|200|7|2000|0 -> resolution|3|2|100|0|7|99|7|2000|0
    resolution|3|2|100|0|7|200|7|2000|0 -> resolution|3|2|100|0|7|200|6|2000|0
    resolution|3|2|100|0|7|200|7|2000|0 -> resolution|3|2|100|0|7|200|22|2000|0
    resolution|3|2|100|0|7|200|7|2000|0 -> resolution|3|2|100|0|7|200|7|2001|0
    resolution|3|2|100|0|7|200|7|2000|0 -> resolution|3|2|100|0|7|200|7|-1|0
    resolution|3|2|100|0|7|200|7|2000|0 -> resolution|3|2|100|0|7|200|7|2000|1
    resolution|4|3|100|0|0|200|21|1|1 -> resolution|4|3|100|0|0|200|22|1|1
    resolution|4|3|100|0|0|200|21|1|1 -> resolution|4|3|100|0|0|200|21|1|3
    resolution|4|3|100|0|0|200|21|1|1 -> resolution|4|3|100|0|0|200|21|1|4
    resolution|4|3|100|0|0|200|21|1|1 -> resolution|4|3|100|0|0|200|21|1|-1
    ballot|4|bob|213|{9*64}|1 -> ballot|4|bob|123|{9*64}|1
    # choices
    choice|2|3|1|bob|Third|Text|1|100|120|0 -> choice|2|4|1|bob|Third|Text|1|100|120|0
    choice|1|1|1|alice|Draft|Text|1|0|0|0 ->
    + choice|2|0|1|bob|More|Text|1|0|0|0
    + choice|6|1|1|bob|More|Text|1|0|0|0
    choice|2|2|1|bob|Second|Text|1|0|0|0 -> choice|2|2|4||Second|Text|1|0|0|0
    choice|2|2|1|bob|Second|Text|1|0|0|0 -> choice|2|2|-1||Second|Text|1|0|0|0
    choice|2|2|1|bob|Second|Text|1|0|0|0 -> choice|2|2|1|dave|Second|Text|1|0|0|0
    choice|2|2|1|bob|Second|Text|1|0|0|0 -> choice|2|2|1||Second|Text|1|0|0|0
    choice|2|2|1|bob|Second|Text|1|0|0|0 -> choice|2|2|0|bob|Second|Text|1|0|0|0
    choice|2|2|1|bob|Second|Text|1|0|0|0 -> choice|2|2|2|bob|Second|Text|1|0|0|0
    choice|2|2|1|bob|Second|Text|1|0|0|0 -> choice|2|2|3|bob|Second|Text|1|0|0|0
    choice|2|2|1|bob|Second|Text|1|0|0|0 -> choice|2|2|1|bob||Text|1|0|0|0
    choice|2|2|1|bob|Second|Text|1|0|0|0 -> choice|2|2|1|bob|{s*81}|Text|1|0|0|0
    choice|2|2|1|bob|Second|Text|1|0|0|0 -> choice|2|2|1|bob|Second|{t*20001}|1|0|0|0
    choice|2|2|1|bob|Second|Text|1|0|0|0 -> choice|2|2|1|bob|Second|Text|0|0|0|0
    choice|2|2|1|bob|Second|Text|1|0|0|0 -> choice|2|2|1|bob|Second|Text|10|0|0|0
    # introduced choices
    choice|2|1|2||First|Text|9|100|0|0 -> choice|2|1|2||First|Text|9|99|0|0
    choice|2|1|2||First|Text|9|100|0|0 -> choice|2|1|2||First|Text|9|-1|0|0
    choice|2|2|1|bob|Second|Text|1|0|0|0 -> choice|2|2|1|bob|Second|Text|1|0|120|0
    choice|5|1|2||One|Text|1|100|0|0 -> choice|5|1|2||One|Text|1|0|0|0
    # places
    choice|2|1|2||First|Text|9|100|0|0 -> choice|2|1|2||First|Text|9|100|0|1
    choice|5|1|2||One|Text|1|100|0|0 -> choice|5|1|2||One|Text|1|100|0|1
    choice|3|3|1|bob|Three|Text|1|0|0|0 -> choice|3|3|1|bob|Three|Text|1|0|0|3
    choice|3|2|0||Two|Text|2|100|0|2 -> choice|3|2|0||Two|Text|2|100|0|1
    choice|3|2|0||Two|Text|2|100|0|2 -> choice|3|2|0||Two|Text|2|100|0|3
    choice|3|2|0||Two|Text|2|100|0|2 -> choice|3|2|0||Two|Text|2|100|0|-1
    choice|3|1|3||One|Text|1|100|0|1 -> choice|3|1|3||One|Text|1|100|0|0
    # sponsors
    + sponsor|1|2|bob|1
    + sponsor|6|1|bob|1
    sponsor|1|1|bob|1 -> sponsor|1|1|dave|1
    sponsor|1|1|bob|1 -> sponsor|1|1|alice|1
    sponsor|1|1|bob|1 -> sponsor|1|1|bob|2
    sponsor|1|1|bob|1 -> sponsor|1|1|bob|-1
    # ballots
    + ballot|2|alice|1111|{0*64}|1
    + ballot|5|alice|11|{0*64}|1
    + ballot|6|alice|11|{0*64}|1
    ballot|3|carol|---|{f*64}|20 -> ballot|3|dave|---|{f*64}|1
    ballot|3|carol|---|{f*64}|20 -> ballot|3|carol|--|{f*64}|20
    ballot|3|carol|---|{f*64}|20 -> ballot|3|carol|----|{f*64}|20
    ballot|3|carol|---|{f*64}|20 -> ballot|3|carol|--0|{f*64}|20
    ballot|3|carol|---|{f*64}|20 -> ballot|3|carol|--A|{f*64}|20
    ballot|3|carol|---|{f*64}|20 -> ballot|3|carol|--`|{f*64}|20
    ballot|3|carol|---|{f*64}|20 -> ballot|3|carol|--:|{f*64}|20
    ballot|3|carol|---|{f*64}|20 -> ballot|3|carol|---|{f*63}|20
    ballot|3|carol|---|{f*64}|20 -> ballot|3|carol|---|{f*65}|20
    ballot|3|carol|---|{f*64}|20 -> ballot|3|carol|---|{F*64}|20
    ballot|3|carol|---|{f*64}|20 -> ballot|3|carol|---|{g*64}|20
    # two rows with one key
    + developer|alice|Alice Baker|1
    + developer|alice|Alice Adams|1
    + resolution|5|4|100|0|0|0|0|0|0
    + choice|5|1|2||Other|Text|1|100|0|0
    + sponsor|1|1|bob|0
    + ballot|3|alice|21-|{1*64}|1
";

/// Changes of those rows that break a rule of this version.
pub(super) const DAMAGES_OF_VERSION_2: &str = "
    desk|1|2|20|1000 -> desk|1|0|20|1000
    desk|1|2|20|1000 -> desk|1|1|20|1000
    desk|1|2|20|1000 -> desk|1|3|20|1000
    ballot|3|carol|---|{f*64}|20 -> ballot|3|carol|---|{f*64}|0
    ballot|3|carol|---|{f*64}|20 -> ballot|3|carol|---|{f*64}|-1
    ballot|3|carol|---|{f*64}|20 -> ballot|3|carol|---|{f*64}|21
    ballot|3|carol|---|{f*64}|20 -> ballot|3|carol|---|{f*64}|4294967297
";

/// As many choices as there may be, of a resolution that is discussed and of one on which votes are
/// taken, whose ballots have digits and letters.
pub(super) const MOST_CHOICES: &str = "
    desk|1|2|80|1768435200
    developer|alice|Alice Adams|1
    developer|bob|Bob Brown|1
    resolution|1|1|1767225600|0|0|0|0|0|0
    {choice|1|%|2||C%|Text|1|1767225600|0|0~1-34}
    resolution|2|2|1767225600|0|0|1768435200|14|2|0
    {choice|2|%|2||C%|Text|1|1767225600|0|%~1-34}
    ballot|2|alice|123456789abcdefghijklmnopqrstuvwxyz|{0*64}|1
    ballot|2|bob|z{-*34}|{f*64}|1
";

/// Changes of these rows.
const PAST_THE_MOST: &str = "
    # a choice more
    + choice|1|35|2||C35|Text|1|1767225600|0|0
    + choice|1|35|1|bob|C35|Text|1|0|0|0
    + choice|2|35|2||C35|Text|1|1767225600|0|0
    + choice|2|35|2||C35|Text|1|1767225600|0|35
    # ranks that are too few or too many, and marks that are none
    ballot|2|bob|z{-*34}|{f*64}|1 -> ballot|2|bob|z{-*33}|{f*64}|1
    ballot|2|bob|z{-*34}|{f*64}|1 -> ballot|2|bob|z{-*35}|{f*64}|1
    ballot|2|bob|z{-*34}|{f*64}|1 -> ballot|2|bob|Z{-*34}|{f*64}|1
    ballot|2|bob|z{-*34}|{f*64}|1 -> ballot|2|bob|A{-*34}|{f*64}|1
    ballot|2|bob|z{-*34}|{f*64}|1 -> ballot|2|bob|0{-*34}|{f*64}|1
    ballot|2|bob|z{-*34}|{f*64}|1 -> ballot|2|bob|{-*34}Z|{f*64}|1
";

#[test]
fn rows_make_a_desk(rt: HostRuntime) {
    let alloc = rt.alloc();
    let backwards = backwards(&rt, alloc, ROWS);
    rows_show(&rt, alloc, "desk|1|2|0|0", "0 0 0 ");
    rows_show(&rt, alloc, ROWS, "20 1000 3 4");
    rows_show(&rt, alloc, backwards.as_str(), "20 1000 3 4");
}

/// Wants the desk of these rows to show this.
fn rows_show(rt: &impl Abort, alloc: Global, lines: &str, wanted: &str) {
    let desk = desk_of(rt, alloc, lines);
    let shown = shown(rt, alloc, &desk);
    same(rt, shown.as_str(), wanted, "a desk of rows");
}

#[test]
fn rows_of_no_valid_desk_are_damaged(rt: HostRuntime) {
    for (rows, damages) in [
        (ROWS, DAMAGES),
        (ROWS, DAMAGES_OF_VERSION_2),
        (MOST_CHOICES, PAST_THE_MOST),
    ] {
        each_damages(&rt, rt.alloc(), By::Rows, rows, damages);
    }
}

/// By which call rows make a desk.
#[derive(Clone, Copy)]
pub(super) enum By {
    /// All at once.
    Rows,

    /// One at a time.
    Intake,

    /// All at once, as those of version 1.
    Version1,
}

/// Wants the rows to be those of no valid desk after each of the changes.
pub(super) fn each_damages(rt: &impl Abort, alloc: Global, by: By, rows: &str, damages: &str) {
    for line in damages.lines() {
        let damage = line.trim();
        if !damage.is_empty() && !damage.starts_with('#') {
            damages_them(rt, alloc, by, rows, damage);
        }
    }
}

/// Wants the rows to be those of no valid desk after this change.
fn damages_them(rt: &impl Abort, alloc: Global, by: By, rows: &str, damage: &str) {
    let rows = damaged(rt, alloc, rows, damage);
    let made = made(rt, alloc, by, rows.as_str());
    is_damaged(rt, &made, damage);
}

/// What becomes of the rows that the lines say.
fn made(rt: &impl Abort, alloc: Global, by: By, lines: &str) -> Result<Desk, Unfit> {
    match by {
        By::Rows => Desk::from_rows(alloc, rows_of(rt, alloc, lines)),
        By::Intake => intake_of(rt, alloc, lines).finish(),
        By::Version1 => Desk::from_rows_1(alloc, rows1_of(rt, alloc, lines)),
    }
}

/// Wants no desk to be made, since no valid desk has its rows.
pub(super) fn is_damaged(rt: &impl Abort, made: &Result<Desk, Unfit>, about: &str) {
    assert!(rt; matches!(made, Err(Unfit::Damaged)), "{about}");
}

/// How many commands are accepted, the clock, how many developers there are, and then the numbers
/// of the resolutions of which there is a count.
fn shown(rt: &impl Abort, alloc: Global, desk: &Desk) -> String {
    let (accepted, clock) = (desk.accepted(), desk.clock());
    let developers = desk.developers().len();
    let mut shown = format!(in alloc; "{accepted} {clock} {developers} ").expect(rt, "memory");
    for resolution in 1..=6 {
        if desk.count(resolution).is_some() {
            write!(shown, "{resolution}").expect(rt, "memory");
        }
    }
    shown
}

/// The lines, the last one first.
pub(super) fn backwards(rt: &impl Abort, alloc: Global, lines: &str) -> String {
    let mut turned = String::new(alloc);
    for line in lines.lines().rev() {
        push_line(rt, &mut turned, line);
    }
    turned
}

/// The rows with that change.
pub(super) fn damaged(rt: &impl Abort, alloc: Global, rows: &str, damage: &str) -> String {
    match damage.strip_prefix("+ ") {
        Some(row) => format!(in alloc; "{rows}{row}").expect(rt, "memory"),
        None => replaced(rt, alloc, rows, damage),
    }
}

/// The rows, with what stands after the arrow in the place of the row before it.
fn replaced(rt: &impl Abort, alloc: Global, rows: &str, change: &str) -> String {
    let (before, after) = cut(rt, change, " ->");
    let mut changed = String::new(alloc);
    let mut found = false;
    for line in rows.lines() {
        let mut row = line.trim();
        if row == before {
            found = true;
            row = after;
        }
        push_line(rt, &mut changed, row);
    }
    assert!(rt; found, "no such row");
    changed
}

/// Adds the line.
pub(super) fn push_line(rt: &impl Abort, lines: &mut String, line: &str) {
    push(rt, lines, line);
    push(rt, lines, "\n");
}

/// The desk that has the rows that the lines say.
pub(super) fn desk_of(rt: &impl Abort, alloc: Global, lines: &str) -> Desk {
    Desk::from_rows(alloc, rows_of(rt, alloc, lines)).expect(rt, "a desk")
}

/// No rows of any table.
pub(super) fn no_rows(alloc: Global) -> Rows {
    Rows {
        desk: Vec::new(alloc),
        developers: Vec::new(alloc),
        resolutions: Vec::new(alloc),
        choices: Vec::new(alloc),
        sponsors: Vec::new(alloc),
        ballots: Vec::new(alloc),
    }
}

/// The rows that the lines say.
pub(super) fn rows_of(rt: &impl Abort, alloc: Global, lines: &str) -> Rows {
    let mut rows = no_rows(alloc);
    for line in expanded(rt, alloc, lines).lines() {
        let line = line.trim();
        if !line.is_empty() {
            push_row(rt, &mut rows, row_of(rt, alloc, line));
        }
    }
    rows
}

fn push_row(rt: &impl Abort, rows: &mut Rows, row: Row) {
    match row {
        Row::Header(row) => rows.desk.push(row).expect(rt, "memory"),
        Row::Developer(row) => rows.developers.push(row).expect(rt, "memory"),
        Row::Resolution(row) => rows.resolutions.push(row).expect(rt, "memory"),
        Row::Choice(row) => rows.choices.push(row).expect(rt, "memory"),
        Row::Sponsor(row) => rows.sponsors.push(row).expect(rt, "memory"),
        Row::Ballot(row) => rows.ballots.push(row).expect(rt, "memory"),
    }
}

/// The row that the line says.
pub(super) fn row_of(rt: &impl Abort, alloc: Global, line: &str) -> Row {
    let mut columns = line.split('|');
    match column(rt, &mut columns) {
        "desk" => Row::Header(header_row(rt, &mut columns)),
        "developer" => Row::Developer(developer_row(rt, alloc, &mut columns)),
        "resolution" => Row::Resolution(resolution_row(rt, &mut columns)),
        "choice" => Row::Choice(choice_row(rt, alloc, &mut columns)),
        "sponsor" => Row::Sponsor(sponsor_row(rt, alloc, &mut columns)),
        "ballot" => Row::Ballot(ballot_row(rt, alloc, &mut columns)),
        _ => panic!(rt; "no table"),
    }
}

/// The next column.
pub(super) fn column<'w>(rt: &impl Abort, columns: &mut Split<'w, char>) -> &'w str {
    columns.next().expect(rt, "a further column")
}

/// The next column, as a text.
pub(super) fn text(rt: &impl Abort, alloc: Global, columns: &mut Split<'_, char>) -> String {
    owned(rt, alloc, column(rt, columns))
}

fn whole(rt: &impl Abort, columns: &mut Split<'_, char>) -> i64 {
    let digits = column(rt, columns);
    digits.parse().expect(rt, digits)
}

fn header_row(rt: &impl Abort, columns: &mut Split<'_, char>) -> HeaderRow {
    HeaderRow {
        id: whole(rt, columns),
        version: whole(rt, columns),
        accepted: whole(rt, columns),
        clock: whole(rt, columns),
    }
}

fn developer_row(rt: &impl Abort, alloc: Global, columns: &mut Split<'_, char>) -> DeveloperRow {
    DeveloperRow {
        login: text(rt, alloc, columns),
        name: text(rt, alloc, columns),
        active: whole(rt, columns),
    }
}

fn resolution_row(rt: &impl Abort, columns: &mut Split<'_, char>) -> ResolutionRow {
    ResolutionRow {
        number: whole(rt, columns),
        stage: whole(rt, columns),
        start: whole(rt, columns),
        changed: whole(rt, columns),
        shift: whole(rt, columns),
        called: whole(rt, columns),
        days: whole(rt, columns),
        devs: whole(rt, columns),
        chosen: whole(rt, columns),
    }
}

fn choice_row(rt: &impl Abort, alloc: Global, columns: &mut Split<'_, char>) -> ChoiceRow {
    ChoiceRow {
        resolution: whole(rt, columns),
        number: whole(rt, columns),
        kind: whole(rt, columns),
        proposer: text(rt, alloc, columns),
        summary: text(rt, alloc, columns),
        body: text(rt, alloc, columns),
        ratio: whole(rt, columns),
        introduced: whole(rt, columns),
        short: whole(rt, columns),
        place: whole(rt, columns),
    }
}

fn sponsor_row(rt: &impl Abort, alloc: Global, columns: &mut Split<'_, char>) -> SponsorRow {
    SponsorRow {
        resolution: whole(rt, columns),
        choice: whole(rt, columns),
        login: text(rt, alloc, columns),
        active: whole(rt, columns),
    }
}

fn ballot_row(rt: &impl Abort, alloc: Global, columns: &mut Split<'_, char>) -> BallotRow {
    BallotRow {
        resolution: whole(rt, columns),
        login: text(rt, alloc, columns),
        ranks: text(rt, alloc, columns),
        receipt: text(rt, alloc, columns),
        received: whole(rt, columns),
    }
}
