//! Desks of version 1: what becomes of their rows, and of rows that no desk of version 1 had.
use super::intake::{has_all, shown};
use super::rows::{
    By, DAMAGES, MOST_CHOICES, ROWS, damaged, desk_of, each_damages, is_damaged, row_of, rows_of,
};
use super::same;
use super::script::{Script, expanded};
use gr_core::{
    BallotRow, BallotRow1, Ballots, Change, Desk, HeaderRow, Intake, MAX_RESOLUTIONS, Row, Rows,
    Rows1, VERSION, VERSION_1,
};
use std::alloc::Global;
use std::process::Abort;

#[test]
fn rows_of_version_1_are_taken_up(rt: HostRuntime) {
    are_taken_up(&rt, rt.alloc(), ROWS, RECEIVED_ONCE);
    are_taken_up(&rt, rt.alloc(), MOST_CHOICES, NO_CHANGE);
}

/// Wants a desk of these rows in version 1 to be that of the rows with this change, by both calls.
fn are_taken_up(rt: &impl Abort, alloc: Global, lines: &str, change: &str) {
    let changed = damaged(rt, alloc, lines, change);
    let wanted = shown(rt, alloc, &desk_of(rt, alloc, changed.as_str()));
    has_all(rt, alloc, &at_once(rt, alloc, lines), wanted.as_str());
    has_all(rt, alloc, &one_at_a_time(rt, alloc, lines), wanted.as_str());
}

/// The desk of these rows in version 1, taken up all at once.
fn at_once(rt: &impl Abort, alloc: Global, lines: &str) -> Desk {
    let rows = rows1_of(rt, alloc, lines);
    Desk::from_rows_1(alloc, rows).expect(rt, "a desk")
}

/// The same, taken one at a time, those of the last table first.
fn one_at_a_time(rt: &impl Abort, alloc: Global, lines: &str) -> Desk {
    let lines = expanded(rt, alloc, lines);
    let mut intake = Intake::new(alloc);
    for table in [
        "ballot",
        "sponsor",
        "choice",
        "resolution",
        "developer",
        "desk",
    ] {
        take_table(rt, alloc, &mut intake, table, lines.as_str());
    }
    intake.finish_1().expect(rt, "a desk")
}

/// Gives the intake the rows of this table in version 1, those of ballots in this version.
fn take_table(rt: &impl Abort, alloc: Global, intake: &mut Intake, table: &str, lines: &str) {
    for line in lines.lines() {
        let line = line.trim();
        if line.starts_with(table) {
            let row = row1(row_of(rt, alloc, line));
            intake.take(row).expect(rt, "memory");
        }
    }
}

/// One vote is received with each ballot of version 1.
const RECEIVED_ONCE: &str = "ballot|3|carol|---|{f*64}|20 -> ballot|3|carol|---|{f*64}|1";

const NO_CHANGE: &str = "developer|bob|Bob Brown|1 -> developer|bob|Bob Brown|1";

#[test]
fn rows_of_no_desk_of_version_1_are_damaged(rt: HostRuntime) {
    each_damages(&rt, rt.alloc(), By::Version1, ROWS, DAMAGES);
}

#[test]
fn rows_of_other_versions_are_damaged(rt: HostRuntime) {
    for version in [-1, 0, 2, 3] {
        is_no_version_1(&rt, rt.alloc(), version);
    }
    is_no_version_2(&rt, rt.alloc(), 1);
}

/// Wants rows of this version not to be taken up as those of version 1.
fn is_no_version_1(rt: &impl Abort, alloc: Global, version: i64) {
    let mut rows = rows1_of(rt, alloc, ROWS);
    rows.desk = headers(rt, alloc, version);
    is_damaged(rt, &Desk::from_rows_1(alloc, rows), "no version 1");
}

/// Wants rows of this version not to be taken as those of version 2.
fn is_no_version_2(rt: &impl Abort, alloc: Global, version: i64) {
    let mut rows = rows_of(rt, alloc, ROWS);
    rows.desk = headers(rt, alloc, version);
    is_damaged(rt, &Desk::from_rows(alloc, rows), "no version 2");
}

/// A vote goes on from the number that the ballot of version 1 got, or from none.
#[test]
fn votes_go_on_from_version_1(rt: HostRuntime) {
    let mut script = Script::over(rt.alloc(), at_once(&rt, rt.alloc(), ROWS));
    script.take_lines(&rt, VOTES);
}

/// The receipts are those of the command `sha256sum`.
const VOTES: &str = "
    1001 vote 3|alice|-1-|tokenA01 -> ok 21 \
        receipt 159b784cdf7914030f020f9bcee73e1edf98329a38fbaa64475a3923931aa615: \
        ballot:3:alice=3,159b784cdf7914030f020f9bcee73e1edf98329a38fbaa64475a3923931aa615,2 header
    1001 vote 3|bob|-1-|tokenA01 -> ok 22 \
        receipt 9d823f52638f0c42f843a4ea8e576efb20f9061cd62a07c9fe9d72dab4c5ad1e: \
        ballot:3:bob=3,9d823f52638f0c42f843a4ea8e576efb20f9061cd62a07c9fe9d72dab4c5ad1e,1 header
    pairs 3 3 0:2 0:0 2:0
    reload
    1001 vote 3|alice|1--|tokenA01 -> ok 23 \
        receipt 159b784cdf7914030f020f9bcee73e1edf98329a38fbaa64475a3923931aa615: \
        ballot:3:alice=3,159b784cdf7914030f020f9bcee73e1edf98329a38fbaa64475a3923931aa615,3 header
    ";

#[test]
fn ballots_are_put_again_by_their_changes(rt: HostRuntime) {
    let alloc = rt.alloc();
    let mut ballots = desk_of(&rt, alloc, ROWS).into_ballots();
    let mut text = String::new(alloc);
    for number in 0..=MAX_RESOLUTIONS as u32 {
        push_ballots(&rt, alloc, &mut text, &mut ballots, number);
    }
    let wanted = "3 alice 12- 1;3 carol --- 20;4 alice 123 1;4 bob 213 1;";
    same(&rt, text.as_str(), wanted, "ballots");
}

/// Adds the ballots of the resolution, by the changes that put them again.
fn push_ballots(
    rt: &impl Abort,
    alloc: Global,
    text: &mut String,
    ballots: &mut Ballots,
    number: u32,
) {
    let changes = ballots.take_out(alloc, number).expect(rt, "memory");
    for change in &changes {
        push_ballot(rt, alloc, text, change);
    }
}

fn push_ballot(rt: &impl Abort, alloc: Global, text: &mut String, change: &Change) {
    let Change::Ballot {
        resolution,
        login,
        ballot,
    } = change
    else {
        panic!(rt; "no ballot");
    };
    let row = BallotRow::of(alloc, *resolution, login.as_str(), ballot).expect(rt, "a row");
    let BallotRow {
        login,
        ranks,
        received,
        ..
    } = row;
    write!(text, "{resolution} {login} {ranks} {received};").expect(rt, "memory");
}

/// The rows that the lines say, in version 1.
pub(super) fn rows1_of(rt: &impl Abort, alloc: Global, lines: &str) -> Rows1 {
    let Rows {
        desk,
        developers,
        resolutions,
        choices,
        sponsors,
        ballots,
    } = rows_of(rt, alloc, lines);
    Rows1 {
        desk: headers1(rt, alloc, desk),
        developers,
        resolutions,
        choices,
        sponsors,
        ballots: ballots1(rt, alloc, ballots),
    }
}

/// The row in version 1, and that of a ballot in this version again.
fn row1(row: Row) -> Row {
    match row {
        Row::Header(row) => Row::Header(header1(row)),
        Row::Ballot(row) => Row::Ballot(ballot1(row).lifted()),
        row => row,
    }
}

fn ballots1(rt: &impl Abort, alloc: Global, rows: Vec<BallotRow>) -> Vec<BallotRow1> {
    let mut rows1 = Vec::new(alloc);
    for row in rows {
        rows1.push(ballot1(row)).expect(rt, "memory");
    }
    rows1
}

fn ballot1(row: BallotRow) -> BallotRow1 {
    let BallotRow {
        resolution,
        login,
        ranks,
        receipt,
        received: _,
    } = row;
    BallotRow1 {
        resolution,
        login,
        ranks,
        receipt,
    }
}

fn headers1(rt: &impl Abort, alloc: Global, rows: Vec<HeaderRow>) -> Vec<HeaderRow> {
    let mut rows1 = Vec::new(alloc);
    for row in rows {
        rows1.push(header1(row)).expect(rt, "memory");
    }
    rows1
}

/// The row of the table `desk`, with version 1 in the place of this one.
fn header1(row: HeaderRow) -> HeaderRow {
    let version = if row.version == i64::from(VERSION) {
        i64::from(VERSION_1)
    } else {
        row.version
    };
    HeaderRow { version, ..row }
}

/// The row of the table `desk` with this version.
fn headers(rt: &impl Abort, alloc: Global, version: i64) -> Vec<HeaderRow> {
    let mut rows = Vec::new(alloc);
    let row = HeaderRow {
        id: 1,
        version,
        accepted: 20,
        clock: 1000,
    };
    rows.push(row).expect(rt, "memory");
    rows
}
