//! A desk that is kept as rows and made of them again, by the public calls alone.
use super::rows::no_rows;
use gr_core::{
    BallotRow, ChoiceKey, ChoiceRow, Desk, DeveloperRow, Header, HeaderRow, MAX_RESOLUTIONS,
    ResolutionRow, Rows, SponsorRow, VERSION,
};
use std::alloc::Global;
use std::process::Abort;

/// The desk that the rows of this one make.
pub(super) fn reloaded(rt: &impl Abort, alloc: Global, desk: &Desk) -> Desk {
    let mut rows = no_rows(alloc);
    push_header(rt, &mut rows, desk);
    push_developers(rt, alloc, &mut rows, desk);
    for number in 1..=MAX_RESOLUTIONS as u32 {
        push_resolution(rt, alloc, &mut rows, desk, number);
    }
    Desk::from_rows(alloc, rows).expect(rt, "a desk")
}

fn push_header(rt: &impl Abort, rows: &mut Rows, desk: &Desk) {
    let header = Header {
        version: VERSION,
        accepted: desk.accepted(),
        clock: desk.clock(),
    };
    let row = HeaderRow::of(header).expect(rt, "a row");
    rows.desk.push(row).expect(rt, "memory");
}

fn push_developers(rt: &impl Abort, alloc: Global, rows: &mut Rows, desk: &Desk) {
    for (login, developer) in desk.developers() {
        let row = DeveloperRow::of(alloc, login.as_str(), developer).expect(rt, "memory");
        rows.developers.push(row).expect(rt, "memory");
    }
}

/// The resolution, if there is one, with its choices and ballots.
fn push_resolution(rt: &impl Abort, alloc: Global, rows: &mut Rows, desk: &Desk, number: u32) {
    if let Some(resolution) = desk.resolution(number) {
        let row = ResolutionRow::of(number, resolution).expect(rt, "a row");
        rows.resolutions.push(row).expect(rt, "memory");
        push_choices(rt, alloc, rows, desk, number);
        push_ballots(rt, alloc, rows, desk, number);
    }
}

/// The choices of the resolution, each with its sponsors.
fn push_choices(rt: &impl Abort, alloc: Global, rows: &mut Rows, desk: &Desk, number: u32) {
    for (key, choice) in desk.choices(number) {
        let row = ChoiceRow::of(alloc, *key, choice).expect(rt, "a row");
        rows.choices.push(row).expect(rt, "memory");
        push_sponsors(rt, alloc, rows, desk, *key);
    }
}

fn push_sponsors(rt: &impl Abort, alloc: Global, rows: &mut Rows, desk: &Desk, key: ChoiceKey) {
    if let Some(sponsors) = desk.sponsors(key) {
        for (login, sponsorship) in sponsors {
            let row = SponsorRow::of(alloc, key, login.as_str(), *sponsorship).expect(rt, "a row");
            rows.sponsors.push(row).expect(rt, "memory");
        }
    }
}

fn push_ballots(rt: &impl Abort, alloc: Global, rows: &mut Rows, desk: &Desk, number: u32) {
    if let Some(ballots) = desk.ballots(number) {
        for (login, ballot) in ballots {
            let row = BallotRow::of(alloc, number, login.as_str(), ballot).expect(rt, "a row");
            rows.ballots.push(row).expect(rt, "memory");
        }
    }
}
