//! The rows of the six tables, column by column: what the desk has on the left, and on the right
//! the row that stands for it, as it prints itself.
use super::{NEW_YEAR, owned, prints, says_why};
use gr_core::{
    Ballot, BallotRow, Choice, ChoiceKey, ChoiceRow, Developer, DeveloperRow, Discussion, Header,
    HeaderRow, NoRow, Poll, Proposer, Receipt, Resolution, ResolutionRow, SponsorRow, Sponsorship,
    Standing, Unfit, Wording,
};
use gr_count::Ranks;
use std::alloc::Global;
use std::process::Abort;

/// The first number that is too great for a column.
const TOO_GREAT: u64 = 9_223_372_036_854_775_808;

const HEADER: Header = Header {
    version: 1,
    accepted: 7,
    clock: NEW_YEAR,
};

#[test]
fn headers_have_rows(rt: HostRuntime) {
    let late = Header {
        clock: TOO_GREAT,
        ..HEADER
    };
    for (header, row) in [
        (
            HEADER,
            "Ok(HeaderRow { id: 1, version: 1, accepted: 7, clock: 1767225600 })",
        ),
        (late, "Err(TooGreat)"),
    ] {
        prints(&rt, rt.alloc(), &HeaderRow::of(header), row);
    }
}

#[test]
fn developers_have_rows(rt: HostRuntime) {
    for (standing, row) in [
        (
            Standing::Current,
            "DeveloperRow { login: \"alice\", name: \"Alice Adams\", active: 1 }",
        ),
        (
            Standing::Retired,
            "DeveloperRow { login: \"alice\", name: \"Alice Adams\", active: 0 }",
        ),
    ] {
        has_row(&rt, rt.alloc(), standing, row);
    }
}

/// Wants a developer of this standing to have this row.
fn has_row(rt: &impl Abort, alloc: Global, standing: Standing, row: &str) {
    let developer = Developer {
        name: owned(rt, alloc, "Alice Adams"),
        standing,
    };
    let found = DeveloperRow::of(alloc, "alice", &developer).expect(rt, "memory");
    prints(rt, alloc, &found, row);
}

/// The columns of a row of the table `resolution`, in their order.
fn columns(row: ResolutionRow) -> [i64; 9] {
    [
        row.number,
        row.stage,
        row.start,
        row.changed,
        row.shift,
        row.called,
        row.days,
        row.devs,
        row.chosen,
    ]
}

const BEGUN: Discussion = Discussion {
    start: NEW_YEAR,
    changed: None,
    shift: -3,
};

const CHANGED: Discussion = Discussion {
    start: NEW_YEAR,
    changed: Some(NEW_YEAR + 60),
    shift: 7,
};

const LATE: Discussion = Discussion {
    start: TOO_GREAT,
    ..BEGUN
};

const POLL: Poll = Poll {
    called: NEW_YEAR + 120,
    days: 14,
    developers: 100,
};

#[test]
fn resolutions_have_rows(rt: HostRuntime) {
    for (resolution, row) in [
        (Resolution::Draft, "Ok([3, 0, 0, 0, 0, 0, 0, 0, 0])"),
        (
            Resolution::Discussing(BEGUN),
            "Ok([3, 1, 1767225600, 0, -3, 0, 0, 0, 0])",
        ),
        (
            Resolution::Discussing(CHANGED),
            "Ok([3, 1, 1767225600, 1767225660, 7, 0, 0, 0, 0])",
        ),
        (
            Resolution::Voting(BEGUN, POLL),
            "Ok([3, 2, 1767225600, 0, -3, 1767225720, 14, 100, 0])",
        ),
        (
            Resolution::Closed(BEGUN, POLL, None),
            "Ok([3, 3, 1767225600, 0, -3, 1767225720, 14, 100, 0])",
        ),
        (
            Resolution::Closed(BEGUN, POLL, Some(2)),
            "Ok([3, 3, 1767225600, 0, -3, 1767225720, 14, 100, 2])",
        ),
        (
            Resolution::Cancelled(BEGUN),
            "Ok([3, 4, 1767225600, 0, -3, 0, 0, 0, 0])",
        ),
        (Resolution::Discussing(LATE), "Err(TooGreat)"),
    ] {
        has_columns(&rt, rt.alloc(), resolution, row);
    }
}

/// Wants the resolution to have these columns.
fn has_columns(rt: &impl Abort, alloc: Global, resolution: Resolution, wanted: &str) {
    let found = ResolutionRow::of(3, resolution).map(columns);
    prints(rt, alloc, &found, wanted);
}

/// The key of the second choice of the third resolution.
const KEY: ChoiceKey = ChoiceKey {
    resolution: 3,
    number: 2,
};

/// A choice with this proposer, these moments and this place.
fn choice(
    rt: &impl Abort,
    alloc: Global,
    proposer: Option<Proposer>,
    introduced: Option<u64>,
    short: Option<u64>,
    place: Option<u32>,
) -> Choice {
    let wording = Wording {
        summary: owned(rt, alloc, "Free beer"),
        text: owned(rt, alloc, "Beer is free.\n"),
    };
    Choice {
        proposer,
        wording,
        ratio: 3,
        introduced,
        short,
        place,
    }
}

/// Wants a choice of nobody's with these moments and this place to have this row.
fn has_choice_row(
    rt: &impl Abort,
    alloc: Global,
    introduced: Option<u64>,
    short: Option<u64>,
    place: Option<u32>,
    row: &str,
) {
    let choice = choice(rt, alloc, None, introduced, short, place);
    prints(rt, alloc, &ChoiceRow::of(alloc, KEY, &choice), row);
}

#[test]
fn choices_have_rows(rt: HostRuntime) {
    for (introduced, short, place, row) in [
        (
            Some(NEW_YEAR),
            Some(NEW_YEAR + 60),
            Some(1),
            "Ok(ChoiceRow { resolution: 3, number: 2, kind: 0, proposer: \"\", \
             summary: \"Free beer\", body: \"Beer is free.\\n\", ratio: 3, \
             introduced: 1767225600, short: 1767225660, place: 1 })",
        ),
        (
            None,
            None,
            None,
            "Ok(ChoiceRow { resolution: 3, number: 2, kind: 0, proposer: \"\", \
             summary: \"Free beer\", body: \"Beer is free.\\n\", ratio: 3, \
             introduced: 0, short: 0, place: 0 })",
        ),
    ] {
        has_choice_row(&rt, rt.alloc(), introduced, short, place, row);
    }
}

#[test]
fn proposers_have_columns(rt: HostRuntime) {
    let alice = Proposer::Developer(owned(&rt, rt.alloc(), "alice"));
    has_proposer_columns(&rt, rt.alloc(), None, "(0, \"\")");
    has_proposer_columns(&rt, rt.alloc(), Some(alice), "(1, \"alice\")");
    has_proposer_columns(&rt, rt.alloc(), Some(Proposer::Leader), "(2, \"\")");
    has_proposer_columns(&rt, rt.alloc(), Some(Proposer::Committee), "(3, \"\")");
}

/// Wants the row of a choice of this proposer to have these columns for it.
fn has_proposer_columns(rt: &impl Abort, alloc: Global, proposer: Option<Proposer>, columns: &str) {
    let choice = choice(rt, alloc, proposer, None, None, None);
    let row = ChoiceRow::of(alloc, KEY, &choice).expect(rt, "a row");
    prints(rt, alloc, &(row.kind, row.proposer), columns);
}

#[test]
fn moments_can_be_too_great(rt: HostRuntime) {
    for (introduced, short) in [(Some(TOO_GREAT), None), (None, Some(TOO_GREAT))] {
        has_choice_row(&rt, rt.alloc(), introduced, short, None, "Err(TooGreat)");
    }
    says_why(
        &rt,
        rt.alloc(),
        NoRow::TooGreat,
        "a number is too great for a column",
    );
    says_why(&rt, rt.alloc(), NoRow::Memory, "out of memory");
}

#[test]
fn unfit_rows_say_why(rt: HostRuntime) {
    says_why(&rt, rt.alloc(), Unfit::Damaged, "the rows of no valid desk");
    says_why(&rt, rt.alloc(), Unfit::Memory, "out of memory");
}

#[test]
fn sponsors_have_rows(rt: HostRuntime) {
    for (sponsorship, row) in [
        (
            Sponsorship::Active,
            "Ok(SponsorRow { resolution: 3, choice: 2, login: \"bob\", active: 1 })",
        ),
        (
            Sponsorship::Withdrawn,
            "Ok(SponsorRow { resolution: 3, choice: 2, login: \"bob\", active: 0 })",
        ),
    ] {
        let found = SponsorRow::of(rt.alloc(), KEY, "bob", sponsorship);
        prints(&rt, rt.alloc(), &found, row);
    }
}

/// The ranks that the text says.
fn ranks(rt: &impl Abort, text: &str) -> Ranks {
    let ranks = Ranks::read(text.as_bytes(), 3).ok();
    ranks.expect(rt, "the text is a ballot")
}

#[test]
fn ballots_have_rows(rt: HostRuntime) {
    let mut digest = [0; 32];
    digest[0] = 0x0f;
    digest[31] = 0xa9;
    let ballot = Ballot {
        ranks: ranks(&rt, "2-1"),
        receipt: Receipt { digest },
        received: 7,
    };
    let row = BallotRow::of(rt.alloc(), 3, "carol", &ballot);
    prints(
        &rt,
        rt.alloc(),
        &row,
        "Ok(BallotRow { resolution: 3, login: \"carol\", ranks: \"2-1\", receipt: \
         \"0f000000000000000000000000000000000000000000000000000000000000a9\", received: 7 })",
    );
}
