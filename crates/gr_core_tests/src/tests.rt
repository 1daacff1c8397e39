//! The tests of `gr_core`, a module for each subject, and `script` with the language of their
//! texts. Here: the first steps on a roll, which refusal is answered where several apply, and what
//! errors print.
use gr_core::{Memory, NoPlan, Refusal};
use gr_count::MAX_DEVELOPERS;
use script::follow;
use std::alloc::Global;
use std::fmt::{Debug, Display};
use std::process::Abort;

mod alike;
mod answer;
mod calls;
mod columns;
mod command;
mod dates;
mod discussion;
mod generated;
mod import;
mod intake;
mod introduction;
mod keys;
mod limits;
mod pairs;
mod refusals;
mod reload;
mod results;
mod rolls_and_tallies;
mod rows;
mod script;
mod sheets;
mod sheets_at_limits;
mod version_1;
mod votes;

/// 2026-01-01T00:00:00Z
const NEW_YEAR: u64 = 1_767_225_600;

/// 2099-12-31T23:59:59Z
const LAST: u64 = 4_102_444_799;

#[test]
fn commands_put_a_developer_on_the_roll(rt: HostRuntime) {
    follow(
        &rt,
        rt.alloc(),
        "
        roll 0 0
        NEW_YEAR developer alice|Alice Adams|current -> ok 1: alice header
        roll 1 NEW_YEAR alice|Alice Adams|current
        NEW_YEAR developer alice|Alice Baker|retired -> ok 2: alice header
        roll 2 NEW_YEAR alice|Alice Baker|retired
        ",
    );
}

#[test]
fn the_first_refusal_that_applies_is_answered(rt: HostRuntime) {
    follow(
        &rt,
        rt.alloc(),
        "
        NEW_YEAR developer alice|Alice Adams|current -> ok 1: alice header
        0 developer Alice||current -> refused 1 BadMoment
        LAST+1 developer Alice||current -> refused 1 BadMoment
        NEW_YEAR-1 developer Alice||current -> refused 2 ClockBack
        NEW_YEAR developer Alice||current -> refused 3 BadLogin
        NEW_YEAR developer ||current -> refused 3 BadLogin
        NEW_YEAR developer -a||current -> refused 3 BadLogin
        NEW_YEAR developer a+b||current -> refused 3 BadLogin
        NEW_YEAR developer alic\u{e9}||current -> refused 3 BadLogin
        NEW_YEAR developer alice||current -> refused 4 BadText
        NEW_YEAR developer alice|Alice\tAdams|current -> refused 4 BadText
        NEW_YEAR developer alice|Alice\u{7f}|current -> refused 4 BadText
        NEW_YEAR developer alice|Alice\u{85}|current -> refused 4 BadText
        NEW_YEAR developer 7|A|current -> ok 2: 7 header
        NEW_YEAR developer a.b_c-d|\u{a0}\u{fffd}|current -> ok 3: a.b_c-d header
        LAST developer alice|Alice Adams|current -> ok 4: alice header
        LAST-1 developer alice|Alice Adams|current -> refused 2 ClockBack
        totals 4 LAST 3
        # A full roll takes no new login.
        desk 2000
        totals 2000 2000 2000
        NEW_YEAR developer d2001|Dora Dean|retired -> refused 8 Full
        NEW_YEAR developer d2000|Dora Dean|retired -> ok 2001: d2000 header
        NEW_YEAR developer D2001|Dora Dean|retired -> refused 3 BadLogin
        totals 2001 NEW_YEAR 2000
        ",
    );
}

#[test]
fn errors_print_their_names(rt: HostRuntime) {
    let mut printed = String::new(rt.alloc());
    push_refusals(
        &rt,
        &mut printed,
        &[
            Refusal::BadMoment,
            Refusal::ClockBack,
            Refusal::BadLogin,
            Refusal::BadText,
            Refusal::BadRatio,
            Refusal::BadDays,
            Refusal::BadToken,
            Refusal::Full,
            Refusal::NoResolution,
            Refusal::NoChoice,
            Refusal::WrongStage,
            Refusal::Ended,
            Refusal::TooEarly,
            Refusal::NoDeveloper,
            Refusal::NotCurrent,
            Refusal::Lapsed,
            Refusal::Already,
            Refusal::NotSponsor,
            Refusal::HasProposer,
            Refusal::NoProposer,
            Refusal::EndsTooSoon,
            Refusal::BadRanks,
            Refusal::NotTied,
            Refusal::NotRevealed,
            Refusal::BadRoll { line: 4 },
            Refusal::BadRoll { line: 12 },
            Refusal::BadRoll { line: 1000 },
            Refusal::BadRoll { line: 2001 },
        ],
    );
    same(&rt, printed.as_str(), REFUSALS, "refusals");
    says_why(&rt, rt.alloc(), NoPlan::Memory, "out of memory");
    says_why(&rt, rt.alloc(), Memory, "out of memory");
}

/// Each line on which the bad row of an import can stand, after that of the names of the columns.
#[test]
fn bad_rows_print_their_lines(rt: HostRuntime) {
    for line in 2..=MAX_DEVELOPERS as usize + 1 {
        bad_row_prints(&rt, rt.alloc(), line);
    }
}

fn bad_row_prints(rt: &impl Abort, alloc: Global, line: usize) {
    let wanted = format!(in alloc; "BadRoll {line}").expect(rt, "memory");
    says_why(rt, alloc, Refusal::BadRoll { line }, wanted.as_str());
}

/// The text, as one that can be kept and added to.
fn owned(rt: &impl Abort, alloc: Global, text: &str) -> String {
    String::from_str(alloc, text).expect(rt, "memory")
}

/// Wants the text to be this one. Whoever compares texts does it here, since an assertion costs its
/// function a proof.
fn same(rt: &impl Abort, found: &str, wanted: &str, about: &str) {
    assert_eq!(rt; found, wanted, "{about}");
}

/// Wants the value to print so.
fn prints<T: Debug>(rt: &impl Abort, alloc: Global, value: &T, wanted: &str) {
    let printed = format!(in alloc; "{value:?}").expect(rt, "memory");
    same(rt, printed.as_str(), wanted, "as it prints itself");
}

/// Wants the reason to have these words.
fn says_why<T: Display + Drop>(rt: &impl Abort, alloc: Global, reason: T, wanted: &str) {
    let found = format!(in alloc; "{reason}").expect(rt, "memory");
    same(rt, found.as_str(), wanted, "a reason");
}

/// Adds a line for each refusal.
fn push_refusals(rt: &impl Abort, printed: &mut String, refusals: &[Refusal]) {
    for refusal in refusals {
        push_refusal(rt, printed, *refusal);
    }
}

/// Adds the number and the name of the refusal, and what it prints, also as the reason for which
/// there is no plan.
fn push_refusal(rt: &impl Abort, printed: &mut String, refusal: Refusal) {
    let number = refusal.number();
    let name = refusal.name();
    let reason = NoPlan::Refused(refusal);
    write!(printed, "{number} {name}: {refusal}, {reason}\n").expect(rt, "memory");
}

/// The lines of the refusals.
const REFUSALS: &str = "\
1 BadMoment: BadMoment, BadMoment
2 ClockBack: ClockBack, ClockBack
3 BadLogin: BadLogin, BadLogin
4 BadText: BadText, BadText
5 BadRatio: BadRatio, BadRatio
6 BadDays: BadDays, BadDays
7 BadToken: BadToken, BadToken
8 Full: Full, Full
9 NoResolution: NoResolution, NoResolution
10 NoChoice: NoChoice, NoChoice
11 WrongStage: WrongStage, WrongStage
12 Ended: Ended, Ended
13 TooEarly: TooEarly, TooEarly
14 NoDeveloper: NoDeveloper, NoDeveloper
15 NotCurrent: NotCurrent, NotCurrent
16 Lapsed: Lapsed, Lapsed
17 Already: Already, Already
18 NotSponsor: NotSponsor, NotSponsor
19 HasProposer: HasProposer, HasProposer
19 NoProposer: NoProposer, NoProposer
20 EndsTooSoon: EndsTooSoon, EndsTooSoon
21 BadRanks: BadRanks, BadRanks
22 NotTied: NotTied, NotTied
24 NotRevealed: NotRevealed, NotRevealed
23 BadRoll: BadRoll 4, BadRoll 4
23 BadRoll: BadRoll 12, BadRoll 12
23 BadRoll: BadRoll 1000, BadRoll 1000
23 BadRoll: BadRoll 2001, BadRoll 2001
";
