//! Sheets of a desk at its limits: the longest texts, and as many sponsors and ballots as there may
//! be.
//!
//! The receipts that are written out are those of the command `sha256sum`.
use super::NEW_YEAR;
use super::command::{command_of, cut};
use super::script::{Script, follow, follow_over};
use std::alloc::Global;
use std::process::Abort;

#[test]
fn a_status_shows_the_longest_texts(rt: HostRuntime) {
    follow(&rt, rt.alloc(), LONGEST_TEXTS);
}

#[test]
fn a_status_shows_every_sponsor(rt: HostRuntime) {
    follow_over(&rt, rt.alloc(), SPONSORS, EVERYBODY_SPONSORS);
}

/// Eight texts of 20,000 bytes each: of one line; of line feeds alone; of short lines; of letters
/// of four bytes; of line feeds before a letter, and after one; with tabs and carriage returns;
/// and with spaces at the ends of lines.
const LONGEST_TEXTS: &str = "
    +0 propose @leader|One line|{a*20000}|1 -> accepted
    +0 add 1|@committee|Line feeds|{^20000}|2 -> accepted
    +0 add 1|@leader|Short lines|{word^4000}|3 -> accepted
    +0 add 1|@committee|Faces|{\u{1f600}*5000}|4 -> accepted
    +0 add 1|@leader|A letter last|{^19999}b|5 -> accepted
    +0 add 1|@committee|A letter first|b{^19999}|6 -> accepted
    +0 add 1|@leader|Tabs and returns|{\ta\r^5000}|7 -> accepted
    +0 add 1|@committee|{\u{1f600}*80}|{abc ^4000}|8 -> accepted
    | Resolution 1
    | Stage: Discussing
    | Discussion: 2026-01-01T00:00:00Z to 2026-01-15T00:00:00Z
    | Choice 1: One line
    | Ratio: 1
    | Proposer: leader
    | Sponsors: 0
    | Introduced: 2026-01-01T00:00:00Z
    | Short since: no
    | Place: none
    | | {a*20000}
    | Choice 2: Line feeds
    | Ratio: 2
    | Proposer: committee
    | Sponsors: 0
    | Introduced: 2026-01-01T00:00:00Z
    | Short since: no
    | Place: none
    | {| ^19999}|{ *1}
    | Choice 3: Short lines
    | Ratio: 3
    | Proposer: leader
    | Sponsors: 0
    | Introduced: 2026-01-01T00:00:00Z
    | Short since: no
    | Place: none
    | {| word^3999}| word
    | Choice 4: Faces
    | Ratio: 4
    | Proposer: committee
    | Sponsors: 0
    | Introduced: 2026-01-01T00:00:00Z
    | Short since: no
    | Place: none
    | | {\u{1f600}*5000}
    | Choice 5: A letter last
    | Ratio: 5
    | Proposer: leader
    | Sponsors: 0
    | Introduced: 2026-01-01T00:00:00Z
    | Short since: no
    | Place: none
    | {| ^19999}| b
    | Choice 6: A letter first
    | Ratio: 6
    | Proposer: committee
    | Sponsors: 0
    | Introduced: 2026-01-01T00:00:00Z
    | Short since: no
    | Place: none
    | | b
    | {| ^19997}|{ *1}
    | Choice 7: Tabs and returns
    | Ratio: 7
    | Proposer: leader
    | Sponsors: 0
    | Introduced: 2026-01-01T00:00:00Z
    | Short since: no
    | Place: none
    | {| \ta\r^4999}| \ta{\r*1}
    | Choice 8: {\u{1f600}*80}
    | Ratio: 8
    | Proposer: committee
    | Sponsors: 0
    | Introduced: 2026-01-01T00:00:00Z
    | Short since: no
    | Place: none
    | {| abc ^3999}| abc{ *1}
    sheet status 1
    ";

/// All developers but one sponsor a choice of the Leader's.
const SPONSORS: &str = "
    desk|1|2|4001|1767225600
    resolution|1|1|1767225600|0|0|0|0|0|0
    choice|1|1|2||Red|a|1|1767225600|0|0
    {developer|d%|Dora Dean|1\n#1-9}
    {developer|d%|Dora Dean|1\n#1001-2991}
    {sponsor|1|1|d%|1\n#1-9}
    {sponsor|1|1|d%|1\n#1001-1999}
    {sponsor|1|1|d%|1\n#2001-2991}
";

/// The last one joins. The sponsors stand in the order of the bytes of their logins.
const EVERYBODY_SPONSORS: &str = "
    +0 developer d10|Dora Dean|current -> refused 8 Full
    +0 sponsor 1.1|d2000 -> accepted
    | Resolution 1
    | Stage: Discussing
    | Discussion: 2026-01-01T00:00:00Z to 2026-01-15T00:00:00Z
    | Choice 1: Red
    | Ratio: 1
    | Proposer: leader
    | Sponsors: 2000 d1{ d%#1001-1999} d2{ d%#2000-2991}{ d%#3-9}
    | Introduced: 2026-01-01T00:00:00Z
    | Short since: no
    | Place: none
    | | a
    sheet status 1
    ";

/// Each of 2,000 ballots stands in the tally once, with the receipt that its voter got.
#[test]
fn a_tally_has_each_receipt_once(rt: HostRuntime) {
    let mut script = Script::new(rt.alloc());
    script.take_lines(&rt, CALLED);
    let lines = tally_lines(&rt, rt.alloc(), &mut script);
    assert!(rt; lines.as_str().starts_with(FIRST_BALLOT));
    assert!(rt; lines.as_str().ends_with(LAST_BALLOT));
    script.take_lines(&rt, TALLY);
    script.take_lines(&rt, lines.as_str());
    script.take_lines(&rt, "sheet tally 1");
}

/// Has everybody vote, and gives the lines of the tally for these ballots, as steps.
fn tally_lines(rt: &impl Abort, alloc: Global, script: &mut Script) -> String {
    let mut ballots = Vec::new(alloc);
    for number in 1..=2_000 {
        ballots
            .push(voted(rt, alloc, script, number))
            .expect(rt, "memory");
    }
    ballots.sort_unstable();
    ballot_lines(rt, alloc, &ballots)
}

const CALLED: &str = "
    desk 2000
    +0 propose @leader|C1|a|1 -> accepted
    each 2 8 +0 add 1|@leader|C%|a|1 -> accepted
    +1209600 call 1|14 -> accepted
    ";

const TALLY: &str = "
    +2419200 close 1 -> accepted
    | Tally of resolution 1
    | Option 1: C1
    | Option 2: C2
    | Option 3: C3
    | Option 4: C4
    | Option 5: C5
    | Option 6: C6
    | Option 7: C7
    | Option 8: C8
    | Option 9: None of the above
    | Ballots: 2000
";

/// The SHA-256 of `1`, `d998` and `token00998`, with a line feed after each.
const FIRST_BALLOT: &str =
    "| V: 111111119 005cd29d86ac06db5c7f0ec9f6067eee9b59d2cdb7c97ae280887f550363acff\n";

/// That of `1`, `d911` and `token00911`.
const LAST_BALLOT: &str =
    "| V: 111111119 fff0fd39b8fb91adda6e8438a4e8b9af301556589192ac2b407cd884ac7aa73c\n";

/// Has the developer with this number vote, and gives the receipt, a space, and the ranks.
fn voted(rt: &impl Abort, alloc: Global, script: &mut Script, number: u64) -> String {
    let ranks = match number % 3 {
        0 => "12345678-",
        1 => "-87654321",
        _ => "111111119",
    };
    let step = format!(in alloc; "vote 1|d{number}|{ranks}|token00{number}").expect(rt, "memory");
    let answer = answer_of(rt, alloc, script, step.as_str());
    let receipt = receipt_in(rt, answer.as_str());
    format!(in alloc; "{receipt} {ranks}").expect(rt, "memory")
}

/// What the desk answers to the vote of this step.
fn answer_of(rt: &impl Abort, alloc: Global, script: &mut Script, step: &str) -> String {
    let command = command_of(rt, alloc, step);
    script.answer_of(rt, NEW_YEAR + 1_209_600, &command, step)
}

/// The receipt in the answer to a vote.
fn receipt_in<'w>(rt: &impl Abort, answer: &'w str) -> &'w str {
    let (_, receipt) = cut(rt, answer, " receipt ");
    let (receipt, _) = cut(rt, receipt, ":");
    receipt
}

/// The lines of a tally for these ballots, as steps.
fn ballot_lines(rt: &impl Abort, alloc: Global, ballots: &[String]) -> String {
    let mut lines = String::new(alloc);
    for ballot in ballots {
        let (receipt, ranks) = cut(rt, ballot.as_str(), " ");
        write!(lines, "| V: {ranks} {receipt}\n").expect(rt, "memory");
    }
    lines
}
