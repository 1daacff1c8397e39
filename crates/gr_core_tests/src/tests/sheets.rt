//! Sheets, line by line, as they were written by hand. The receipts are those of the command
//! `sha256sum`.
use super::script::{follow, follow_all};

/// The status of a resolution under discussion, whose first choice has a text of three lines, the
/// second of them empty; and that of a draft, with a text of one line feed.
#[test]
fn statuses_have_their_lines(rt: HostRuntime) {
    follow(&rt, rt.alloc(), STATUSES);
}

const STATUSES: &str = "
    desk 16
    | refused 9 NoResolution
    sheet status 1
    +0 propose d1|Red|{First line^1}{^1}{Third line^1}|3 -> accepted
    +0 sponsor 1.1|d3 -> accepted
    +0 sponsor 1.1|d2 -> accepted
    | Resolution 1
    | Stage: Discussing
    | Discussion: 2026-01-01T00:00:00Z to 2026-01-15T00:00:00Z
    | Choice 1: Red
    | Ratio: 3
    | Proposer: developer d1
    | Sponsors: 2 d2 d3
    | Introduced: 2026-01-01T00:00:00Z
    | Short since: no
    | Place: none
    | | First line
    | |{ *1}
    | | Third line
    sheet status 1
    +0 propose d2|Green|{^1}|1 -> accepted
    | Resolution 2
    | Stage: Draft
    | Choice 1: Green
    | Ratio: 1
    | Proposer: developer d2
    | Sponsors: 0
    | Introduced: no
    | Short since: no
    | Place: none
    | |{ *1}
    sheet status 2
    +1 unsponsor 1.1|d3 -> accepted
    +1 withdraw 1.1 -> accepted
    | refused 24 NotRevealed
    sheet tally 1
    | refused 24 NotRevealed
    sheet result 1
    | refused 9 NoResolution
    sheet tally 3
    | Resolution 1
    | Stage: Discussing
    | Discussion: 2026-01-01T00:00:00Z to 2026-01-15T00:00:00Z
    | Choice 1: Red
    | Ratio: 3
    | Proposer: none
    | Sponsors: 1 d2
    | Introduced: 2026-01-01T00:00:00Z
    | Short since: 2026-01-01T00:00:01Z
    | Place: none
    | | First line
    | |{ *1}
    | | Third line
    sheet status 1
    ";

/// Whole votes: their status, their tallies and their results.
#[test]
fn votes_have_their_sheets(rt: HostRuntime) {
    for (developers, ballots, retirements, sheets) in [
        ("desk 16", CYCLE, "", CYCLE_SHEETS),
        ("desk 16", CYCLE, RETIREMENTS, CYCLE_SHEETS),
        ("desk 16", OPPOSITION, "", OPPOSITION_SHEETS),
        ("desk 4", TIE, "", TIE_SHEETS),
    ] {
        let steps = [
            developers,
            THREE_CHOICES,
            ballots,
            retirements,
            CLOSE,
            sheets,
        ];
        follow_all(&rt, rt.alloc(), &steps);
    }
    for steps in [NO_BALLOTS, LAST_BALLOT, SCRIPT] {
        follow(&rt, rt.alloc(), steps);
    }
}

/// Three choices of the Leader's, called for two weeks.
const THREE_CHOICES: &str = "
    +0 propose @leader|Red|a|1 -> accepted
    +0 add 1|@leader|Green|b|1 -> accepted
    +0 add 1|@leader|Blue|c|1 -> accepted
    +1209600 call 1|14 -> accepted
    | refused 24 NotRevealed
    sheet tally 1
    | refused 24 NotRevealed
    sheet result 1
    ";

/// Each choice beats one of the others.
const CYCLE: &str = "
    each 1 4 +1209600 vote 1|d%|1234|tokenA0% -> accepted
    each 5 7 +1209600 vote 1|d%|3124|tokenA0% -> accepted
    each 8 9 +1209600 vote 1|d%|2314|tokenA0% -> accepted
    ";

/// Eight developers retire after the votes: the result is the same.
const RETIREMENTS: &str = "
    each 9 16 +1209600 developer d%|Dora Dean|retired -> accepted
    ";

const CLOSE: &str = "
    +2419200 close 1 -> accepted
    ";

const CYCLE_SHEETS: &str = "
    | Result of resolution 1
    | Voting: 2026-01-15T00:00:00Z to 2026-01-29T00:00:00Z
    | Developers: 16
    | Ballots: 9
    | Received: 9
    | Option 1: Red
    | Option 2: Green
    | Option 3: Blue
    | Option 4: None of the above
    | Test 1: above 9, below 0, ratio 1, quorum met, majority met, kept
    | Test 2: above 9, below 0, ratio 1, quorum met, majority met, kept
    | Test 3: above 9, below 0, ratio 1, quorum met, majority met, kept
    | Pair 1 2: 6 3
    | Pair 1 3: 4 5
    | Pair 1 4: 9 0
    | Pair 2 3: 7 2
    | Pair 2 4: 9 0
    | Pair 3 4: 9 0
    | Round 1: drop 3>1 5:4
    | Schwartz: 1
    | Winner: 1
    sheet result 1
    ";

/// Two defeats have the same number in favour, and one of them more against it.
const OPPOSITION: &str = "
    each 1 3 +1209600 vote 1|d%|1234|tokenA0% -> accepted
    each 4 6 +1209600 vote 1|d%|3124|tokenA0% -> accepted
    each 7 9 +1209600 vote 1|d%|2314|tokenA0% -> accepted
    +1209600 vote 1|d10|1224|tokenA10 -> accepted
    ";

const OPPOSITION_SHEETS: &str = "
    | Result of resolution 1
    | Voting: 2026-01-15T00:00:00Z to 2026-01-29T00:00:00Z
    | Developers: 16
    | Ballots: 10
    | Received: 10
    | Option 1: Red
    | Option 2: Green
    | Option 3: Blue
    | Option 4: None of the above
    | Test 1: above 10, below 0, ratio 1, quorum met, majority met, kept
    | Test 2: above 10, below 0, ratio 1, quorum met, majority met, kept
    | Test 3: above 10, below 0, ratio 1, quorum met, majority met, kept
    | Pair 1 2: 7 3
    | Pair 1 3: 4 6
    | Pair 1 4: 10 0
    | Pair 2 3: 6 3
    | Pair 2 4: 10 0
    | Pair 3 4: 10 0
    | Round 1: drop 3>1 6:4
    | Schwartz: 1
    | Winner: 1
    sheet result 1
    ";

/// Among four developers three vote, and the casting vote chooses.
const TIE: &str = "
    +1209600 vote 1|d1|1234|tokenA01 -> accepted
    +1209600 vote 1|d2|3124|tokenA02 -> accepted
    +1209600 vote 1|d3|2314|tokenA03 -> accepted
    ";

const TIE_SHEETS: &str = "
    | Result of resolution 1
    | Voting: 2026-01-15T00:00:00Z to 2026-01-29T00:00:00Z
    | Developers: 4
    | Ballots: 3
    | Received: 3
    | Option 1: Red
    | Option 2: Green
    | Option 3: Blue
    | Option 4: None of the above
    | Test 1: above 3, below 0, ratio 1, quorum met, majority met, kept
    | Test 2: above 3, below 0, ratio 1, quorum met, majority met, kept
    | Test 3: above 3, below 0, ratio 1, quorum met, majority met, kept
    | Pair 1 2: 2 1
    | Pair 1 3: 1 2
    | Pair 1 4: 3 0
    | Pair 2 3: 2 1
    | Pair 2 4: 3 0
    | Pair 3 4: 3 0
    | Round 1: drop 1>2 2:1, 2>3 2:1, 3>1 2:1
    | Schwartz: 1 2 3
    | Casting vote needed
    sheet result 1
    +2419200 cast 1|2 -> accepted
    | Result of resolution 1
    | Voting: 2026-01-15T00:00:00Z to 2026-01-29T00:00:00Z
    | Developers: 4
    | Ballots: 3
    | Received: 3
    | Option 1: Red
    | Option 2: Green
    | Option 3: Blue
    | Option 4: None of the above
    | Test 1: above 3, below 0, ratio 1, quorum met, majority met, kept
    | Test 2: above 3, below 0, ratio 1, quorum met, majority met, kept
    | Test 3: above 3, below 0, ratio 1, quorum met, majority met, kept
    | Pair 1 2: 2 1
    | Pair 1 3: 1 2
    | Pair 1 4: 3 0
    | Pair 2 3: 2 1
    | Pair 2 4: 3 0
    | Pair 3 4: 3 0
    | Round 1: drop 1>2 2:1, 2>3 2:1, 3>1 2:1
    | Schwartz: 1 2 3
    | Winner: 2 by casting vote
    sheet result 1
    ";

/// Nobody votes, and the default option wins.
const NO_BALLOTS: &str = "
    desk 16
    +0 propose @leader|Red|a|1 -> accepted
    +1209600 call 1|14 -> accepted
    +2419200 close 1 -> accepted
    | Tally of resolution 1
    | Option 1: Red
    | Option 2: None of the above
    | Ballots: 0
    sheet tally 1
    | Result of resolution 1
    | Voting: 2026-01-15T00:00:00Z to 2026-01-29T00:00:00Z
    | Developers: 16
    | Ballots: 0
    | Received: 0
    | Option 1: Red
    | Option 2: None of the above
    | Test 1: above 0, below 0, ratio 1, quorum failed, majority failed, dropped
    | Schwartz: 2
    | Winner: 2
    sheet result 1
    ";

/// One developer votes three times, and the last ballot stands.
const LAST_BALLOT: &str = "
    desk 16
    +0 propose @leader|Red|a|1 -> accepted
    +1209600 call 1|14 -> accepted
    +1209600 vote 1|d1|12|tokenA01 -> accepted
    +1209600 vote 1|d1|21|tokenA02 -> accepted
    +1209600 vote 1|d1|1-|tokenA03 -> accepted
    +2419200 close 1 -> accepted
    | Tally of resolution 1
    | Option 1: Red
    | Option 2: None of the above
    | Ballots: 1
    | V: 1- d91f3b11f18086717d24afd335154a14c7b6de5a4555de1ba614fd06bbe9a2d8
    sheet tally 1
    | Result of resolution 1
    | Voting: 2026-01-15T00:00:00Z to 2026-01-29T00:00:00Z
    | Developers: 16
    | Ballots: 1
    | Received: 3
    | Option 1: Red
    | Option 2: None of the above
    | Test 1: above 1, below 0, ratio 1, quorum failed, majority met, dropped
    | Schwartz: 2
    | Winner: 2
    sheet result 1
    ";

/// Each kind of command once at least, up to a casting vote.
const SCRIPT: &str = "
    +0 developer d1|One|current -> accepted
    +0 import d2|Two|current;d3|Three|current;d4|Four|current -> accepted
    +0 propose d1|Red|a|1 -> accepted
    +0 sponsor 1.1|d2 -> accepted
    +0 add 1|@leader|Green|b|1 -> accepted
    +0 withdraw 1.2 -> accepted
    +0 adopt 1.2|@committee -> accepted
    +0 unsponsor 1.1|d2 -> accepted
    +0 sponsor 1.1|d2 -> accepted
    +0 amend 1.1|minor|Red|new -> accepted
    +0 vary 1|0 -> accepted
    +1209600 call 1|7 -> accepted
    +1209600 vote 1|d1|113|tokenA01 -> accepted
    +1209600 vote 1|d2|113|tokenA02 -> accepted
    +1209600 vote 1|d3|131|tokenA03 -> accepted
    +1209600 vote 1|d3|113|tokenA04 -> accepted
    +1814400 close 1 -> accepted
    +1814400 cast 1|1 -> accepted
    | Developers: 4
    | Current: 4
    | D: d1 current One
    | D: d2 current Two
    | D: d3 current Three
    | D: d4 current Four
    sheet roll 0
    | Resolution 1
    | Stage: Closed
    | Discussion: 2026-01-01T00:00:00Z to 2026-01-15T00:00:00Z
    | Voting: 2026-01-15T00:00:00Z to 2026-01-22T00:00:00Z
    | Developers: 4
    | Choice 1: Red
    | Ratio: 1
    | Proposer: developer d1
    | Sponsors: 1 d2
    | Introduced: 2026-01-01T00:00:00Z
    | Short since: no
    | Place: 1
    | | new
    | Choice 2: Green
    | Ratio: 1
    | Proposer: committee
    | Sponsors: 0
    | Introduced: 2026-01-01T00:00:00Z
    | Short since: no
    | Place: 2
    | | b
    sheet status 1
    | Tally of resolution 1
    | Option 1: Red
    | Option 2: Green
    | Option 3: None of the above
    | Ballots: 3
    | V: 113 0bc67ed616cd49fd22e8558b7970e6c7cb8c03787029353c747f230a0db7d208
    | V: 113 900eb73ab7e42d7eb72f6524157a5dfa609a0f27b79f9c9ac235cd6931258b07
    | V: 113 921e9e589da0a2af233149c221978bdcc2592cd63c52284e55c350b0aac3bdfa
    sheet tally 1
    | Result of resolution 1
    | Voting: 2026-01-15T00:00:00Z to 2026-01-22T00:00:00Z
    | Developers: 4
    | Ballots: 3
    | Received: 4
    | Option 1: Red
    | Option 2: Green
    | Option 3: None of the above
    | Test 1: above 3, below 0, ratio 1, quorum met, majority met, kept
    | Test 2: above 3, below 0, ratio 1, quorum met, majority met, kept
    | Pair 1 2: 0 0
    | Pair 1 3: 3 0
    | Pair 2 3: 3 0
    | Schwartz: 1 2
    | Winner: 1 by casting vote
    sheet result 1
    ";
