//! Desks that differ in a ballot of a vote that is not closed, and are alike in all else.
use super::script::follow;

/// One vote with other ranks: the preference counts differ, the replies and the sheets do not.
#[test]
fn other_ranks_leave_an_alike_desk(rt: HostRuntime) {
    for (ranks, pairs) in [("12", "1:0"), ("21", "0:1"), ("--", "0:0")] {
        let steps = format!(in rt.alloc();
            "{CALLED}{VOTE}{ranks}{ANSWER}pairs 1 1 {pairs}\n{SHOWN}"
        );
        follow(&rt, rt.alloc(), steps.expect(&rt, "memory").as_str());
    }
}

const CALLED: &str = "
    desk 1
    +0 propose @leader|Red|a|1 -> accepted
    +1209600 call 1|14 -> accepted
    ";

/// What stands before the ranks of the vote, and after them. The receipt is that of the command
/// `sha256sum`.
const VOTE: &str = "+1209600 vote 1|d1|";

const ANSWER: &str = "|tokenA01 -> ok 4 \
    receipt 900eb73ab7e42d7eb72f6524157a5dfa609a0f27b79f9c9ac235cd6931258b07: \
    ballot:1:d1=2,900eb73ab7e42d7eb72f6524157a5dfa609a0f27b79f9c9ac235cd6931258b07,1 header
    ";

/// What each of the desks shows and answers.
const SHOWN: &str = "
    totals 4 +1209600 1
    roll 4 +1209600 d1|Dora Dean|current
    outcome 1 none
    | Resolution 1
    | Stage: Voting
    | Discussion: 2026-01-01T00:00:00Z to 2026-01-15T00:00:00Z
    | Voting: 2026-01-15T00:00:00Z to 2026-01-29T00:00:00Z
    | Developers: 1
    | Choice 1: Red
    | Ratio: 1
    | Proposer: leader
    | Sponsors: 0
    | Introduced: 2026-01-01T00:00:00Z
    | Short since: no
    | Place: 1
    | | a
    sheet status 1
    | refused 24 NotRevealed
    sheet tally 1
    | refused 24 NotRevealed
    sheet result 1
    +1209600 vote 1|d2|12|tokenA01 -> refused 14 NoDeveloper
    +1209600 close 1 -> refused 13 TooEarly
    +1209600 cast 1|1 -> refused 11 WrongStage
    +1209601 developer d2|Dora Dean|current -> ok 5: d2 header
    ";
