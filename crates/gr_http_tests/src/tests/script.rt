//! Whole courses of a desk, as requests to one office: the script of eighteen, from the first
//! developer to the casting vote, and a voter who votes three times.
use super::follow;
use std::test::Fail;

#[test]
fn the_script_is_answered(rt: HostRuntime) -> Result<(), Fail> {
    follow(&rt, rt.alloc(), SCRIPT)
}

/// The eighteen requests, all accepted, and then the sheets of what they made. The discussion ends
/// at 1768435200, two weeks after it began, and the voting a week later, at 1769040000. The
/// receipts are those that `sha256sum` gives.
const SCRIPT: &str = "
    NEW_YEAR post /developers login=d1&name=One&status=current -> 200 OK|ok 1␊
    NEW_YEAR post /import login,name,status␊\
        d2,Two,current␊d3,Three,current␊d4,Four,current␊ \
        -> 200 OK|ok 2 added 3 changed 0 same 0␊
    NEW_YEAR post /resolutions author=d1&summary=Red&text=a&ratio=1 \
        -> 200 OK|ok 3 resolution 1␊
    NEW_YEAR post /resolutions/1/sponsor choice=1&login=d2 -> 200 OK|ok 4␊
    NEW_YEAR post /resolutions/1/choice author=@leader&summary=Green&text=b&ratio=1 \
        -> 200 OK|ok 5 choice 2␊
    NEW_YEAR post /resolutions/1/withdraw choice=2 -> 200 OK|ok 6␊
    NEW_YEAR post /resolutions/1/adopt choice=2&author=@committee -> 200 OK|ok 7␊
    NEW_YEAR post /resolutions/1/unsponsor choice=1&login=d2 -> 200 OK|ok 8␊
    NEW_YEAR post /resolutions/1/sponsor choice=1&login=d2 -> 200 OK|ok 9␊
    NEW_YEAR post /resolutions/1/amend choice=1&minor=1&summary=Red&text=new -> 200 OK|ok 10␊
    NEW_YEAR post /resolutions/1/vary days=0 -> 200 OK|ok 11␊
    1768435200 post /resolutions/1/call days=7 -> 200 OK|ok 12 places 3 until 1769040000␊
    1768435200 post /resolutions/1/vote login=d1&ranks=113&token=tokenA01 -> 200 OK|ok 13 receipt \
        900eb73ab7e42d7eb72f6524157a5dfa609a0f27b79f9c9ac235cd6931258b07␊
    1768435200 post /resolutions/1/vote login=d2&ranks=113&token=tokenA02 -> 200 OK|ok 14 receipt \
        921e9e589da0a2af233149c221978bdcc2592cd63c52284e55c350b0aac3bdfa␊
    1768435200 post /resolutions/1/vote login=d3&ranks=131&token=tokenA03 -> 200 OK|ok 15 receipt \
        6a9b7694f79df615db603850c8b0a240eb63a6beac4badef0a0d1abdf76d5d46␊
    1768435200 post /resolutions/1/vote login=d3&ranks=113&token=tokenA04 -> 200 OK|ok 16 receipt \
        0bc67ed616cd49fd22e8558b7970e6c7cb8c03787029353c747f230a0db7d208␊
    1769040000 post /resolutions/1/close -> 200 OK|ok 17␊
    1769040000 post /resolutions/1/cast place=1 -> 200 OK|ok 18␊
    0 get /result/1 -> 200 OK|Result of resolution 1␊\
        Voting: 2026-01-15T00:00:00Z to 2026-01-22T00:00:00Z␊\
        Developers: 4␊\
        Ballots: 3␊\
        Received: 4␊\
        Option 1: Red␊\
        Option 2: Green␊\
        Option 3: None of the above␊\
        Test 1: above 3, below 0, ratio 1, quorum met, majority met, kept␊\
        Test 2: above 3, below 0, ratio 1, quorum met, majority met, kept␊\
        Pair 1 2: 0 0␊\
        Pair 1 3: 3 0␊\
        Pair 2 3: 3 0␊\
        Schwartz: 1 2␊\
        Winner: 1 by casting vote␊
    0 get /tally/1 -> 200 OK|Tally of resolution 1␊\
        Option 1: Red␊\
        Option 2: Green␊\
        Option 3: None of the above␊\
        Ballots: 3␊\
        V: 113 0bc67ed616cd49fd22e8558b7970e6c7cb8c03787029353c747f230a0db7d208␊\
        V: 113 900eb73ab7e42d7eb72f6524157a5dfa609a0f27b79f9c9ac235cd6931258b07␊\
        V: 113 921e9e589da0a2af233149c221978bdcc2592cd63c52284e55c350b0aac3bdfa␊
    0 get /status/1 -> 200 OK|Resolution 1␊\
        Stage: Closed␊\
        Discussion: 2026-01-01T00:00:00Z to 2026-01-15T00:00:00Z␊\
        Voting: 2026-01-15T00:00:00Z to 2026-01-22T00:00:00Z␊\
        Developers: 4␊\
        Choice 1: Red␊\
        Ratio: 1␊\
        Proposer: developer d1␊\
        Sponsors: 1 d2␊\
        Introduced: 2026-01-01T00:00:00Z␊\
        Short since: no␊\
        Place: 1␊\
        | new␊\
        Choice 2: Green␊\
        Ratio: 1␊\
        Proposer: committee␊\
        Sponsors: 0␊\
        Introduced: 2026-01-01T00:00:00Z␊\
        Short since: no␊\
        Place: 2␊\
        | b␊
    0 get /roll -> 200 OK|Developers: 4␊\
        Current: 4␊\
        D: d1 current One␊\
        D: d2 current Two␊\
        D: d3 current Three␊\
        D: d4 current Four␊
    ";

#[test]
fn the_last_ballot_of_a_voter_counts(rt: HostRuntime) -> Result<(), Fail> {
    follow(&rt, rt.alloc(), BALLOTS)
}

/// A developer votes three times, and the vote is shown once it is closed: one ballot, of three
/// votes received. Four times one vote is less than nine times one developer, so that the quorum is
/// not met.
const BALLOTS: &str = "
    NEW_YEAR post /developers login=d1&name=One&status=current -> 200 OK|ok 1␊
    NEW_YEAR post /resolutions author=@leader&summary=Red&text=a&ratio=1 \
        -> 200 OK|ok 2 resolution 1␊
    1768435200 post /resolutions/1/call days=7 -> 200 OK|ok 3 places 2 until 1769040000␊
    1768435200 post /resolutions/1/vote login=d1&ranks=12&token=tokenA01 -> 200 OK|ok 4 receipt \
        900eb73ab7e42d7eb72f6524157a5dfa609a0f27b79f9c9ac235cd6931258b07␊
    1768435200 post /resolutions/1/vote login=d1&ranks=21&token=tokenA02 -> 200 OK|ok 5 receipt \
        119534b4c68825524838984ea0d81ed2c4192b90252e5415d875d7d362ea325b␊
    1768435200 post /resolutions/1/vote login=d1&ranks=1-&token=tokenA03 -> 200 OK|ok 6 receipt \
        d91f3b11f18086717d24afd335154a14c7b6de5a4555de1ba614fd06bbe9a2d8␊
    0 get /result/1 -> 409 Conflict|refused 24 NotRevealed␊
    1769040000 post /resolutions/1/close -> 200 OK|ok 7␊
    0 get /tally/1 -> 200 OK|Tally of resolution 1␊\
        Option 1: Red␊\
        Option 2: None of the above␊\
        Ballots: 1␊\
        V: 1- d91f3b11f18086717d24afd335154a14c7b6de5a4555de1ba614fd06bbe9a2d8␊
    0 get /result/1 -> 200 OK|Result of resolution 1␊\
        Voting: 2026-01-15T00:00:00Z to 2026-01-22T00:00:00Z␊\
        Developers: 1␊\
        Ballots: 1␊\
        Received: 3␊\
        Option 1: Red␊\
        Option 2: None of the above␊\
        Test 1: above 1, below 0, ratio 1, quorum failed, majority met, dropped␊\
        Schwartz: 2␊\
        Winner: 2␊
    ";
