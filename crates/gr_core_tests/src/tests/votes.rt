//! Votes, their close and the casting vote: whole votes, and the receipts of their ballots.
//!
//! The receipts are those of the command `sha256sum`.
use super::script::{follow, follow_all};

/// Votes that differ in their ballots alone: the outcome sets, and what a casting vote may choose.
#[test]
fn votes_have_their_outcomes(rt: HostRuntime) {
    for (ballots, retirements) in [(CYCLE, ""), (CYCLE, RETIREMENTS), (OPPOSITION, "")] {
        let steps = ["desk 16", THREE_CHOICES, ballots, retirements, WON];
        follow_all(&rt, rt.alloc(), &steps);
    }
    for outcome in [THREE_TO_ONE, THREE_TO_TWO] {
        follow_all(&rt, rt.alloc(), &[RATIO, outcome]);
    }
    follow_all(&rt, rt.alloc(), &["desk 4", THREE_CHOICES, TIE]);
    follow(&rt, rt.alloc(), NO_BALLOTS);
}

/// Three choices, called for two weeks.
const THREE_CHOICES: &str = "
    +0 propose @leader|Red|a|1 -> accepted
    +0 add 1|@leader|Green|b|1 -> accepted
    +0 add 1|@leader|Blue|c|1 -> accepted
    +1209600 call 1|14 -> accepted
    outcome 1 none
    ";

/// Each choice beats one of the others.
const CYCLE: &str = "
    each 1 4 +1209600 vote 1|d%|1234|tokenA0% -> accepted
    each 5 7 +1209600 vote 1|d%|3124|tokenA0% -> accepted
    each 8 9 +1209600 vote 1|d%|2314|tokenA0% -> accepted
    ";

/// Developers retire before the close: one of them voted.
const RETIREMENTS: &str = "
    each 9 16 +1209600 developer d%|Dora Dean|retired -> accepted
    +1209600 vote 1|d9|2314|tokenA09 -> refused 15 NotCurrent
    ";

/// Two defeats have the same number in favour, and one of them more against it.
const OPPOSITION: &str = "
    each 1 3 +1209600 vote 1|d%|1234|tokenA0% -> accepted
    each 4 6 +1209600 vote 1|d%|3124|tokenA0% -> accepted
    each 7 9 +1209600 vote 1|d%|2314|tokenA0% -> accepted
    +1209600 vote 1|d10|1224|tokenA10 -> accepted
    ";

/// The first choice wins after one round.
const WON: &str = "
    +1209600 cast 1|1 -> refused 11 WrongStage
    outcome 1 none
    +2419200 close 1 -> accepted
    outcome 1 1 1
    +2419200 cast 1|1 -> refused 22 NotTied
    +2419200 cast 1|4 -> refused 22 NotTied
    +2419200 cast 1|5 -> refused 10 NoChoice
    +2419200 cast 1|0 -> refused 10 NoChoice
    ";

/// Among four developers three vote, and the casting vote chooses.
const TIE: &str = "
    +1209600 vote 1|d1|1234|tokenA01 -> accepted
    +1209600 vote 1|d2|3124|tokenA02 -> accepted
    +1209600 vote 1|d3|2314|tokenA03 -> accepted
    +2419200 close 1 -> ok 12: resolution:1=closed(+0,changed+0;+1209600,14,4) header
    outcome 1 1 1,2,3
    +2419200 cast 1|5 -> refused 10 NoChoice
    +2419200 cast 1|4 -> refused 22 NotTied
    +2419200 cast 1|2 -> ok 13: resolution:1=closed(+0,changed+0;+1209600,14,4,place2) header
    +2419200 cast 1|1 -> refused 17 Already
    +2419200 cast 1|2 -> refused 17 Already
    +2419200 cast 1|4 -> refused 17 Already
    +2419200 cast 1|5 -> refused 10 NoChoice
    outcome 1 1 1,2,3
    ";

/// The third choice has the second place and needs three to one. `d5` comes after the call: a
/// ballot of `d5` counts, and the quorum stays that of four.
const RATIO: &str = "
    desk 4
    +0 propose @leader|Red|a|1 -> accepted
    +0 add 1|@leader|Green|b|1 -> accepted
    +0 add 1|@leader|Blue|c|3 -> accepted
    +1 withdraw 1.2 -> accepted
    +1209600 call 1|14 -> ok 9 places 3 until +2419200: \
        resolution:1=voting(+0,changed+0;+1209600,14,4) choice:1.1=@leader,Red,a,1,in+0,place1 \
        choice:1.3=@leader,Blue,c,3,in+0,place2 header
    +1209600 developer d5|Dora Dean|current -> accepted
    each 1 3 +1209600 vote 1|d%|213|tokenA0% -> accepted
    +1209600 vote 1|d4|132|tokenA04 -> accepted
    ";

/// Three to one are enough for the ratio of three.
const THREE_TO_ONE: &str = "
    +2419200 close 1 -> accepted
    outcome 1 0 2
    ";

/// Three to two are not.
const THREE_TO_TWO: &str = "
    +1209600 vote 1|d5|132|tokenA05 -> accepted
    +2419200 close 1 -> accepted
    outcome 1 0 1
    ";

/// Nobody votes, and the default option wins.
const NO_BALLOTS: &str = "
    desk 16
    +0 propose @leader|Red|a|1 -> accepted
    +1209600 call 1|14 -> accepted
    +2419200 close 1 -> accepted
    outcome 1 0 2
    outcome 2 none
    +2419200 cast 1|2 -> refused 22 NotTied
    ";

/// The last ballot of a developer stands, up to the end of voting to the second.
#[test]
fn the_last_ballot_stands(rt: HostRuntime) {
    follow(&rt, rt.alloc(), BALLOTS);
}

const BALLOTS: &str = "
    desk 2
    +0 propose @leader|Red|a|1 -> accepted
    +0 propose @leader|Blue|a|1 -> accepted
    +0 add 2|@leader|Green|a|1 -> accepted
    +1209600 call 1|14 -> ok 6 places 2 until +2419200: \
        resolution:1=voting(+0;+1209600,14,2) choice:1.1=@leader,Red,a,1,in+0,place1 header
    +1209600 call 2|14 -> accepted
    +1209600 vote 1|d1|12|tokenA01 -> ok 8 \
        receipt 900eb73ab7e42d7eb72f6524157a5dfa609a0f27b79f9c9ac235cd6931258b07: \
        ballot:1:d1=2,900eb73ab7e42d7eb72f6524157a5dfa609a0f27b79f9c9ac235cd6931258b07,1 header
    +1209600 vote 1|d1|21|tokenA02 -> ok 9 \
        receipt 119534b4c68825524838984ea0d81ed2c4192b90252e5415d875d7d362ea325b: \
        ballot:1:d1=2,119534b4c68825524838984ea0d81ed2c4192b90252e5415d875d7d362ea325b,2 header
    +1209600 vote 1|d1|1-|tokenA03 -> ok 10 \
        receipt d91f3b11f18086717d24afd335154a14c7b6de5a4555de1ba614fd06bbe9a2d8: \
        ballot:1:d1=2,d91f3b11f18086717d24afd335154a14c7b6de5a4555de1ba614fd06bbe9a2d8,3 header
    +1209600 vote 2|d1|1--|tokenA01 -> ok 11 \
        receipt 0d436a67e8c9c2df426f16d653c96c49f34eb66b6795c67f6745ede2cfa5ffe7: \
        ballot:2:d1=3,0d436a67e8c9c2df426f16d653c96c49f34eb66b6795c67f6745ede2cfa5ffe7,1 header
    +1209600 vote 1|d2|--|tokenA02 -> ok 12 \
        receipt 921e9e589da0a2af233149c221978bdcc2592cd63c52284e55c350b0aac3bdfa: \
        ballot:1:d2=2,921e9e589da0a2af233149c221978bdcc2592cd63c52284e55c350b0aac3bdfa,1 header
    +1209600 vote 1|d1|12|short -> refused 7 BadToken
    +1209600 vote 1|d1|12|{a*65} -> refused 7 BadToken
    +1209600 vote 1|d1|12|token-A1 -> refused 7 BadToken
    +1209600 vote 2|d1|12|tokenA04 -> refused 21 BadRanks
    +1209600 vote 2|d1|1234|tokenA04 -> refused 21 BadRanks
    +1209600 vote 2|d1|0--|tokenA04 -> refused 21 BadRanks
    +1209600 vote 2|d1|1A-|tokenA04 -> refused 21 BadRanks
    +1209600 vote 2|d1|1@-|tokenA04 -> refused 21 BadRanks
    +1209600 vote 2|d1|1Z-|tokenA04 -> refused 21 BadRanks
    +1209600 vote 2|d1|1`-|tokenA04 -> refused 21 BadRanks
    +1209600 vote 2|d1|1:-|tokenA04 -> refused 21 BadRanks
    +1209600 vote 2|d1|1\u{e9}|tokenA04 -> refused 21 BadRanks
    +1209600 vote 2|d1|1a-|tokenA04 -> accepted
    +1209600 vote 2|d1|9-5|Token01 -> refused 7 BadToken
    +1209600 vote 2|d1|9-5|{Z*64} -> accepted
    +1209600 vote 2|d1|111|{0*8} -> accepted
    +2419199 close 1 -> refused 13 TooEarly
    +2419199 vote 1|d2|12|tokenA05 -> accepted
    +2419198 vote 1|d2|12|tokenA05 -> refused 2 ClockBack
    +2419200 vote 1|d2|12|tokenA05 -> refused 12 Ended
    +2419200 developer d1|Dora Dean|retired -> accepted
    +2419200 vote 2|d1|12|tokenA04 -> refused 12 Ended
    +2419200 close 1 -> ok 18: resolution:1=closed(+0;+1209600,14,2) header
    # Two voters of two developers are no quorum.
    outcome 1 0 2
    outcome 2 none
    +2419200 vote 1|d2|12|tokenA05 -> refused 11 WrongStage
    +2419200 close 1 -> refused 11 WrongStage
    +2419200 close 2 -> ok 19: resolution:2=closed(+0,changed+0;+1209600,14,2) header
    outcome 2 0 3
    # A resolution that is cancelled takes no vote.
    desk 2
    +0 propose @leader|Red|a|1 -> accepted
    +1 withdraw 1.1 -> accepted
    +1209600 call 1|14 -> ok 5 cancelled: resolution:1=cancelled(+0) header
    +1209600 vote 1|d1|12|tokenA01 -> refused 11 WrongStage
    +2419200 close 1 -> refused 11 WrongStage
    +2419200 cast 1|1 -> refused 11 WrongStage
    ";

/// A vote from its proposal to the casting vote, with each command at least once.
#[test]
fn a_vote_runs_through_all_commands(rt: HostRuntime) {
    follow(&rt, rt.alloc(), WHOLE_VOTE);
}

const WHOLE_VOTE: &str = "
    +0 developer d1|One|current -> ok 1: d1 header
    +0 import d2|Two|current;d3|Three|current;d4|Four|current -> ok 2 added 3 changed 0 same 0: \
        d2 d3 d4 header
    +0 propose d1|Red|a|1 -> ok 3 resolution 1: resolution:1=draft choice:1.1=d1,Red,a,1 header
    +0 sponsor 1.1|d2 -> ok 4: resolution:1=discussing(+0) choice:1.1=d1,Red,a,1,in+0 \
        sponsor:1.1:d2=active header
    +0 add 1|@leader|Green|b|1 -> ok 5 choice 2: resolution:1=discussing(+0,changed+0) \
        choice:1.2=@leader,Green,b,1,in+0 header
    +0 withdraw 1.2 -> ok 6: choice:1.2=nobody,Green,b,1,in+0,short+0 header
    +0 adopt 1.2|@committee -> ok 7: choice:1.2=@committee,Green,b,1,in+0 header
    +0 unsponsor 1.1|d2 -> ok 8: choice:1.1=d1,Red,a,1,in+0,short+0 \
        sponsor:1.1:d2=withdrawn header
    +0 sponsor 1.1|d2 -> ok 9: choice:1.1=d1,Red,a,1,in+0 sponsor:1.1:d2=active header
    +0 amend 1.1|minor|Red|new -> ok 10: choice:1.1=d1,Red,new,1,in+0 header
    +0 vary 1|0 -> ok 11: resolution:1=discussing(+0,changed+0) header
    +1209600 call 1|7 -> ok 12 places 3 until +1814400: \
        resolution:1=voting(+0,changed+0;+1209600,7,4) choice:1.1=d1,Red,new,1,in+0,place1 \
        choice:1.2=@committee,Green,b,1,in+0,place2 header
    +1209600 vote 1|d1|113|tokenA01 -> ok 13 \
        receipt 900eb73ab7e42d7eb72f6524157a5dfa609a0f27b79f9c9ac235cd6931258b07: \
        ballot:1:d1=3,900eb73ab7e42d7eb72f6524157a5dfa609a0f27b79f9c9ac235cd6931258b07,1 header
    +1209600 vote 1|d2|113|tokenA02 -> ok 14 \
        receipt 921e9e589da0a2af233149c221978bdcc2592cd63c52284e55c350b0aac3bdfa: \
        ballot:1:d2=3,921e9e589da0a2af233149c221978bdcc2592cd63c52284e55c350b0aac3bdfa,1 header
    +1209600 vote 1|d3|131|tokenA03 -> ok 15 \
        receipt 6a9b7694f79df615db603850c8b0a240eb63a6beac4badef0a0d1abdf76d5d46: \
        ballot:1:d3=3,6a9b7694f79df615db603850c8b0a240eb63a6beac4badef0a0d1abdf76d5d46,1 header
    +1209600 vote 1|d3|113|tokenA04 -> ok 16 \
        receipt 0bc67ed616cd49fd22e8558b7970e6c7cb8c03787029353c747f230a0db7d208: \
        ballot:1:d3=3,0bc67ed616cd49fd22e8558b7970e6c7cb8c03787029353c747f230a0db7d208,2 header
    +1814400 close 1 -> ok 17: resolution:1=closed(+0,changed+0;+1209600,7,4) header
    outcome 1 0 1,2
    +1814400 cast 1|1 -> ok 18: resolution:1=closed(+0,changed+0;+1209600,7,4,place1) header
    totals 18 +1814400 4
    ";

/// As many ballots as there may be, each replaced once, on eight choices and on as many as there
/// may be.
#[test]
fn everybody_votes_twice(rt: HostRuntime) {
    for steps in [EIGHT_CHOICES, FULL_VOTE] {
        follow(&rt, rt.alloc(), steps);
    }
}

const EIGHT_CHOICES: &str = "
    desk 2000
    +0 propose @leader|C1|a|1 -> accepted
    each 2 8 +0 add 1|@leader|C%|a|1 -> accepted
    +1209600 call 1|7 -> accepted
    each 1 2000 +1209600 vote 1|d%|12345678-|tokenA0% -> accepted
    each 1 2000 +1209601 vote 1|d%|11111111-|tokenB0% -> accepted
    +1814400 close 1 -> ok 6010: resolution:1=closed(+0,changed+0;+1209600,7,2000) header
    outcome 1 0 1,2,3,4,5,6,7,8
    +1814400 cast 1|9 -> refused 22 NotTied
    +1814400 cast 1|10 -> refused 10 NoChoice
    +1814400 cast 1|8 -> ok 6011: \
        resolution:1=closed(+0,changed+0;+1209600,7,2000,place8) header
    +1814400 cast 1|8 -> refused 17 Already
    ";

/// The ballots rank the choices in their order and all of them alike. After that each is level
/// with each other, and all of them are preferred to the default option.
const FULL_VOTE: &str = "
    desk 2000
    +0 propose @leader|C1|a|1 -> accepted
    each 2 34 +0 add 1|@leader|C%|a|1 -> accepted
    +0 add 1|@leader|C35|a|1 -> refused 8 Full
    +1209600 call 1|7 -> accepted
    +1209600 vote 1|d1|123456789abcdefghijklmnopqrstuvwxy|tokenA01 -> refused 21 BadRanks
    +1209600 vote 1|d1|123456789abcdefghijklmnopqrstuvwxyz-|tokenA01 -> refused 21 BadRanks
    +1209600 vote 1|d1|123456789abcdefghijklmnopqrstuvwxyZ|tokenA01 -> refused 21 BadRanks
    +1209600 vote 1|d1|123456789abcdefghijklmnopqrstuvwxyz|tokenA01 -> accepted
    each 1 2000 +1209600 vote 1|d%|123456789abcdefghijklmnopqrstuvwxy-|tokenA0% -> accepted
    each 1 2000 +1209601 vote 1|d%|{z*34}-|tokenB0% -> accepted
    +1814400 close 1 -> ok 6037: resolution:1=closed(+0,changed+0;+1209600,7,2000) header
    outcome 1 0 1{,%#2-34}
    +1814400 cast 1|35 -> refused 22 NotTied
    +1814400 cast 1|36 -> refused 10 NoChoice
    +1814400 cast 1|34 -> ok 6038: \
        resolution:1=closed(+0,changed+0;+1209600,7,2000,place34) header
    +1814400 cast 1|34 -> refused 17 Already
    ";
