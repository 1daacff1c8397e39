//! Each refusal, once for each command that it can come to.
use super::script::follow_all;

#[test]
fn each_command_is_refused(rt: HostRuntime) {
    for steps in [WRONG_MOMENTS, MALFORMED, NOT_THERE, OUT_OF_TIME] {
        follow_all(&rt, rt.alloc(), &[BEGUN, steps]);
    }
}

/// Two resolutions: the first under discussion, with an introduced choice, one of `d1` that is not
/// introduced, and one whose proposer withdrew; the second a draft of `d1`. There are three
/// developers, of whom `d3` is retired.
const BEGUN: &str = "
    desk 3
    +0 developer d3|Dora Dean|retired -> ok 4: d3 header
    +0 propose @leader|Red|a|1 -> ok 5 resolution 1: resolution:1=discussing(+0) \
        choice:1.1=@leader,Red,a,1,in+0 header
    +0 add 1|d1|Blue|b|1 -> ok 6 choice 2: choice:1.2=d1,Blue,b,1 header
    +0 add 1|@leader|Grey|c|1 -> ok 7 choice 3: resolution:1=discussing(+0,changed+0) \
        choice:1.3=@leader,Grey,c,1,in+0 header
    +0 propose d1|Green|d|1 -> ok 8 resolution 2: resolution:2=draft choice:2.1=d1,Green,d,1 header
    +1 withdraw 1.3 -> ok 9: choice:1.3=nobody,Grey,c,1,in+0,short+1 header
    ";

/// Commands at wrong moments.
const WRONG_MOMENTS: &str = "
    0 import -> refused 1 BadMoment
    0 propose Dora||a|0 -> refused 1 BadMoment
    LAST+1 add 9|Dora||a|0 -> refused 1 BadMoment
    0 sponsor 9.1|Dora -> refused 1 BadMoment
    LAST+1 unsponsor 9.1|Dora -> refused 1 BadMoment
    0 withdraw 9.1 -> refused 1 BadMoment
    LAST+1 adopt 9.1|Dora -> refused 1 BadMoment
    0 amend 9.1|minor|Red| -> refused 1 BadMoment
    LAST+1 vary 9|8 -> refused 1 BadMoment
    0 call 9|22 -> refused 1 BadMoment
    LAST+1 vote 9|Dora|x|short -> refused 1 BadMoment
    0 close 9 -> refused 1 BadMoment
    LAST+1 cast 9|9 -> refused 1 BadMoment
    +0 import -> refused 2 ClockBack
    +0 propose Dora||a|0 -> refused 2 ClockBack
    +0 add 9|Dora||a|0 -> refused 2 ClockBack
    +0 sponsor 9.1|Dora -> refused 2 ClockBack
    +0 unsponsor 9.1|Dora -> refused 2 ClockBack
    +0 withdraw 9.1 -> refused 2 ClockBack
    +0 adopt 9.1|Dora -> refused 2 ClockBack
    +0 amend 9.1|minor|Red| -> refused 2 ClockBack
    +0 vary 9|8 -> refused 2 ClockBack
    +0 call 9|22 -> refused 2 ClockBack
    +0 vote 9|Dora|x|short -> refused 2 ClockBack
    +0 close 9 -> refused 2 ClockBack
    +0 cast 9|9 -> refused 2 ClockBack
    ";

/// Commands with malformed words.
const MALFORMED: &str = "
    +1 propose Dora||a|0 -> refused 3 BadLogin
    +1 add 9|Dora||a|0 -> refused 3 BadLogin
    +1 sponsor 9.1|Dora -> refused 3 BadLogin
    +1 unsponsor 9.1|Dora -> refused 3 BadLogin
    +1 adopt 9.1|Dora -> refused 3 BadLogin
    +1 adopt 9.1|@Leader -> refused 3 BadLogin
    +1 vote 9|Dora|x|short -> refused 3 BadLogin
    +1 propose d9||a|0 -> refused 4 BadText
    +1 propose d9|Red\tRed|a|0 -> refused 4 BadText
    +1 propose d9|Red||0 -> refused 4 BadText
    +1 propose d9|Red|a\u{b}|0 -> refused 4 BadText
    +1 add 9|d9||a|0 -> refused 4 BadText
    +1 add 9|d9|Red||0 -> refused 4 BadText
    +1 amend 9.1|minor||a -> refused 4 BadText
    +1 amend 9.1|substantial|Red|\u{9b} -> refused 4 BadText
    +1 propose d9|Red|a|0 -> refused 5 BadRatio
    +1 propose d9|Red|a|10 -> refused 5 BadRatio
    +1 add 9|d9|Red|a|0 -> refused 5 BadRatio
    +1 vary 9|-8 -> refused 6 BadDays
    +1 vary 9|8 -> refused 6 BadDays
    +1 call 9|6 -> refused 6 BadDays
    +1 call 9|22 -> refused 6 BadDays
    +1 vote 9|d9|x|short -> refused 7 BadToken
    +1 propose @committee|Red|\ta\rb|9 -> ok 10 resolution 3: resolution:3=discussing(+1) \
        choice:3.1=@committee,Red,\ta\rb,9,in+1 header
    ";

/// Commands on what is not there, or by whom it may not be.
const NOT_THERE: &str = "
    +1 add 3|d9|Red|a|1 -> refused 9 NoResolution
    +1 add 0|d9|Red|a|1 -> refused 9 NoResolution
    +1 sponsor 3.1|d9 -> refused 9 NoResolution
    +1 unsponsor 3.1|d9 -> refused 9 NoResolution
    +1 withdraw 3.1 -> refused 9 NoResolution
    +1 adopt 3.1|d9 -> refused 9 NoResolution
    +1 amend 3.1|minor|Red|a -> refused 9 NoResolution
    +1 vary 3|0 -> refused 9 NoResolution
    +1 call 3|14 -> refused 9 NoResolution
    +1 vote 3|d9|x|tokenA01 -> refused 9 NoResolution
    +1 close 0 -> refused 9 NoResolution
    +1 cast 3|9 -> refused 9 NoResolution
    +1 sponsor 1.4|d9 -> refused 10 NoChoice
    +1 unsponsor 1.0|d9 -> refused 10 NoChoice
    +1 withdraw 2.2 -> refused 10 NoChoice
    +1 adopt 1.4|d9 -> refused 10 NoChoice
    +1 amend 1.4|substantial|Red|a -> refused 10 NoChoice
    +1 propose d9|Red|a|1 -> refused 14 NoDeveloper
    +1 add 1|d9|Red|a|1 -> refused 14 NoDeveloper
    +1 sponsor 1.2|d9 -> refused 14 NoDeveloper
    +1 unsponsor 1.2|d9 -> refused 14 NoDeveloper
    +1 adopt 1.2|d9 -> refused 14 NoDeveloper
    +1 propose d3|Red|a|1 -> refused 15 NotCurrent
    +1 add 1|d3|Red|a|1 -> refused 15 NotCurrent
    +1 sponsor 1.2|d3 -> refused 15 NotCurrent
    +1 adopt 1.2|d3 -> refused 15 NotCurrent
    +1 unsponsor 1.2|d3 -> refused 18 NotSponsor
    +1 sponsor 1.2|d1 -> refused 17 Already
    +1 adopt 1.2|@leader -> refused 19 HasProposer
    ";

/// Commands out of time.
const OUT_OF_TIME: &str = "
    +1 add 2|d1|Red|a|1 -> refused 11 WrongStage
    +1 vary 2|0 -> refused 11 WrongStage
    +1 call 2|14 -> refused 11 WrongStage
    +1 vote 1|d9|x|tokenA01 -> refused 11 WrongStage
    +1 close 2 -> refused 11 WrongStage
    +1 cast 1|9 -> refused 11 WrongStage
    +1 call 1|14 -> refused 13 TooEarly
    +1036800 vary 1|-7 -> refused 20 EndsTooSoon
    +1209600 add 1|d1|Red|a|1 -> refused 12 Ended
    +1209600 sponsor 1.2|d2 -> refused 12 Ended
    +1209600 adopt 1.2|d2 -> refused 12 Ended
    +1209600 amend 1.2|substantial|Red|a -> refused 12 Ended
    +1209600 vary 1|0 -> refused 12 Ended
    +1209600 unsponsor 1.2|d2 -> refused 18 NotSponsor
    +1209600 adopt 1.3|d2 -> refused 16 Lapsed
    +1209600 amend 1.2|minor|Blau|b -> ok 10: choice:1.2=d1,Blau,b,1 header
    +1209600 withdraw 1.2 -> ok 11: choice:1.2=nobody,Blau,b,1 header
    +1209600 sponsor 1.1|d2 -> ok 12: sponsor:1.1:d2=active header
    +1209600 call 1|14 -> ok 13 places 2 until +2419200: \
        resolution:1=voting(+0,changed+0;+1209600,14,2) \
        choice:1.1=@leader,Red,a,1,in+0,place1 header
    +1209600 add 1|d1|Red|a|1 -> refused 11 WrongStage
    +1209600 sponsor 1.1|d1 -> refused 11 WrongStage
    +1209600 unsponsor 1.1|d2 -> refused 11 WrongStage
    +1209600 withdraw 1.1 -> refused 11 WrongStage
    +1209600 adopt 1.2|d1 -> refused 11 WrongStage
    +1209600 amend 1.1|minor|Red|a -> refused 11 WrongStage
    +1209600 vary 1|0 -> refused 11 WrongStage
    +1209600 call 1|14 -> refused 11 WrongStage
    +1209600 vote 1|d9|x|tokenA01 -> refused 14 NoDeveloper
    +1209600 vote 1|d3|x|tokenA01 -> refused 15 NotCurrent
    +1209600 vote 1|d1|x|tokenA01 -> refused 21 BadRanks
    +1209600 close 1 -> refused 13 TooEarly
    +1209600 cast 1|9 -> refused 11 WrongStage
    +2419200 vote 1|d9|x|tokenA01 -> refused 12 Ended
    +2419200 close 1 -> ok 14: resolution:1=closed(+0,changed+0;+1209600,14,2) header
    +2419200 vote 1|d9|x|tokenA01 -> refused 11 WrongStage
    +2419200 close 1 -> refused 11 WrongStage
    +2419200 cast 1|9 -> refused 10 NoChoice
    +2419200 cast 1|2 -> refused 22 NotTied
    ";
