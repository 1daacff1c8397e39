//! Limits at their last accepted and first refused value.
use super::script::follow;

#[test]
fn limits_are_met_exactly(rt: HostRuntime) {
    follow(&rt, rt.alloc(), STEPS);
}

const STEPS: &str = "
    # Eight choices and the default option, which take the places of nine digits.
    +0 propose @leader|Red|a|1 -> ok 1 resolution 1: resolution:1=discussing(+0) \
        choice:1.1=@leader,Red,a,1,in+0 header
    repeat 6 +0 add 1|@leader|Red|a|1 -> accepted
    +0 add 1|@leader|Red|a|1 -> ok 8 choice 8: resolution:1=discussing(+0,changed+0) \
        choice:1.8=@leader,Red,a,1,in+0 header
    +1814400 call 1|7 -> ok 9 places 9 until +2419200: \
        resolution:1=voting(+0,changed+0;+1814400,7,0) \
        choice:1.1=@leader,Red,a,1,in+0,place1 \
        choice:1.2=@leader,Red,a,1,in+0,place2 \
        choice:1.3=@leader,Red,a,1,in+0,place3 \
        choice:1.4=@leader,Red,a,1,in+0,place4 \
        choice:1.5=@leader,Red,a,1,in+0,place5 \
        choice:1.6=@leader,Red,a,1,in+0,place6 \
        choice:1.7=@leader,Red,a,1,in+0,place7 \
        choice:1.8=@leader,Red,a,1,in+0,place8 header
    +1814400 add 1|@leader|Red|a|1 -> refused 11 WrongStage
    # A resolution has at most thirty-four choices, in each stage in which it can have them.
    desk 0
    +0 propose @leader|Red|a|1 -> accepted
    repeat 32 +0 add 1|@leader|Red|a|1 -> accepted
    +0 add 1|@leader|Red|a|1 -> ok 34 choice 34: resolution:1=discussing(+0,changed+0) \
        choice:1.34=@leader,Red,a,1,in+0 header
    +0 add 1|@leader|Red|a|1 -> refused 8 Full
    +1209600 add 1|@leader|Red|a|1 -> refused 8 Full
    +1209600 add 2|@leader|Red|a|1 -> refused 9 NoResolution
    +1209600 call 1|7 -> ok 35 places 35 until +1814400: 36 rows
    +1209600 add 1|@leader|Red|a|1 -> refused 8 Full
    +1814400 close 1 -> ok 36: resolution:1=closed(+0,changed+0;+1209600,7,0) header
    +1814400 add 1|@leader|Red|a|1 -> refused 8 Full
    +1814400 add 1|@leader|Red||1 -> refused 4 BadText
    +1814400 add 1|d1|Red|a|1 -> refused 8 Full
    desk 0
    +0 propose @leader|Red|a|1 -> accepted
    repeat 33 +0 add 1|@leader|Red|a|1 -> accepted
    each 1 34 +1 withdraw 1.% -> accepted
    +1209600 call 1|7 -> ok 69 cancelled: resolution:1=cancelled(+0,changed+0) header
    +1209600 add 1|@leader|Red|a|1 -> refused 8 Full
    # A desk has at most two hundred resolutions.
    desk 0
    repeat 199 +0 propose @leader|Red|a|1 -> accepted
    +0 propose @leader|Red|a|1 -> ok 200 resolution 200: resolution:200=discussing(+0) \
        choice:200.1=@leader,Red,a,1,in+0 header
    +0 propose @leader|Red|a|1 -> refused 8 Full
    +0 add 200|@leader|Blue|b|1 -> ok 201 choice 2: resolution:200=discussing(+0,changed+0) \
        choice:200.2=@leader,Blue,b,1,in+0 header
    # Words go up to their limits, in characters and in bytes.
    desk 0
    +0 propose @committee|{\u{1f600}*80}|{a*20000}|9 -> accepted
    +0 propose @committee|{\u{1f600}*81}|{a*20000}|9 -> refused 4 BadText
    +0 propose @committee|a|{a*20001}|9 -> refused 4 BadText
    +0 propose @committee|{\u{e9}*80}|{\u{e9}*10000}|9 -> accepted
    +0 propose @committee|{\u{fffd}*80}|{\u{fffd}*6667}|9 -> refused 4 BadText
    +0 propose @committee|{\u{fffd}*80}|{\u{fffd}^5000}|9 -> accepted
    +0 propose @committee|a|{\u{1f600}*5000}|9 -> accepted
    # The longest login, the longest words and the last moments, for each command that they come to.
    desk 0
    LAST-1209600 developer {a*32}|{\u{1f600}*80}|current -> accepted
    LAST-1209600 propose @committee|{\u{1f600}*80}|{\u{1f600}*5000}|9 -> accepted
    LAST-1 add 1|{a*32}|{\u{1f600}*80}|{a*20000}|1 -> accepted
    LAST-1 sponsor 1.1|{a*32} -> accepted
    LAST-1 unsponsor 1.1|{a*32} -> accepted
    LAST-1 withdraw 1.2 -> accepted
    LAST-1 adopt 1.2|{a*32} -> accepted
    LAST-1 amend 1.2|substantial|{\u{1f600}*80}|{a*20000} -> accepted
    LAST call 1|21 -> accepted
    LAST vote 1|{a*32}|12|{z*64} -> accepted
    LAST close 1 -> refused 13 TooEarly
    LAST+1 close 1 -> refused 1 BadMoment
    ";
