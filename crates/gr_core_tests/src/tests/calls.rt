//! The clock of a discussion over commands, and the call for the vote after it.
use super::script::follow;

#[test]
fn discussions_run_up_to_the_call(rt: HostRuntime) {
    follow(&rt, rt.alloc(), STEPS);
}

const STEPS: &str = "
    # Changes move the end of a discussion.
    desk 0
    +0 propose @leader|Red|a|1 -> ok 1 resolution 1: resolution:1=discussing(+0) \
        choice:1.1=@leader,Red,a,1,in+0 header
    +259200 amend 1.1|substantial|Red|b -> ok 2: resolution:1=discussing(+0,changed+259200) \
        choice:1.1=@leader,Red,b,1,in+0 header
    +1209599 call 1|14 -> refused 13 TooEarly
    +1209600 vary 1|0 -> refused 12 Ended
    +864000 amend 1.1|substantial|Red|c -> ok 3: resolution:1=discussing(+0,changed+864000) \
        choice:1.1=@leader,Red,c,1,in+0 header
    +1468799 call 1|14 -> refused 13 TooEarly
    +1468800 vary 1|0 -> refused 12 Ended
    +1382400 amend 1.1|substantial|Red|d -> ok 4: resolution:1=discussing(+0,changed+1382400) \
        choice:1.1=@leader,Red,d,1,in+0 header
    +1382401 amend 1.1|minor|Rot|d -> ok 5: choice:1.1=@leader,Rot,d,1,in+0 header
    +1814399 call 1|14 -> refused 13 TooEarly
    +1814400 amend 1.1|substantial|Red|e -> refused 12 Ended
    +1814400 add 1|@leader|Blue|a|1 -> refused 12 Ended
    +1814400 amend 1.1|minor|Red|e -> ok 6: choice:1.1=@leader,Red,e,1,in+0 header
    +1814400 call 1|7 -> ok 7 places 2 until +2419200: \
        resolution:1=voting(+0,changed+1382400;+1814400,7,0) \
        choice:1.1=@leader,Red,e,1,in+0,place1 header
    # Variations replace one another.
    desk 0
    +0 propose @leader|Red|a|1 -> ok 1 resolution 1: resolution:1=discussing(+0) \
        choice:1.1=@leader,Red,a,1,in+0 header
    +432001 vary 1|-7 -> refused 20 EndsTooSoon
    +432000 vary 1|-8 -> refused 6 BadDays
    +432000 vary 1|8 -> refused 6 BadDays
    +432000 vary 1|-7 -> ok 2: resolution:1=discussing(+0,shift-7) header
    +604799 call 1|14 -> refused 13 TooEarly
    +604800 vary 1|7 -> refused 12 Ended
    +432001 vary 1|-7 -> refused 20 EndsTooSoon
    +432001 vary 1|0 -> ok 3: resolution:1=discussing(+0) header
    +432001 vary 1|7 -> ok 4: resolution:1=discussing(+0,shift7) header
    +1814399 call 1|14 -> refused 13 TooEarly
    +1814400 call 1|14 -> ok 5 places 2 until +3024000: \
        resolution:1=voting(+0,shift7;+1814400,14,0) choice:1.1=@leader,Red,a,1,in+0,place1 \
        header
    +1814400 vary 1|0 -> refused 11 WrongStage
    # A call puts the live choices on the ballot.
    desk 3
    +0 developer d3|Dora Dean|retired -> ok 4: d3 header
    +0 propose @leader|Red|a|1 -> ok 5 resolution 1: resolution:1=discussing(+0) \
        choice:1.1=@leader,Red,a,1,in+0 header
    +1 add 1|@committee|Green|b|3 -> ok 6 choice 2: resolution:1=discussing(+0,changed+1) \
        choice:1.2=@committee,Green,b,3,in+1 header
    +2 add 1|d1|Blue|c|1 -> ok 7 choice 3: choice:1.3=d1,Blue,c,1 header
    +3 add 1|@leader|Grey|d|1 -> ok 8 choice 4: resolution:1=discussing(+0,changed+3) \
        choice:1.4=@leader,Grey,d,1,in+3 header
    +1123200 withdraw 1.1 -> ok 9: choice:1.1=nobody,Red,a,1,in+0,short+1123200 header
    +1123201 withdraw 1.4 -> ok 10: choice:1.4=nobody,Grey,d,1,in+3,short+1123201 header
    +1209600 call 1|6 -> refused 6 BadDays
    +1209600 call 1|22 -> refused 6 BadDays
    +1209600 call 1|21 -> ok 11 places 3 until +3024000: \
        resolution:1=voting(+0,changed+3;+1209600,21,2) \
        choice:1.2=@committee,Green,b,3,in+1,place1 \
        choice:1.4=nobody,Grey,d,1,in+3,short+1123201,place2 header
    +1209600 call 1|21 -> refused 11 WrongStage
    ";
