//! Keys that are alike: logins that begin one another, and the numbers 1, 2, 10 and 11. Rows come
//! in no order, and some in the place of others.
use super::script::follow;

#[test]
fn rows_are_found_under_keys_that_are_alike(rt: HostRuntime) {
    follow(&rt, rt.alloc(), STEPS);
}

const STEPS: &str = "
    # Logins that begin one another. With six developers two sponsors are enough.
    +0 import bob|Bob|current;alice|Alice|current;al|Al|retired;alic|Alicia|current;a|Ann|current \
        -> ok 1 added 5 changed 0 same 0: bob alice al alic a header
    +0 developer ali|Alison|retired -> ok 2: ali header
    +0 import al|Al|current;alice|Alice|current;ali|Alison|current \
        -> ok 3 added 0 changed 2 same 1: al ali header
    roll 3 NEW_YEAR a|Ann|current;al|Al|current;ali|Alison|current;alic|Alicia|current;\
        alice|Alice|current;bob|Bob|current
    +0 propose bob|Red|a|1 -> ok 4 resolution 1: resolution:1=draft choice:1.1=bob,Red,a,1 header
    +0 propose bob|Blue|b|1 -> ok 5 resolution 2: resolution:2=draft choice:2.1=bob,Blue,b,1 \
        header
    repeat 8 +0 propose @leader|Grey|c|1 -> accepted
    +0 propose bob|Green|d|1 -> ok 14 resolution 11: resolution:11=draft \
        choice:11.1=bob,Green,d,1 header
    +1 sponsor 11.1|al -> ok 15: sponsor:11.1:al=active header
    +1 sponsor 1.1|alice -> ok 16: sponsor:1.1:alice=active header
    +1 sponsor 2.1|alice -> ok 17: sponsor:2.1:alice=active header
    +1 unsponsor 1.1|al -> refused 18 NotSponsor
    +1 unsponsor 1.1|alic -> refused 18 NotSponsor
    +1 unsponsor 2.1|al -> refused 18 NotSponsor
    +1 unsponsor 10.1|al -> refused 18 NotSponsor
    +1 unsponsor 11.1|alice -> refused 18 NotSponsor
    +1 sponsor 1.1|alice -> refused 17 Already
    +1 unsponsor 2.1|alice -> ok 18: sponsor:2.1:alice=withdrawn header
    +1 unsponsor 2.1|alice -> refused 18 NotSponsor
    +1 sponsor 2.1|alic -> ok 19: sponsor:2.1:alic=active header
    +2 sponsor 1.1|al -> ok 20: resolution:1=discussing(+2) choice:1.1=bob,Red,a,1,in+2 \
        sponsor:1.1:al=active header
    +2 sponsor 1.1|a -> ok 21: sponsor:1.1:a=active header
    +2 sponsor 1.1|ali -> ok 22: sponsor:1.1:ali=active header
    +3 unsponsor 1.1|alice -> ok 23: sponsor:1.1:alice=withdrawn header
    +3 unsponsor 1.1|a -> ok 24: sponsor:1.1:a=withdrawn header
    +4 unsponsor 1.1|al -> ok 25: choice:1.1=bob,Red,a,1,in+2,short+4 \
        sponsor:1.1:al=withdrawn header
    +4 sponsor 1.1|ali -> refused 17 Already
    +4 unsponsor 1.1|alic -> refused 18 NotSponsor
    +5 sponsor 1.1|alice -> ok 26: choice:1.1=bob,Red,a,1,in+2 sponsor:1.1:alice=active header
    +5 sponsor 2.1|alice -> ok 27: resolution:2=discussing(+5) choice:2.1=bob,Blue,b,1,in+5 \
        sponsor:2.1:alice=active header
    +5 sponsor 11.1|al -> refused 17 Already
    +5 sponsor 11.1|alice -> ok 28: resolution:11=discussing(+5) choice:11.1=bob,Green,d,1,in+5 \
        sponsor:11.1:alice=active header
    +5 sponsor 1.1|b -> refused 14 NoDeveloper
    +5 sponsor 1.1|alice.b -> refused 14 NoDeveloper
    +5 sponsor 0.1|a -> refused 9 NoResolution
    +5 sponsor 12.1|a -> refused 9 NoResolution
    +5 sponsor 4294967295.1|a -> refused 9 NoResolution
    +5 sponsor 1.0|a -> refused 10 NoChoice
    +5 sponsor 1.11|a -> refused 10 NoChoice
    +5 sponsor 1.4294967295|a -> refused 10 NoChoice
    +5 sponsor 11.2|a -> refused 10 NoChoice
    # Choices of resolutions with numbers that are alike.
    desk 0
    repeat 10 +0 propose @leader|Red|a|1 -> accepted
    +0 propose @leader|Red|a|1 -> ok 11 resolution 11: resolution:11=discussing(+0) \
        choice:11.1=@leader,Red,a,1,in+0 header
    +1 add 2|@leader|Two|b|1 -> ok 12 choice 2: resolution:2=discussing(+0,changed+1) \
        choice:2.2=@leader,Two,b,1,in+1 header
    +2 add 11|@committee|Eleven|c|1 -> ok 13 choice 2: resolution:11=discussing(+0,changed+2) \
        choice:11.2=@committee,Eleven,c,1,in+2 header
    +3 add 1|@leader|One|d|1 -> ok 14 choice 2: resolution:1=discussing(+0,changed+3) \
        choice:1.2=@leader,One,d,1,in+3 header
    +4 add 10|@leader|Ten|e|1 -> ok 15 choice 2: resolution:10=discussing(+0,changed+4) \
        choice:10.2=@leader,Ten,e,1,in+4 header
    +5 add 11|@leader|Last|f|1 -> ok 16 choice 3: resolution:11=discussing(+0,changed+5) \
        choice:11.3=@leader,Last,f,1,in+5 header
    +6 amend 1.2|substantial|Once|g -> ok 17: resolution:1=discussing(+0,changed+6) \
        choice:1.2=@leader,Once,g,1,in+3 header
    +7 amend 11.1|minor|Twice|h -> ok 18: choice:11.1=@leader,Twice,h,1,in+0 header
    +8 withdraw 11.2 -> ok 19: choice:11.2=nobody,Eleven,c,1,in+2,short+8 header
    +9 adopt 11.2|@leader -> ok 20: choice:11.2=@leader,Eleven,c,1,in+2 header
    +1209600 call 11|14 -> ok 21 places 4 until +2419200: \
        resolution:11=voting(+0,changed+5;+1209600,14,0) \
        choice:11.1=@leader,Twice,h,1,in+0,place1 \
        choice:11.2=@leader,Eleven,c,1,in+2,place2 \
        choice:11.3=@leader,Last,f,1,in+5,place3 header
    +1209600 call 1|14 -> ok 22 places 3 until +2419200: \
        resolution:1=voting(+0,changed+6;+1209600,14,0) \
        choice:1.1=@leader,Red,a,1,in+0,place1 \
        choice:1.2=@leader,Once,g,1,in+3,place2 header
    +1209600 call 3|14 -> ok 23 places 2 until +2419200: \
        resolution:3=voting(+0;+1209600,14,0) choice:3.1=@leader,Red,a,1,in+0,place1 header
    +1209600 call 2|14 -> ok 24 places 3 until +2419200: \
        resolution:2=voting(+0,changed+1;+1209600,14,0) \
        choice:2.1=@leader,Red,a,1,in+0,place1 \
        choice:2.2=@leader,Two,b,1,in+1,place2 header
    +1209600 call 10|14 -> ok 25 places 3 until +2419200: \
        resolution:10=voting(+0,changed+4;+1209600,14,0) \
        choice:10.1=@leader,Red,a,1,in+0,place1 \
        choice:10.2=@leader,Ten,e,1,in+4,place2 header
    +1209600 call 12|14 -> refused 9 NoResolution
    ";
