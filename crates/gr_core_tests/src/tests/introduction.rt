//! Introduction: how many sponsors a choice needs, and what withdrawals, adoptions and lapses do.
use super::script::follow;

#[test]
fn choices_are_introduced_and_lapse(rt: HostRuntime) {
    follow(&rt, rt.alloc(), STEPS);
}

const STEPS: &str = "
    # As many sponsors are needed as the roll says.
    desk 16
    +0 propose d1|Red|a|1 -> ok 17 resolution 1: resolution:1=draft choice:1.1=d1,Red,a,1 \
        header
    +0 sponsor 1.1|d2 -> ok 18: sponsor:1.1:d2=active header
    +0 sponsor 1.1|d1 -> refused 17 Already
    +0 sponsor 1.1|d2 -> refused 17 Already
    +1 sponsor 1.1|d3 -> ok 19: resolution:1=discussing(+1) choice:1.1=d1,Red,a,1,in+1 \
        sponsor:1.1:d3=active header
    +2 sponsor 1.1|d4 -> ok 20: sponsor:1.1:d4=active header
    desk 17
    +0 propose d1|Red|a|1 -> ok 18 resolution 1: resolution:1=draft choice:1.1=d1,Red,a,1 \
        header
    +0 sponsor 1.1|d2 -> ok 19: sponsor:1.1:d2=active header
    +0 sponsor 1.1|d3 -> ok 20: sponsor:1.1:d3=active header
    +0 sponsor 1.1|d1 -> refused 17 Already
    +0 sponsor 1.1|d4 -> ok 21: resolution:1=discussing(+0) choice:1.1=d1,Red,a,1,in+0 \
        sponsor:1.1:d4=active header
    # Five sponsors are enough, whatever the roll.
    desk 100
    +0 propose d1|Red|a|1 -> ok 101 resolution 1: resolution:1=draft choice:1.1=d1,Red,a,1 \
        header
    +0 sponsor 1.1|d2 -> ok 102: sponsor:1.1:d2=active header
    +0 sponsor 1.1|d3 -> ok 103: sponsor:1.1:d3=active header
    +0 sponsor 1.1|d4 -> ok 104: sponsor:1.1:d4=active header
    +0 sponsor 1.1|d5 -> ok 105: sponsor:1.1:d5=active header
    +0 sponsor 1.1|d6 -> ok 106: resolution:1=discussing(+0) choice:1.1=d1,Red,a,1,in+0 \
        sponsor:1.1:d6=active header
    +0 developer d101|Dora Dean|current -> ok 107: d101 header
    +0 propose d1|Blue|b|2 -> ok 108 resolution 2: resolution:2=draft choice:2.1=d1,Blue,b,2 \
        header
    +0 sponsor 2.1|d2 -> ok 109: sponsor:2.1:d2=active header
    +0 sponsor 2.1|d3 -> ok 110: sponsor:2.1:d3=active header
    +0 sponsor 2.1|d4 -> ok 111: sponsor:2.1:d4=active header
    +0 sponsor 2.1|d5 -> ok 112: sponsor:2.1:d5=active header
    +0 sponsor 2.1|d6 -> ok 113: resolution:2=discussing(+0) choice:2.1=d1,Blue,b,2,in+0 \
        sponsor:2.1:d6=active header
    +0 sponsor 2.1|d7 -> ok 114: sponsor:2.1:d7=active header
    totals 114 NEW_YEAR 101
    # Retired developers count for no sponsors.
    desk 17
    +0 propose d1|Red|a|1 -> ok 18 resolution 1: resolution:1=draft choice:1.1=d1,Red,a,1 \
        header
    +0 sponsor 1.1|d2 -> ok 19: sponsor:1.1:d2=active header
    +0 sponsor 1.1|d3 -> ok 20: sponsor:1.1:d3=active header
    +0 developer d17|Dora Dean|retired -> ok 21: d17 header
    +0 sponsor 1.1|d17 -> refused 15 NotCurrent
    +0 unsponsor 1.1|d3 -> ok 22: sponsor:1.1:d3=withdrawn header
    +0 sponsor 1.1|d4 -> ok 23: resolution:1=discussing(+0) choice:1.1=d1,Red,a,1,in+0 \
        sponsor:1.1:d4=active header
    +0 developer d4|Dora Dean|retired -> ok 24: d4 header
    +5 unsponsor 1.1|d4 -> ok 25: choice:1.1=d1,Red,a,1,in+0,short+5 sponsor:1.1:d4=withdrawn \
        header
    +6 sponsor 1.1|d3 -> ok 26: choice:1.1=d1,Red,a,1,in+0 sponsor:1.1:d3=active header
    # Withdrawn choices are adopted.
    desk 16
    +0 propose @leader|Red|a|1 -> ok 17 resolution 1: resolution:1=discussing(+0) \
        choice:1.1=@leader,Red,a,1,in+0 header
    +0 adopt 1.1|d1 -> refused 19 HasProposer
    +86400 withdraw 1.1 -> ok 18: choice:1.1=nobody,Red,a,1,in+0,short+86400 header
    +86400 withdraw 1.1 -> refused 19 NoProposer
    +172799 adopt 1.1|d1 -> ok 19: choice:1.1=d1,Red,a,1,in+0,short+86400 header
    +172799 sponsor 1.1|d2 -> ok 20: sponsor:1.1:d2=active header
    +172799 sponsor 1.1|d3 -> ok 21: choice:1.1=d1,Red,a,1,in+0 sponsor:1.1:d3=active header
    +172799 propose d1|Blue|b|1 -> ok 22 resolution 2: resolution:2=draft \
        choice:2.1=d1,Blue,b,1 header
    +172799 sponsor 2.1|d2 -> ok 23: sponsor:2.1:d2=active header
    +172799 withdraw 2.1 -> ok 24: choice:2.1=nobody,Blue,b,1 header
    +172800 adopt 2.1|@committee -> ok 25: resolution:2=discussing(+172800) \
        choice:2.1=@committee,Blue,b,1,in+172800 header
    +172800 sponsor 2.1|d2 -> refused 17 Already
    +172801 withdraw 2.1 -> ok 26: choice:2.1=nobody,Blue,b,1,in+172800,short+172801 header
    +172802 adopt 2.1|d2 -> ok 27: choice:2.1=d2,Blue,b,1,in+172800,short+172801 \
        sponsor:2.1:d2=withdrawn header
    +172803 unsponsor 2.1|d2 -> refused 18 NotSponsor
    +172804 withdraw 2.1 -> ok 28: choice:2.1=nobody,Blue,b,1,in+172800,short+172801 header
    +172805 sponsor 2.1|d2 -> ok 29: sponsor:2.1:d2=active header
    # A choice lapses that is short for a day, and no earlier.
    desk 16
    +0 propose d1|Red|a|1 -> ok 17 resolution 1: resolution:1=draft choice:1.1=d1,Red,a,1 \
        header
    +0 sponsor 1.1|d2 -> ok 18: sponsor:1.1:d2=active header
    +0 sponsor 1.1|d3 -> ok 19: resolution:1=discussing(+0) choice:1.1=d1,Red,a,1,in+0 \
        sponsor:1.1:d3=active header
    +86400 unsponsor 1.1|d3 -> ok 20: choice:1.1=d1,Red,a,1,in+0,short+86400 \
        sponsor:1.1:d3=withdrawn header
    +172799 sponsor 1.1|d4 -> ok 21: choice:1.1=d1,Red,a,1,in+0 sponsor:1.1:d4=active header
    desk 16
    +0 propose d1|Red|a|1 -> ok 17 resolution 1: resolution:1=draft choice:1.1=d1,Red,a,1 \
        header
    +0 sponsor 1.1|d2 -> ok 18: sponsor:1.1:d2=active header
    +0 sponsor 1.1|d3 -> ok 19: resolution:1=discussing(+0) choice:1.1=d1,Red,a,1,in+0 \
        sponsor:1.1:d3=active header
    +86400 unsponsor 1.1|d3 -> ok 20: choice:1.1=d1,Red,a,1,in+0,short+86400 \
        sponsor:1.1:d3=withdrawn header
    +172800 sponsor 1.1|d4 -> refused 16 Lapsed
    +172800 unsponsor 1.1|d2 -> refused 16 Lapsed
    +172800 withdraw 1.1 -> refused 16 Lapsed
    +172800 adopt 1.1|d4 -> refused 16 Lapsed
    +172800 amend 1.1|substantial|Red|b -> refused 16 Lapsed
    +172800 amend 1.1|minor|Red|b -> refused 16 Lapsed
    +1209600 amend 1.1|substantial|Red|b -> refused 12 Ended
    +1209600 call 1|14 -> ok 21 cancelled: resolution:1=cancelled(+0) header
    +1209600 call 1|14 -> refused 11 WrongStage
    +1209600 add 1|@leader|Blue|b|1 -> refused 11 WrongStage
    +1209600 sponsor 1.1|d4 -> refused 11 WrongStage
    +1209600 unsponsor 1.1|d2 -> refused 11 WrongStage
    +1209600 withdraw 1.1 -> refused 11 WrongStage
    +1209600 adopt 1.1|d4 -> refused 11 WrongStage
    +1209600 amend 1.1|minor|Red|b -> refused 11 WrongStage
    +1209600 vary 1|0 -> refused 11 WrongStage
    +1209600 vote 1|d1|12|tokenA01 -> refused 11 WrongStage
    +1209600 close 1 -> refused 11 WrongStage
    # Later choices are introduced, and short ones remedied.
    desk 4
    +0 propose d1|Red|a|1 -> ok 5 resolution 1: resolution:1=draft choice:1.1=d1,Red,a,1 header
    +1 amend 1.1|substantial|Rot|b -> ok 6: choice:1.1=d1,Rot,b,1 header
    +2 sponsor 1.1|d2 -> ok 7: resolution:1=discussing(+2) choice:1.1=d1,Rot,b,1,in+2 \
        sponsor:1.1:d2=active header
    +3 sponsor 1.1|d3 -> ok 8: sponsor:1.1:d3=active header
    +4 unsponsor 1.1|d2 -> ok 9: sponsor:1.1:d2=withdrawn header
    +5 add 1|d1|Blue|c|1 -> ok 10 choice 2: choice:1.2=d1,Blue,c,1 header
    +6 amend 1.2|substantial|Blau|d -> ok 11: choice:1.2=d1,Blau,d,1 header
    +7 sponsor 1.2|d2 -> ok 12: resolution:1=discussing(+2,changed+7) \
        choice:1.2=d1,Blau,d,1,in+7 sponsor:1.2:d2=active header
    +8 add 1|d4|Grey|e|1 -> ok 13 choice 3: choice:1.3=d4,Grey,e,1 header
    +9 withdraw 1.3 -> ok 14: choice:1.3=nobody,Grey,e,1 header
    +10 adopt 1.3|@leader -> ok 15: resolution:1=discussing(+2,changed+10) \
        choice:1.3=@leader,Grey,e,1,in+10 header
    +11 withdraw 1.3 -> ok 16: choice:1.3=nobody,Grey,e,1,in+10,short+11 header
    +12 adopt 1.3|@committee -> ok 17: choice:1.3=@committee,Grey,e,1,in+10 header
    +13 withdraw 1.2 -> ok 18: choice:1.2=nobody,Blau,d,1,in+7,short+13 header
    +14 adopt 1.2|d3 -> ok 19: choice:1.2=d3,Blau,d,1,in+7 header
    +1209602 withdraw 1.1 -> ok 20: choice:1.1=nobody,Rot,b,1,in+2,short+1209602 header
    +1209602 amend 1.1|substantial|Rot|c -> refused 12 Ended
    +1209603 adopt 1.1|d4 -> ok 21: choice:1.1=d4,Rot,b,1,in+2 header
    +1209604 developer d1|Dora Dean|retired -> ok 22: d1 header
    +1209604 developer d2|Dora Dean|retired -> ok 23: d2 header
    +1209604 developer d3|Dora Dean|retired -> ok 24: d3 header
    +1209605 unsponsor 1.1|d3 -> ok 25: choice:1.1=d4,Rot,b,1,in+2,short+1209605 \
        sponsor:1.1:d3=withdrawn header
    +1209606 developer d4|Dora Dean|retired -> ok 26: d4 header
    +1209607 unsponsor 1.2|d2 -> ok 27: sponsor:1.2:d2=withdrawn header
    ";
