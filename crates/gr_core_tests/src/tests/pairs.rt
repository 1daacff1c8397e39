//! The preference counts that a desk keeps of each vote, and how many votes were accepted: over
//! ballots that take the place of others, beside one another, and of desks that are made of rows.
use super::rows::{MOST_CHOICES, ROWS};
use super::script::{follow, follow_over};

/// Each ballot counts in the place of the voter's earlier one, in its own vote alone.
#[test]
fn counts_follow_the_ballots(rt: HostRuntime) {
    for steps in [ONE_VOTER, LETTERS, THREE_VOTES] {
        follow(&rt, rt.alloc(), steps);
    }
}

/// Before the call there are no counts, and after it those of no ballot.
const ONE_VOTER: &str = "
    desk 1
    pairs 0-1 none
    received 0 0
    +0 propose @leader|Red|a|1 -> accepted
    pairs 1 none
    +1209600 call 1|14 -> accepted
    pairs 1 0 0:0
    received 1 0
    reload
    pairs 1 0 0:0
    received 1 0
    +1209600 vote 1|d1|12|tokenA01 -> accepted
    pairs 1 1 1:0
    reload
    pairs 1 1 1:0
    +1209600 vote 1|d1|21|tokenA02 -> accepted
    pairs 1 1 0:1
    received 1 2
    reload
    pairs 1 1 0:1
    received 1 2
    +1209600 vote 1|d1|--|tokenA03 -> accepted
    pairs 1 1 0:0
    reload
    pairs 1 1 0:0
    +2419200 close 1 -> accepted
    pairs 1 1 0:0
    received 1 3
    reload
    pairs 1 1 0:0
    received 1 3
    pairs 2 none
    received 2 0
    totals 7 +2419200 1
    # The same without a load.
    desk 1
    +0 propose @leader|Red|a|1 -> accepted
    +1209600 call 1|14 -> accepted
    +1209600 vote 1|d1|12|tokenA01 -> accepted
    pairs 1 1 1:0
    +1209600 vote 1|d1|21|tokenA02 -> accepted
    pairs 1 1 0:1
    +1209600 vote 1|d1|--|tokenA03 -> accepted
    pairs 1 1 0:0
    +1209600 vote 1|d1|12|tokenA01 -> accepted
    pairs 1 1 1:0
    +2419200 close 1 -> accepted
    pairs 1 1 1:0
    ";

/// Digits stand before letters, these in their order, and no rank after all of them. A vote that
/// is refused counts for nothing.
const LETTERS: &str = "
    desk 3
    +0 propose @leader|Red|a|1 -> accepted
    +1209600 call 1|14 -> accepted
    +1209600 vote 1|d1|z-|tokenA01 -> accepted
    pairs 1 1 1:0
    +1209600 vote 1|d2|az|tokenA02 -> accepted
    pairs 1 2 2:0
    +1209600 vote 1|d3|z9|tokenA03 -> accepted
    pairs 1 3 2:1
    reload
    pairs 1 3 2:1
    +1209600 vote 1|d1|9a|tokenA04 -> accepted
    pairs 1 3 2:1
    +1209600 vote 1|d2|-a|tokenA05 -> accepted
    pairs 1 3 1:2
    +1209600 vote 1|d3|zz|tokenA06 -> accepted
    pairs 1 3 1:1
    +1209600 vote 1|d1|Z-|tokenA07 -> refused 21 BadRanks
    +1209600 vote 1|d1|-|tokenA07 -> refused 21 BadRanks
    +1209600 vote 1|d1|-z-|tokenA07 -> refused 21 BadRanks
    +1209600 vote 1|d4|-z|tokenA07 -> refused 14 NoDeveloper
    pairs 1 3 1:1
    reload
    pairs 1 3 1:1
    +2419200 vote 1|d1|-z|tokenA07 -> refused 12 Ended
    pairs 1 3 1:1
    ";

/// Votes over two, three and four places, beside a draft and a resolution that is cancelled.
const THREE_VOTES: &str = "
    desk 4
    +0 propose @leader|Red|a|1 -> accepted
    +0 propose @leader|Blue|a|1 -> accepted
    +0 add 2|@leader|Green|a|1 -> accepted
    +0 propose @leader|Grey|a|1 -> accepted
    +0 add 3|@leader|Black|a|1 -> accepted
    +0 add 3|@leader|White|a|1 -> accepted
    +0 propose d1|Draft|a|1 -> accepted
    +0 propose @leader|Gone|a|1 -> accepted
    +0 withdraw 5.1 -> accepted
    +1209600 call 2|14 -> accepted
    pairs 1 none
    pairs 2 0 0:0 0:0 0:0
    pairs 3-6 none
    +1209600 vote 2|d1|123|tokenA01 -> accepted
    pairs 2 1 1:0 1:0 1:0
    +1209600 call 1|7 -> accepted
    +1209600 call 3|21 -> accepted
    +1209600 call 5|7 -> accepted
    pairs 1 0 0:0
    pairs 2 1 1:0 1:0 1:0
    pairs 3 0{ 0:0*6}
    pairs 4-6 none
    +1209600 vote 1|d1|21|tokenA01 -> accepted
    +1209600 vote 3|d2|4-12|tokenA01 -> accepted
    +1209600 vote 2|d1|33-|tokenA02 -> accepted
    pairs 1 1 0:1
    pairs 2 1 0:0 1:0 1:0
    pairs 3 1 1:0 0:1 0:1 0:1 0:1 1:0
    # Commands that are no votes leave the counts as they are.
    +1209601 developer d1|Dora Dean|retired -> accepted
    +1209601 propose @leader|Late|a|1 -> accepted
    +1209601 amend 6.1|minor|Later|b -> accepted
    +1209601 sponsor 4.1|d2 -> accepted
    +1814400 close 1 -> accepted
    pairs 1 1 0:1
    pairs 2 1 0:0 1:0 1:0
    pairs 3 1 1:0 0:1 0:1 0:1 0:1 1:0
    pairs 4-6 none
    reload
    pairs 1 1 0:1
    pairs 2 1 0:0 1:0 1:0
    pairs 3 1 1:0 0:1 0:1 0:1 0:1 1:0
    pairs 4-6 none
    +1814400 vote 3|d2|1111|tokenA02 -> accepted
    +1814400 vote 3|d3|zyxw|tokenA03 -> accepted
    pairs 1 1 0:1
    pairs 2 1 0:0 1:0 1:0
    pairs 3 2{ 0:1*6}
    ";

/// A desk that is made of rows has the counts of their ballots, and goes on with them.
#[test]
fn loaded_desks_have_their_counts(rt: HostRuntime) {
    for (rows, steps) in [
        (ROWS, EACH_STAGE),
        (EIGHT_CHOICES, OVER_DIGITS),
        (MOST_CHOICES, OVER_LETTERS),
        (EACH_IN_VOTING, ONE_IS_VOTED_ON),
        (ONE_UNCALLED, ONE_IS_CALLED),
        (TIE, ONE_IS_CHOSEN),
    ] {
        follow_over(&rt, rt.alloc(), rows, steps);
    }
}

const EACH_STAGE: &str = "
    pairs 0-2 none
    pairs 3 2 1:0 1:0 1:0
    pairs 4 2 1:1 2:0 2:0
    pairs 5-6 none
    outcome 4 0 1,2
    ";

/// As many choices as there might be before letters were ranks, and ballots of digits.
const EIGHT_CHOICES: &str = "
    desk|1|2|60|1768435200
    developer|alice|Alice Adams|1
    developer|bob|Bob Brown|1
    developer|carol|Carol Clark|0
    developer|dave|Dave Dean|1
    developer|erin|Erin Evans|1
    resolution|1|1|1768435200|0|0|0|0|0|0
    {choice|1|%|2||C%|Text|1|1768435200|0|0~1-8}
    resolution|2|2|1767225600|0|0|1768435200|14|5|0
    {choice|2|%|2||C%|Text|1|1767225600|0|%~1-8}
    ballot|2|alice|123456789|{0*64}|1
    ballot|2|bob|987654321|{1*64}|1
    ballot|2|carol|99999999-|{2*64}|1
    ballot|2|dave|---------|{3*64}|1
    ballot|2|erin|1-1-1-1-9|{4*64}|1
";

/// It takes a ninth choice and a ballot with a letter, which puts the first option after all
/// others.
const OVER_DIGITS: &str = "
    pairs 1 none
    pairs 2 5 2:1 1:1 2:1 1:1 2:1 1:1 2:1 3:1 1:2 1:1 1:2 1:1 1:2 1:1 2:2 2:1 1:1 2:1 1:1 2:1 3:1 \
        1:2 1:1 1:2 1:1 2:2 2:1 1:1 2:1 3:1 1:2 1:1 2:2 2:1 3:1 2:2
    +1209600 add 1|@leader|C9|a|1 -> ok 61 choice 9: \
        resolution:1=discussing(+1209600,changed+1209600) \
        choice:1.9=@leader,C9,a,1,in+1209600 header
    +1209600 vote 2|alice|z99999999|tokenA01 -> accepted
    pairs 2 5 1:2 0:2 1:2 0:2 1:2 0:2 1:2 2:2 0:2 0:1 0:2 0:1 0:2 0:1 1:2 1:1 0:1 1:1 0:1 1:1 2:1 \
        0:2 0:1 0:2 0:1 1:2 1:1 0:1 1:1 2:1 0:2 0:1 1:2 1:1 2:1 1:2
    ";

/// One ballot ranks all places in their order, and the other one the first alone.
const OVER_LETTERS: &str = "
    pairs 1 none
    pairs 2 2{ 2:0*34}{ 1:0*561}
    +1209600 add 1|@leader|C35|a|1 -> refused 8 Full
    +1209600 vote 2|alice|{z*35}|tokenA01 -> accepted
    pairs 2 2{ 1:0*34}{ 0:0*561}
    reload
    pairs 2 2{ 1:0*34}{ 0:0*561}
    ";

/// As many resolutions as there may be, with votes taken on each, and ballots on one.
const EACH_IN_VOTING: &str = "
    desk|1|2|403|1768435200
    developer|alice|Alice Adams|1
    developer|bob|Bob Brown|1
    developer|carol|Carol Clark|1
    {resolution|%|2|1767225600|0|0|1768435200|14|3|0~1-200}
    {choice|%|1|2||Red|a|1|1767225600|0|1~1-200}
    ballot|77|alice|12|{0*64}|1
    ballot|77|bob|-1|{1*64}|1
    ballot|77|carol|21|{2*64}|1
";

const ONE_IS_VOTED_ON: &str = "
    pairs 0 none
    pairs 1-76 0 0:0
    pairs 77 3 1:2
    pairs 78-200 0 0:0
    pairs 201 none
    +1209600 vote 200|carol|12|tokenA01 -> accepted
    pairs 1-76 0 0:0
    pairs 77 3 1:2
    pairs 78-199 0 0:0
    pairs 200 1 1:0
    +1209600 vote 77|carol|12|tokenA01 -> accepted
    pairs 1-76 0 0:0
    pairs 77 3 2:1
    pairs 78-199 0 0:0
    pairs 200 1 1:0
    +1209600 propose @leader|Red|a|1 -> refused 8 Full
    +2419200 close 77 -> accepted
    pairs 1-76 0 0:0
    pairs 77 3 2:1
    pairs 78-199 0 0:0
    pairs 200 1 1:0
    ";

/// The same, but for one that is discussed, which has two choices.
const ONE_UNCALLED: &str = "
    desk|1|2|403|1768435200
    developer|alice|Alice Adams|1
    developer|bob|Bob Brown|1
    {resolution|%|2|1767225600|0|0|1768435200|14|3|0~1-100}
    resolution|101|1|1767225600|0|0|0|0|0|0
    {resolution|%|2|1767225600|0|0|1768435200|14|3|0~102-200}
    {choice|%|1|2||Red|a|1|1767225600|0|1~1-100}
    {choice|101|%|2||Green|a|1|1767225600|0|0~1-2}
    {choice|%|1|2||Blue|a|1|1767225600|0|1~102-200}
";

/// Its call begins its counts, and leaves all others as they are.
const ONE_IS_CALLED: &str = "
    pairs 1-100 0 0:0
    pairs 101 none
    pairs 102-200 0 0:0
    +1209600 vote 1|alice|12|tokenA01 -> accepted
    +1209600 vote 200|alice|21|tokenA02 -> accepted
    +1209600 call 101|14 -> ok 406 places 3 until +2419200: \
        resolution:101=voting(+0;+1209600,14,2) choice:101.1=@leader,Green,a,1,in+0,place1 \
        choice:101.2=@leader,Green,a,1,in+0,place2 header
    pairs 1 1 1:0
    pairs 2-100 0 0:0
    pairs 101 0 0:0 0:0 0:0
    pairs 102-199 0 0:0
    pairs 200 1 0:1
    +1209600 vote 101|bob|a9z|tokenA03 -> accepted
    pairs 1 1 1:0
    pairs 2-100 0 0:0
    pairs 101 1 0:1 1:0 1:0
    pairs 102-199 0 0:0
    pairs 200 1 0:1
    ";

/// A vote that is closed, in which two of three choices are level.
const TIE: &str = "
    desk|1|2|20|1769644800
    developer|alice|Alice Adams|1
    developer|bob|Bob Brown|0
    resolution|1|3|1767225600|0|0|1768435200|14|1|0
    {choice|1|%|2||C%|Text|1|1767225600|0|%~1-3}
    ballot|1|alice|129-|{a*64}|1
    ballot|1|bob|bac-|{9*64}|1
";

/// The casting vote chooses one of these two, by the counts that were made at the load.
const ONE_IS_CHOSEN: &str = "
    pairs 1 2 1:1 2:0 2:0 2:0 2:0 2:0
    outcome 1 0 1,2
    +2419200 cast 1|3 -> refused 22 NotTied
    +2419200 cast 1|4 -> refused 22 NotTied
    +2419200 cast 1|5 -> refused 10 NoChoice
    +2419200 cast 1|0 -> refused 10 NoChoice
    +2419200 cast 1|2 -> ok 21: resolution:1=closed(+0;+1209600,14,1,place2) header
    pairs 1 2 1:1 2:0 2:0 2:0 2:0 2:0
    reload
    +2419200 cast 1|1 -> refused 17 Already
    pairs 1 2 1:1 2:0 2:0 2:0 2:0 2:0
    outcome 1 0 1,2
    ";
