//! Results of nine, of eleven and of as many options as there may be, with the tallies of the last
//! two. The receipts are those of the command `sha256sum`.
use super::script::{follow, follow_all};

#[test]
fn results_show_many_options(rt: HostRuntime) {
    follow(&rt, rt.alloc(), NINE_OPTIONS);
    follow(&rt, rt.alloc(), ELEVEN_OPTIONS);
    follow_all(
        &rt,
        rt.alloc(),
        &[
            MOST_OPTIONS,
            MOST_COUNTED,
            NEEDED,
            MOST_SHOWN,
            "reload",
            MOST_COUNTED,
            NEEDED,
            CAST,
            MOST_COUNTED,
            CHOSEN,
        ],
    );
}

/// Thirteen of sixteen developers vote on nine options, all of which are kept.
/// The numbers are those of a small program that follows the words of A.5 and has nothing of the
/// desk's.
const NINE_OPTIONS: &str = "
    desk 16
    +0 propose @leader|C1|a|1 -> accepted
    +0 add 1|@leader|C2|a|1 -> accepted
    +0 add 1|@leader|C3|a|2 -> accepted
    each 4 5 +0 add 1|@leader|C%|a|1 -> accepted
    +0 add 1|@leader|C6|a|3 -> accepted
    each 7 8 +0 add 1|@leader|C%|a|1 -> accepted
    +1209600 call 1|14 -> accepted
    each 1 4 +1209600 vote 1|d%|173586249|tokenA0% -> accepted
    each 5 6 +1209600 vote 1|d%|6-7123469|tokenA0% -> accepted
    each 7 8 +1209600 vote 1|d%|78645123-|tokenA0% -> accepted
    +1209600 vote 1|d9|813245679|tokenA09 -> accepted
    +1209600 vote 1|d10|523416769|tokenA10 -> accepted
    each 11 13 +1209600 vote 1|d%|234517819|tokenA% -> accepted
    +2419200 close 1 -> accepted
    | Result of resolution 1
    | Voting: 2026-01-15T00:00:00Z to 2026-01-29T00:00:00Z
    | Developers: 16
    | Ballots: 13
    | Received: 13
    | Option 1: C1
    | Option 2: C2
    | Option 3: C3
    | Option 4: C4
    | Option 5: C5
    | Option 6: C6
    | Option 7: C7
    | Option 8: C8
    | Option 9: None of the above
    | Test 1: above 13, below 0, ratio 1, quorum met, majority met, kept
    | Test 2: above 11, below 2, ratio 1, quorum met, majority met, kept
    | Test 3: above 13, below 0, ratio 2, quorum met, majority met, kept
    | Test 4: above 13, below 0, ratio 1, quorum met, majority met, kept
    | Test 5: above 13, below 0, ratio 1, quorum met, majority met, kept
    | Test 6: above 13, below 0, ratio 3, quorum met, majority met, kept
    | Test 7: above 13, below 0, ratio 1, quorum met, majority met, kept
    | Test 8: above 13, below 0, ratio 1, quorum met, majority met, kept
    | Pair 1 2: 11 2
    | Pair 1 3: 9 4
    | Pair 1 4: 7 6
    | Pair 1 5: 4 9
    | Pair 1 6: 8 5
    | Pair 1 7: 8 5
    | Pair 1 8: 5 6
    | Pair 1 9: 13 0
    | Pair 2 3: 5 8
    | Pair 2 4: 5 8
    | Pair 2 5: 5 8
    | Pair 2 6: 5 8
    | Pair 2 7: 5 8
    | Pair 2 8: 2 11
    | Pair 2 9: 11 2
    | Pair 3 4: 8 5
    | Pair 3 5: 5 8
    | Pair 3 6: 9 4
    | Pair 3 7: 5 8
    | Pair 3 8: 6 7
    | Pair 3 9: 13 0
    | Pair 4 5: 9 4
    | Pair 4 6: 11 2
    | Pair 4 7: 7 6
    | Pair 4 8: 4 9
    | Pair 4 9: 13 0
    | Pair 5 6: 7 6
    | Pair 5 7: 7 6
    | Pair 5 8: 4 6
    | Pair 5 9: 13 0
    | Pair 6 7: 9 4
    | Pair 6 8: 5 7
    | Pair 6 9: 13 0
    | Pair 7 8: 9 4
    | Pair 7 9: 13 0
    | Pair 8 9: 13 0
    | Round 1: drop 8>1 6:5
    | Round 2: drop 8>5 6:4
    | Round 3: drop 1>4 7:6, 4>7 7:6, 5>6 7:6, 5>7 7:6, 8>3 7:6
    | Round 4: drop 8>6 7:5
    | Round 5: drop 1>6 8:5, 1>7 8:5, 3>4 8:5, 5>3 8:5, 7>3 8:5
    | Round 6: drop 1>3 9:4, 3>6 9:4, 4>5 9:4, 5>1 9:4, 6>7 9:4, 7>8 9:4, 8>4 9:4
    | Schwartz: 1 3 4 5 7 8
    | Casting vote needed
    sheet result 1
    ";

/// Six of sixteen developers rank ten choices in their order, with a letter after the nine digits:
/// each option is preferred to each later one by all six.
const ELEVEN_OPTIONS: &str = "
    desk 16
    +0 propose @leader|C1|a|1 -> accepted
    each 2 10 +0 add 1|@leader|C%|a|1 -> accepted
    +1209600 call 1|14 -> accepted
    each 1 6 +1209600 vote 1|d%|123456789ab|tokenA0% -> accepted
    +2419200 close 1 -> accepted
    | Tally of resolution 1
    | {Option %: C%~1-9}Option 10: C10
    | Option 11: None of the above
    | Ballots: 6
    | V: 123456789ab 49d508c842e3f7d45900472a253814598e3b55adff8210381d5f856e98256a1e
    | V: 123456789ab 6a9b7694f79df615db603850c8b0a240eb63a6beac4badef0a0d1abdf76d5d46
    | V: 123456789ab 81aedeae5426a7605a307f52e252e1c0b8af76cfa2c28107b1fd92f104e54bb0
    | V: 123456789ab 900eb73ab7e42d7eb72f6524157a5dfa609a0f27b79f9c9ac235cd6931258b07
    | V: 123456789ab 921e9e589da0a2af233149c221978bdcc2592cd63c52284e55c350b0aac3bdfa
    | V: 123456789ab cd85c6308eede36eac8f224e4b10defe36c7c83f196d7c693201893e069b78aa
    sheet tally 1
    | Result of resolution 1
    | Voting: 2026-01-15T00:00:00Z to 2026-01-29T00:00:00Z
    | Developers: 16
    | Ballots: 6
    | Received: 6
    | {Option %: C%~1-9}Option 10: C10
    | Option 11: None of the above
    | {Test %: above 6, below 0, ratio 1, quorum met, majority met, kept~1-9}\
        Test 10: above 6, below 0, ratio 1, quorum met, majority met, kept
    | Pair 1 2: 6 0
    | Pair 1 3: 6 0
    | Pair 1 4: 6 0
    | Pair 1 5: 6 0
    | Pair 1 6: 6 0
    | Pair 1 7: 6 0
    | Pair 1 8: 6 0
    | Pair 1 9: 6 0
    | Pair 1 10: 6 0
    | Pair 1 11: 6 0
    | Pair 2 3: 6 0
    | Pair 2 4: 6 0
    | Pair 2 5: 6 0
    | Pair 2 6: 6 0
    | Pair 2 7: 6 0
    | Pair 2 8: 6 0
    | Pair 2 9: 6 0
    | Pair 2 10: 6 0
    | Pair 2 11: 6 0
    | Pair 3 4: 6 0
    | Pair 3 5: 6 0
    | Pair 3 6: 6 0
    | Pair 3 7: 6 0
    | Pair 3 8: 6 0
    | Pair 3 9: 6 0
    | Pair 3 10: 6 0
    | Pair 3 11: 6 0
    | Pair 4 5: 6 0
    | Pair 4 6: 6 0
    | Pair 4 7: 6 0
    | Pair 4 8: 6 0
    | Pair 4 9: 6 0
    | Pair 4 10: 6 0
    | Pair 4 11: 6 0
    | Pair 5 6: 6 0
    | Pair 5 7: 6 0
    | Pair 5 8: 6 0
    | Pair 5 9: 6 0
    | Pair 5 10: 6 0
    | Pair 5 11: 6 0
    | Pair 6 7: 6 0
    | Pair 6 8: 6 0
    | Pair 6 9: 6 0
    | Pair 6 10: 6 0
    | Pair 6 11: 6 0
    | Pair 7 8: 6 0
    | Pair 7 9: 6 0
    | Pair 7 10: 6 0
    | Pair 7 11: 6 0
    | Pair 8 9: 6 0
    | Pair 8 10: 6 0
    | Pair 8 11: 6 0
    | Pair 9 10: 6 0
    | Pair 9 11: 6 0
    | Pair 10 11: 6 0
    | Schwartz: 1
    | Winner: 1
    sheet result 1
    ";

/// Nine of sixteen developers vote on as many options as there may be. The choices are in three
/// blocks, 1 to 11, 12 to 22 and 23 to 34, within each of which they are level: four voters prefer
/// the blocks in this order, three have the last one first, and two the second. So the first block
/// defeats the second, that one the third by six, and this one the first by five.
const MOST_OPTIONS: &str = "
    desk 16
    +0 propose @leader|C1|a|1 -> accepted
    each 2 34 +0 add 1|@leader|C%|a|1 -> accepted
    +1209600 call 1|14 -> accepted
    each 1 4 +1209600 vote 1|d%|{1*11}{a*11}{z*12}-|tokenA0% -> accepted
    each 5 7 +1209600 vote 1|d%|{a*11}{b*11}{9*12}-|tokenA0% -> accepted
    each 8 9 +1209600 vote 1|d%|{z*11}{8*11}{h*12}-|tokenA0% -> accepted
    +2419200 close 1 -> accepted
    ";

/// The tally has each ballot with its ranks.
const MOST_SHOWN: &str = "
    | Tally of resolution 1
    | {Option %: C%~1-33}Option 34: C34
    | Option 35: None of the above
    | Ballots: 9
    | V: {a*11}{b*11}{9*12}- 49d508c842e3f7d45900472a253814598e3b55adff8210381d5f856e98256a1e
    | V: {1*11}{a*11}{z*12}- 6a9b7694f79df615db603850c8b0a240eb63a6beac4badef0a0d1abdf76d5d46
    | V: {1*11}{a*11}{z*12}- 81aedeae5426a7605a307f52e252e1c0b8af76cfa2c28107b1fd92f104e54bb0
    | V: {z*11}{8*11}{h*12}- 8ad9ea34cfd042e4d17b448c3a5492781d434b64a037e8ce095c34c7ba575c08
    | V: {1*11}{a*11}{z*12}- 900eb73ab7e42d7eb72f6524157a5dfa609a0f27b79f9c9ac235cd6931258b07
    | V: {1*11}{a*11}{z*12}- 921e9e589da0a2af233149c221978bdcc2592cd63c52284e55c350b0aac3bdfa
    | V: {a*11}{b*11}{9*12}- b030e7a9ff8b9894d4d33834f59651da577350d16c4306c2f61e876bc3d9c8b6
    | V: {z*11}{8*11}{h*12}- c6446ac268ace826021532460084c3af4960afbe64bcb865241ecb3440d0cedd
    | V: {a*11}{b*11}{9*12}- cd85c6308eede36eac8f224e4b10defe36c7c83f196d7c693201893e069b78aa
    sheet tally 1
    ";

/// Each defeat of the first block by the third is a weakest one, and goes in the one round.
const MOST_COUNTED: &str = "
    | Result of resolution 1
    | Voting: 2026-01-15T00:00:00Z to 2026-01-29T00:00:00Z
    | Developers: 16
    | Ballots: 9
    | Received: 9
    | {Option %: C%~1-33}Option 34: C34
    | Option 35: None of the above
    | {Test %: above 9, below 0, ratio 1, quorum met, majority met, kept~1-33}\
        Test 34: above 9, below 0, ratio 1, quorum met, majority met, kept
    | {Pair 1 %: 0 0~2-11}{Pair 1 %: 7 2~12-22}{Pair 1 %: 4 5~23-34}Pair 1 35: 9 0
    | {Pair 2 %: 0 0~3-11}{Pair 2 %: 7 2~12-22}{Pair 2 %: 4 5~23-34}Pair 2 35: 9 0
    | {Pair 3 %: 0 0~4-11}{Pair 3 %: 7 2~12-22}{Pair 3 %: 4 5~23-34}Pair 3 35: 9 0
    | {Pair 4 %: 0 0~5-11}{Pair 4 %: 7 2~12-22}{Pair 4 %: 4 5~23-34}Pair 4 35: 9 0
    | {Pair 5 %: 0 0~6-11}{Pair 5 %: 7 2~12-22}{Pair 5 %: 4 5~23-34}Pair 5 35: 9 0
    | {Pair 6 %: 0 0~7-11}{Pair 6 %: 7 2~12-22}{Pair 6 %: 4 5~23-34}Pair 6 35: 9 0
    | {Pair 7 %: 0 0~8-11}{Pair 7 %: 7 2~12-22}{Pair 7 %: 4 5~23-34}Pair 7 35: 9 0
    | {Pair 8 %: 0 0~9-11}{Pair 8 %: 7 2~12-22}{Pair 8 %: 4 5~23-34}Pair 8 35: 9 0
    | {Pair 9 %: 0 0~10-11}{Pair 9 %: 7 2~12-22}{Pair 9 %: 4 5~23-34}Pair 9 35: 9 0
    | {Pair 10 %: 0 0~11-11}{Pair 10 %: 7 2~12-22}{Pair 10 %: 4 5~23-34}Pair 10 35: 9 0
    | {Pair 11 %: 7 2~12-22}{Pair 11 %: 4 5~23-34}Pair 11 35: 9 0
    | {Pair 12 %: 0 0~13-22}{Pair 12 %: 6 3~23-34}Pair 12 35: 9 0
    | {Pair 13 %: 0 0~14-22}{Pair 13 %: 6 3~23-34}Pair 13 35: 9 0
    | {Pair 14 %: 0 0~15-22}{Pair 14 %: 6 3~23-34}Pair 14 35: 9 0
    | {Pair 15 %: 0 0~16-22}{Pair 15 %: 6 3~23-34}Pair 15 35: 9 0
    | {Pair 16 %: 0 0~17-22}{Pair 16 %: 6 3~23-34}Pair 16 35: 9 0
    | {Pair 17 %: 0 0~18-22}{Pair 17 %: 6 3~23-34}Pair 17 35: 9 0
    | {Pair 18 %: 0 0~19-22}{Pair 18 %: 6 3~23-34}Pair 18 35: 9 0
    | {Pair 19 %: 0 0~20-22}{Pair 19 %: 6 3~23-34}Pair 19 35: 9 0
    | {Pair 20 %: 0 0~21-22}{Pair 20 %: 6 3~23-34}Pair 20 35: 9 0
    | {Pair 21 %: 0 0~22-22}{Pair 21 %: 6 3~23-34}Pair 21 35: 9 0
    | {Pair 22 %: 6 3~23-34}Pair 22 35: 9 0
    | {Pair 23 %: 0 0~24-34}Pair 23 35: 9 0
    | {Pair 24 %: 0 0~25-34}Pair 24 35: 9 0
    | {Pair 25 %: 0 0~26-34}Pair 25 35: 9 0
    | {Pair 26 %: 0 0~27-34}Pair 26 35: 9 0
    | {Pair 27 %: 0 0~28-34}Pair 27 35: 9 0
    | {Pair 28 %: 0 0~29-34}Pair 28 35: 9 0
    | {Pair 29 %: 0 0~30-34}Pair 29 35: 9 0
    | {Pair 30 %: 0 0~31-34}Pair 30 35: 9 0
    | {Pair 31 %: 0 0~32-34}Pair 31 35: 9 0
    | {Pair 32 %: 0 0~33-34}Pair 32 35: 9 0
    | {Pair 33 %: 0 0~34-34}Pair 33 35: 9 0
    | Pair 34 35: 9 0
    | Round 1: drop {23>% 5:4, #1-11}{24>% 5:4, #1-11}{25>% 5:4, #1-11}{26>% 5:4, #1-11}\
        {27>% 5:4, #1-11}{28>% 5:4, #1-11}{29>% 5:4, #1-11}{30>% 5:4, #1-11}\
        {31>% 5:4, #1-11}{32>% 5:4, #1-11}{33>% 5:4, #1-11}{34>% 5:4, #1-10}34>11 5:4
    | Schwartz: 1{ %#2-11}
    ";

const NEEDED: &str = "
    | Casting vote needed
    sheet result 1
    ";

/// The first block has the outcome set.
const CAST: &str = "
    +2419200 cast 1|12 -> refused 22 NotTied
    +2419200 cast 1|34 -> refused 22 NotTied
    +2419200 cast 1|35 -> refused 22 NotTied
    +2419200 cast 1|36 -> refused 10 NoChoice
    +2419200 cast 1|11 -> accepted
    ";

const CHOSEN: &str = "
    | Winner: 11 by casting vote
    sheet result 1
    ";
