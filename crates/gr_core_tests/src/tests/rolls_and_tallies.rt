//! Rolls, and tallies of desks that are made of rows, line by line.
use super::script::{follow, follow_over};

#[test]
fn rolls_are_listed_by_login(rt: HostRuntime) {
    follow(&rt, rt.alloc(), ROLLS);
}

/// A roll of nobody; one login; one before it; and a change of the first one.
const ROLLS: &str = "
    | Developers: 0
    | Current: 0
    sheet roll 0
    +0 developer bob|B\u{fffd}|retired -> accepted
    | Developers: 1
    | Current: 0
    | D: bob retired B\u{fffd}
    sheet roll 0
    +0 developer alice|Alice Adams|current -> accepted
    | Developers: 2
    | Current: 1
    | D: alice current Alice Adams
    | D: bob retired B\u{fffd}
    sheet roll 0
    +0 developer bob|Bob|current -> accepted
    | Developers: 2
    | Current: 2
    | D: alice current Alice Adams
    | D: bob current Bob
    sheet roll 0
    ";

/// As many developers as there may be, with logins of 32 bytes and names of 80 characters.
#[test]
fn a_full_roll_has_the_longest_rows(rt: HostRuntime) {
    let alloc = rt.alloc();
    let name = "\u{1f600}".repeat(alloc, 80).expect(&rt, "memory");
    let steps = FULL_ROLL.replace(alloc, "LOGIN", "abcdefghijklmnopqrstuvwxyz._");
    let steps = steps.expect(&rt, "memory");
    let steps = steps.as_str().replace(alloc, "NAME", name.as_str());
    follow(&rt, alloc, steps.expect(&rt, "memory").as_str());
}

const FULL_ROLL: &str = "
    each 1000 1499 +0 developer LOGIN%|NAME|retired -> accepted
    each 1500 2999 +0 developer LOGIN%|NAME|current -> accepted
    | Developers: 2000
    | Current: 1500
    | {D: LOGIN% retired NAME~1000-1498}D: LOGIN1499 retired NAME
    | {D: LOGIN% current NAME~1500-2998}D: LOGIN2999 current NAME
    sheet roll 0
    ";

#[test]
fn tallies_are_listed_by_receipt(rt: HostRuntime) {
    follow_over(&rt, rt.alloc(), ALIKE_RECEIPTS, BY_RECEIPT);
    follow_over(&rt, rt.alloc(), ONE_BALLOT, OF_ONE_BALLOT);
    follow_over(&rt, rt.alloc(), IN_VOTING, BEFORE_THE_CLOSE);
}

/// Three ballots with one receipt, which no votes have, and a choice that was never on the ballot.
const ALIKE_RECEIPTS: &str = "
    desk|1|2|20|1000
    developer|alice|Alice Adams|1
    developer|bob|Bob Brown|1
    developer|carol|Carol Clark|1
    developer|dave|Dave Dean|1
    resolution|1|3|100|0|0|200|7|3|0
    choice|1|1|0||Red|Text|1|100|0|1
    choice|1|2|0||Green|Text|1|100|0|0
    choice|1|3|0||Blue|Text|1|100|0|2
    ballot|1|alice|12-|{b*64}|1
    ballot|1|bob|21-|{a*64}|1
    ballot|1|carol|1--|{a*64}|1
    ballot|1|dave|1--|{a*64}|1
";

const BY_RECEIPT: &str = "
    | Tally of resolution 1
    | Option 1: Red
    | Option 2: Blue
    | Option 3: None of the above
    | Ballots: 4
    | V: 1-- {a*64}
    | V: 1-- {a*64}
    | V: 21- {a*64}
    | V: 12- {b*64}
    sheet tally 1
    ";

/// The receipt is the SHA-256 of `1`, `d1` and `tokenA03`, with a line feed after each.
const ONE_BALLOT: &str = "
    desk|1|2|20|1000
    developer|d1|Dora Dean|1
    resolution|1|3|100|0|0|200|7|3|0
    choice|1|1|0||Yes|Text|1|100|0|1
    ballot|1|d1|1-|d91f3b11f18086717d24afd335154a14c7b6de5a4555de1ba614fd06bbe9a2d8|1
";

const OF_ONE_BALLOT: &str = "
    | Tally of resolution 1
    | Option 1: Yes
    | Option 2: None of the above
    | Ballots: 1
    | V: 1- d91f3b11f18086717d24afd335154a14c7b6de5a4555de1ba614fd06bbe9a2d8
    sheet tally 1
    ";

const IN_VOTING: &str = "
    desk|1|2|20|1000
    resolution|1|2|100|0|0|200|7|3|0
    choice|1|1|0||Yes|Text|1|100|0|1
";

const BEFORE_THE_CLOSE: &str = "
    | refused 24 NotRevealed
    sheet tally 1
    | refused 9 NoResolution
    sheet tally 2
    ";
