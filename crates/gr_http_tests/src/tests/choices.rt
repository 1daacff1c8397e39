//! A resolution with as many choices as it may have: one more is refused, and ballots rank all 35
//! options, the later ones by letters.
use super::follow;
use super::text::add_all;
use std::alloc::AllocError;
use std::test::Fail;

#[test]
fn thirty_four_choices_are_voted_on(rt: HostRuntime) -> Result<(), Fail> {
    let mut steps = String::from_str(rt.alloc(), RESOLUTION)?;
    add_choices(&mut steps)?;
    add_all(&mut steps, &["409 Conflict|refused 8 Full␊\n", VOTE])?;
    add_tally(&mut steps)?;
    follow(&rt, rt.alloc(), steps.as_str())
}

/// The only developer, and the resolution with its first choice.
const RESOLUTION: &str = "\
    NEW_YEAR post /developers login=d1&name=One&status=current -> 200 OK|ok 1␊
    NEW_YEAR post /resolutions author=@leader&summary=Red1&text=a&ratio=1 \
        -> 200 OK|ok 2 resolution 1␊
";

/// Adds the further choices, and one more, up to its answer.
fn add_choices(steps: &mut String) -> Result<(), AllocError> {
    for number in 2..=34u64 {
        add_choice(steps, number)?;
        let accepted = number.saturating_add(1);
        write!(steps, "200 OK|ok {accepted} choice {number}␊\n")?;
    }
    add_choice(steps, 35)
}

/// Adds a request for one more choice, up to its answer.
fn add_choice(steps: &mut String, number: u64) -> Result<(), AllocError> {
    write!(
        steps,
        "NEW_YEAR post /resolutions/1/choice author=@leader&summary=Red{number}&text=a&ratio=1 \
        -> "
    )
}

/// What the only developer votes, until the vote is over. The ranks go from 1 to 9 and then from a
/// to z; the second ballot ranks all options from the last one to the first.
const VOTE: &str = "\
    1768435200 post /resolutions/1/choice author=@leader&summary=Red35&text=a&ratio=1 \
        -> 409 Conflict|refused 8 Full␊
    1768435200 post /resolutions/1/call days=7 -> 200 OK|ok 36 places 35 until 1769040000␊
    1768435200 post /resolutions/1/vote login=d1&token=tokenA01\
        &ranks=123456789abcdefghijklmnopqrstuvwxy -> 409 Conflict|refused 21 BadRanks␊
    1768435200 post /resolutions/1/vote login=d1&token=tokenA01\
        &ranks=123456789abcdefghijklmnopqrstuvwxyz- -> 409 Conflict|refused 21 BadRanks␊
    1768435200 post /resolutions/1/vote login=d1&token=tokenA01\
        &ranks=123456789abcdefghijklmnopqrstuvwxyZ -> 409 Conflict|refused 21 BadRanks␊
    1768435200 post /resolutions/1/vote login=d1&token=tokenA01\
        &ranks=123456789abcdefghijklmnopqrstuvwxyz -> 200 OK|ok 37 receipt \
        900eb73ab7e42d7eb72f6524157a5dfa609a0f27b79f9c9ac235cd6931258b07␊
    1768435200 post /resolutions/1/vote login=d1&token=tokenA02\
        &ranks=zyxwvutsrqponmlkjihgfedcba987654321 -> 200 OK|ok 38 receipt \
        119534b4c68825524838984ea0d81ed2c4192b90252e5415d875d7d362ea325b␊
    1769040000 post /resolutions/1/close -> 200 OK|ok 39␊
    0 get /tally/1 -> 200 OK|Tally of resolution 1␊";

/// Adds the rest of the tally sheet: the options, and the ballot that counts.
fn add_tally(steps: &mut String) -> Result<(), AllocError> {
    for number in 1..=34u64 {
        write!(steps, "Option {number}: Red{number}␊")?;
    }
    steps.push_str(
        "Option 35: None of the above␊Ballots: 1␊V: zyxwvutsrqponmlkjihgfedcba987654321 \
        119534b4c68825524838984ea0d81ed2c4192b90252e5415d875d7d362ea325b␊\n",
    )
}
