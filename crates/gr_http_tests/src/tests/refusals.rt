//! The refusals of requests, each once, in short courses of a desk.
use super::follow;
use std::test::Fail;

#[test]
fn refuses_in_discussions_and_votes(rt: HostRuntime) -> Result<(), Fail> {
    follow(&rt, rt.alloc(), DISCUSSION)?;
    follow(&rt, rt.alloc(), VOTE)
}

/// A roll of two current developers and a retired one, where one sponsor is enough. What is short
/// from the new year on has lapsed a day later, at 1767312000. The discussion is to end two weeks
/// after the new year, and by seven days fewer at 1767830400.
const DISCUSSION: &str = "
    4102444800 post /developers login=d1&name=One&status=current \
        -> 409 Conflict|refused 1 BadMoment␊
    NEW_YEAR post /developers login=d1&name=One&status=current -> 200 OK|ok 1␊
    1767225599 post /developers login=d2&name=Two&status=current \
        -> 409 Conflict|refused 2 ClockBack␊
    NEW_YEAR post /developers login=d2&name=Two&status=current -> 200 OK|ok 2␊
    NEW_YEAR post /developers login=d3&name=Three&status=retired -> 200 OK|ok 3␊
    NEW_YEAR post /resolutions author=@Leader&summary=Red&text=a&ratio=1 \
        -> 409 Conflict|refused 3 BadLogin␊
    NEW_YEAR post /resolutions author=d1&summary&text=a&ratio=1 \
        -> 409 Conflict|refused 4 BadText␊
    NEW_YEAR post /resolutions author=d1&summary=Red&text=a&ratio=10 \
        -> 409 Conflict|refused 5 BadRatio␊
    NEW_YEAR post /resolutions author=d4&summary=Red&text=a&ratio=1 \
        -> 409 Conflict|refused 14 NoDeveloper␊
    NEW_YEAR post /resolutions author=d3&summary=Red&text=a&ratio=1 \
        -> 409 Conflict|refused 15 NotCurrent␊
    NEW_YEAR post /resolutions/1/sponsor choice=1&login=d2 -> 409 Conflict|refused 9 NoResolution␊
    NEW_YEAR post /resolutions author=d1&summary=Red&text=a&ratio=1 \
        -> 200 OK|ok 4 resolution 1␊
    NEW_YEAR post /resolutions/1/sponsor choice=2&login=d2 -> 409 Conflict|refused 10 NoChoice␊
    NEW_YEAR post /resolutions/1/vary days=1 -> 409 Conflict|refused 11 WrongStage␊
    NEW_YEAR post /resolutions/1/unsponsor choice=1&login=d2 \
        -> 409 Conflict|refused 18 NotSponsor␊
    NEW_YEAR post /resolutions/1/adopt choice=1&author=@leader \
        -> 409 Conflict|refused 19 HasProposer␊
    NEW_YEAR post /resolutions/1/sponsor choice=1&login=d2 -> 200 OK|ok 5␊
    NEW_YEAR post /resolutions/1/sponsor choice=1&login=d2 -> 409 Conflict|refused 17 Already␊
    NEW_YEAR post /resolutions/1/vary days=8 -> 409 Conflict|refused 6 BadDays␊
    NEW_YEAR post /resolutions/1/call days=-0 -> 409 Conflict|refused 6 BadDays␊
    NEW_YEAR post /resolutions/1/call days=7 -> 409 Conflict|refused 13 TooEarly␊
    NEW_YEAR post /resolutions/1/withdraw choice=1 -> 200 OK|ok 6␊
    NEW_YEAR post /resolutions/1/withdraw choice=1 -> 409 Conflict|refused 19 NoProposer␊
    1767312000 post /resolutions/1/adopt choice=1&author=d1 -> 409 Conflict|refused 16 Lapsed␊
    1767657601 post /resolutions/1/vary days=-7 -> 409 Conflict|refused 20 EndsTooSoon␊
    1768435200 post /resolutions/1/vary days=-0 -> 409 Conflict|refused 12 Ended␊
    1768435200 post /resolutions/1/call days=7 -> 200 OK|ok 7 cancelled␊
    1768435200 post /resolutions/1/close -> 409 Conflict|refused 11 WrongStage␊
    0 get /status/0 -> 409 Conflict|refused 9 NoResolution␊
    4102444800 get /status/0 -> 409 Conflict|refused 9 NoResolution␊
    0 get /status/2 -> 409 Conflict|refused 9 NoResolution␊
    0 get /status/1 -> 200 OK|Resolution 1␊\
        Stage: Cancelled␊\
        Discussion: 2026-01-01T00:00:00Z to 2026-01-15T00:00:00Z␊\
        Choice 1: Red␊\
        Ratio: 1␊\
        Proposer: none␊\
        Sponsors: 1 d2␊\
        Introduced: 2026-01-01T00:00:00Z␊\
        Short since: 2026-01-01T00:00:00Z␊\
        Place: none␊\
        | a␊
    ";

/// A vote of three weeks, in which nobody votes, so that the default option wins alone. The
/// discussion before it ends a week after the new year.
const VOTE: &str = "
    NEW_YEAR post /developers login=d1&name=One&status=current -> 200 OK|ok 1␊
    NEW_YEAR post /resolutions author=@committee&summary=Red&text=a&ratio=9 \
        -> 200 OK|ok 2 resolution 1␊
    NEW_YEAR post /resolutions/1/vary %64ays=-0 -> 200 OK|ok 3␊
    1767657600 post /resolutions/1/vary days=%2D7 -> 200 OK|ok 4␊
    1767830400 post /resolutions/1/call days=21 -> 200 OK|ok 5 places 2 until 1769644800␊
    1767830400 post /resolutions/1/vote login=d1&ranks=12&token=token.01 \
        -> 409 Conflict|refused 7 BadToken␊
    1767830400 post /resolutions/1/vote login=d1&ranks=0-&token=tokenA01 \
        -> 409 Conflict|refused 21 BadRanks␊
    1767830400 get /tally/1 -> 409 Conflict|refused 24 NotRevealed␊
    1769644799 post /resolutions/1/close -> 409 Conflict|refused 13 TooEarly␊
    1769644800 post /resolutions/1/vote login=d1&ranks=12&token=tokenA01 \
        -> 409 Conflict|refused 12 Ended␊
    1769644800 post /resolutions/1/close -> 200 OK|ok 6␊
    1769644800 post /resolutions/1/cast place=0 -> 409 Conflict|refused 10 NoChoice␊
    1769644800 post /resolutions/1/cast place=3 -> 409 Conflict|refused 10 NoChoice␊
    1769644800 post /resolutions/1/cast place=2 -> 409 Conflict|refused 22 NotTied␊
    ";
