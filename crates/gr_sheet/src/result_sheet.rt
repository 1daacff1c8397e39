//! The result of a resolution.
ghost use Rattle.std.specs.Prelude.{◌≡◌, ◌<◌, ◌≤◌, ◌++◌, IfOk, IfErr, IfSome, IsSomeAnd, IsTrue, OnOk, string_bytes, filter, if◌then◌else◌, [], codes, decimal, length};
ghost use Rattle.std.specs.List.{All, flat_map};
ghost use Rattle.std.specs.FinMap as finite;
ghost use Rattle.gr_count.specs.declared.limits.TheConstants.{MAX_DEVELOPERS};
ghost use Rattle.gr_count.specs.PairwiseCount.{IsPairwiseCountOf};
ghost use Rattle.gr_count.specs.Shown.{options_of_pairs, options_of_count, voters_above, keeps, rounds_in, is_member};
ghost use Rattle.gr_core.specs.Parts.Resolution.{is_closed};
ghost use Rattle.gr_core.specs.Parts.Ballot.{ballots_of, vote_of};
ghost use Rattle.gr_core.specs.Parts.Choice.{IsRatio, choices_of};
ghost use Rattle.gr_core.specs.Desks.Outcome.{place_count, election_at};
ghost use Rattle.gr_core.specs.Desks.Valid.{places_of};
ghost use Rattle.gr_sheet.specs.Sheet.{IsSheet, IsMissing};
ghost use Rattle.gr_sheet.specs.declared.kind.Kind.TheVariants as kinds;
ghost use Rattle.gr_sheet.specs.ResultSheet.{IsPollOf, IsResult, received_line, vote_lines, count_lines, IsPairBelow, election_shown, findings_of, test_at, test_line, test_line_if, is_compared, pair_line, drop_text, is_dropped_in, round_line, round_numbers, members_of, place_of_option, schwartz_line, last_line, cast_line};
ghost use Rattle.gr_sheet.specs.Ballot.{IsTimelyPoll};
ghost use Rattle.gr_sheet.specs.TallySheet.{ballots_line};

use crate::ballot::{add_called, add_options};
use crate::ballot_test::BallotTest;
use crate::no_sheet::NoSheet;
use crate::option_pair::{OptionPair, option_pairs};
use gr_core::{Choice, Desk, Poll, Refusal, Resolution};
use gr_count::{Count, Pairs};
use std::alloc::{AllocError, Global};

/// The result of the resolution with this number: when votes were taken, the options of the ballot,
/// which of them are kept, the preference counts of each two of these, the rounds that drop
/// defeats, the outcome set, and who won (Constitution, 4.2.4 and A.5). Each line ends with a line
/// feed.
///
/// [`NoSheet::Refused`] with [`Refusal::NoResolution`]: there is none with this number; with
/// [`Refusal::NotRevealed`]: its vote is not closed. [`NoSheet::Memory`]: the memory for the text
/// was refused.
pub fn result_text(alloc: Global, desk: &Desk, number: u32) -> Result<String, NoSheet>
    ensures sheet { IfOk result (λ text.
        IsSheet desk.now kinds.Result number (string_bytes text)) }
    ensures missing { IfErr result (IsMissing desk.now kinds.Result number) }
{
    let Some(resolution) = desk.resolution(number) else {
        return Err(NoSheet::Refused(Refusal::NoResolution));
    };
    let Resolution::Closed(_, poll, chosen) = resolution else {
        return Err(NoSheet::Refused(Refusal::NotRevealed));
    };
    Ok(result_of(alloc, desk, number, poll, chosen)?)
}

/// The result of a resolution that is closed, with this poll, and this place as the chosen one.
fn result_of(
    alloc: Global,
    desk: &Desk,
    number: u32,
    poll: Poll,
    chosen: Option<u32>,
) -> Result<String, AllocError>
    requires closed { IsSomeAnd (finite.get desk.now.resolutions number) (λ row.
        IsTrue (is_closed row)) }
    requires poll { IsPollOf desk.now number poll }
    ensures { IfOk result (λ text.
        IsResult desk.now number poll chosen (string_bytes text)) }
{
    let Some(pairs) = desk.pairs(number) else {
        unreachable!()
    };
    let Some(count) = desk.count(number) else {
        unreachable!()
    };
    let mut text = format!(in alloc; "Result of resolution {number}\n")?;
    add_head(&mut text, desk, number, poll, pairs.options())?;
    add_count(alloc, &mut text, desk, number, poll, pairs, &count)?;
    add_last_line(&mut text, &count, chosen)?;
    Ok(text)
}

/// Adds when votes were taken, how many ballots there are, how many votes were accepted, and the
/// options of the ballot, which has so many places.
fn add_head(
    text: &mut String,
    desk: &Desk,
    number: u32,
    poll: Poll,
    places: usize,
) -> Result<(), AllocError>
    requires poll { IsTimelyPoll poll }
    requires places { places ≡ place_count desk.now.choices number }
    ensures { OnOk result (string_bytes text.new ≡ string_bytes text.old
        ++ vote_lines desk.now number poll) }
{
    add_called(text, poll)?;
    add_ballot_count(text, desk, number)?;
    add_received(text, desk, number)?;
    add_options(text, desk, number, places)
}

/// Adds the tests, the comparisons, the rounds and the outcome of the count.
fn add_count(
    alloc: Global,
    text: &mut String,
    desk: &Desk,
    number: u32,
    poll: Poll,
    pairs: &Pairs,
    count: &Count,
) -> Result<(), AllocError>
    requires poll { IsPollOf desk.now number poll }
    requires options { options_of_pairs pairs.now ≡ place_count desk.now.choices number }
    requires tally { IsPairwiseCountOf pairs.now (vote_of desk.now.ballots number) }
    requires same { options_of_count count.now ≡ options_of_pairs pairs.now }
    ensures { let e = election_at desk.now number poll in
        OnOk result (string_bytes text.new ≡ string_bytes text.old
        ++ count_lines e (findings_of e count.now) (places_of (choices_of desk.now.choices number))
        (place_count desk.now.choices number)) }
{
    add_tests(text, desk, number, poll, pairs, count)?;
    let all = option_pairs(alloc, pairs.options())?;
    add_pairs(text, pairs, count, &all)?;
    add_rounds(text, pairs, count, &all)?;
    add_outcome(text, count)
}

/// Adds how many ballots there are on the resolution.
fn add_ballot_count(text: &mut String, desk: &Desk, number: u32) -> Result<(), AllocError>
    ensures { OnOk result (string_bytes text.new
        ≡ string_bytes text.old ++ ballots_line desk.now number) }
{
    let count = ballot_count(desk, number);
    write!(text, "Ballots: {count}\n")
}

fn ballot_count(desk: &Desk, number: u32) -> usize
    ensures { result ≡ length (ballots_of desk.now.ballots number) }
{
    match desk.ballots(number) {
        Some(ballots) => ballots.len(),
        None => 0,
    }
}

/// Adds how many votes were accepted on the resolution.
fn add_received(text: &mut String, desk: &Desk, number: u32) -> Result<(), AllocError>
    ensures { OnOk result (string_bytes text.new
        ≡ string_bytes text.old ++ received_line desk.now number) }
{
    let received = desk.received(number);
    write!(text, "Received: {received}\n")
}

/// Adds the test of each choice on the ballot of the resolution.
fn add_tests(
    text: &mut String,
    desk: &Desk,
    number: u32,
    poll: Poll,
    pairs: &Pairs,
    count: &Count,
) -> Result<(), AllocError>
    requires poll { IsPollOf desk.now number poll }
    requires options { options_of_pairs pairs.now ≡ place_count desk.now.choices number }
    requires tally { IsPairwiseCountOf pairs.now (vote_of desk.now.ballots number) }
    requires same { options_of_count count.now ≡ options_of_pairs pairs.now }
    ensures { let e = election_at desk.now number poll in
        OnOk result (string_bytes text.new ≡ string_bytes text.old
        ++ flat_map (λ place. test_line (test_at e (findings_of e count.now) place))
        (places_of (choices_of desk.now.choices number))) }
{
    for (_, choice) in desk.choices(number) {
        add_test(text, pairs, count, poll.developers, choice)?;
    }
    Ok(())
}

/// Adds the test of the choice, if it is on the ballot.
fn add_test(
    text: &mut String,
    pairs: &Pairs,
    count: &Count,
    developers: u32,
    choice: &Choice,
) -> Result<(), AllocError>
    requires same { options_of_count count.now ≡ options_of_pairs pairs.now }
    requires developers { developers ≤ MAX_DEVELOPERS }
    requires ratio { IsRatio choice.now.ratio }
    requires place { IfSome choice.now.place (λ place.
        (0 < place) × (place < options_of_pairs pairs.now)) }
    ensures { let e = election_shown pairs.now developers (λ a. choice.now.ratio) in
        OnOk result (string_bytes text.new ≡ string_bytes text.old
        ++ test_line_if e (findings_of e count.now) choice.now.place) }
{
    match choice.place {
        Some(place) => BallotTest::of(pairs, count, developers, place, choice.ratio).add_to(text),
        None => Ok(()),
    }
}

/// Adds the preference counts of each two kept options, of these pairs.
fn add_pairs(
    text: &mut String,
    pairs: &Pairs,
    count: &Count,
    all: &[OptionPair],
) -> Result<(), AllocError>
    requires same { options_of_count count.now ≡ options_of_pairs pairs.now }
    requires inside { All (IsPairBelow (options_of_pairs pairs.now)) all.now }
    ensures { OnOk result (string_bytes text.new ≡ string_bytes text.old
        ++ flat_map (pair_line (voters_above pairs.now))
        (filter (is_compared (keeps count.now)) all.now)) }
{
    for pair in all {
        add_pair(text, pairs, count, *pair)?;
    }
    Ok(())
}

/// Adds the preference counts of the pair, if it is one of kept options with the lower place first.
fn add_pair(
    text: &mut String,
    pairs: &Pairs,
    count: &Count,
    pair: OptionPair,
) -> Result<(), AllocError>
    requires same { options_of_count count.now ≡ options_of_pairs pairs.now }
    requires inside { IsPairBelow (options_of_pairs pairs.now) pair }
    ensures { OnOk result (string_bytes text.new ≡ string_bytes text.old
        ++ (if is_compared (keeps count.now) pair
        then pair_line (voters_above pairs.now) pair else [])) }
{
    if is_compared(count, pair) {
        let OptionPair { first, second } = pair;
        let above = pairs.above(first, second);
        let below = pairs.above(second, first);
        let place = place_of(pairs, first);
        let other = place_of(pairs, second);
        write!(text, "Pair {place} {other}: {above} {below}\n")
    } else {
        Ok(())
    }
}

fn is_compared(count: &Count, pair: OptionPair) -> bool
    requires { IsPairBelow (options_of_count count.now) pair }
    ensures { result ≡ is_compared (keeps count.now) pair }
{
    pair.first < pair.second && count.kept(pair.first) && count.kept(pair.second)
}

/// The place of an option on the ballot.
fn place_of(pairs: &Pairs, option: usize) -> usize
    requires { option < options_of_pairs pairs.now }
    ensures { result ≡ place_of_option option }
{
    // Called for its clause alone, that options are few.
    let _bound = pairs.options();
    option + 1
}

/// Adds a line for each round that drops defeats.
fn add_rounds(
    text: &mut String,
    pairs: &Pairs,
    count: &Count,
    all: &[OptionPair],
) -> Result<(), AllocError>
    requires same { options_of_count count.now ≡ options_of_pairs pairs.now }
    requires inside { All (IsPairBelow (options_of_pairs pairs.now)) all.now }
    ensures { OnOk result (string_bytes text.new ≡ string_bytes text.old
        ++ flat_map (round_line (voters_above pairs.now) (is_dropped_in count.now) all.now)
        (round_numbers (rounds_in count.now))) }
{
    for before in 0..count.rounds() {
        add_round(text, pairs, count, all, before + 1)?;
    }
    Ok(())
}

/// Adds the defeats that a round drops, of these pairs.
fn add_round(
    text: &mut String,
    pairs: &Pairs,
    count: &Count,
    all: &[OptionPair],
    round: u32,
) -> Result<(), AllocError>
    requires same { options_of_count count.now ≡ options_of_pairs pairs.now }
    requires inside { All (IsPairBelow (options_of_pairs pairs.now)) all.now }
    ensures { OnOk result (string_bytes text.new ≡ string_bytes text.old
        ++ round_line (voters_above pairs.now) (is_dropped_in count.now) all.now round) }
{
    write!(text, "Round {round}: drop ")?;
    let mut separator = "";
    for pair in all {
        if is_dropped_in(count, round, *pair) {
            add_drop(text, pairs, *pair, separator)?;
            separator = ", ";
        }
    }
    write!(text, "\n")
}

fn is_dropped_in(count: &Count, round: u32, pair: OptionPair) -> bool
    requires { IsPairBelow (options_of_count count.now) pair }
    ensures { result ≡ is_dropped_in count.now round pair.first pair.second }
{
    0 < round && count.dropped_in(pair.first, pair.second) == round
}

/// Adds the defeat of the second option by the first one after the separator.
fn add_drop(
    text: &mut String,
    pairs: &Pairs,
    pair: OptionPair,
    separator: &str,
) -> Result<(), AllocError>
    requires { IsPairBelow (options_of_pairs pairs.now) pair }
    ensures { OnOk result (string_bytes text.new ≡ string_bytes text.old
        ++ (separator.now ++ drop_text (voters_above pairs.now) pair)) }
{
    let OptionPair { first, second } = pair;
    let support = pairs.above(first, second);
    let opposition = pairs.above(second, first);
    let winner = place_of(pairs, first);
    let loser = place_of(pairs, second);
    write!(text, "{separator}{winner}>{loser} {support}:{opposition}")
}

/// Adds the outcome set.
fn add_outcome(text: &mut String, count: &Count) -> Result<(), AllocError>
    ensures { OnOk result (string_bytes text.new ≡ string_bytes text.old
        ++ schwartz_line (members_of (is_member count.now) (options_of_count count.now))) }
{
    write!(text, "Schwartz:")?;
    for option in 0..count.options() {
        add_member(text, count, option)?;
    }
    write!(text, "\n")
}

/// Adds the place of the option, if it is in the outcome set.
fn add_member(text: &mut String, count: &Count, option: usize) -> Result<(), AllocError>
    requires { option < options_of_count count.now }
    ensures { OnOk result (string_bytes text.new ≡ string_bytes text.old
        ++ (if is_member count.now option
        then codes " " ++ decimal (place_of_option option) else [])) }
{
    // Called for its clause alone, that options are few.
    let _bound = count.options();
    if count.in_set(option) {
        let place = option + 1;
        write!(text, " {place}")
    } else {
        Ok(())
    }
}

/// Adds who won.
fn add_last_line(text: &mut String, count: &Count, chosen: Option<u32>) -> Result<(), AllocError>
    ensures { OnOk result (string_bytes text.new ≡ string_bytes text.old
        ++ last_line (members_of (is_member count.now) (options_of_count count.now)) chosen) }
{
    // Called for its clause alone, that options are few.
    let _bound = count.options();
    match count.winner() {
        Some(winner) => {
            let place = winner + 1;
            write!(text, "Winner: {place}\n")
        }
        None => add_cast(text, chosen),
    }
}

/// Adds the place that the casting vote chose, if it did.
fn add_cast(text: &mut String, chosen: Option<u32>) -> Result<(), AllocError>
    ensures { OnOk result (string_bytes text.new ≡ string_bytes text.old ++ cast_line chosen) }
{
    match chosen {
        Some(place) => write!(text, "Winner: {place} by casting vote\n"),
        None => write!(text, "Casting vote needed\n"),
    }
}
