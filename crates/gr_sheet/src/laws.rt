//! Laws of sheets, and of the texts of moments.
//!
//! The functions of this file do nothing but to cite laws of the crates below. What each ensures
//! follows from the definitions alone.
ghost use Rattle.gr_sheet.specs.Laws.{SheetsAreDetermined, SheetsAreShownOrRefused, SheetsRevealNothing};
ghost use Rattle.gr_sheet.specs.Laws.{OnlyTalliesAndResultsShowBallots, ResultsFollowFromTallies, ClosedSheetsStay};
ghost use Rattle.gr_sheet.specs.Date.{SheetsShowTwentyOneDaysMore, MomentsHaveOneDate, MomentsHaveDifferentTexts, SecondsFollowOneAnother};

/// Sheets show moments up to the longest vote after the last moment of a command, the last one of
/// 2099.
pub fn sheets_show_twenty_one_days_more()
    ensures { SheetsShowTwentyOneDaysMore }
{}

/// A moment has one text: the parts that it shows are the one date of the calendar that is so many
/// whole days after 1970-01-01, and the hours, minutes and seconds of the day that has begun.
pub fn moments_have_one_date()
    ensures { MomentsHaveOneDate }
{}

/// No two moments have the same text.
pub fn moments_have_different_texts()
    ensures { MomentsHaveDifferentTexts }
{}

/// A second after a moment the clock shows the next second of the same day, or midnight of the next
/// day, which is the next of the month, or else the first of the next month or of the next year.
pub fn seconds_follow_one_another()
    ensures { SecondsFollowOneAnother }
{}

/// A desk has one text of each sheet at most, or one refusal, and not both.
pub fn sheets_are_determined()
    ensures { SheetsAreDetermined }
{
    gr_count::laws::findings_are_determined();
}

/// A desk has each sheet, or refuses it.
pub fn sheets_are_shown_or_refused()
    ensures { SheetsAreShownOrRefused }
{
    gr_count::laws::elections_have_findings();
}

/// No sheet reveals ballots before their vote is closed (Constitution, 4.2.3): desks that differ in
/// such ballots alone have the same sheets, and the same reasons why there may be none.
pub fn sheets_reveal_nothing()
    ensures { SheetsRevealNothing }
{}

/// The roll and the status of a resolution do not depend on ballots, nor on those of a closed vote:
/// desks with the same developers, resolutions, choices and sponsors have the same ones, and the
/// same reasons why there may be none.
pub fn only_tallies_and_results_show_ballots()
    ensures { OnlyTalliesAndResultsShowBallots }
{}

/// Who has the tally and the result of a closed resolution can count its vote (Constitution, 4.2.3
/// and A.5): the election whose count the result shows is that of the ranks in the lines of the
/// tally, with the developers and the ratios that the result shows. Both sheets give the number of
/// these lines as that of the ballots. A place is shown as chosen by the casting vote only where
/// the outcome set has several members, of which it is one (Constitution, A.5.8).
pub fn results_follow_from_tallies()
    ensures { ResultsFollowFromTallies }
{
    gr_core::laws::votes_count_their_ballots();
    gr_core::laws::ballots_are_right();
    gr_core::laws::chosen_places_are_tied();
}

/// No later command changes the tally of a closed resolution. Of its result only the last line
/// changes, once, by the casting vote (Constitution, A.5.8): what is chosen was so before, or it is
/// the place of the one accepted command that is a casting vote in the resolution.
pub fn closed_sheets_stay()
    ensures { ClosedSheetsStay }
{
    gr_core::laws::closed_votes_stay();
    gr_core::laws::acts_touch_one_resolution();
    gr_core::laws::casting_votes_choose_among_the_tied();
    gr_core::laws::commands_keep_a_desk_valid();
}
