//! Laws of the rule book, for every moment and command, in every state or in each valid one.
//!
//! The functions of this file do nothing. What each ensures follows from the definitions alone,
//! which the calls of [`Desk`](crate::Desk) are proved against.
ghost use Rattle.gr_core.specs.Parts.Limits.{LimitsAreThoseOfTheRules};
ghost use Rattle.gr_core.specs.Laws.MachineLaws.{SetDeveloperPutsItsRow, RowsMakeTheStep, RowsHaveDifferentKeys, EachListHasOneOutcome, EachListHasAnOutcome};
ghost use Rattle.gr_core.specs.Laws.MachineLaws.{RefusalsLeaveNoTrace, AcceptedCommandsAreCounted, CommandsKeepADeskValid};
ghost use Rattle.gr_core.specs.Laws.MachineLaws.{ImportsPutTheirRows, ImportsCountTheirRows, ImportsAddOnce, ImportsChangeOnce};
ghost use Rattle.gr_core.specs.Laws.Course.{EndsFollowTheCourse, DiscussionsFollowTheirActs};
ghost use Rattle.gr_core.specs.Laws.ResolutionLaws.{ActsTouchOneResolution, OnlyChangesOfTheRollTouchIt, ChangesOfTheRollTouchNothingElse, NewNumbersHaveNothing, StagesFollowOneAnother, CancelledResolutionsStayAsTheyAre};
ghost use Rattle.gr_core.specs.Laws.ResolutionLaws.{StartsStay, DiscussionsAreTimely, EndsLieBetween, OnlyVariationsEndEarlier, WithdrawalsAndMinorAmendmentsLeaveTheEnd};
ghost use Rattle.gr_core.specs.Laws.ResolutionLaws.{IntroducedChoicesStayIntroduced, LapsedChoicesStayAsTheyAre, ActsOnLapsedChoicesAreRefused, ProposersSponsorNothing, CallsPlaceTheLiveChoices};
ghost use Rattle.gr_core.specs.Laws.VotingLaws.{BallotsAreTheLastVotes, VotesPutTheirBallot, OnlyVotesTouchBallots, NoVoteFromTheEndOfVoting, BallotsStayFromTheEndOfVoting, ReceivedCountsTheVotes, VotesRaiseReceivedByOne};
ghost use Rattle.gr_core.specs.Laws.VotingLaws.{BallotsStayOnceClosed, ClosedVotesStay, BallotsAreRight, VotesCountTheirBallots, VotesInTimeAreAccepted, ReceiptsStandUntilTheNextVote, TokensLeaveNoTrace, ElectionsChangeByVotesAlone};
ghost use Rattle.gr_core.specs.Laws.VotingLaws.{CastingVotesChooseAmongTheTied, CastingVotesAmongTheTiedAreAccepted, ChosenPlacesStay, ChosenPlacesAreTied};
ghost use Rattle.gr_core.specs.Columns.Stored.{RowsTellTheState};
ghost use Rattle.gr_core.specs.Laws.Secrecy.{AlikeDesksHaveTheSameOtherBallots, PlansRevealNothing, AnswersRevealNothing, OtherRanksLeaveAnAlikeDesk, SomeDesksAreAlike};
ghost use Rattle.gr_core.specs.Laws.VersionLaws.{LiftedDesksAreValid, RowsOfVersion1TellTheLifted, BallotsComeInTurn};

/// The constants of this crate are the numbers that the rules name.
pub fn limits_are_those_of_the_rules()
    ensures { LimitsAreThoseOfTheRules }
{}

/// An accepted `SetDeveloper` gives its login the name and the standing that it names, and leaves
/// what the roll says of every other login.
pub fn set_developer_puts_its_row()
    ensures { SetDeveloperPutsItsRow }
{}

/// The rows of an accepted command, put in their order, make the state after its step.
pub fn rows_make_the_step()
    ensures { RowsMakeTheStep }
{}

/// No two rows of an accepted command stand in one table under one key.
pub fn rows_have_different_keys()
    ensures { RowsHaveDifferentKeys }
{}

/// A list of commands, each at its moment, gives a desk one list of answers and one state at most.
pub fn each_list_has_one_outcome()
    ensures { EachListHasOneOutcome }
{}

/// A list of commands gives a desk some list of answers and some state.
pub fn each_list_has_an_outcome()
    ensures { EachListHasAnOutcome }
{}

/// The accepted commands of a list alone get the same answers and leave the same state as the
/// whole list.
pub fn refusals_leave_no_trace()
    ensures { RefusalsLeaveNoTrace }
{}

/// The count of a desk rises by the number of accepted commands.
pub fn accepted_commands_are_counted()
    ensures { AcceptedCommandsAreCounted }
{}

/// From a valid state a list of commands leaves a valid one.
pub fn commands_keep_a_desk_valid()
    ensures { CommandsKeepADeskValid }
{}

/// An accepted import gives the login of each of its rows the name and the standing that the row
/// says, and leaves what the roll says of every other login.
pub fn imports_put_their_rows()
    ensures { ImportsPutTheirRows }
{}

/// The numbers of rows that an accepted import notes as new, as changes and as known are together
/// the number of its rows.
pub fn imports_count_their_rows()
    ensures { ImportsCountTheirRows }
{}

/// An import that is accepted again adds nobody to the roll, whatever was done since.
pub fn imports_add_once()
    ensures { ImportsAddOnce }
{}

/// An import that is accepted again directly after the first time leaves the roll as it is.
pub fn imports_change_once()
    ensures { ImportsChangeOnce }
{}

/// The end of a discussion, which is taken from the last change and the present variation alone, is
/// the one that all changes and variations give one after the other (Constitution, A.1.4 and
/// A.1.6).
pub fn ends_follow_the_course()
    ensures { EndsFollowTheCourse }
{}

/// Whatever commands a desk has answered from its first one on, the discussion of each resolution
/// is what their events make of it, one after the other: it begins when a choice is first
/// introduced, and ends as each later introduction, each amendment that is not minor and each
/// variation moved its end (Constitution, A.1.1, A.1.4 to A.1.6). Before the first introduction
/// there is none.
pub fn discussions_follow_their_acts()
    ensures { DiscussionsFollowTheirActs }
{}

/// An accepted command leaves every row of every resolution but the one that it names or makes.
pub fn acts_touch_one_resolution()
    ensures { ActsTouchOneResolution }
{}

/// A command that is no change of the roll leaves it.
pub fn only_changes_of_the_roll_touch_it()
    ensures { OnlyChangesOfTheRollTouchIt }
{}

/// A change of the roll leaves all resolutions, choices, sponsors and ballots.
pub fn changes_of_the_roll_touch_nothing_else()
    ensures { ChangesOfTheRollTouchNothingElse }
{}

/// The number that a new resolution gets had no row of any table.
pub fn new_numbers_have_nothing()
    ensures { NewNumbersHaveNothing }
{}

/// A resolution goes from draft to discussion, from there to a vote or to its cancellation, and
/// from the vote to its close; a casting vote then chooses once.
pub fn stages_follow_one_another()
    ensures { StagesFollowOneAnother }
{}

/// Nothing of a cancelled resolution changes any more.
pub fn cancelled_resolutions_stay_as_they_are()
    ensures { CancelledResolutionsStayAsTheyAre }
{}

/// A discussion keeps the moment at which it began (Constitution, A.1.1).
pub fn starts_stay()
    ensures { StartsStay }
{}

/// The discussions of a valid desk meet the condition of
/// [`Discussion::end`](crate::Discussion::end): their moments and their shift are within their
/// limits (Constitution, A.1.6).
pub fn discussions_are_timely()
    ensures { DiscussionsAreTimely }
{}

/// A discussion ends between its earliest and its latest end (Constitution, A.1.1, A.1.4 and
/// A.1.6).
pub fn ends_lie_between()
    ensures { EndsLieBetween }
{}

/// No command but a variation makes a discussion end earlier (Constitution, A.1.4 and A.1.6).
pub fn only_variations_end_earlier()
    ensures { OnlyVariationsEndEarlier }
{}

/// A minor amendment, and the withdrawal of a proposer or of a sponsor, leave each resolution and
/// so the end of its discussion (Constitution, A.1.5 and A.2.3).
pub fn withdrawals_and_minor_amendments_leave_the_end()
    ensures { WithdrawalsAndMinorAmendmentsLeaveTheEnd }
{}

/// An introduced choice keeps the moment at which it was introduced.
pub fn introduced_choices_stay_introduced()
    ensures { IntroducedChoicesStayIntroduced }
{}

/// A choice that has lapsed changes no more, nor do its sponsors, and no call gives it a place
/// (Constitution, A.2.3).
pub fn lapsed_choices_stay_as_they_are()
    ensures { LapsedChoicesStayAsTheyAre }
{}

/// Each command on a choice that has lapsed is refused.
pub fn acts_on_lapsed_choices_are_refused()
    ensures { ActsOnLapsedChoicesAreRefused }
{}

/// The present proposer of a choice is no active sponsor of it (Constitution, 4.2.1).
pub fn proposers_sponsor_nothing()
    ensures { ProposersSponsorNothing }
{}

/// A call gives places to just the choices that are live then, in the order of their numbers, and
/// the vote begins; where none is live, the resolution is cancelled (Constitution, A.2.4, A.3.1 and
/// A.3.2; that the order is by number is this project's profile).
pub fn calls_place_the_live_choices()
    ensures { CallsPlaceTheLiveChoices }
{}

/// Whatever commands came, the ballots are just the last accepted votes of each developer in each
/// resolution, or stood before them. A new desk has none.
pub fn ballots_are_the_last_votes()
    ensures { BallotsAreTheLastVotes }
{}

/// Whatever commands came, `received` of a ballot rose by one with each accepted vote of its voter
/// on the resolution. Before the first command no ballot stands, which counts as none received; of
/// a desk of version 1 each ballot counts as one.
pub fn received_counts_the_votes()
    ensures { ReceivedCountsTheVotes }
{}

/// An accepted vote raises `received` of the voter's ballot on the resolution by one, from nothing
/// where there was no ballot.
pub fn votes_raise_received_by_one()
    ensures { VotesRaiseReceivedByOne }
{}

/// A vote puts the voter's ballot on the resolution, in the place of an earlier one, is counted,
/// and touches nothing else: no other ballot of the resolution, and none of another.
pub fn votes_put_their_ballot()
    ensures { VotesPutTheirBallot }
{}

/// No command touches a ballot but a vote of its developer in its resolution.
pub fn only_votes_touch_ballots()
    ensures { OnlyVotesTouchBallots }
{}

/// No command from the end of voting on is a vote on the resolution, or changes a ballot of it
/// (Constitution, 4.2.3).
pub fn no_vote_from_the_end_of_voting()
    ensures { NoVoteFromTheEndOfVoting }
{}

/// The ballots on a resolution stay what they are once the clock is at the end of voting, closed or
/// not (Constitution, 4.2.3).
pub fn ballots_stay_from_the_end_of_voting()
    ensures { BallotsStayFromTheEndOfVoting }
{}

/// Nor do they change once the vote is closed.
pub fn ballots_stay_once_closed()
    ensures { BallotsStayOnceClosed }
{}

/// Nothing that is counted of a closed resolution changes any more, whatever comes: its poll, its
/// choices and its ballots stay. At most a place is chosen, once.
pub fn closed_votes_stay()
    ensures { ClosedVotesStay }
{}

/// The vote of a current developer in a poll that is held, in time and well formed, is accepted at
/// a moment from the clock on, as long as one more command can be counted (Constitution, 4.2.3).
pub fn votes_in_time_are_accepted()
    ensures { VotesInTimeAreAccepted }
{}

/// The receipt that a vote was answered with stands in the voter's row until the voter's next
/// accepted vote on the resolution.
pub fn receipts_stand_until_the_next_vote()
    ensures { ReceiptsStandUntilTheNextVote }
{}

/// The token of a vote is kept nowhere: what an accepted vote leaves and what it is answered have
/// its receipt, and nothing else of the token. Each other token with this receipt leaves the same.
pub fn tokens_leave_no_trace()
    ensures { TokensLeaveNoTrace }
{}

/// Each ballot on a resolution of a valid desk is one that its voter may have there.
pub fn ballots_are_right()
    ensures { BallotsAreRight }
{}

/// The preference counts of a vote are those of its ballots, whoever cast them (Constitution,
/// A.5.3.1): so who has the ballots can count them, and need not know the voters.
pub fn votes_count_their_ballots()
    ensures { VotesCountTheirBallots }
{}

/// Once a vote is called for, what is counted of the resolution changes by votes on it alone: a
/// ballot counts whether its developer is retired later or not, and the quorum is that of the call
/// (this project's profile; Constitution, 4.2.4).
pub fn elections_change_by_votes_alone()
    ensures { ElectionsChangeByVotesAlone }
{}

/// A casting vote chooses in a closed resolution in which nothing was chosen, among the several
/// options of its outcome set (Constitution, A.5.8).
pub fn casting_votes_choose_among_the_tied()
    ensures { CastingVotesChooseAmongTheTied }
{}

/// While nothing was chosen, a casting vote for one of these is accepted at a moment from the clock
/// on, as long as one more command can be counted.
pub fn casting_votes_among_the_tied_are_accepted()
    ensures { CastingVotesAmongTheTiedAreAccepted }
{}

/// Once a casting vote chose, no row of the resolution changes any more, nor what is counted of it.
pub fn chosen_places_stay()
    ensures { ChosenPlacesStay }
{}

/// In each valid state, what was chosen is one of several options of the outcome set
/// (Constitution, A.5.8).
pub fn chosen_places_are_tied()
    ensures { ChosenPlacesAreTied }
{}

/// Desks that have the same rows but for ballots of votes that are not closed have the same ballots
/// on each other resolution.
pub fn alike_desks_have_the_same_other_ballots()
    ensures { AlikeDesksHaveTheSameOtherBallots }
{}

/// Such desks that differ there are wherever a vote is accepted. The vote with other ranks is
/// accepted too, with the same reply, and the desks after the two votes are alike and not the same.
pub fn other_ranks_leave_an_alike_desk()
    ensures { OtherRanksLeaveAnAlikeDesk }
{}

/// Two such desks there are: so no law that speaks of alike desks speaks of none.
pub fn some_desks_are_alike()
    ensures { SomeDesksAreAlike }
{}

/// No plan depends on the ballots of a vote that is not closed: not on what they say, whose they
/// are, or whether there are any (Constitution, 4.2.3), but for how often the voter voted, which
/// a vote puts and does not answer. On two states that are alike but for these
/// the same is planned or refused.
pub fn plans_reveal_nothing()
    ensures { PlansRevealNothing }
{}

/// Nor do all the answers to a list of commands, until it closes a vote whose ballots differed in
/// the two states before the list. The states are alike after it too.
pub fn answers_reveal_nothing()
    ensures { AnswersRevealNothing }
{}

/// Two valid states that have the same rows, as they are kept, are one.
pub fn rows_tell_the_state()
    ensures { RowsTellTheState }
{}

/// A desk of version 1 was valid just where what becomes of it in this version is valid: nothing is
/// lost by its ballots not saying how often their voters voted.
pub fn lifted_desks_are_valid()
    ensures { LiftedDesksAreValid }
{}

/// The rows of a desk of version 1 tell what becomes of it in this version.
pub fn rows_of_version_1_tell_the_lifted()
    ensures { RowsOfVersion1TellTheLifted }
{}

/// A valid desk with the ballots of lesser resolutions than 1 has no ballots. The rows of a
/// resolution's ballots, put after those of the lesser ones, add them. With the ballots up to the
/// greatest resolution it is the whole desk. So the rows of all resolutions' ballots, in turn, put
/// its ballots.
pub fn ballots_come_in_turn()
    ensures { BallotsComeInTurn }
{}
