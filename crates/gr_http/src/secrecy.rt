//! Laws of secrecy, over bytes: what replies and responses reveal of a vote before it is closed.
//!
//! The functions of this file do nothing but to cite laws of the crates below, and one of requests.
//! What each ensures follows from the definitions alone, which [`answer`](crate::answer::answer) is
//! proved against; that its responses reveal nothing is in its contract too.
ghost use Rattle.gr_http.specs.Secrecy.{RepliesRevealNothing, ListsOfRepliesRevealNothing, SameBallotsStayTheSame};
ghost use Rattle.gr_http.specs.Secrecy.{ResponsesAreRepliesOrFaults, ResponsesRevealNothing};

/// No reply reveals ballots before their vote is closed (Constitution, 4.2.3). Whatever bytes come,
/// valid desks that differ in such ballots alone reply the same at the same moment, and differ in
/// such ballots alone after it, unless it closes a vote of which they have different ballots: that
/// vote is then revealed.
pub fn replies_reveal_nothing()
    ensures { RepliesRevealNothing }
{
    gr_core::laws::plans_reveal_nothing();
    gr_core::laws::answers_reveal_nothing();
    gr_core::laws::commands_keep_a_desk_valid();
    gr_sheet::laws::sheets_reveal_nothing();
}

/// Nor do all the replies to a list of requests, each at its moment, as long as it closes no vote
/// of which the two desks have different ballots by then. The reply to such a close is the same
/// too, by [`replies_reveal_nothing`].
pub fn lists_of_replies_reveal_nothing()
    ensures { ListsOfRepliesRevealNothing }
{
    replies_reveal_nothing();
}

/// Two desks that reply the same to a list of requests have the same ballots on a resolution after
/// it if they had the same before it. So a vote of which both had the same ballots before a list
/// has them when the list closes it.
pub fn same_ballots_stay_the_same()
    ensures { SameBallotsStayTheSame }
{
    crate::request::received_is_determined();
    gr_core::laws::votes_put_their_ballot();
    gr_core::laws::only_votes_touch_ballots();
}

/// What an open office responds to bytes is the reply of its desk, and it has the desk after that;
/// or it is the line of a fault. A fault leaves the desk as it was, or comes in a command that no
/// refusal meets, and closes the office.
pub fn responses_are_replies_or_faults()
    ensures { ResponsesAreRepliesOrFaults }
{}

/// Nor do responses with their faults reveal anything (Constitution, 4.2.3). What an open office
/// with a valid desk may respond to bytes, another one may respond too, whose valid desk differs in
/// ballots of votes that are not closed alone. Both are then closed, or their desks differ in such
/// ballots alone again, unless a vote was closed of which they had different ballots. So
/// [`answer`](crate::answer::answer) reveals nothing either.
pub fn responses_reveal_nothing()
    ensures { ResponsesRevealNothing }
{
    replies_reveal_nothing();
    responses_are_replies_or_faults();
    gr_core::laws::plans_reveal_nothing();
}
