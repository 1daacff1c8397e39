//! Laws of the definitions, each a function that does nothing and whose contract is the law.

ghost use Rattle.std.specs.Prelude.{◌≡◌, ℕ, ◌⊎◌, ◌↔◌, IsNone, IsTrue, Some, List, map};
ghost use Rattle.std.specs.FinMap.{get, insert, remove};
ghost use Rattle.std.specs.List.Sorted.{IsPermutation};
ghost use Rattle.gr_count.specs.declared.pairs.Pairs.{Pairs};
ghost use Rattle.gr_count.specs.declared.mark.Mark.{Mark};
ghost use Rattle.gr_count.specs.declared.ratios.Ratios.{Ratios};
ghost use Rattle.gr_count.specs.Ballot.{IsBallot, Vote, mark_of, prefers};
ghost use Rattle.gr_count.specs.Digits.{IsBallotOfDigits, PrefersByDigits};
ghost use Rattle.gr_count.specs.Election.{Election};
ghost use Rattle.gr_count.specs.Findings.{AreFindings, Findings};
ghost use Rattle.gr_count.specs.Path.{TransitivelyDefeats};
ghost use Rattle.gr_count.specs.Rounds.{DefeatStandsAfter};
ghost use Rattle.gr_count.specs.Shown.{election_by_voters, election_of, options_of_pairs, ratio_at};
ghost use Rattle.gr_count.specs.PairwiseCount.{AddsBallots, HoldsBallot, IsSamePairwiseCount, IsPairwiseCountOf};

use crate::limits::{
    DIGIT_RANKS, FIRST_DIGIT, FIRST_LETTER, LAST_DIGIT, LAST_LETTER, MAX_BALLOTS, MAX_DEVELOPERS,
    MAX_OPTIONS, MAX_RATIO, MAX_REQUIRED_SPONSORS, MIN_OPTIONS, RANKS, UNRANKED,
};

/// The limits and the characters of ballots are those of this project's profile, and the cap on
/// required sponsors is the Constitution's (4.2.7).
pub fn limits_are_those_of_the_profile()
    ensures options { (MIN_OPTIONS ≡ 2) × (MAX_OPTIONS ≡ 35) }
    ensures ballots { MAX_BALLOTS ≡ 2000 }
    ensures developers { MAX_DEVELOPERS ≡ 2000 }
    ensures ratio { MAX_RATIO ≡ 9 }
    ensures sponsors { MAX_REQUIRED_SPONSORS ≡ 5 }
    ensures digits { (FIRST_DIGIT ≡ 49) × (LAST_DIGIT ≡ 57) × (DIGIT_RANKS ≡ 9) }
    ensures letters { (FIRST_LETTER ≡ 97) × (LAST_LETTER ≡ 122) × (RANKS ≡ 35) }
    ensures unranked { UNRANKED ≡ 45 }
{}

/// A transitive defeat is a defeat, or a defeat and then a transitive one (Constitution, A.5.5.1).
pub fn transitive_defeats_go_on()
    ensures { (e : Election) (k a c : ℕ) → TransitivelyDefeats (DefeatStandsAfter e k) a c
        ↔ (DefeatStandsAfter e k a c
        ⊎ ((b : ℕ) × DefeatStandsAfter e k a b × TransitivelyDefeats (DefeatStandsAfter e k) b c)) }
{}

/// It makes no difference in which order ballots are added (Constitution, A.5.3.1): the tally is
/// the same, and so is what `count` looks at.
pub fn order_of_ballots_is_free()
    ensures tally { (ballots others : List (List Mark)) (pairs one other : Pairs)
        → IsPermutation ballots others
        → AddsBallots ballots pairs one → AddsBallots others pairs other
        → IsSamePairwiseCount one other }
    ensures election { (one other : Pairs) (developers : ℕ) (ratios : Ratios)
        → IsSamePairwiseCount one other
        → election_of one developers ratios ≡ election_of other developers ratios }
{}

/// The count of the pairs of a vote is that of its voters: what `count` looks at are the numbers of
/// voters who prefer an option to another.
pub fn pairs_of_a_vote_have_its_preference_counts()
    ensures { (pairs : Pairs) (vote : Vote) (developers : ℕ) (ratios : Ratios)
        → IsPairwiseCountOf pairs vote
        → election_of pairs developers ratios
        ≡ election_by_voters (options_of_pairs pairs) vote developers (ratio_at ratios) }
{}

/// Findings of an election are the only ones: whoever finds others has counted wrong
/// (Constitution, A.5).
pub fn findings_are_determined()
    ensures { (e : Election) (one other : Findings)
        → AreFindings e one → AreFindings e other → one ≡ other }
{}

/// Each election has findings: none is such that whatever is found of it is wrong, with however
/// many options, voters and developers and whatever ratios (Constitution, A.5). That there are
/// some is stated as this double negation, since the definitions have no procedure to find them.
pub fn elections_have_findings()
    ensures { (e : Election) → ¬ ((found : Findings) → ¬ (AreFindings e found)) }
{}

/// Ballots of digits say what they said when digits were all the ranks: such a text is a ballot
/// still, and it prefers an option to another where the one has a digit, and the other a greater
/// digit or none (the characters are this project's profile).
pub fn ballots_of_digits_keep_their_meaning()
    ensures taken { (options : ℕ) (text : List ℕ)
        → IsBallotOfDigits options text → IsBallot options text }
    ensures prefers { (options : ℕ) (text : List ℕ) → IsBallotOfDigits options text
        → (a b : ℕ) → IsTrue (prefers (map mark_of text) a b) ↔ PrefersByDigits text a b }
{}

/// The pairs of a vote hold each ballot of it, so that it may be taken out, and a voter who is
/// taken out and put in again has the later ballot.
pub fn votes_hold_their_ballots()
    ensures held { (pairs : Pairs) (vote : Vote) (login : List ℕ) (marks : List Mark)
        → IsPairwiseCountOf pairs vote → get vote login ≡ Some marks → HoldsBallot marks pairs }
    ensures removed { (vote : Vote) (login : List ℕ) → IsNone (get (remove vote login) login) }
    ensures replaced { (vote : Vote) (login : List ℕ) (marks : List Mark)
        → insert (remove vote login) login marks ≡ insert vote login marks }
{}
