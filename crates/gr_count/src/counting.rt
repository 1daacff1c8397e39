//! The count of a vote: the options that are kept, the rounds of drops, and the outcome set.

ghost use Rattle.std.specs.Prelude.{◌≡◌, ◌≢◌, ℕ, ◌-◌, ◌<◌, ◌≤◌, ◌↔◌, IsTrue};
ghost use Rattle.gr_count.specs.Election.{Defeats, IsKept};
ghost use Rattle.gr_count.specs.Rounds.{IsDroppedIn, IsInOutcome, IsInSchwartzSetAfter, IsNumberOfRounds, DefeatStandsAfter};
ghost use Rattle.gr_count.specs.Shown.{options_of_pairs, options_of_count, election_of, is_member, keeps, member_count, options_of_ratios, round_of_drop, rounds_in};

use crate::kept::{defeats_between, kept_options};
use crate::limits::MAX_DEVELOPERS;
use crate::numbers::PairNumbers;
use crate::outcome::Count;
use crate::pairs::Pairs;
use crate::ratios::Ratios;
use crate::schwartz::{inner_defeats, schwartz_set};
use crate::strength::weakest_defeats;

/// Counts a vote (Constitution, A.5).
///
/// It takes the preference counts of the ballots, the number of current developers, which is at
/// most `MAX_DEVELOPERS`, and the majority ratios, over the same options: numbers from 0, the
/// default option last. It takes no memory and always succeeds. What it finds is read from the
/// `Count`.
pub fn count(pairs: &Pairs, developers: u32, ratios: &Ratios) -> Count
    requires same { options_of_ratios ratios.now ≡ options_of_pairs pairs.now }
    requires developers { developers ≤ MAX_DEVELOPERS }

    // the count is that of the definitions
    ensures options { options_of_count result ≡ options_of_pairs pairs.now }
    ensures kept { let e = election_of pairs.now developers ratios.now in
        (a : ℕ) → IsTrue (keeps result a) ↔ IsKept e a }
    ensures rounds { let e = election_of pairs.now developers ratios.now in
        IsNumberOfRounds e (rounds_in result) }
    ensures dropped { let e = election_of pairs.now developers ratios.now in
        (round a b : ℕ) → IsDroppedIn e round a b
        ↔ ((0 < round) × (round_of_drop result a b ≡ round)) }
    ensures outcome { let e = election_of pairs.now developers ratios.now in
        (a : ℕ) → IsTrue (is_member result a) ↔ IsInOutcome e a }

    // laws: the outcome set is never empty, and its members are kept
    ensures not_empty { (a : ℕ) × IsTrue (is_member result a) }
    ensures members { 1 ≤ member_count result }
    ensures members_kept { (a : ℕ) → IsTrue (is_member result a) → IsTrue (keeps result a) }

    // no defeat stands between two members of the outcome set
    ensures apart { let e = election_of pairs.now developers ratios.now in
        (a b : ℕ) → IsTrue (is_member result a) → IsTrue (is_member result b)
        → ¬ DefeatStandsAfter e (rounds_in result) a b }

    // a dropped defeat was between two members of the Schwartz set of its round
    ensures inside { let e = election_of pairs.now developers ratios.now in
        (a b : ℕ) → 0 < round_of_drop result a b
        → IsInSchwartzSetAfter e (round_of_drop result a b - 1) a
        × IsInSchwartzSetAfter e (round_of_drop result a b - 1) b }

    // the default option is in the outcome set just where no other option is kept
    ensures default { let e = election_of pairs.now developers ratios.now in
        IsTrue (is_member result e.default) ↔ ((a : ℕ) → IsTrue (keeps result a) → a ≡ e.default) }

    // where one kept option defeats the rest of the kept ones, there is no round, and it alone is
    // the outcome
    ensures favourite { let e = election_of pairs.now developers ratios.now in
        (a : ℕ) → IsKept e a → ((b : ℕ) → IsKept e b → b ≢ a → Defeats e a b)
        → (rounds_in result ≡ 0) × ((b : ℕ) → IsTrue (is_member result b) ↔ (b ≡ a)) }
{
    let options = pairs.options();
    let kept = kept_options(pairs, developers, ratios);
    let mut defeats = defeats_between(pairs, &kept);
    let mut dropped = PairNumbers::zero();
    let mut rounds = 0;
    loop {
        let members = schwartz_set(options, &kept, &defeats);
        let inner = inner_defeats(options, &defeats, &members);
        let Some(weakest) = weakest_defeats(pairs, &inner) else {
            return Count {
                options,
                kept,
                rounds,
                dropped,
                outcome: members,
            };
        };
        rounds += 1;
        dropped.set_all(options, &weakest, rounds);
        defeats = defeats.without(options, &weakest);
    }
}
