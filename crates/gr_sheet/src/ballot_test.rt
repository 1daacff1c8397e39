//! The tests of a choice on the ballot.
ghost use Rattle.std.specs.Prelude.{◌≡◌, ◌<◌, ◌≤◌, ◌++◌, OnOk, string_bytes};
ghost use Rattle.gr_count.specs.declared.limits.TheConstants.{MAX_DEVELOPERS};
ghost use Rattle.gr_count.specs.Shown.{options_of_pairs, options_of_count};
ghost use Rattle.gr_core.specs.Parts.Choice.{IsRatio};
ghost use Rattle.gr_sheet.specs.ResultSheet.{election_shown, findings_of, test_at, test_line, met_or_failed, kept_or_dropped};

use gr_count::{Count, Pairs, meets_majority, meets_quorum};
use std::alloc::AllocError;

/// Whether the choice of a place has the quorum and its majority, and so is kept (Constitution,
/// A.5.2 and A.5.3).
#[derive(Clone, Copy, Debug)]
pub(crate) struct BallotTest {
    /// From 1.
    place: u32,

    /// How many voters prefer it to the default option.
    above: u32,

    /// How many prefer the default option to it.
    below: u32,

    ratio: u32,
    quorum: bool,
    majority: bool,
    kept: bool,
}

impl BallotTest {
    /// The test of the choice with this place and this majority ratio, with so many current
    /// developers.
    pub(crate) fn of(
        pairs: &Pairs,
        count: &Count,
        developers: u32,
        place: u32,
        ratio: u32,
    ) -> BallotTest
        requires same { options_of_count count.now ≡ options_of_pairs pairs.now }
        requires developers { developers ≤ MAX_DEVELOPERS }
        requires positive { 0 < place }
        requires inside { place < options_of_pairs pairs.now }
        requires ratio { IsRatio ratio }
        ensures { let e = election_shown pairs.now developers (λ a. ratio) in
            result ≡ test_at e (findings_of e count.now) place }
    {
        let default = pairs.options() - 1;
        let option = place as usize - 1;
        let above = pairs.above(option, default);
        let below = pairs.above(default, option);
        BallotTest {
            place,
            above,
            below,
            ratio,
            quorum: meets_quorum(above, developers),
            majority: meets_majority(above, below, ratio),
            kept: count.kept(option),
        }
    }

    pub(crate) fn add_to(self, text: &mut String) -> Result<(), AllocError>
        ensures { OnOk result (string_bytes text.new ≡ string_bytes text.old ++ test_line self) }
    {
        let BallotTest {
            place,
            above,
            below,
            ratio,
            ..
        } = self;
        write!(
            text,
            "Test {place}: above {above}, below {below}, ratio {ratio}"
        )?;
        let quorum = met_or_failed(self.quorum);
        let majority = met_or_failed(self.majority);
        let kept = kept_or_dropped(self.kept);
        write!(text, ", quorum {quorum}, majority {majority}, {kept}\n")
    }
}

fn met_or_failed(is_met: bool) -> &'static str
    ensures { result.now ≡ met_or_failed is_met }
{
    if is_met { "met" } else { "failed" }
}

fn kept_or_dropped(is_kept: bool) -> &'static str
    ensures { result.now ≡ kept_or_dropped is_kept }
{
    if is_kept { "kept" } else { "dropped" }
}
