//! Numbers of columns.
ghost use Rattle.std.specs.Prelude.{◌≡◌, ◌≢◌, ℕ, pos, IfErr, IfSome, IfOk, IsErr, unwrap_or, Option};
ghost use Rattle.gr_core.specs.declared.rows.NoRow.TheVariants.{TooGreat};
ghost use Rattle.gr_core.specs.Columns.Fields.{IsSmall, IsWhole, IsMomentKept, IsPlaceKept};

use super::NoRow;
use crate::unfit::Damaged;

/// The number of a column for such a moment or count. [`NoRow::TooGreat`] alone: there is none.
pub(super) fn whole(number: u64) -> Result<i64, NoRow>
    ensures ok { IfOk result (λ column. column ≡ pos number) }
    ensures err { IfErr result (λ no_row. (no_row ≡ TooGreat) × (¬ (IsWhole number))) }
{
    i64::try_from(number).map_err(|_| NoRow::TooGreat)
}

/// The number of a column for a moment where there may be none. [`NoRow::TooGreat`] alone: there is
/// no such number.
pub(super) fn moment(at: Option<u64>) -> Result<i64, NoRow>
    ensures ok { IfOk result (λ column. column ≡ pos (unwrap_or at 0)) }
    ensures err { IfErr result (λ no_row. (no_row ≡ TooGreat)
        × (¬ (IfSome at IsMomentKept))) }
{
    whole(at.unwrap_or(0))
}

/// The number of a column for a place where there may be none.
pub(super) fn place(number: Option<u32>) -> i64
    ensures { result ≡ pos (unwrap_or number 0) }
{
    i64::from(number.unwrap_or(0))
}

/// The moment or count that the number of a column says.
pub(super) fn read_whole(column: i64) -> Result<u64, Damaged>
    ensures ok { IfOk result (λ number. (column ≡ pos number) × IsWhole number) }
    ensures err { IsErr result → (number : ℕ) → column ≢ pos number }
{
    u64::try_from(column).map_err(|_| Damaged)
}

/// The number of a resolution or a choice, or the count, that the number of a column says.
pub(super) fn read_small(column: i64) -> Result<u32, Damaged>
    ensures ok { IfOk result (λ number. (column ≡ pos number) × IsSmall number) }
    ensures err { IsErr result → (number : ℕ) → IsSmall number → column ≢ pos number }
{
    u32::try_from(column).map_err(|_| Damaged)
}

/// The moment that the number of a column says, where there may be none.
pub(super) fn read_moment(column: i64) -> Result<Option<u64>, Damaged>
    ensures ok { IfOk result (λ at. (column ≡ pos (unwrap_or at 0)) × IfSome at IsMomentKept) }
    ensures err { IsErr result → (at : Option ℕ) → column ≢ pos (unwrap_or at 0) }
{
    let at = read_whole(column)?;
    Ok((at > 0).then_some(at))
}

/// The place that the number of a column says, where there may be none.
pub(super) fn read_place(column: i64) -> Result<Option<u32>, Damaged>
    ensures ok { IfOk result (λ place. (column ≡ pos (unwrap_or place 0))
        × IfSome place IsPlaceKept) }
    ensures err { IsErr result → (place : Option ℕ) → IfSome place IsSmall
        → column ≢ pos (unwrap_or place 0) }
{
    let place = read_small(column)?;
    Ok((place > 0).then_some(place))
}
