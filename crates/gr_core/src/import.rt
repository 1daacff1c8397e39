//! A roll that is imported: its rows, which of them the roll cannot take, and what the others do to
//! it.
ghost use Rattle.std.specs.Prelude.{◌≡◌, ◌+◌, ◌↔◌, IsTrue, IfSome, IfNone, map, string_bytes};
ghost use Rattle.std.specs.FinMap as finite;
ghost use Rattle.gr_core.specs.Machine.Import.{roll_row, developer_in, novelty, imported, is_new, has_login, AreUpTo, IsAbove, IsBadRow, HasNoBadRow, IsFirstBadLine};

use crate::developer::Standing;
use crate::login::is_login;
use crate::roll::Roll;
use crate::text::is_name;

/// What a row of an imported roll says. The texts are as they came; the desk judges them.
#[derive(Debug, Drop)]
pub struct RollRow {
    /// The developer's login.
    pub login: String,

    /// The developer's name.
    pub name: String,

    /// The developer's standing: `current` or `retired`.
    pub status: String,
}

impl RollRow {
    /// The standing from its status. A row with another status is not imported.
    pub(crate) fn standing(&self) -> Standing
        ensures { result ≡ (developer_in (roll_row self.now)).standing }
    {
        Standing::of_word(self.status.as_str()).unwrap_or(Standing::Retired)
    }

    /// What the row does to the roll.
    pub(crate) fn novelty(&self, roll: &Roll) -> Novelty
        ensures { result ≡ novelty roll.now (roll_row self.now) }
    {
        let Some(developer) = roll.get(self.login.as_str()) else {
            return Novelty::Added;
        };
        if developer.name == self.name && developer.standing == self.standing() {
            Novelty::Same
        } else {
            Novelty::Changed
        }
    }

    /// Whether the roll cannot take the row, which stands after these others: its login, its name
    /// or its status breaks its rule, or one of the others has its login. None of the others has a
    /// login above that of `highest`.
    fn is_bad_behind(&self, others: &[RollRow], highest: &RollRow) -> bool
        requires { AreUpTo (map roll_row others.now) (roll_row highest.now) }
        ensures { IsTrue result ↔ IsBadRow (map roll_row others.now) (roll_row self.now) }
    {
        !is_login(self.login.as_str())
            || !is_name(self.name.as_str())
            || Standing::of_word(self.status.as_str()).is_none()
            || self.login_is_in(others, highest)
    }

    /// Whether neither the roll nor one of the others has the login of the row. None of the others
    /// has a login above that of `highest`.
    fn is_new(&self, roll: &Roll, others: &[RollRow], highest: &RollRow) -> bool
        requires { AreUpTo (map roll_row others.now) (roll_row highest.now) }
        ensures { result ≡ is_new roll.now (map roll_row others.now) (roll_row self.now) }
    {
        !roll.contains(self.login.as_str()) && !self.login_is_in(others, highest)
    }

    /// Whether one of the others has the login of the row. None of them has a login above that of
    /// `highest`, so they are looked at only where the row's is not above it.
    fn login_is_in(&self, others: &[RollRow], highest: &RollRow) -> bool
        requires { AreUpTo (map roll_row others.now) (roll_row highest.now) }
        ensures { result ≡ has_login (string_bytes self.now.login) (map roll_row others.now) }
    {
        if self.is_above(highest) {
            return false;
        }
        others.iter().any(|other| self.login == other.login)
    }

    /// Whether the login of the row is above that of the other one, in the order of their bytes.
    fn is_above(&self, other: &RollRow) -> bool
        ensures { IsTrue result ↔ IsAbove (roll_row self.now) (roll_row other.now) }
    {
        other.login < self.login
    }
}

/// What a row of an import does to the roll.
#[derive(Clone, Copy, Debug, PartialEq, Eq)]
pub(crate) enum Novelty {
    /// Its login was not on the roll.
    Added,

    /// Its login was there with another name or another standing.
    Changed,

    /// The roll said already what it says.
    Same,
}

/// The line of the first row that the roll cannot take, if there is one. The names of the columns
/// have line 1. Walks over the rows once where their logins rise, else also over those before a row
/// that is out of order. Takes no memory, so that the refusal is always answered. At worst the time
/// grows with the square of the number of rows. An import of more rows than there may be developers
/// is refused before any are compared.
pub(crate) fn first_bad_line(rows: &[RollRow]) -> Option<usize>
    ensures some { IfSome result (IsFirstBadLine (map roll_row rows.now)) }
    ensures none { IfNone result (HasNoBadRow (map roll_row rows.now)) }
{
    let mut highest = 0;
    for (index, row) in rows.iter().enumerate() {
        if row.is_bad_behind(&rows[..index], &rows[highest]) {
            return Some(index + 2);
        }
        if row.is_above(&rows[highest]) {
            highest = index;
        }
    }
    None
}

/// How many logins of the rows are not on the roll, each counted once. Walks over the rows once
/// where their logins rise, else also over those before a row that is out of order. Takes no
/// memory.
pub(crate) fn new_logins(rows: &[RollRow], roll: &Roll) -> usize
    ensures { finite.len roll.now + result
        ≡ finite.len (imported roll.now (map roll_row rows.now)) }
{
    let mut count = 0;
    let mut highest = 0;
    for (index, row) in rows.iter().enumerate() {
        if row.is_new(roll, &rows[..index], &rows[highest]) {
            count += 1;
        }
        if row.is_above(&rows[highest]) {
            highest = index;
        }
    }
    count
}
