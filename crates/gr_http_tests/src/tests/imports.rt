//! Imports of a roll by requests: what they add, change and leave, and their limits.
use super::follow;
use std::alloc::AllocError;
use std::test::Fail;

#[test]
fn an_import_that_comes_twice_adds_nothing(rt: HostRuntime) -> Result<(), Fail> {
    follow(&rt, rt.alloc(), IMPORTS)
}

/// A file that begins with a UTF-8 mark, the same again, one with a doubled login, some that are
/// no rolls, one that changes a row, and one without rows.
const IMPORTS: &str = "
    NEW_YEAR post /import \u{feff}login,name,status⏎alice,Alice Adams,current⏎\
        bob,\"Brown, Bob\",retired⏎ -> 200 OK|ok 1 added 2 changed 0 same 0␊
    NEW_YEAR post /import \u{feff}login,name,status⏎alice,Alice Adams,current⏎\
        bob,\"Brown, Bob\",retired⏎ -> 200 OK|ok 2 added 0 changed 0 same 2␊
    NEW_YEAR post /import login,name,status⏎alice,Alice Adams,current⏎\
        bob,\"Brown, Bob\",retired⏎alice,Alice Adams,current⏎ -> 409 Conflict|refused 23 BadRoll 4␊
    NEW_YEAR post /import login,name,status⏎alice,A,current⏎Bob,B,current⏎ \
        -> 409 Conflict|refused 23 BadRoll 3␊
    NEW_YEAR post /import login,name⏎alice,Alice Adams,current⏎ -> 400 Bad Request|bad roll 1␊
    NEW_YEAR post /import login,name,status⏎alice,A,current⏎carol,C⏎ -> 400 Bad Request|bad roll 3␊
    0 post /import login,name,status,x⏎ -> 400 Bad Request|bad roll 1␊
    0 post /import -> 400 Bad Request|bad roll 1␊
    0 post /import login,name,status⏎ -> 409 Conflict|refused 1 BadMoment␊
    0 get /roll -> 200 OK|Developers: 2␊Current: 1␊\
        D: alice current Alice Adams␊D: bob retired Brown, Bob␊
    NEW_YEAR post /import login,name,status␊bob,Bob Brown,current␊carol,Carol,retired \
        -> 200 OK|ok 3 added 1 changed 1 same 0␊
    NEW_YEAR post /import login,name,status -> 200 OK|ok 4 added 0 changed 0 same 0␊
    0 get /roll -> 200 OK|Developers: 3␊Current: 2␊\
        D: alice current Alice Adams␊D: bob current Bob Brown␊D: carol retired Carol␊
    ";

/// A file of as many bytes as a body may have is read to its end. It has 349,519 rows.
#[test]
fn a_body_of_empty_rows_is_refused(rt: HostRuntime) -> Result<(), Fail> {
    follow(
        &rt,
        rt.alloc(),
        "NEW_YEAR post /import login,name,status␊⟨,,␊*349519⟩ -> 409 Conflict|refused 8 Full␊",
    )
}

/// A full roll is imported, and one more developer refused.
#[test]
fn imports_a_full_roll_of_the_longest_rows(rt: HostRuntime) -> Result<(), Fail> {
    let mut steps = String::from_str(rt.alloc(), "NEW_YEAR post /import §")?;
    let mut sheet = String::from_str(rt.alloc(), "Developers: 2000␊Current: 2000␊")?;
    let name = "\u{1f600}".repeat(rt.alloc(), 80)?;
    for number in 1_000..3_000u64 {
        add_longest(&mut steps, &mut sheet, number, name.as_str())?;
    }
    write!(steps, " -> 200 OK|ok 1 added 2000 changed 0 same 0␊\n")?;
    write!(
        steps,
        "NEW_YEAR post /import §zoe,Zoe,current␊ -> 409 Conflict|refused 8 Full␊\n"
    )?;
    write!(steps, "NEW_YEAR get /roll -> 200 OK|{sheet}")?;
    follow(&rt, rt.alloc(), steps.as_str())
}

/// Adds a developer with this number and name to a file and to the sheet of the roll.
fn add_longest(
    file: &mut String,
    sheet: &mut String,
    number: u64,
    name: &str,
) -> Result<(), AllocError> {
    write!(file, "{number}_.abcdefghijklmnopqrstuvwxyz,{name},current␊")?;
    write!(
        sheet,
        "D: {number}_.abcdefghijklmnopqrstuvwxyz current {name}␊"
    )
}
