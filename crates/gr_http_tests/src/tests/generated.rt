//! Some thousand generated requests, those of a test to one office in turn: forms and bodies of
//! each length, and a full roll. Contracts cannot rule out running out of memory; here one would be
//! told, since these tests refuse none.
use super::follow;
use super::text::add_all;
use std::alloc::AllocError;
use std::test::Fail;

#[test]
fn keeps_a_full_roll_of_the_longest_rows(rt: HostRuntime) -> Result<(), Fail> {
    let mut steps = String::new(rt.alloc());
    let mut sheet = String::new(rt.alloc());
    let name = "\u{1f600}".repeat(rt.alloc(), 80)?;
    for number in 1..2_001u64 {
        add_longest(&mut steps, &mut sheet, number, name.as_str())?;
        if number % 250 == 1 || number == 2_000 {
            add_sheet(&mut steps, number, sheet.as_str())?;
        }
    }
    follow(&rt, rt.alloc(), steps.as_str())
}

/// Adds that the developer with this number and a name of letters of four bytes is put, and the
/// line of the sheet.
fn add_longest(
    steps: &mut String,
    sheet: &mut String,
    number: u64,
    name: &str,
) -> Result<(), AllocError> {
    write!(
        steps,
        "NEW_YEAR post /developers login=abcdefghijklmnopqrstuvwxyz._{number:04}\
        &name=⟨%F0%9F%98%80*80⟩&status=current -> 200 OK|ok {number}␊\n"
    )?;
    write!(
        sheet,
        "D: abcdefghijklmnopqrstuvwxyz._{number:04} current {name}␊"
    )
}

/// Adds the sheet with so many developers and these lines.
fn add_sheet(steps: &mut String, count: u64, lines: &str) -> Result<(), AllocError> {
    write!(
        steps,
        "NEW_YEAR get /roll -> 200 OK|Developers: {count}␊Current: {count}␊{lines}\n"
    )
}

/// What stands before and after a row of letters, from how many up to how many are accepted, and
/// how one more is refused, if it is.
#[derive(Clone, Copy)]
struct Lengths<'a> {
    before: &'a str,
    behind: &'a str,
    least: u64,
    most: u64,
    refused: &'a str,
}

/// Such lengths in each line.
const LENGTHS: &str = "\
    login=|&name=A&status=current|1|32|3 BadLogin
    login=a&name=|&status=current|1|80|4 BadText
    login=a&name=A&status=current&x=||0|99|
    login=a&name=A&status=current&x=||4990|5010|
    login=a&name=A&status=current&x|=1|0|99|
    login=a&name=A&status=current&x|=1|4990|5010|";

#[test]
fn takes_each_length_up_to_its_limit(rt: HostRuntime) -> Result<(), Fail> {
    let mut steps = String::new(rt.alloc());
    add_each_length(&mut steps)?;
    follow(&rt, rt.alloc(), steps.as_str())
}

fn add_each_length(steps: &mut String) -> Result<(), Fail> {
    let mut accepted = 0u64;
    for line in LENGTHS.lines() {
        accepted = add_lengths(steps, accepted, lengths_of(line.trim())?)?;
    }
    Ok(())
}

/// The lengths that a line says.
fn lengths_of(line: &str) -> Result<Lengths<'_>, Fail> {
    let Some((before, rest)) = line.split_once('|') else {
        return Err("no form".into());
    };
    let Some((behind, rest)) = rest.split_once('|') else {
        return Err("no least".into());
    };
    let Some((least, rest)) = rest.split_once('|') else {
        return Err("no most".into());
    };
    let Some((most, refused)) = rest.split_once('|') else {
        return Err("no refusal".into());
    };
    Ok(Lengths {
        before,
        behind,
        least: number(least)?,
        most: number(most)?,
        refused,
    })
}

/// Adds forms of each length after so many accepted commands; returns how many there are then.
fn add_lengths(steps: &mut String, accepted: u64, lengths: Lengths<'_>) -> Result<u64, AllocError> {
    let mut accepted = accepted;
    for count in lengths.least..=lengths.most {
        accepted = accepted.saturating_add(1);
        add_filled(steps, lengths.before, count, lengths.behind)?;
        add_accepted(steps, accepted)?;
    }
    if !lengths.refused.is_empty() {
        add_too_long(steps, lengths)?;
    }
    Ok(accepted)
}

/// Adds a form with one letter more than are accepted.
fn add_too_long(steps: &mut String, lengths: Lengths<'_>) -> Result<(), AllocError> {
    let count = lengths.most.saturating_add(1);
    add_filled(steps, lengths.before, count, lengths.behind)?;
    add_all(steps, &["409 Conflict|refused ", lengths.refused, "␊\n"])
}

/// Adds that a form is accepted, with how many are by then.
fn add_accepted(steps: &mut String, accepted: u64) -> Result<(), AllocError> {
    write!(steps, "200 OK|ok {accepted}␊\n")
}

fn number(digits: &str) -> Result<u64, Fail> {
    match digits.parse() {
        Ok(number) => Ok(number),
        Err(_) => Err("no number".into()),
    }
}

/// Adds a form with so many letters between these, up to its answer.
fn add_filled(steps: &mut String, before: &str, count: u64, after: &str) -> Result<(), AllocError> {
    write!(
        steps,
        "NEW_YEAR post /developers {before}⟨a*{count}⟩{after} -> "
    )
}

#[test]
fn takes_a_body_up_to_its_limit(rt: HostRuntime) -> Result<(), Fail> {
    let mut steps = String::new(rt.alloc());
    add_bodies(&mut steps)?;
    follow(&rt, rt.alloc(), steps.as_str())
}

/// Adds bodies of sizes round each power of two.
fn add_bodies(steps: &mut String) -> Result<(), AllocError> {
    let mut accepted = 0u64;
    let mut power = 64u64;
    for _ in 0..15 {
        for size in [power.saturating_sub(1), power, power.saturating_add(1)] {
            accepted = add_body(steps, accepted, size)?;
        }
        power = power.saturating_mul(2);
    }
    Ok(())
}

/// Adds a body of this size after so many accepted commands; returns how many there are then.
fn add_body(steps: &mut String, accepted: u64, size: u64) -> Result<u64, AllocError> {
    let before = "login=a&name=A&status=current&x=";
    add_filled(steps, before, size.saturating_sub(32), "")?;
    if size > 1_048_576 {
        steps.push_str("413 Payload Too Large|too large␊\n")?;
        Ok(accepted)
    } else {
        let accepted = accepted.saturating_add(1);
        add_accepted(steps, accepted)?;
        Ok(accepted)
    }
}
