//! The fields of forms: what is missing, doubled or malformed, and in which order that is told.
//!
//! Each form is sent at a moment that the desk refuses before all else. So what is wrong with the
//! form is told before that, and what is right with it is seen by that refusal.
use super::follow;
use super::text::add_all;
use std::alloc::{AllocError, Global};
use std::test::Fail;

/// A path and a form of its route in each line, the fields in their order.
const FORMS: &str = "
    /developers login=d1&name=One&status=retired
    /resolutions author=d1&summary=Red&text=a&ratio=1
    /resolutions/1/choice author=@leader&summary=Red&text=a&ratio=1
    /resolutions/1/sponsor choice=1&login=d1
    /resolutions/1/unsponsor choice=1&login=d1
    /resolutions/1/withdraw choice=1
    /resolutions/1/adopt choice=1&author=@committee
    /resolutions/1/amend choice=1&minor=1&summary=Red&text=a
    /resolutions/1/vary days=-7
    /resolutions/1/call days=7
    /resolutions/1/vote login=d1&ranks=12&token=tokenA01
    /resolutions/1/cast place=1
    ";

#[test]
fn names_the_first_bad_field(rt: HostRuntime) -> Result<(), Fail> {
    let mut steps = String::new(rt.alloc());
    for route in FORMS.trim().lines() {
        add_forms(rt.alloc(), &mut steps, route.trim())?;
    }
    follow(&rt, rt.alloc(), steps.as_str())
}

/// Adds that each field of the form is named where it is missing or doubled, and then right forms.
fn add_forms(alloc: Global, steps: &mut String, route: &str) -> Result<(), Fail> {
    let Some((path, form)) = route.split_once(' ') else {
        return Err("no form".into());
    };
    for piece in form.split('&') {
        let parts = parts_of(form, piece)?;
        add_missing(steps, path, piece, parts)?;
        add_doubled(steps, path, form, piece, parts.1)?;
    }
    add_right_forms(alloc, steps, path, form)?;
    Ok(())
}

/// What stands in a form before one of its pieces, the name in that, and what stands after it.
type Parts<'a> = (&'a str, &'a str, &'a str);

fn parts_of<'a>(form: &'a str, piece: &'a str) -> Result<Parts<'a>, Fail> {
    let Some((before, behind)) = form.split_once(piece) else {
        return Err("no piece".into());
    };
    let Some((name, _)) = piece.split_once('=') else {
        return Err("no field".into());
    };
    Ok((before, name, behind))
}

/// Adds that the field of this piece is named in the form where the piece is missing: with what is
/// after it, without that, and under another name.
fn add_missing(
    steps: &mut String,
    path: &str,
    piece: &str,
    parts: Parts<'_>,
) -> Result<(), AllocError> {
    let (before, name, behind) = parts;
    add_bad(steps, path, &[before], name)?;
    add_bad(steps, path, &[before, behind], name)?;
    add_bad(steps, path, &[before, "x", piece, behind], name)
}

/// Adds that the field with this name is named where its piece stands before the form, or it stands
/// after the form with an empty value, too.
fn add_doubled(
    steps: &mut String,
    path: &str,
    form: &str,
    piece: &str,
    name: &str,
) -> Result<(), AllocError> {
    add_bad(steps, path, &[piece, "&", form], name)?;
    add_bad(steps, path, &[form, "&", name], name)
}

/// Adds that the form is right, with its fields in the other order, and with others beside them.
fn add_right_forms(
    alloc: Global,
    steps: &mut String,
    path: &str,
    form: &str,
) -> Result<(), AllocError> {
    let turned = turned(alloc, form)?;
    add_right(steps, path, &[form])?;
    add_right(steps, path, &[turned.as_str()])?;
    add_right(steps, path, &["&x=1&&x&=1&", form, "&Login=&logi=n&"])
}

/// The form with its last field first.
fn turned(alloc: Global, form: &str) -> Result<String, AllocError> {
    let mut turned = String::new(alloc);
    for piece in form.split('&').rev() {
        add_all(&mut turned, &[piece, "&"])?;
    }
    Ok(turned)
}

/// Adds that the field with this name is told as the one that is bad in the form of these pieces.
fn add_bad(steps: &mut String, path: &str, form: &[&str], name: &str) -> Result<(), AllocError> {
    add_form(steps, path, form)?;
    add_all(steps, &["400 Bad Request|bad field ", name, "␊\n"])
}

/// Adds that the form of these pieces is right.
fn add_right(steps: &mut String, path: &str, form: &[&str]) -> Result<(), AllocError> {
    add_form(steps, path, form)?;
    steps.push_str("409 Conflict|refused 1 BadMoment␊\n")
}

/// Adds the form of these pieces, up to its answer.
fn add_form(steps: &mut String, path: &str, form: &[&str]) -> Result<(), AllocError> {
    add_all(steps, &["0 post ", path, " "])?;
    add_all(steps, form)?;
    steps.push_str(" -> ")
}

#[test]
fn fields_have_their_forms(rt: HostRuntime) -> Result<(), Fail> {
    let mut steps = String::new(rt.alloc());
    for route in FORMS.trim().lines() {
        add_all_values(&mut steps, route.trim())?;
    }
    follow(&rt, rt.alloc(), steps.as_str())
}

/// Adds the form with other values in each of its fields.
fn add_all_values(steps: &mut String, route: &str) -> Result<(), Fail> {
    let Some((path, form)) = route.split_once(' ') else {
        return Err("no form".into());
    };
    for piece in form.split('&') {
        add_values(steps, path, parts_of(form, piece)?)?;
    }
    Ok(())
}

/// Adds the form with other values in the field between these parts, bad ones and right ones.
fn add_values(steps: &mut String, path: &str, parts: Parts<'_>) -> Result<(), AllocError> {
    let (_, name, _) = parts;
    for value in bad_values_of(name).lines() {
        add_bad(steps, path, &with_value(parts, value), name)?;
    }
    for value in right_values_of(name).lines() {
        add_right(steps, path, &with_value(parts, value))?;
    }
    Ok(())
}

/// The form with this value in the field between these parts, in pieces.
fn with_value<'a>(parts: Parts<'a>, value: &'a str) -> [&'a str; 5] {
    let (before, name, behind) = parts;
    [before, name, "=", value, behind]
}

/// Values that are bad in the field with this name, one in a line.
fn bad_values_of(name: &str) -> &'static str {
    match name {
        "choice" => BAD_NUMBERS,
        "place" => BAD_NUMBERS,
        "ratio" => BAD_NUMBERS,
        "days" => BAD_DAYS,
        "minor" => BAD_MINOR,
        "status" => BAD_STATUS,
        _ => "",
    }
}

/// Values that are right there.
fn right_values_of(name: &str) -> &'static str {
    match name {
        "choice" => NUMBERS,
        "place" => NUMBERS,
        "ratio" => NUMBERS,
        "days" => DAYS,
        "minor" => "0\n1\n%30\n%31",
        "status" => "current\nretired\n%63urrent",
        _ => TEXTS,
    }
}

/// Values that are no number: the first is empty, and three are too long.
const BAD_NUMBERS: &str = "\
    \nx\n+1\n%2B1\n-1\n-0\n01\n00\n1+\n1.\n1.0\n1,0\n0x1\n1a\n1%00\n%FF\n%EF%BC%91\n1000000000\n\
    4294967297\n18446744073709551617";

/// Numbers, small and of nine digits.
const NUMBERS: &str = "\
    0\n1\n%31\n9\n10\n%310\n999999999";

/// Values that are no number of days.
const BAD_DAYS: &str = "\
    \nx\n-\n--\n--7\n-x\n+7\n%2B7\n-+7\n-%2B7\n7-\n7+\n07\n-07\n-00\n- 7\n0x7\n%FF\n%E2%88%927\n\
    1000000000\n-1000000000\n4294967303\n-4294967303";

/// Numbers of days.
const DAYS: &str = "\
    0\n-0\n7\n-7\n%2D7\n%2d%37\n21\n999999999\n-999999999";

/// Values that do not say whether an amendment is minor.
const BAD_MINOR: &str = "\
    \n2\n-0\n-1\n00\n01\n10\n1+\n+1\ntrue\nyes\nminor\n%FF";

/// Values that are no standing.
const BAD_STATUS: &str = "\
    \nx\nCurrent\nRETIRED\ncurrent+\n+retired\ncurren\ncurrents\ncurrent%00\ncurrent,retired\n1\n\
    %FF";

/// Values that are texts, whatever the desk says of them.
const TEXTS: &str = "\
    \nx\n1\n-\n+\na+b\n@Leader\n@leader\n@committee\n%40leader\n=\na=b\n%\n%G1\n%00\n%FF\n\
    %F0%9F%98%80\n%F0%9F%98\n%26";

/// What stands for bytes that are no UTF-8 is judged: by the desk, as a field's form, and as a
/// field's name. A sequence of bytes that breaks off makes one character.
#[test]
fn bytes_that_are_no_text_are_judged(rt: HostRuntime) -> Result<(), Fail> {
    follow(&rt, rt.alloc(), NO_TEXTS)
}

const NO_TEXTS: &str = "
    NEW_YEAR post /developers login=alice¿&name=A&status=current \
        -> 409 Conflict|refused 3 BadLogin␊
    NEW_YEAR post /resolutions/1/vary days=1¿ -> 400 Bad Request|bad field days␊
    NEW_YEAR post /resolutions/1/call days¿=7 -> 400 Bad Request|bad field days␊
    NEW_YEAR post /developers login=a&name=✂&status=current -> 200 OK|ok 1␊
    0 get /roll -> 200 OK|Developers: 1␊Current: 1␊D: a current \u{fffd}␊
    ";
