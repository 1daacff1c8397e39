//! Roll files. Here is the language of their tables, a file and what is read of it in each line:
//! `FILE -> N [LOGIN|NAME|STATUS]..` with the number of the rows, or the error in words. In both
//! stand the marks of the module `text`.
use super::text::{add_all, bytes_of};
use super::{prints, same};
use gr_core::RollRow;
use gr_http::roll_file::{NoRoll, read_roll};
use std::alloc::{AllocError, Global};
use std::process::Abort;
use std::test::Fail;

#[test]
fn any_line_end_ends_a_record(rt: HostRuntime) -> Result<(), Fail> {
    compare_all(&rt, rt.alloc(), LINE_ENDS)
}

const LINE_ENDS: &str = "
    login,name,status -> 0
    login,name,status␊ -> 0
    login,name,status␍ -> 0
    login,name,status⏎ -> 0
    login,name,status␊a,A,current -> 1 [a|A|current]
    login,name,status␊a,A,current␊b,B,retired␊ -> 2 [a|A|current][b|B|retired]
    login,name,status␍a,A,current␍b,B,retired␍ -> 2 [a|A|current][b|B|retired]
    login,name,status⏎a,A,current⏎b,B,retired⏎ -> 2 [a|A|current][b|B|retired]
    login,name,status␊a,A,current␍b,B,retired⏎c,C,x -> 3 [a|A|current][b|B|retired][c|C|x]
    ␊␍⏎login,name,status␍␍␊␊⏎⏎a,A,current␊␍⏎␊␍b,B,retired␊␊ -> 2 [a|A|current][b|B|retired]
    ";

#[test]
fn quotes_hold_a_field_together(rt: HostRuntime) -> Result<(), Fail> {
    compare_all(&rt, rt.alloc(), QUOTES)
}

const QUOTES: &str = r#"
    "login","name","status"␊"a","A","current"␊ -> 1 [a|A|current]
    "login",name,"status"⏎"a",A,"current"⏎ -> 1 [a|A|current]
    §a,"A ""B"" C",current␊ -> 1 [a|A "B" C|current]
    §a,"""",current␊ -> 1 [a|"|current]
    §a,"Adams, Alice",current␊b,",",retired␊ -> 2 [a|Adams, Alice|current][b|,|retired]
    §a,"A␊B␍C⏎D␊␊",current␊b,"␊",x␊ -> 2 [a|A␊B␍C⏎D␊␊|current][b|␊|x]
    §a,A"B,current␊b,B"",x" -> 2 [a|A"B|current][b|B""|x"]
    §a,"A"B,current␊b, "B",x␊ -> 2 [a|AB|current][b| "B"|x]
    §a,A,"current␊b,B,retired␊ -> 1 [a|A|current␊b,B,retired␊]
    §a,A,"current"" -> 1 [a|A|current"]
    §a,A," -> 1 [a|A|]
    §a,"A,current␊b,B,retired␊ -> bad roll 2
    "login,name,status␊a,A,current␊ -> bad roll 1
    login,name,"status␊ -> bad roll 1
    "#;

#[test]
fn empty_fields_are_fields(rt: HostRuntime) -> Result<(), Fail> {
    compare_all(&rt, rt.alloc(), EMPTY_FIELDS)
}

const EMPTY_FIELDS: &str = r#"
    §,, -> 1 [||]
    §,,␊,,␊ -> 2 [||][||]
    §"","",""␊ -> 1 [||]
    §a,A, -> 1 [a|A|]
    §a,A,␊ -> 1 [a|A|]
    §a,"", -> 1 [a||]
    §,A,current -> 1 [|A|current]
    §a, -> bad roll 2
    §a,A,current, -> bad roll 2
    §"" -> bad roll 2
    §""␊a,A,current␊ -> bad roll 2
    "" -> bad roll 1
    ""␊login,name,status␊ -> bad roll 1
    , -> bad roll 1
    "#;

#[test]
fn nothing_is_trimmed_or_judged(rt: HostRuntime) -> Result<(), Fail> {
    compare_all(&rt, rt.alloc(), AS_THEY_ARE)
}

const AS_THEY_ARE: &str = "
    § a ,\tA  B ,current ␊ -> 1 [ a |\tA  B |current ]
    §Alice!,\0\u{7f},Current␊Alice!,\0\u{7f},Current␊ \
        -> 2 [Alice!|\0\u{7f}|Current][Alice!|\0\u{7f}|Current]
    §é,\u{1f600},\u{fffd}␊ -> 1 [é|\u{1f600}|\u{fffd}]
    §login,name,status␊ -> 1 [login|name|status]
    §§ -> 1 [login|name|status]
    § ␊ -> bad roll 2
    §a,A␊ -> bad roll 2
    §#a,A,current␊ -> 1 [#a|A|current]
    §a;A;current␊ -> bad roll 2
    §a\tA\tcurrent␊ -> bad roll 2
    ";

#[test]
fn a_mark_at_the_start_is_passed_over(rt: HostRuntime) -> Result<(), Fail> {
    compare_all(&rt, rt.alloc(), MARKS)
}

const MARKS: &str = "
    \u{feff}login,name,status␊a,A,current␊ -> 1 [a|A|current]
    \u{feff}\"login\",name,status -> 0
    \u{feff}␊⏎login,name,status␊a␊ -> bad roll 2
    \u{feff} -> bad roll 1
    §\u{feff}a,A\u{feff},current\u{feff}␊ -> 1 [\u{feff}a|A\u{feff}|current\u{feff}]
    ␊\u{feff}login,name,status␊ -> bad roll 1
    login,\u{feff}name,status␊ -> bad roll 1
    login,name,status\u{feff}␊ -> bad roll 1
    ";

#[test]
fn each_field_is_utf8(rt: HostRuntime) -> Result<(), Fail> {
    compare_all(&rt, rt.alloc(), NOT_UTF8)
}

const NOT_UTF8: &str = "
    §¿,A,current␊ -> bad roll 2
    §a,¿,current␊ -> bad roll 2
    §a,A,¿␊ -> bad roll 2
    §a,A,current␊b,\"B¿\",current␊c␊ -> bad roll 3
    §a,A,current␊b,B␊c,¿,current␊ -> bad roll 3
    ¿login,name,status␊ -> bad roll 1
    login,name,status¿␊ -> bad roll 1
    ¿ -> bad roll 1
    ";

#[test]
fn the_first_record_names_the_columns(rt: HostRuntime) -> Result<(), Fail> {
    compare_all(&rt, rt.alloc(), HEADERS)
}

const HEADERS: &str = "
    login,name␊ -> bad roll 1
    login␊ -> bad roll 1
    login,name,status,␊ -> bad roll 1
    login,name,status,more␊ -> bad roll 1
    Login,name,status␊ -> bad roll 1
    login,NAME,status␊ -> bad roll 1
    login,name,statuS␊ -> bad roll 1
    logins,name,status␊ -> bad roll 1
    login,nam,status␊ -> bad roll 1
    login,name,␊ -> bad roll 1
    login,name, status␊ -> bad roll 1
    name,login,status␊ -> bad roll 1
    login,status,name␊ -> bad roll 1
    a,A,current␊login,name,status␊ -> bad roll 1
    ";

#[test]
fn the_first_bad_record_is_told(rt: HostRuntime) -> Result<(), Fail> {
    compare(&rt, rt.alloc(), "", "bad roll 1")?;
    compare_all(&rt, rt.alloc(), BAD_RECORDS)
}

const BAD_RECORDS: &str = "
    ␊ -> bad roll 1
    ␊␍⏎␊ -> bad roll 1
    §a␊b␊c␊ -> bad roll 2
    §a,A,current␊b␊c,C,x,y␊ -> bad roll 3
    §a,A,current␊b,B,current␊c,C,current␊d,D,current␊e,E␊ -> bad roll 6
    ␊␊§␊␊a,A,current␊␊␊b␊ -> bad roll 3
    §a,\"␊␊\",current␊b␊ -> bad roll 3
    login,name␊a␊ -> bad roll 1
    §⟨a,A,current␊*2000⟩b␊ -> bad roll 2002
    ";

#[test]
fn rows_of_any_number_come_through(rt: HostRuntime) -> Result<(), AllocError> {
    compare_many(&rt, rt.alloc(), 2_000)?;
    compare_many(&rt, rt.alloc(), 2_001)
}

#[test]
fn fields_of_any_length_come_through(rt: HostRuntime) -> Result<(), AllocError> {
    for length in [1, 8_150, 8_191, 8_192, 8_193, 16_384, 1_048_576] {
        compare_long(&rt, rt.alloc(), length)?;
    }
    Ok(())
}

#[test]
fn a_want_of_memory_has_its_words(rt: HostRuntime) -> Result<(), AllocError> {
    prints(&rt, rt.alloc(), &NoRoll::Memory, "out of memory")
}

/// Compares each file of a table with what the table says of it.
fn compare_all(rt: &impl Abort, alloc: Global, table: &str) -> Result<(), Fail> {
    for line in table.trim().lines() {
        let Some((file, wanted)) = line.trim_start().split_once(" -> ") else {
            return Err("no arrow".into());
        };
        compare(rt, alloc, file, wanted)?;
    }
    Ok(())
}

fn compare(rt: &impl Abort, alloc: Global, file: &str, wanted: &str) -> Result<(), Fail> {
    let found = reading_of_words(alloc, file)?;
    let wanted = bytes_of(alloc, wanted)?;
    same(rt, found.as_bytes(), wanted.as_slice(), file);
    Ok(())
}

/// What is read of the file that words with marks stand for, in words.
fn reading_of_words(alloc: Global, file: &str) -> Result<String, Fail> {
    let file = bytes_of(alloc, file)?;
    Ok(reading_of(alloc, file.as_slice())?)
}

/// What is read of a file, in words.
fn reading_of(alloc: Global, file: &[u8]) -> Result<String, AllocError> {
    match read_roll(alloc, file) {
        Ok(rows) => rows_text(alloc, rows.as_slice()),
        Err(error) => format!(in alloc; "{error}"),
    }
}

fn rows_text(alloc: Global, rows: &[RollRow]) -> Result<String, AllocError> {
    let count = rows.len();
    let mut text = format!(in alloc; "{count}")?;
    if count > 0 {
        text.push(' ')?;
    }
    for row in rows {
        push_row(&mut text, row)?;
    }
    Ok(text)
}

fn push_row(text: &mut String, row: &RollRow) -> Result<(), AllocError> {
    add_all(text, &["[", row.login.as_str(), "|"])?;
    add_all(text, &[row.name.as_str(), "|", row.status.as_str(), "]"])
}

/// Wants each of so many rows of the greatest length that a desk takes, whose logins differ.
fn compare_many(rt: &impl Abort, alloc: Global, count: usize) -> Result<(), AllocError> {
    let mut file = String::from_str(alloc, "login,name,status\n")?;
    let mut wanted = format!(in alloc; "{count} ")?;
    add_rows(alloc, &mut file, &mut wanted, count)?;
    reads_as(rt, alloc, file.as_bytes(), wanted.as_str(), count)
}

/// Adds so many rows to a file, and what is read of them.
fn add_rows(
    alloc: Global,
    file: &mut String,
    wanted: &mut String,
    count: usize,
) -> Result<(), AllocError> {
    let name = "\u{1f600}".repeat(alloc, 80)?;
    for number in 0..count {
        add_row(file, wanted, number, name.as_str())?;
    }
    Ok(())
}

/// Adds the row of this number to a file, and what is read of it.
fn add_row(
    file: &mut String,
    wanted: &mut String,
    number: usize,
    name: &str,
) -> Result<(), AllocError> {
    write!(
        file,
        "abcdefghijklmnopqrstuvwxyz.{number:05},{name},current\n"
    )?;
    write!(
        wanted,
        "[abcdefghijklmnopqrstuvwxyz.{number:05}|{name}|current]"
    )
}

/// Wants two rows of three fields of so many letters, the second in quotes.
fn compare_long(rt: &impl Abort, alloc: Global, length: usize) -> Result<(), AllocError> {
    let field = "x".repeat(alloc, length)?;
    let file = long_file(alloc, field.as_str())?;
    let wanted = long_rows(alloc, field.as_str())?;
    reads_as(rt, alloc, file.as_bytes(), wanted.as_str(), length)
}

fn long_file(alloc: Global, field: &str) -> Result<String, AllocError> {
    format!(in alloc;
        "login,name,status\n{field},{field},{field}\n\"{field}\",\"{field}\",\"{field}\"\n"
    )
}

fn long_rows(alloc: Global, field: &str) -> Result<String, AllocError> {
    format!(in alloc; "2 [{field}|{field}|{field}][{field}|{field}|{field}]")
}

/// Wants this to be read of a file with so many rows or letters. It is too long to be printed.
fn reads_as(
    rt: &impl Abort,
    alloc: Global,
    file: &[u8],
    wanted: &str,
    count: usize,
) -> Result<(), AllocError> {
    let found = reading_of(alloc, file)?;
    assert!(rt; found.as_str() == wanted, "of {count} rows or letters");
    Ok(())
}
