//! An answer in words; and the text of a desk, its sheets and the rows of its six tables.
//! The rows tell what no sheet does, as which ballot of a vote that is not closed was replaced.
use super::commands::{first, string};
use super::office::{behind, close, sheet};
use super::statements::{in_memory, rows};
use super::{created, is_fault, opened};
use gr_core::{Command, Note, Refusal, Reply};
use gr_office::{Fault, Kind, Office, SheetFault};
use sqlite::{Alter, Connection, Error, Row};
use std::alloc::{AllocError, Global};
use std::fmt::Display;
use std::process::Abort;

/// The text where there is no desk.
const NO_DESK: &str = "no desk\n";

const KINDS: [Kind; 4] = [Kind::Roll, Kind::Status, Kind::Tally, Kind::Result];

/// The rows of each table, in the order of their keys.
const SELECTS: [&str; 6] = [
    "SELECT 'desk', * FROM desk ORDER BY 2",
    "SELECT 'developer', * FROM developer ORDER BY 2",
    "SELECT 'resolution', * FROM resolution ORDER BY 2",
    "SELECT 'choice', * FROM choice ORDER BY 2, 3",
    "SELECT 'sponsor', * FROM sponsor ORDER BY 2, 3, 4",
    "SELECT 'ballot', * FROM ballot2 ORDER BY 2, 3",
];

/// An answer in words: the count and the note, of a receipt its digits; or why there is none.
pub fn words<E: Display>(alloc: Global, answer: &Result<Reply, E>) -> Result<String, AllocError> {
    match answer {
        Ok(Reply { accepted, note }) => match note {
            Note::Receipt(receipt) => format!(in alloc; "{accepted} {receipt}"),
            note => format!(in alloc; "{accepted} {note:?}"),
        },
        Err(why) => format!(in alloc; "{why}"),
    }
}

/// The text where there is no desk, then that of a desk in memory after no command of these, after
/// the first one, and so on up to all of them.
pub fn course(rt: &impl Abort, alloc: Global, commands: &[(u64, Command)]) -> Vec<String> {
    let mut all = Vec::new(alloc);
    push(rt, &mut all, no_desk(rt, alloc));
    for count in 0..=commands.len() {
        let text = text_behind(alloc, first(commands, count));
        push(rt, &mut all, text.expect(rt, "a desk"));
    }
    all
}

fn push(rt: &impl Abort, all: &mut Vec<String>, text: String) {
    all.push(text).expect(rt, "memory");
}

fn no_desk(rt: &impl Abort, alloc: Global) -> String {
    string(alloc, NO_DESK).expect(rt, "memory")
}

/// The text of a desk in memory after these commands.
pub fn text_behind(alloc: Global, commands: &[(u64, Command)]) -> Result<String, Fault> {
    text_in(alloc, in_memory(alloc)?, commands)
}

/// The text of a new desk in this database after these commands.
fn text_in<S: Alter + Drop>(
    alloc: Global,
    conn: Connection<S>,
    commands: &[(u64, Command)],
) -> Result<String, Fault> {
    let office = behind(alloc, created(alloc, conn)?, commands)?;
    text_of(alloc, office)
}

/// The text of the desk that an opening of this database finds.
pub fn found<S: Alter + Drop>(rt: &impl Abort, alloc: Global, conn: Connection<S>) -> String {
    match opened(alloc, conn) {
        Ok(office) => text_of(alloc, office).expect(rt, "a desk"),
        Err(fault) => {
            is_fault(rt, fault, Fault::NotADesk);
            no_desk(rt, alloc)
        }
    }
}

/// The text of the desk of an open office.
pub fn text_of<S: Alter + Drop>(alloc: Global, office: Office<S>) -> Result<String, Fault> {
    let (text, _) = text_and_database(alloc, office)?;
    Ok(text)
}

/// The same, and its database.
pub fn text_and_database<S: Alter + Drop>(
    alloc: Global,
    office: Office<S>,
) -> Result<(String, Connection<S>), Fault> {
    let sheets = sheets(alloc, &office)?;
    with_tables(sheets, close(office))
}

/// The text with a line for each row of each table after it, and the database.
fn with_tables<S: Alter + Drop>(
    text: String,
    conn: Connection<S>,
) -> Result<(String, Connection<S>), Fault> {
    let (mut text, mut conn) = (text, conn);
    push_tables(&mut text, &mut conn)?;
    Ok((text, conn))
}

/// Each sheet of the first resolution, or why it is refused.
fn sheets<S: Alter>(alloc: Global, office: &Office<S>) -> Result<String, Fault> {
    let mut text = String::new(alloc);
    for kind in &KINDS {
        push_sheet(alloc, &mut text, office, *kind)?;
    }
    Ok(text)
}

fn push_sheet<S: Alter>(
    alloc: Global,
    text: &mut String,
    office: &Office<S>,
    kind: Kind,
) -> Result<(), Fault> {
    match sheet(alloc, office, kind) {
        Ok(sheet) => text.push_str(sheet.as_str())?,
        Err(SheetFault::Refused(refusal)) => push_refusal(text, refusal)?,
        Err(SheetFault::Fault(fault)) => return Err(fault),
    }
    Ok(())
}

fn push_refusal(text: &mut String, refusal: Refusal) -> Result<(), AllocError> {
    write!(text, "refused: {refusal}\n")
}

/// Adds a line for each row of each table.
fn push_tables<S: Alter>(text: &mut String, conn: &mut Connection<S>) -> Result<(), Error> {
    for select in &SELECTS {
        push_rows(text, rows(conn, select)?.as_slice())?;
    }
    Ok(())
}

fn push_rows(text: &mut String, rows: &[Row]) -> Result<(), Error> {
    for row in rows {
        push_row(text, row)?;
    }
    Ok(())
}

fn push_row(text: &mut String, row: &Row) -> Result<(), Error> {
    for column in 0..row.column_count() {
        let value = row.get_ref(column)?;
        write!(text, "{value:?} ")?;
    }
    text.push('\n')?;
    Ok(())
}
