//! Statements on a database, each in a function with no clause, as the calls in `office.rt`.
use sqlite::{Alter, Connection, Error, MemStore, Row};
use std::alloc::{AllocError, Global};
use std::process::Abort;

/// An empty database in memory.
pub fn in_memory(alloc: Global) -> Result<Connection<MemStore>, AllocError> {
    Connection::open_in_memory(alloc)
}

/// Runs the statements of each of these texts.
pub fn execute<S: Alter>(conn: &mut Connection<S>, texts: &[&str]) -> Result<(), Error> {
    for text in texts {
        conn.execute_batch(text)?;
    }
    Ok(())
}

/// The rows that a select gives.
pub fn rows<S: Alter>(conn: &mut Connection<S>, select: &str) -> Result<Vec<Row>, Error> {
    conn.query_all(select, &[])
}

/// The first column of each of them, a line for each.
pub fn lines<S: Alter>(
    rt: &impl Abort,
    alloc: Global,
    conn: &mut Connection<S>,
    select: &str,
) -> String {
    let mut lines = String::new(alloc);
    for row in &rows(conn, select).expect(rt, "rows") {
        push_first_of(&mut lines, row).expect(rt, "a text");
    }
    lines
}

fn push_first_of(lines: &mut String, row: &Row) -> Result<(), Error> {
    push_line(lines, first_of(row)?.as_str())?;
    Ok(())
}

fn first_of(row: &Row) -> Result<String, Error> {
    row.get(0)
}

/// Adds a line with this text.
pub fn push_line(lines: &mut String, text: &str) -> Result<(), AllocError> {
    lines.push_str(text)?;
    lines.push('\n')
}
