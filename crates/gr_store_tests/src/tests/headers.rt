//! What `adopt` and `load` make of a database with few rows, and of the header row.
use super::{ALICE, DESK, OTHERS, each_is_found, is_found};
use std::alloc::{AllocError, Global};
use std::process::Abort;

/// Statements, and what is found in the database that they make.
const WITHOUT_A_DESK: [(&str, &str); 5] = [
    ("", "no table desk"),
    ("CREATE TABLE desks (a)", "no table desk"),
    ("CREATE VIEW desk AS SELECT 1 AS id", "no table desk"),
    (
        "CREATE TABLE a (b); CREATE INDEX desk ON a (b)",
        "no table desk",
    ),
    (OTHERS, "no table desk"),
];

/// Rows of a table `desk` that has no other beside it, and what is found.
const ALONE: [(&str, &str); 14] = [
    ("", "the rows of no valid desk"),
    ("(1, 3, 0, 0)", "a desk of a later version"),
    (
        "(1, 9223372036854775807, -1, -1)",
        "a desk of a later version",
    ),
    ("(2, 3, 0, 0)", "the rows of no valid desk"),
    ("(0, 3, 0, 0)", "the rows of no valid desk"),
    ("(1, 3, 0, 0), (2, 3, 0, 0)", "the rows of no valid desk"),
    ("(1, 2, 0, 0)", "the rows of no valid desk"),
    ("(1, 1, 0, 0)", "a desk of an earlier version"),
    ("(1, 0, -1, -1)", "a desk of an earlier version"),
    ("(1, -5, 0, 0)", "a desk of an earlier version"),
    (
        "(1, -9223372036854775808, 0, 0)",
        "a desk of an earlier version",
    ),
    ("(2, 1, 0, 0)", "the rows of no valid desk"),
    ("(0, 1, 0, 0)", "the rows of no valid desk"),
    ("(1, 1, 0, 0), (2, 1, 0, 0)", "the rows of no valid desk"),
];

/// Rows of a table `desk` that has the five others beside it, without a row, and what is found.
const BESIDE: [(&str, &str); 11] = [
    ("(1, 2, 0, 0)", "accepted 0 clock 0 developers 0"),
    (
        "(1, 2, 1000000000, 4102444799)",
        "accepted 1000000000 clock 4102444799 developers 0",
    ),
    ("(1, 3, 0, 0)", "a desk of a later version"),
    ("(1, 3, -1, -1)", "a desk of a later version"),
    ("(1, 1, 0, 0)", "a desk of an earlier version"),
    ("(1, 0, -1, -1)", "a desk of an earlier version"),
    ("(2, 2, 0, 0)", "the rows of no valid desk"),
    ("(2, 3, 0, 0)", "the rows of no valid desk"),
    ("(2, 1, 0, 0)", "the rows of no valid desk"),
    ("(1, 2, 0, 0), (2, 2, 0, 0)", "the rows of no valid desk"),
    ("", "the rows of no valid desk"),
];

/// Statements on a desk of one developer, and what is found.
const OF_ALICE: [(&str, &str); 6] = [
    ("", "accepted 1 clock 5 developers 1"),
    (
        "UPDATE developer SET login = 'Alice'",
        "the rows of no valid desk",
    ),
    ("UPDATE desk SET version = 3", "a desk of a later version"),
    (
        "UPDATE developer SET login = 'Alice'; UPDATE desk SET version = 3",
        "a desk of a later version",
    ),
    (
        "UPDATE desk SET version = 1",
        "a desk of an earlier version",
    ),
    (
        "UPDATE developer SET login = 'Alice'; UPDATE desk SET version = 1",
        "a desk of an earlier version",
    ),
];

#[test]
fn a_desk_has_its_table(rt: HostRuntime) {
    each_is_found(&rt, rt.alloc(), &[], &WITHOUT_A_DESK);
}

#[test]
fn a_desk_has_one_header(rt: HostRuntime) {
    each_has_header(&rt, rt.alloc(), &[DESK], &ALONE);
    each_has_header(&rt, rt.alloc(), &[DESK, OTHERS], &BESIDE);
}

#[test]
fn a_desk_has_its_developers(rt: HostRuntime) {
    each_is_found(&rt, rt.alloc(), &[DESK, OTHERS, ALICE], &OF_ALICE);
}

/// Looks at a table `desk` in these tables, with the rows of each case.
fn each_has_header(rt: &impl Abort, alloc: Global, tables: &[&str], cases: &[(&str, &str)]) {
    for (rows, wanted) in cases {
        has_header(rt, alloc, tables, rows, wanted);
    }
}

fn has_header(rt: &impl Abort, alloc: Global, tables: &[&str], rows: &str, wanted: &str) {
    let statements = inserted(alloc, rows).expect(rt, "memory");
    is_found(rt, alloc, tables, statements.as_str(), wanted);
}

/// The statement that puts these rows into the table `desk`, where there are any.
fn inserted(alloc: Global, rows: &str) -> Result<String, AllocError> {
    if rows.is_empty() {
        return Ok(String::new(alloc));
    }
    format!(in alloc; "INSERT INTO desk VALUES {rows}")
}
