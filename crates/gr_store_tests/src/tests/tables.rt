//! Tables that are not quite those of a desk, on a desk of one developer.
use super::{ALICE, DESK, OTHERS, is_found};
use std::alloc::Global;
use std::process::Abort;

/// A table is missing, or a view or an index has its name.
const MISSING: [&str; 10] = [
    "DROP TABLE developer",
    "DROP TABLE resolution",
    "DROP TABLE choice",
    "DROP TABLE sponsor",
    "DROP TABLE ballot2",
    "DROP TABLE resolution; CREATE INDEX resolution ON choice (number)",
    "DROP TABLE ballot2; CREATE TABLE ballot
    (resolution INTEGER, login TEXT, ranks TEXT, receipt TEXT, received INTEGER)",
    "CREATE TABLE kept (login TEXT, name TEXT, active INTEGER);
    INSERT INTO kept SELECT login, name, active FROM developer;
    DROP TABLE developer; CREATE VIEW developer AS SELECT login, name, active FROM kept",
    "CREATE TABLE kept (resolution INTEGER, choice INTEGER, login TEXT, active INTEGER);
    DROP TABLE sponsor; CREATE VIEW sponsor AS SELECT resolution, choice, login, active FROM kept",
    "CREATE TABLE kept
    (resolution INTEGER, login TEXT, ranks TEXT, receipt TEXT, received INTEGER);
    DROP TABLE ballot2;
    CREATE VIEW ballot2 AS SELECT resolution, login, ranks, receipt, received FROM kept",
];

/// The table `desk` is missing, or a view has its name.
const NO_DESK: [&str; 2] = [
    "DROP TABLE desk",
    "DROP TABLE desk;
    CREATE VIEW desk AS SELECT 1 AS id, 2 AS version, 1 AS accepted, 5 AS clock",
];

/// A table is made anew, without its last column or another one.
const SHORT: [&str; 8] = [
    "DROP TABLE desk; CREATE TABLE desk (id INTEGER PRIMARY KEY, version INTEGER, accepted INTEGER);
    INSERT INTO desk VALUES (1, 2, 1)",
    "DROP TABLE desk; CREATE TABLE desk (version INTEGER, accepted INTEGER, clock INTEGER);
    INSERT INTO desk VALUES (2, 1, 5)",
    "DROP TABLE developer; CREATE TABLE developer (login TEXT, name TEXT);
    INSERT INTO developer VALUES ('alice', 'Alice Adams')",
    "DROP TABLE resolution; CREATE TABLE resolution (number INTEGER PRIMARY KEY, stage INTEGER,
    start INTEGER, changed INTEGER, shift INTEGER, called INTEGER, days INTEGER, devs INTEGER)",
    "DROP TABLE choice; CREATE TABLE choice (resolution INTEGER, number INTEGER, kind INTEGER,
    proposer TEXT, summary TEXT, body TEXT, ratio INTEGER, introduced INTEGER, place INTEGER)",
    "DROP TABLE sponsor; CREATE TABLE sponsor (resolution INTEGER, choice INTEGER, login TEXT)",
    "DROP TABLE ballot2;
    CREATE TABLE ballot2 (resolution INTEGER, login TEXT, ranks TEXT, receipt TEXT)",
    "DROP TABLE ballot2; CREATE TABLE ballot2
    (number INTEGER, login TEXT, ranks TEXT, receipt TEXT, received INTEGER)",
];

/// Rows of a table `desk` that takes any value: a value is of another type, or there are two rows.
const HEADERS: [&str; 7] = [
    "('1', 2, 1, 5)",
    "(1, '2', 1, 5)",
    "(1, '3', 1, 5)",
    "(1, 2, 1.0, 5)",
    "(1, 2, 1, NULL)",
    "(1, 2, 1, 5), (1, 2, 1, 5)",
    "(1, 3, 1, 5), (1, 3, 1, 5)",
];

/// Rows of such a table `developer`.
const DEVELOPERS: [&str; 9] = [
    "(7, 'Alice Adams', 1)",
    "('alice', 7, 1)",
    "('alice', x'416c696365', 1)",
    "('alice', NULL, 1)",
    "(NULL, 'Alice Adams', 1)",
    "('alice', 'Alice Adams', '1')",
    "('alice', 'Alice Adams', 1.0)",
    "('alice', CAST(x'ff' AS TEXT), 1)",
    "('alice', 'A', 1), ('alice', 'A', 1)",
];

/// What makes no difference: the other way to write a table, and what stands beside.
const AS_GOOD: [&str; 8] = [
    "DROP TABLE ballot2; CREATE TABLE Ballot2
    (received INTEGER, receipt TEXT, ranks TEXT, Login TEXT, RESOLUTION INTEGER)",
    "DROP TABLE desk; CREATE TABLE DESK (clock, accepted, version, id);
    INSERT INTO desk VALUES (5, 1, 2, 1)",
    "DROP TABLE developer; CREATE TABLE developer (login, name, active, since INTEGER);
    INSERT INTO developer VALUES ('alice', 'Alice Adams', 1, 'long ago')",
    "DROP TABLE resolution; CREATE TABLE resolution (number INTEGER PRIMARY KEY, stage INTEGER,
    start INTEGER, changed INTEGER, shift INTEGER, called INTEGER, days INTEGER, devs INTEGER,
    chosen INTEGER, title TEXT)",
    "CREATE TABLE ballot (a); INSERT INTO ballot VALUES (1)",
    "CREATE INDEX by_name ON developer (name)",
    "CREATE UNIQUE INDEX by_name ON developer (name)",
    "CREATE VIEW current AS SELECT login FROM developer WHERE active = 1",
];

/// A table `desk` of a later version, whatever else it has: further columns, in whatever places.
const LATER: [&str; 4] = [
    "DROP TABLE desk; CREATE TABLE desk (id INTEGER PRIMARY KEY, version INTEGER NOT NULL,
    accepted INTEGER NOT NULL, clock INTEGER NOT NULL, named TEXT) STRICT;
    INSERT INTO desk VALUES (1, 3, 1, 5, 'a desk')",
    "DROP TABLE desk; CREATE TABLE desk (named TEXT, clock INTEGER, id INTEGER PRIMARY KEY,
    accepted INTEGER, version INTEGER, since INTEGER);
    INSERT INTO desk VALUES (NULL, 5, 1, 1, 3, 7)",
    "DROP TABLE desk; CREATE TABLE desk (id, version, accepted, clock, named);
    INSERT INTO desk VALUES (1, 9223372036854775807, -1, -1, x'00')",
    "DROP TABLE desk; DROP TABLE ballot2; CREATE TABLE desk (id INTEGER PRIMARY KEY,
    version INTEGER, accepted INTEGER, clock INTEGER, named TEXT UNIQUE);
    INSERT INTO desk VALUES (1, 3, 1, 5, 'a desk')",
];

/// What is found in tables that are not right.
const NONE: &str = "the rows of no valid desk";

/// What is found of the desk of one developer.
const FOUND: &str = "accepted 1 clock 5 developers 1";

#[test]
fn a_desk_has_its_six_tables(rt: HostRuntime) {
    each_is_found_after(&rt, rt.alloc(), &MISSING, NONE);
    each_is_found_after(&rt, rt.alloc(), &NO_DESK, "no table desk");
}

#[test]
fn a_table_has_its_columns(rt: HostRuntime) {
    each_is_found_after(&rt, rt.alloc(), &SHORT, NONE);
    each_is_found_after(&rt, rt.alloc(), &AS_GOOD, FOUND);
}

#[test]
fn a_later_version_is_told_whatever_its_columns(rt: HostRuntime) {
    each_is_found_after(&rt, rt.alloc(), &LATER, "a desk of a later version");
}

#[test]
fn a_column_has_values_of_its_type(rt: HostRuntime) {
    let desk = "DROP TABLE desk; CREATE TABLE desk (id, version, accepted, clock);
        INSERT INTO desk VALUES ";
    is_found_with_none(&rt, rt.alloc(), desk, &HEADERS);
    let developer = "DROP TABLE developer; CREATE TABLE developer (login, name, active);
        INSERT INTO developer VALUES ";
    is_found_with_none(&rt, rt.alloc(), developer, &DEVELOPERS);
}

/// Wants no desk to be found where a table is made anew with the rows of each case.
fn is_found_with_none(rt: &impl Abort, alloc: Global, table: &str, cases: &[&str]) {
    for rows in cases {
        let statements = format!(in alloc; "{table}{rows}").expect(rt, "memory");
        is_found_after(rt, alloc, statements.as_str(), NONE);
    }
}

/// Wants this to be found after the statements of each case on a desk of one developer.
fn each_is_found_after(rt: &impl Abort, alloc: Global, cases: &[&str], wanted: &str) {
    for statements in cases {
        is_found_after(rt, alloc, statements, wanted);
    }
}

/// Wants this to be found after the statements on a desk of one developer.
fn is_found_after(rt: &impl Abort, alloc: Global, statements: &str, wanted: &str) {
    is_found(rt, alloc, &[DESK, OTHERS, ALICE], statements, wanted);
}
