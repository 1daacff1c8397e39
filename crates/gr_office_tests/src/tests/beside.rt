//! A desk beside what another hand has made in its database. It takes the script of eighteen, and
//! what stands beside it is as it was.
//!
//! The desk takes the first commands of the script, so that it has rows to which a table may refer;
//! then more is made, and the office is opened again for the others.
use super::commands::{COMMANDS, commands};
use super::office::{behind, close};
use super::statements::{execute, in_memory, lines};
use super::{created, opened, same};
use gr_office::Office;
use sqlite::{Alter, Connection};
use std::alloc::Global;
use std::process::Abort;

/// How many commands the desk takes first: it has four developers then, a resolution with two
/// choices, and a sponsor of the first one.
const FIRST: u32 = 5;

/// What is made before the desk: a table that counts its rows, with an index and a view, one with a
/// unique key, and one that refers to a table of the desk which is not there yet.
const BEFORE: &str = "\
CREATE TABLE note (id INTEGER PRIMARY KEY AUTOINCREMENT, title TEXT NOT NULL) STRICT;
CREATE INDEX by_title ON note (title);
CREATE VIEW title AS SELECT title FROM note;
CREATE TABLE seat (room TEXT, place INTEGER, UNIQUE (room, place));
CREATE TABLE member (login TEXT REFERENCES developer (login), since INTEGER);
";

/// The rows that these tables have then.
const BEFORE_ROWS: &str = "
INSERT INTO note (title) VALUES ('Red'), ('Green'), ('Blue');
DELETE FROM note WHERE title = 'Blue';
INSERT INTO seat VALUES ('hall', 1), ('hall', 2);
";

/// What is made after the first commands: an index and a view of tables of the desk.
const BEHIND: &str = "\
CREATE INDEX by_stage ON resolution (stage);
CREATE VIEW current AS SELECT login FROM developer WHERE active = 1;
";

/// And the rows that are added then.
const BEHIND_ROWS: &str = "INSERT INTO member VALUES ('d1', 2001), (NULL, 1999), ('d4', 2004)";

/// What was made, but for what a desk has by itself and for the table in which rows are counted.
const MADE: &str = "SELECT sql || ';' FROM sqlite_schema WHERE sql IS NOT NULL AND name NOT IN
  ('desk', 'developer', 'resolution', 'choice', 'sponsor', 'ballot2', 'sqlite_sequence')";

/// A table that refers to rows which the other commands put again, and has no action.
const REMARK: Referring = Referring {
    made: "\
CREATE TABLE remark (id INTEGER PRIMARY KEY,
  resolution INTEGER REFERENCES resolution, choice INTEGER, login TEXT REFERENCES developer,
  FOREIGN KEY (resolution, choice) REFERENCES choice,
  FOREIGN KEY (resolution, choice, login) REFERENCES sponsor);
",
    rows: "INSERT INTO remark VALUES (1, 1, 1, 'd2')",
    found: "SELECT id || ' ' || resolution || ' ' || choice || ' ' || login FROM remark",
    left: "1 1 1 d2\n",
};

/// Tables of which a row goes with the one that it refers to, and a row of each. The other commands
/// put each row to which they refer again, but for the developer's.
const CASCADING: Referring = Referring {
    made: "\
CREATE TABLE of_developer (login TEXT REFERENCES developer ON DELETE CASCADE);
CREATE TABLE of_resolution (number INTEGER REFERENCES resolution ON DELETE CASCADE);
CREATE TABLE of_choice (resolution INTEGER, number INTEGER,
  FOREIGN KEY (resolution, number) REFERENCES choice ON DELETE CASCADE);
CREATE TABLE of_sponsor (resolution INTEGER, choice INTEGER, login TEXT,
  FOREIGN KEY (resolution, choice, login) REFERENCES sponsor ON DELETE CASCADE);
",
    rows: "
INSERT INTO of_developer VALUES ('d1');
INSERT INTO of_resolution VALUES (1);
INSERT INTO of_choice VALUES (1, 1);
INSERT INTO of_sponsor VALUES (1, 1, 'd2');
",
    found: "SELECT 'developer ' || login FROM of_developer
UNION ALL SELECT 'resolution ' || number FROM of_resolution
UNION ALL SELECT 'choice ' || number FROM of_choice
UNION ALL SELECT 'sponsor ' || login FROM of_sponsor",
    left: "developer d1\n",
};

/// The rows of the desk and of what stands beside it, a line for each. The last one is found by the
/// index of another hand.
const ROWS: &str = "
SELECT 'desk ' || id || ' ' || version || ' ' || accepted || ' ' || clock FROM desk
UNION ALL SELECT 'developer ' || login || ' ' || name || ' ' || active FROM developer
UNION ALL SELECT 'resolution ' || number || ' ' || stage || ' ' || chosen FROM resolution
UNION ALL SELECT 'choice ' || number || ' ' || kind || ' ' || summary || ' ' || body FROM choice
UNION ALL SELECT 'sponsor ' || choice || ' ' || login || ' ' || active FROM sponsor
UNION ALL SELECT 'ballot ' || login || ' ' || ranks FROM ballot2
UNION ALL SELECT 'note ' || id || ' ' || title FROM note
UNION ALL SELECT 'title ' || title FROM title
UNION ALL SELECT 'counted ' || name || ' ' || seq FROM sqlite_sequence
UNION ALL SELECT 'seat ' || room || ' ' || place FROM seat
UNION ALL SELECT 'member ' || coalesce(login, 'none') || ' ' || since FROM member
UNION ALL SELECT 'current ' || login FROM current
UNION ALL SELECT 'closed ' || number FROM resolution WHERE stage = 3
ORDER BY 1";

/// These rows after the script, in the order of their texts.
const LEFT: &str = "\
ballot d1 113
ballot d2 113
ballot d3 113
choice 1 1 Red new
choice 2 3 Green b
closed 1
counted note 3
current d1
current d2
current d3
current d4
desk 1 2 18 1769040000
developer d1 One 1
developer d2 Two 1
developer d3 Three 1
developer d4 Four 1
member d1 2001
member d4 2004
member none 1999
note 1 Red
note 2 Green
resolution 1 3 1
seat hall 1
seat hall 2
sponsor 1 d2 1
title Green
title Red
";

/// Tables that refer to the desk's.
struct Referring {
    /// The texts that make them.
    made: &'static str,

    /// Statements that add rows.
    rows: &'static str,

    /// A select of what is left of these rows.
    found: &'static str,

    /// What it gives after the script.
    left: &'static str,
}

#[test]
fn the_script_is_kept_beside_other_tables(rt: HostRuntime) {
    let alloc = rt.alloc();
    let conn = in_memory(alloc).expect(&rt, "memory");
    keeps_the_script_beside(&rt, alloc, conn, &REMARK);
}

#[test]
fn rows_that_go_with_those_of_the_desk_take_none_with_them(rt: HostRuntime) {
    let alloc = rt.alloc();
    let conn = in_memory(alloc).expect(&rt, "memory");
    keeps_the_script_beside(&rt, alloc, conn, &CASCADING);
}

/// Wants a new desk to take the script beside what another hand has made, and that to stay: also
/// these tables, which refer to the desk's.
fn keeps_the_script_beside<S: Alter + Drop>(
    rt: &impl Abort,
    alloc: Global,
    conn: Connection<S>,
    referring: &Referring,
) {
    let mut conn = led(rt, alloc, conn, referring);
    has_what_was_made(rt, alloc, &mut conn, referring);
    gives(rt, alloc, &mut conn, ROWS, LEFT);
    gives(rt, alloc, &mut conn, referring.found, referring.left);
}

/// Wants all to be there that another hand has made, and nothing else beside the desk.
fn has_what_was_made<S: Alter>(
    rt: &impl Abort,
    alloc: Global,
    conn: &mut Connection<S>,
    referring: &Referring,
) {
    let found = lines(rt, alloc, conn, MADE);
    let made = format!(in alloc; "{BEFORE}{BEHIND}{}", referring.made).expect(rt, "memory");
    are_made(rt, found.as_str(), made.as_str());
}

/// Wants each of these texts to be found, and nothing else.
fn are_made(rt: &impl Abort, found: &str, made: &str) {
    assert!(rt; found.len() == made.len());
    for text in made.split(";\n") {
        assert!(rt; found.contains(text), "{text}");
    }
}

/// Wants the select to give these lines.
fn gives<S: Alter>(
    rt: &impl Abort,
    alloc: Global,
    conn: &mut Connection<S>,
    select: &str,
    wanted: &str,
) {
    let found = lines(rt, alloc, conn, select);
    same(rt, found.as_str(), wanted);
}

/// The database after all that is made in it, and the script.
fn led<S: Alter + Drop>(
    rt: &impl Abort,
    alloc: Global,
    conn: Connection<S>,
    referring: &Referring,
) -> Connection<S> {
    let mut conn = conn;
    makes(rt, &mut conn, &[BEFORE, BEFORE_ROWS]);
    let office = created(alloc, conn).expect(rt, "a new desk");
    let mut conn = taken(rt, alloc, office, 1, FIRST);
    let texts = [BEHIND, BEHIND_ROWS, referring.made, referring.rows];
    makes(rt, &mut conn, &texts);
    let office = opened(alloc, conn).expect(rt, "a desk");
    taken(rt, alloc, office, FIRST + 1, COMMANDS)
}

fn makes<S: Alter>(rt: &impl Abort, conn: &mut Connection<S>, texts: &[&str]) {
    execute(conn, texts).expect(rt, "tables and rows");
}

/// The database of the office after the commands from one number to another.
fn taken<S: Alter + Drop>(
    rt: &impl Abort,
    alloc: Global,
    office: Office<S>,
    first: u32,
    last: u32,
) -> Connection<S> {
    let commands = commands(alloc, first, last).expect(rt, "memory");
    let office = behind(alloc, office, commands.as_slice());
    close(office.expect(rt, "answers"))
}
