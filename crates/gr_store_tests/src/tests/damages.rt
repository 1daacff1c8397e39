//! Each rule of a valid desk (docs/rules.md) broken in the rows of a small desk, in each way that
//! the rule names.
use super::{DESK, OTHERS, is_found};
use std::alloc::Global;
use std::process::Abort;

/// A desk with a resolution in each stage. The vote on resolution 4 left the options 1 and 2, and
/// the casting vote chose the second; that on resolution 6 left the first alone.
const ROWS: &str = "
INSERT INTO desk VALUES (1, 2, 30, 2000);
INSERT INTO developer VALUES ('ada', 'Ada Able', 1), ('ben', 'Ben Best', 1), ('cy', 'Cy Cole', 0);
INSERT INTO resolution VALUES (1, 0, 0, 0, 0, 0, 0, 0, 0), (2, 1, 500, 600, 7, 0, 0, 0, 0),
    (3, 2, 500, 0, -7, 900, 7, 2000, 0), (4, 3, 500, 700, 0, 900, 21, 1, 2),
    (5, 4, 500, 0, 0, 0, 0, 0, 0), (6, 3, 500, 0, 0, 900, 14, 0, 0);
INSERT INTO choice VALUES (1, 1, 1, 'ada', 'Draft', 'Text', 1, 0, 0, 0),
    (2, 1, 2, '', 'One', 'Text', 1, 500, 0, 0), (2, 2, 1, 'ben', 'Two', 'Text', 9, 600, 800, 0),
    (2, 3, 1, 'cy', 'Three', 'Text', 1, 0, 0, 0), (3, 1, 3, '', 'One', 'Text', 1, 500, 0, 1),
    (3, 2, 1, 'ben', 'Two', 'Text', 1, 0, 0, 0), (3, 3, 0, '', 'Three', 'Text', 3, 500, 850, 2),
    (4, 1, 2, '', 'One', 'Text', 1, 500, 0, 1), (4, 2, 2, '', 'Two', 'Text', 1, 700, 0, 2),
    (5, 1, 2, '', 'One', 'Text', 1, 500, 0, 0), (6, 1, 2, '', 'One', 'Text', 1, 500, 0, 1);
INSERT INTO sponsor VALUES (1, 1, 'ben', 1), (2, 2, 'ada', 1), (2, 2, 'cy', 0);
INSERT INTO ballot2 VALUES
    (3, 'ada', '12-', '0123456789abcdef0123456789abcdef0123456789abcdef0123456789abcdef', 2),
    (3, 'cy', '---', '0000000000000000000000000000000000000000000000000000000000000000', 1),
    (4, 'ada', '123', 'ffffffffffffffffffffffffffffffffffffffffffffffffffffffffffffffff', 30),
    (4, 'ben', '213', '1111111111111111111111111111111111111111111111111111111111111111', 1),
    (6, 'ada', '12', '2222222222222222222222222222222222222222222222222222222222222222', 1);
";

/// Statements a line, each of which leaves the desk valid.
const HARMLESS: &str = "
    UPDATE developer SET name = replace('nnnnnnnn', 'n', 'NNNNNNNNNN') WHERE login = 'cy'
    UPDATE resolution SET changed = 500 WHERE number = 2
    UPDATE resolution SET days = 21, devs = 0 WHERE number = 3
    UPDATE resolution SET chosen = 0 WHERE number = 4
    UPDATE resolution SET chosen = 1 WHERE number = 4
    UPDATE choice SET summary = replace('ssssssss', 's', 'ssssssssss') WHERE resolution = 5
    UPDATE choice SET kind = 0 WHERE resolution = 5
    UPDATE sponsor SET active = 0
    DELETE FROM sponsor
    DELETE FROM ballot2 WHERE resolution = 3
    UPDATE ballot2 SET ranks = '911' WHERE login = 'ada' AND resolution = 3
    UPDATE ballot2 SET ranks = 'za1' WHERE login = 'ada' AND resolution = 3
    UPDATE ballot2 SET received = 30
    UPDATE ballot2 SET received = 1
";

/// Statements a line, each of which breaks the rule above it.
const DAMAGES: &str = "
    # 1. the header
    DELETE FROM desk
    INSERT INTO desk VALUES (2, 2, 30, 2000)
    UPDATE desk SET id = 2
    UPDATE desk SET accepted = -1
    UPDATE desk SET accepted = 1000000001
    UPDATE desk SET clock = -1
    UPDATE desk SET clock = 4102444800
    UPDATE desk SET accepted = 0
    UPDATE desk SET clock = 0
    # 2. developers; the roll is filled below
    UPDATE developer SET active = 2 WHERE login = 'cy'
    UPDATE developer SET active = -1 WHERE login = 'cy'
    UPDATE developer SET name = '' WHERE login = 'cy'
    UPDATE developer SET name = replace('nnnnnnnnn', 'n', 'NNNNNNNNN') WHERE login = 'cy'
    UPDATE developer SET name = replace('Cy Cole', ' ', CAST(x'09' AS TEXT)) WHERE login = 'cy'
    UPDATE developer SET name = CAST(x'4379ff' AS TEXT) WHERE login = 'cy'
    INSERT INTO developer VALUES ('', 'Dee', 1)
    INSERT INTO developer VALUES ('Dee', 'Dee', 1)
    INSERT INTO developer VALUES ('-dee', 'Dee', 1)
    INSERT INTO developer VALUES ('d e', 'Dee', 1)
    INSERT INTO developer VALUES (replace('ddd', 'd', 'ddddddddddd'), 'Dee', 1)
    # 3. resolutions; there are too many below
    UPDATE resolution SET number = 7 WHERE number = 1
    UPDATE resolution SET number = 0 WHERE number = 1
    UPDATE resolution SET number = -1 WHERE number = 1
    DELETE FROM resolution WHERE number = 1
    INSERT INTO resolution VALUES (8, 0, 0, 0, 0, 0, 0, 0, 0)
    UPDATE resolution SET stage = 5 WHERE number = 2
    UPDATE resolution SET stage = -1 WHERE number = 2
    # 4. the discussion of one that is no draft, and no such thing of a draft
    UPDATE resolution SET start = 0 WHERE number = 2
    UPDATE resolution SET start = -1 WHERE number = 2
    UPDATE resolution SET start = 2001, changed = 0 WHERE number = 2
    UPDATE resolution SET changed = 499 WHERE number = 2
    UPDATE resolution SET changed = 2001 WHERE number = 2
    UPDATE resolution SET changed = -1 WHERE number = 2
    UPDATE resolution SET shift = 8 WHERE number = 2
    UPDATE resolution SET shift = -8 WHERE number = 2
    UPDATE resolution SET start = 0 WHERE number = 5
    UPDATE resolution SET shift = 8 WHERE number = 4
    UPDATE choice SET introduced = 0 WHERE resolution = 5
    UPDATE resolution SET start = 500 WHERE number = 1
    UPDATE resolution SET changed = 500 WHERE number = 1
    UPDATE resolution SET shift = 1 WHERE number = 1
    # 5. the call of one in voting or closed, and no such thing of another
    UPDATE resolution SET called = 499 WHERE number = 3
    UPDATE resolution SET called = 2001 WHERE number = 3
    UPDATE resolution SET called = 0 WHERE number = 4
    UPDATE resolution SET days = 6 WHERE number = 3
    UPDATE resolution SET days = 22 WHERE number = 4
    UPDATE resolution SET devs = 2001 WHERE number = 3
    UPDATE resolution SET devs = -1 WHERE number = 3
    UPDATE resolution SET called = 900 WHERE number = 1
    UPDATE resolution SET called = 900 WHERE number = 2
    UPDATE resolution SET days = 7 WHERE number = 2
    UPDATE resolution SET devs = 3 WHERE number = 5
    UPDATE resolution SET chosen = 1 WHERE number = 5
    # 6. each choice has its resolution, and they are numbered; there are too many below
    INSERT INTO choice VALUES (7, 1, 2, '', 'One', 'Text', 1, 0, 0, 0)
    INSERT INTO choice VALUES (0, 1, 2, '', 'One', 'Text', 1, 0, 0, 0)
    INSERT INTO choice VALUES (1, 2, 1, 'ada', 'Two', 'Text', 1, 0, 0, 0)
    INSERT INTO choice VALUES (2, 0, 2, '', 'None', 'Text', 1, 0, 0, 0)
    INSERT INTO choice VALUES (2, 5, 2, '', 'Five', 'Text', 1, 0, 0, 0)
    UPDATE choice SET number = 4 WHERE resolution = 2 AND number = 3
    DELETE FROM choice WHERE resolution = 5
    DELETE FROM choice WHERE resolution = 2 AND number = 1
    # 7. what a choice says
    UPDATE choice SET proposer = 'dee' WHERE resolution = 2 AND number = 3
    UPDATE choice SET proposer = '' WHERE resolution = 2 AND number = 3
    UPDATE choice SET proposer = 'cy' WHERE resolution = 5
    UPDATE choice SET kind = 0 WHERE resolution = 2 AND number = 3
    UPDATE choice SET kind = 4 WHERE resolution = 5
    UPDATE choice SET kind = -1 WHERE resolution = 5
    UPDATE choice SET summary = '' WHERE resolution = 5
    UPDATE choice SET summary = replace('sssssssss', 's', 'sssssssss') WHERE resolution = 5
    UPDATE choice SET summary = CAST(x'610a62' AS TEXT) WHERE resolution = 5
    UPDATE choice SET body = '' WHERE resolution = 5
    UPDATE choice SET body = CAST(x'07' AS TEXT) WHERE resolution = 5
    UPDATE choice SET ratio = 0 WHERE resolution = 5
    UPDATE choice SET ratio = 10 WHERE resolution = 5
    UPDATE choice SET ratio = -1 WHERE resolution = 5
    # 8. from when a choice is introduced, and short
    UPDATE choice SET introduced = 499 WHERE resolution = 2 AND number = 2
    UPDATE choice SET introduced = 2001 WHERE resolution = 2 AND number = 2
    UPDATE choice SET introduced = -1 WHERE resolution = 2 AND number = 3
    UPDATE choice SET introduced = 500 WHERE resolution = 1
    UPDATE choice SET short = 800 WHERE resolution = 2 AND number = 3
    UPDATE choice SET short = 800 WHERE resolution = 1
    UPDATE choice SET short = 2001 WHERE resolution = 2 AND number = 2
    UPDATE choice SET short = -1 WHERE resolution = 2 AND number = 2
    # 9. places
    UPDATE choice SET place = 3 WHERE resolution = 3 AND number = 2
    UPDATE choice SET place = 1 WHERE resolution = 2 AND number = 1
    UPDATE choice SET place = 1 WHERE resolution = 5
    UPDATE choice SET place = 1 WHERE resolution = 1
    UPDATE choice SET place = 0 WHERE resolution = 6
    UPDATE choice SET place = 1 WHERE resolution = 3 AND number = 3
    UPDATE choice SET place = 3 WHERE resolution = 3 AND number = 3
    UPDATE choice SET place = -1 WHERE resolution = 3 AND number = 3
    UPDATE choice SET place = 0 WHERE resolution = 3 AND number = 1
    UPDATE choice SET place = 3 - place WHERE resolution = 3 AND place > 0
    # 10. sponsors
    INSERT INTO sponsor VALUES (1, 2, 'ben', 1)
    INSERT INTO sponsor VALUES (7, 1, 'ben', 0)
    INSERT INTO sponsor VALUES (1, 1, 'dee', 0)
    UPDATE sponsor SET login = 'ada' WHERE resolution = 1
    UPDATE sponsor SET active = 2 WHERE resolution = 1
    UPDATE sponsor SET active = -1 WHERE resolution = 1
    # 11. ballots
    UPDATE ballot2 SET resolution = 1, ranks = '1' WHERE resolution = 6
    UPDATE ballot2 SET resolution = 2, ranks = '1' WHERE resolution = 6
    UPDATE ballot2 SET resolution = 5, ranks = '1' WHERE resolution = 6
    UPDATE ballot2 SET resolution = 7 WHERE resolution = 6
    UPDATE ballot2 SET login = 'dee' WHERE resolution = 3 AND login = 'cy'
    UPDATE ballot2 SET ranks = '12' WHERE resolution = 3 AND login = 'ada'
    UPDATE ballot2 SET ranks = '12--' WHERE resolution = 3 AND login = 'ada'
    UPDATE ballot2 SET ranks = '' WHERE resolution = 3 AND login = 'ada'
    UPDATE ballot2 SET ranks = '10-' WHERE resolution = 3 AND login = 'ada'
    UPDATE ballot2 SET ranks = '12A' WHERE resolution = 3 AND login = 'ada'
    UPDATE ballot2 SET ranks = '12{' WHERE resolution = 3 AND login = 'ada'
    UPDATE ballot2 SET receipt = '' WHERE resolution = 3 AND login = 'ada'
    UPDATE ballot2 SET receipt = substr(receipt, 2) WHERE resolution = 3 AND login = 'ada'
    UPDATE ballot2 SET receipt = receipt || '0' WHERE resolution = 3 AND login = 'ada'
    UPDATE ballot2 SET receipt = upper(receipt) WHERE resolution = 3 AND login = 'ada'
    UPDATE ballot2 SET receipt = replace(receipt, '0', 'g') WHERE resolution = 3 AND login = 'ada'
    UPDATE ballot2 SET received = 0 WHERE resolution = 6
    UPDATE ballot2 SET received = -1 WHERE resolution = 6
    UPDATE ballot2 SET received = 31 WHERE resolution = 6
    UPDATE ballot2 SET received = 4294967297 WHERE resolution = 6
    UPDATE desk SET accepted = 29
    # 12. the place that the casting vote chose
    UPDATE resolution SET chosen = 3 WHERE number = 4
    UPDATE resolution SET chosen = 4 WHERE number = 4
    UPDATE resolution SET chosen = -1 WHERE number = 4
    UPDATE resolution SET chosen = 1 WHERE number = 6
    UPDATE resolution SET chosen = 1 WHERE number = 3
    UPDATE ballot2 SET ranks = '213' WHERE resolution = 4
    DELETE FROM ballot2 WHERE resolution = 4
";

/// The numbers from 1 to 2,000.
const NUMBERS: &str = "
CREATE TABLE digit (d INTEGER);
INSERT INTO digit VALUES (0), (1), (2), (3), (4), (5), (6), (7), (8), (9);
CREATE TABLE number (n INTEGER PRIMARY KEY);
INSERT INTO number SELECT 1 + a.d + 10 * b.d + 100 * c.d + 1000 * e.d
    FROM digit a, digit b, digit c, digit e WHERE e.d < 2;
";

/// Statements that make as many rows, or as long a text, as there may be, those that go beyond it,
/// and how many developers there are before that.
const LIMITS: [(&str, &str, u32); 4] = [
    (
        "INSERT INTO developer SELECT 'd' || n, 'Dee', 0 FROM number WHERE n <= 1997",
        "INSERT INTO developer VALUES ('dee', 'Dee', 0)",
        2000,
    ),
    (
        "INSERT INTO resolution SELECT n, 0, 0, 0, 0, 0, 0, 0, 0 FROM number
            WHERE n > 6 AND n <= 200;
        INSERT INTO choice SELECT n, 1, 2, '', 'One', 'Text', 1, 0, 0, 0 FROM number
            WHERE n > 6 AND n <= 200",
        "INSERT INTO resolution VALUES (201, 0, 0, 0, 0, 0, 0, 0, 0);
        INSERT INTO choice VALUES (201, 1, 2, '', 'One', 'Text', 1, 0, 0, 0)",
        3,
    ),
    (
        "INSERT INTO choice SELECT 5, n, 0, '', 'More', 'Text', 1, 0, 0, 0 FROM number
            WHERE n > 1 AND n <= 34",
        "INSERT INTO choice VALUES (5, 35, 0, '', 'More', 'Text', 1, 0, 0, 0)",
        3,
    ),
    (
        "UPDATE choice SET body = (SELECT group_concat('123456789') FROM number) || '0'",
        "UPDATE choice SET body = body || '1' WHERE resolution = 5",
        3,
    ),
];

/// What is found where a rule is broken.
const NONE: &str = "the rows of no valid desk";

#[test]
fn rows_of_a_valid_desk_are_loaded(rt: HostRuntime) {
    let valid = "accepted 30 clock 2000 developers 3";
    is_found_after(&rt, rt.alloc(), "", valid);
    each_is_found(&rt, rt.alloc(), HARMLESS, valid);
}

#[test]
fn a_broken_rule_is_found(rt: HostRuntime) {
    each_is_found(&rt, rt.alloc(), DAMAGES, NONE);
}

#[test]
fn more_than_there_may_be_is_found(rt: HostRuntime) {
    for (filled, further, developers) in &LIMITS {
        is_full(&rt, rt.alloc(), filled, *developers);
        is_found_beyond(&rt, rt.alloc(), filled, further);
    }
}

/// Wants a desk with so many developers to be found where it is filled.
fn is_full(rt: &impl Abort, alloc: Global, filled: &str, developers: u32) {
    let full = format!(in alloc; "{NUMBERS};{filled}").expect(rt, "memory");
    let valid = format!(in alloc; "accepted 30 clock 2000 developers {developers}");
    let valid = valid.expect(rt, "memory");
    is_found_after(rt, alloc, full.as_str(), valid.as_str());
}

/// Wants none to be found where there is more.
fn is_found_beyond(rt: &impl Abort, alloc: Global, filled: &str, further: &str) {
    let beyond = format!(in alloc; "{NUMBERS};{filled};{further}").expect(rt, "memory");
    is_found_after(rt, alloc, beyond.as_str(), NONE);
}

/// Wants this to be found after each line of statements by itself.
fn each_is_found(rt: &impl Abort, alloc: Global, lines: &str, wanted: &str) {
    for line in lines.lines() {
        let statements = line.trim();
        if !statements.is_empty() && !statements.starts_with('#') {
            is_found_after(rt, alloc, statements, wanted);
        }
    }
}

/// Wants this to be found after the statements on the small desk.
fn is_found_after(rt: &impl Abort, alloc: Global, statements: &str, wanted: &str) {
    is_found(rt, alloc, &[DESK, OTHERS, ROWS], statements, wanted);
}
