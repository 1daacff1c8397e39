//! Imports: what a row does to the roll, bad rows at each place, and the limit of the roll.
use super::script::follow;

#[test]
fn imports_put_what_the_roll_does_not_have(rt: HostRuntime) {
    follow(&rt, rt.alloc(), ROWS);
}

#[test]
fn imports_go_up_to_the_limit_of_the_roll(rt: HostRuntime) {
    follow(&rt, rt.alloc(), LIMITS);
}

const ROWS: &str = "
    NEW_YEAR import alice|Alice Adams|current;bob|Brown, Bob|retired \
        -> ok 1 added 2 changed 0 same 0: alice bob header
    NEW_YEAR import alice|Alice Adams|current;bob|Brown, Bob|retired \
        -> ok 2 added 0 changed 0 same 2: header
    NEW_YEAR import alice|Alice Baker|current;bob|Brown, Bob|retired \
        -> ok 3 added 0 changed 1 same 1: alice header
    NEW_YEAR import -> ok 4 added 0 changed 0 same 0: header
    NEW_YEAR import bob|Brown, Bob|retired;alice|Alice Baker|retired \
        -> ok 5 added 0 changed 1 same 1: alice header
    NEW_YEAR import carol|Carol Cole|current;bob|Brown, Bob|retired;alice|Alice Baker|current \
        -> ok 6 added 1 changed 1 same 1: carol alice header
    roll 6 NEW_YEAR alice|Alice Baker|current;bob|Brown, Bob|retired;carol|Carol Cole|current
    # The first bad row of an import is told.
    desk 0
    NEW_YEAR import alice|Alice Adams|current;bob|Brown, Bob|retired \
        -> ok 1 added 2 changed 0 same 0: alice bob header
    NEW_YEAR import alice|Alice Adams|current;bob|Brown, Bob|retired;alice|Alice Adams|current \
        -> refused 23 BadRoll 4
    NEW_YEAR import bob|B|retired;bob|C|current;alice|A|current -> refused 23 BadRoll 3
    NEW_YEAR import carol|C|current;dora|D|current;carol|C|retired -> refused 23 BadRoll 4
    NEW_YEAR import Alice|A|current;bob|B|retired;carol|C|current -> refused 23 BadRoll 2
    NEW_YEAR import alice|A|current;bob|B|retired;|C|current -> refused 23 BadRoll 4
    NEW_YEAR import alice|A|current;bob |B|retired;carol|C|current -> refused 23 BadRoll 3
    NEW_YEAR import alice||current;bob|B|retired;carol|C|current -> refused 23 BadRoll 2
    NEW_YEAR import alice|A|current;bob|B|retired;carol|C\tC|current -> refused 23 BadRoll 4
    NEW_YEAR import alice|A|current;bob|B\u{85}|retired;carol|C|current -> refused 23 BadRoll 3
    NEW_YEAR import alice|A|Current;bob|B|retired;carol|C|current -> refused 23 BadRoll 2
    NEW_YEAR import alice|A|current;bob|B|retired;carol|C| -> refused 23 BadRoll 4
    NEW_YEAR import alice|A|current;bob|B|retired ;carol|C|current -> refused 23 BadRoll 3
    NEW_YEAR import alice|A|current;bob|B|retired;carol|C| current -> refused 23 BadRoll 4
    NEW_YEAR import -|A|current;-||;alice|A|current -> refused 23 BadRoll 2
    NEW_YEAR import alice|A|current;alice|A|current;Carol|C|current -> refused 23 BadRoll 3
    NEW_YEAR import alice|A|current;bob|B|away;alice|A|current -> refused 23 BadRoll 3
    NEW_YEAR import alice|| -> refused 23 BadRoll 2
    NEW_YEAR import {d%|D|current;#1-11}Alice|A|current -> refused 23 BadRoll 13
    NEW_YEAR import {d%|D|current;#1-999}Alice|A|current -> refused 23 BadRoll 1001
    NEW_YEAR import {d%|D|current;#1-1996}alice|| -> refused 23 BadRoll 1998
    roll 1 NEW_YEAR alice|Alice Adams|current;bob|Brown, Bob|retired
    # The longest row, with a name of letters of four bytes, at the last moment.
    desk 0
    LAST import abcdefghijklmnopqrstuvwxyz.0-1_2|{\u{1f600}*80}|current \
        -> ok 1 added 1 changed 0 same 0: abcdefghijklmnopqrstuvwxyz.0-1_2 header
    roll 1 LAST abcdefghijklmnopqrstuvwxyz.0-1_2|{\u{1f600}*80}|current
    ";

const LIMITS: &str = "
    1 numbered d|1|1|2001 -> refused 8 Full
    1 numbered d|1|0|2001 -> refused 8 Full
    1 numbered D|1|1|2001 -> refused 8 Full
    1 numbered d|1|0|2000 -> refused 23 BadRoll 3
    2 numbered d|1|1|2000 -> ok 1 added 2000 changed 0 same 0: 2001 rows
    1 numbered e|1|1|1 -> refused 2 ClockBack
    2 numbered e|1|1|1 -> refused 8 Full
    2 numbered E|1|1|1 -> refused 8 Full
    2 numbered d|1991|1|11 -> refused 8 Full
    2 numbered d|1991|1|10 -> ok 2 added 0 changed 0 same 10: header
    totals 2 2 2000
    # A roll that is nearly full.
    desk 1999
    1999 numbered e|1|1|2 -> refused 8 Full
    1999 numbered E|1|1|2 -> refused 8 Full
    1999 numbered E|1|1|1 -> refused 23 BadRoll 2
    1999 numbered e|1|0|2 -> refused 23 BadRoll 3
    1999 numbered d|1990|1|12 -> refused 8 Full
    1998 numbered d|1990|1|12 -> refused 2 ClockBack
    1999 numbered d|1990|1|11 -> ok 2000 added 1 changed 0 same 10: d2000 header
    totals 2000 1999 2000
    ";
