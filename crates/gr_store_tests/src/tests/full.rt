//! A desk that has accepted all but one of the commands that it may accept.
use super::commits::developer;
use super::{
    ALICE, DESK, OTHERS, committed, database, database_of, loaded, planned, same, store_over,
    totals,
};
use gr_core::{Command, Desk};
use sqlite::{Alter, Connection};
use std::alloc::Global;
use std::process::Abort;

/// What is found of the desk that has accepted its last command.
const LAST: &str = "accepted 1000000000 clock 5 developers 2";

#[test]
fn a_desk_takes_its_last_command(rt: HostRuntime) {
    let alloc = rt.alloc();
    let count = "UPDATE desk SET accepted = 999999999";
    takes_its_last(
        &rt,
        alloc,
        database(&rt, alloc, &[DESK, OTHERS, ALICE, count]),
    );
}

/// Wants the desk to take one command more, and to be found again after it.
fn takes_its_last<S: Alter + Drop>(rt: &impl Abort, alloc: Global, conn: Connection<S>) {
    let mut store = store_over(rt, conn);
    let desk = committed(rt, alloc, &mut store, 5, bob(rt, alloc));
    is_full(rt, alloc, &desk);
    let (again, _) = loaded(rt, alloc, database_of(store));
    same(rt, again.as_str(), LAST, "found again");
}

/// Puts a second developer on the roll.
fn bob(rt: &impl Abort, alloc: Global) -> Command {
    developer(alloc, "bob", "Bob Brown").expect(rt, "memory")
}

/// Wants the desk to refuse a further command.
fn is_full(rt: &impl Abort, alloc: Global, desk: &Desk) {
    let refused = planned(rt, alloc, desk, 5, bob(rt, alloc));
    same(rt, refused.as_str(), "Err(Refused(Full))", "a further one");
    let totals = totals(rt, alloc, desk);
    same(rt, totals.as_str(), LAST, "the last one");
}
