//! The tests of `gr_http`, a module for each subject. Here: offices that are asked step by step.
mod choices;
mod closed;
mod doors;
mod fakes;
mod fields;
mod generated;
mod imports;
mod lines;
mod refusals;
mod reopening;
mod roll_files;
mod routes;
mod script;
mod step;
mod streams;
mod text;
mod whole;

use gr_http::answer::answer;
use gr_http::input::FromRead;
use gr_http::output::ToWrite;
use gr_http::route::Routes;
use gr_office::{NotOpened, Office};
use sqlite::{Alter, Connection};
use std::alloc::{AllocError, Global};
use std::fmt::{Debug, Display};
use std::process::Abort;
use std::test::Fail;
use step::{Step, in_words};

/// Wants the value to be this one. Whoever compares values does it here, since an assertion costs
/// its function a proof.
fn same<T: Copy + PartialEq + Debug>(rt: &impl Abort, found: T, wanted: T, about: &str) {
    assert_eq!(rt; found, wanted, "of {about:?}");
}

/// Wants the value to print so.
fn prints<T: Display>(
    rt: &impl Abort,
    alloc: Global,
    value: &T,
    wanted: &str,
) -> Result<(), AllocError> {
    let printed = format!(in alloc; "{value}")?;
    same(rt, printed.as_str(), wanted, "what is printed");
    Ok(())
}

/// Asks a new office, in a database in memory, step by step, and wants its answers. Each line is a
/// [`Step`] in words.
fn follow(rt: &impl Abort, alloc: Global, steps: &str) -> Result<(), Fail> {
    follow_over(rt, alloc, Connection::open_in_memory(alloc)?, steps)
}

/// The same with a new office in this database.
fn follow_over<S: Alter + Drop>(
    rt: &impl Abort,
    alloc: Global,
    conn: Connection<S>,
    steps: &str,
) -> Result<(), Fail> {
    match left_by(rt, alloc, conn, steps) {
        Ok(_) => Ok(()),
        Err(fail) => Err(fail),
    }
}

/// The database that a new office there leaves, which followed these steps and was closed.
fn left_by<S: Alter + Drop>(
    rt: &impl Abort,
    alloc: Global,
    conn: Connection<S>,
    steps: &str,
) -> Result<Connection<S>, Fail> {
    let mut office = new_office(alloc, conn)?;
    take_all(rt, alloc, &mut office, steps)?;
    Ok(office.close())
}

fn new_office<S: Alter + Drop>(alloc: Global, conn: Connection<S>) -> Result<Office<S>, Fail> {
    match Office::create(alloc, conn) {
        Ok(office) => Ok(office),
        Err(NotOpened { fault, .. }) => Err(Fail::from(fault)),
    }
}

fn take_all<S: Alter + Drop>(
    rt: &impl Abort,
    alloc: Global,
    office: &mut Office<S>,
    steps: &str,
) -> Result<(), Fail> {
    let routes = Routes::new(alloc)?;
    take_lines(rt, alloc, &routes, office, steps)
}

fn take_lines<S: Alter + Drop>(
    rt: &impl Abort,
    alloc: Global,
    routes: &Routes,
    office: &mut Office<S>,
    steps: &str,
) -> Result<(), Fail> {
    for line in steps.trim().lines() {
        do_step(rt, alloc, routes, office, line.trim_start())?;
    }
    Ok(())
}

/// Asks what the step in this line does, and wants what it says.
fn do_step<S: Alter + Drop>(
    rt: &impl Abort,
    alloc: Global,
    routes: &Routes,
    office: &mut Office<S>,
    line: &str,
) -> Result<(), Fail> {
    let step = Step::read(alloc, line)?;
    let found = answer_of(alloc, routes, office, &step)?;
    let beginning = line.get(..90).unwrap_or(line);
    same(rt, found.as_str(), step.wanted.as_str(), beginning);
    Ok(())
}

/// What the office makes of the step's request, in words.
fn answer_of<S: Alter + Drop>(
    alloc: Global,
    routes: &Routes,
    office: &mut Office<S>,
    step: &Step,
) -> Result<String, Fail> {
    let mut input = FromRead::new(step.reader());
    let mut output = ToWrite::new(step.writer(alloc));
    let served = answer(alloc, routes, office, step.at, &mut input, &mut output);
    in_words(alloc, served, output.into_inner().held)
}
