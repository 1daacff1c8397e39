//! The headline on requests: what an office answers that is opened over what another one left.
use super::step::{in_words, response};
use super::{left_by, same};
use gr_http::answer::{Lost, Served};
use gr_http::input::FromRead;
use gr_http::output::ToWrite;
use gr_http::reopening::reopened_replies_are_of_a_prefix;
use gr_http::route::Routes;
use gr_office::NotOpened;
use sqlite::{Alter, Connection};
use std::alloc::Global;
use std::process::Abort;
use std::test::Fail;

#[test]
fn an_office_that_is_opened_again_answers(rt: HostRuntime) -> Result<(), Fail> {
    let answer = roll_of_reopened(&rt, rt.alloc(), Connection::open_in_memory(rt.alloc())?)?;
    let wanted = response(rt.alloc(), "200 OK", ROLL)?;
    let response = answer.as_str().strip_prefix("200: ");
    same(&rt, response, Some(wanted.as_str()), "the roll");
    Ok(())
}

const ALICE: &str = "
    NEW_YEAR post /developers login=alice&name=Alice+Adams&status=current -> 200 OK|ok 1␊
    ";

const ROLL: &str = "Developers: 1\nCurrent: 1\nD: alice current Alice Adams\n";

/// What an office over the database that another one left answers, asked for the roll.
fn roll_of_reopened<S: Alter + Drop>(
    rt: &impl Abort,
    alloc: Global,
    conn: Connection<S>,
) -> Result<String, Fail> {
    match left_by(rt, alloc, conn, ALICE) {
        Ok(conn) => answer_of_reopened(alloc, conn, b"GET /roll HTTP/1.1\r\n\r\n"),
        Err(fail) => Err(fail),
    }
}

/// What the office that is opened there answers to this request, in words.
fn answer_of_reopened<S: Alter + Drop>(
    alloc: Global,
    conn: Connection<S>,
    request: &[u8],
) -> Result<String, Fail> {
    let (served, written) = served_by_reopened(alloc, conn, &Routes::new(alloc)?, request)?;
    in_words(alloc, served, written)
}

/// What comes of the request there, and the bytes that were written.
fn served_by_reopened<S: Alter + Drop>(
    alloc: Global,
    conn: Connection<S>,
    routes: &Routes,
    request: &[u8],
) -> Result<(Result<Served, Lost>, Vec<u8>), Fail> {
    let mut input = FromRead::new(request);
    let mut output = ToWrite::new(Vec::new(alloc));
    match reopened_replies_are_of_a_prefix(alloc, conn, routes, 0, &mut input, &mut output) {
        Ok((office, served)) => {
            drop(office);
            Ok((served, output.into_inner()))
        }
        Err(NotOpened { fault, .. }) => Err(Fail::from(fault)),
    }
}
