//! What is given back of a file that was opened, and over which there is no office.
use super::{is_made, remove, same};
use gr_desk::file::open_file;
use gr_desk::no_office::Left;
use gr_office::Fault;
use sqlite::{FileFrom, Unknown};
use std::fs;
use std::test::Fail;

/// The files of what is no database are given back.
#[test]
fn files_of_no_database_are_given_back(rt: HostRuntime) {
    fs::write(&rt, "text.db", [b'x'; 8_192]).expect(&rt, "a file");
    let left = left_by_opening(&rt, "text.db");
    assert!(rt; matches!(left, Some((_, "files-left"))));
}

/// Says how far an opening came that is refused memory: `tests/program/test_refused_office.py`
/// refuses it each of its allocations in turn.
#[test]
fn an_opening_of_a_file_bears_a_want_of_memory(rt: HostRuntime) -> Result<(), Fail> {
    remove(&rt, "borne.db", "borne.db-wal");
    same(&rt, is_made(&rt, "borne.db", Unknown), true, "borne.db");
    print!(rt; "asked ")?;
    if let Some((fault, left)) = left_by_opening(&rt, "borne.db") {
        same(&rt, fault, Fault::Memory, left);
        print!(rt; "{left} ")?;
    }
    print!(rt; "answered ")?;
    Ok(())
}

/// The fault of an opening, and the word for what is left, where there is no office.
fn left_by_opening(rt: &HostRuntime, file: &str) -> Option<(Fault, &'static str)> {
    match open_file(rt, file, Unknown) {
        Ok(office) => {
            drop(office);
            None
        }
        Err(no_office) => Some((no_office.fault(), word_for(no_office.left()))),
    }
}

/// The word for what is left.
fn word_for(left: &Left<FileFrom<Unknown>>) -> &'static str {
    match left {
        Left::Nothing => "nothing-left",
        Left::Files(_) => "files-left",
        Left::Connection(_) => "connection-left",
    }
}
