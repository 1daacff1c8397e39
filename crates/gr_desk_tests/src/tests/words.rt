//! What words ask for.
use super::{same, words_of};
use gr_desk::line::{Line, NoLine};
use gr_desk::version::VERSION;
use gr_desk::words::read_line;
use gr_office::Kind;
use std::alloc::{AllocError, Global};

/// Words, and the line that they ask for.
fn lines() -> [(&'static str, Line<'static>); 19] {
    [
        ("init a", init("a", false)),
        ("init -- -a", init("-a", false)),
        ("init -- --sums", init("--sums", false)),
        ("init --sums a", init("a", true)),
        ("init a --sums", init("a", true)),
        ("once a", once(None)),
        ("once a --at 0", once(Some(0))),
        ("once --at 9999999999 a", once(Some(9_999_999_999))),
        ("once a --at=+007", once(Some(7))),
        ("serve a --port 1 --count 1", serve(1, 1, None)),
        (
            "serve --at 5 --count 1000000 --port 65535 a",
            serve(65_535, 1_000_000, Some(5)),
        ),
        ("import a b", import(None)),
        ("import a b --at 3", import(Some(3))),
        ("roll a", show(Kind::Roll, 0)),
        ("status a 1", show(Kind::Status, 1)),
        ("tally a 999999999", show(Kind::Tally, 999_999_999)),
        ("result a 01", show(Kind::Result, 1)),
        ("result a +1", show(Kind::Result, 1)),
        ("migrate a", Line::Migrate { file: "a" }),
    ]
}

fn init(file: &'static str, has_sums: bool) -> Line<'static> {
    Line::Init { file, has_sums }
}

fn once(at: Option<u64>) -> Line<'static> {
    Line::Once { file: "a", at }
}

fn serve(port: u16, count: u32, at: Option<u64>) -> Line<'static> {
    Line::Serve {
        file: "a",
        port,
        count,
        at,
    }
}

fn import(at: Option<u64>) -> Line<'static> {
    Line::Import {
        file: "a",
        roll: "b",
        at,
    }
}

fn show(kind: Kind, number: u32) -> Line<'static> {
    Line::Show {
        file: "a",
        kind,
        number,
    }
}

/// Words that ask for help.
const HELP: [&str; 12] = [
    "--help",
    "-h",
    "init --help",
    "once --help",
    "serve -h",
    "serve a --port 1 --help",
    "import --help",
    "roll --help",
    "status --help",
    "tally --help",
    "result --help",
    "migrate --help",
];

/// Words that ask for the version, whatever stands after the first one.
const VERSIONS: [&str; 4] = [
    "--version",
    "--version --help",
    "--version init",
    "--version frob",
];

/// Words that are wrong.
const WRONG: [&str; 43] = [
    "frob",
    "help",
    "-V",
    "--versions",
    "--version=1",
    "init --version",
    "roll a --version",
    "",
    "Init a",
    "ini a",
    "init",
    "init a b",
    "init a --at 1",
    "init --sums",
    "init --sums=true a",
    "init --sums --sums a",
    "init --sum a",
    "roll --sums a",
    "once",
    "once a --at",
    "once a --at -1",
    "once a --at 10000000000",
    "once a --at 1 --at 2",
    "serve a",
    "serve a --port 1",
    "serve a --count 1",
    "serve a --port 0 --count 1",
    "serve a --port 65536 --count 1",
    "serve a --port 1 --count 0",
    "serve a --port 1 --count 1000001",
    "serve a --port 1 --count 1 --at 10000000000",
    "import a",
    "import a b c",
    "roll",
    "roll a 1",
    "status a",
    "status a 0",
    "status a 1000000000",
    "tally a 0",
    "tally a 1000000000",
    "result a x",
    "migrate",
    "migrate a b",
];

#[test]
fn words_ask_for_lines(rt: HostRuntime) {
    for (words, line) in lines() {
        same(&rt, asks_for(rt.alloc(), words, line), Ok(true), words);
    }
}

#[test]
fn words_ask_for_help(rt: HostRuntime) {
    for words in HELP {
        same(&rt, asks_for_help(rt.alloc(), words), Ok(true), words);
    }
}

#[test]
fn words_ask_for_the_version(rt: HostRuntime) {
    for words in VERSIONS {
        same(&rt, asks_for_version(rt.alloc(), words), Ok(true), words);
    }
}

#[test]
fn wrong_words_are_called_wrong(rt: HostRuntime) {
    for words in WRONG {
        same(&rt, are_wrong(rt.alloc(), words), Ok(true), words);
    }
}

fn asks_for(alloc: Global, words: &str, line: Line<'_>) -> Result<bool, AllocError> {
    let words = words_of(alloc, words)?;
    match read_line(alloc, words.as_slice()) {
        Ok(found) => Ok(found == line),
        Err(_) => Ok(false),
    }
}

fn asks_for_help(alloc: Global, words: &str) -> Result<bool, AllocError> {
    let words = words_of(alloc, words)?;
    match read_line(alloc, words.as_slice()) {
        Err(NoLine::Help(text)) => Ok(text.contains("Usage: gr_desk ")),
        _ => Ok(false),
    }
}

fn asks_for_version(alloc: Global, words: &str) -> Result<bool, AllocError> {
    let words = words_of(alloc, words)?;
    match read_line(alloc, words.as_slice()) {
        Err(NoLine::Help(text)) => Ok(text.as_str() == VERSION),
        _ => Ok(false),
    }
}

fn are_wrong(alloc: Global, words: &str) -> Result<bool, AllocError> {
    let words = words_of(alloc, words)?;
    match read_line(alloc, words.as_slice()) {
        Err(NoLine::Words(text)) => Ok(text.starts_with("error: ")),
        _ => Ok(false),
    }
}
