//! An office that a failed disk has closed: what is wrong with a request is told as ever, and all
//! else is answered by one fault.
use super::follow_over;
use sqlite::{Connection, FileStore, Files, Options};
use sqlite_disk::{Disk, Fuse, Memory};
use std::alloc::Global;
use std::process::Abort;
use std::test::Fail;

/// How many calls on the log a new office has made.
const NEW: u64 = 23;

#[test]
fn a_closed_office_tells_it(rt: HostRuntime) -> Result<(), Fail> {
    for steps in [PROBLEMS, SHEETS, COMMANDS] {
        let steps = format!(in rt.alloc(); "{CLOSING}{steps}")?;
        follow_on_failing(&rt, rt.alloc(), steps.as_str())?;
    }
    Ok(())
}

/// Has a new office follow these steps over two files in memory, of which that of the log lets no
/// further call pass.
fn follow_on_failing(rt: &impl Abort, alloc: Global, steps: &str) -> Result<(), Fail> {
    let files = Files {
        log: Fuse::new(Memory::new(alloc), NEW),
        db: Fuse::new(Memory::new(alloc), u64::MAX),
    };
    follow_in(rt, alloc, files, steps)
}

/// Has a new office follow these steps over these files.
fn follow_in<D: Disk + Drop>(
    rt: &impl Abort,
    alloc: Global,
    files: Files<D>,
    steps: &str,
) -> Result<(), Fail> {
    match opened(alloc, files) {
        Ok(conn) => follow_over(rt, alloc, conn, steps),
        Err(fail) => Err(fail),
    }
}

/// The database in these files.
fn opened<D: Disk + Drop>(
    alloc: Global,
    files: Files<D>,
) -> Result<Connection<FileStore<D>>, Fail> {
    if !files.may_be_used() {
        return Err("a sync had failed".into());
    }
    match Connection::open_files(alloc, files, Options::new(7)) {
        Ok(conn) => Ok(conn),
        Err(_) => Err("no database".into()),
    }
}

/// The request at which the disk fails, and which closes the office. Its command is accepted and
/// cannot be kept.
const CLOSING: &str = "
    NEW_YEAR post /developers login=alice&name=Alice+Adams&status=current \
        -> 503 Service Unavailable|fault F2 Store␊";

/// Requests with a problem, of each status that tells one.
const PROBLEMS: &str = "
    NEW_YEAR GET /roll HTTP/1.1 -> 400 Bad Request|bad head␊
    NEW_YEAR GET /roll HTTP/1.1⏎Content-Length: -1⏎⏎ -> 400 Bad Request|bad length␊
    NEW_YEAR GET /roll HTTP/1.1⏎Content-Length: 1048577⏎⏎ -> 413 Payload Too Large|too large␊
    NEW_YEAR GET /roll HTTP/1.1⏎Content-Length: 3⏎⏎ab -> 400 Bad Request|short body␊
    NEW_YEAR get /rolls -> 404 Not Found|not found␊
    NEW_YEAR get /status/01 -> 404 Not Found|not found␊
    NEW_YEAR post /roll -> 405 Method Not Allowed⏎Allow: GET|method not allowed␊
    NEW_YEAR get /resolutions/1/close -> 405 Method Not Allowed⏎Allow: POST|method not allowed␊
    NEW_YEAR post /developers login=alice&status=current -> 400 Bad Request|bad field name␊
    NEW_YEAR post /resolutions/1/vary days=x -> 400 Bad Request|bad field days␊
    NEW_YEAR post /import login,name⏎ -> 400 Bad Request|bad roll 1␊
    NEW_YEAR post /import login,name,status⏎alice⏎ -> 400 Bad Request|bad roll 2␊
    ";

/// Requests for sheets, whether there is a resolution or not.
const SHEETS: &str = "
    NEW_YEAR get /roll -> 503 Service Unavailable|fault F3 Closed␊
    0 get /roll -> 503 Service Unavailable|fault F3 Closed␊
    NEW_YEAR get /status/0 -> 503 Service Unavailable|fault F3 Closed␊
    NEW_YEAR get /status/1 -> 503 Service Unavailable|fault F3 Closed␊
    NEW_YEAR get /tally/1 -> 503 Service Unavailable|fault F3 Closed␊
    NEW_YEAR get /result/1 -> 503 Service Unavailable|fault F3 Closed␊
    ";

/// Requests for commands, of which an open office would accept some and refuse others.
const COMMANDS: &str = "
    NEW_YEAR post /developers login=alice&name=A&status=current \
        -> 503 Service Unavailable|fault F3 Closed␊
    0 post /developers login=ALICE&name=&status=current \
        -> 503 Service Unavailable|fault F3 Closed␊
    NEW_YEAR post /import login,name,status⏎ -> 503 Service Unavailable|fault F3 Closed␊
    NEW_YEAR post /resolutions author=@leader&summary=Red&text=a&ratio=1 \
        -> 503 Service Unavailable|fault F3 Closed␊
    NEW_YEAR post /resolutions author=@leader&summary=Red&text=a&ratio=10 \
        -> 503 Service Unavailable|fault F3 Closed␊
    NEW_YEAR post /resolutions/1/choice author=@leader&summary=Red&text=a&ratio=1 \
        -> 503 Service Unavailable|fault F3 Closed␊
    NEW_YEAR post /resolutions/1/sponsor choice=1&login=alice \
        -> 503 Service Unavailable|fault F3 Closed␊
    NEW_YEAR post /resolutions/1/unsponsor choice=1&login=alice \
        -> 503 Service Unavailable|fault F3 Closed␊
    NEW_YEAR post /resolutions/1/withdraw choice=1 -> 503 Service Unavailable|fault F3 Closed␊
    NEW_YEAR post /resolutions/1/adopt choice=1&author=@leader \
        -> 503 Service Unavailable|fault F3 Closed␊
    NEW_YEAR post /resolutions/1/amend choice=1&minor=0&summary=Red&text=a \
        -> 503 Service Unavailable|fault F3 Closed␊
    NEW_YEAR post /resolutions/1/vary days=0 -> 503 Service Unavailable|fault F3 Closed␊
    NEW_YEAR post /resolutions/1/call days=7 -> 503 Service Unavailable|fault F3 Closed␊
    NEW_YEAR post /resolutions/1/vote login=alice&ranks=12&token=tokenA01 \
        -> 503 Service Unavailable|fault F3 Closed␊
    NEW_YEAR post /resolutions/1/close -> 503 Service Unavailable|fault F3 Closed␊
    NEW_YEAR post /resolutions/1/cast place=1 -> 503 Service Unavailable|fault F3 Closed␊
    ";
