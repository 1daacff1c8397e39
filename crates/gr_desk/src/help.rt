//! What `--help` says.

/// What the program is.
pub(crate) const PROGRAM: &str = "The voting desk of a Project Secretary, for general resolutions \
    by 4.2 and A.0 to A.5 of the Constitution for the Debian Project";

/// What stands after the subcommands.
pub(crate) const AFTER_PROGRAM: &str = "\
With no words at all the program answers one request from standard input with a new desk in memory.
`gr_desk --version` prints its version, that of its files, and the toolchain's, a line each.
FILE `:memory:` is a new desk in memory, for every subcommand but init and migrate. A desk is kept
in FILE and in the log FILE-wal beside it: keep and move the two together, and copy them by
`gr-desk backup`. A FILE that begins with `file:` is a file of that name, and no URI.

Exit statuses:
  0  done
  1  refused: one line says why, or the response of `once`
  2  the words are wrong
  3  a fault: one line says which, or the response of `once` with status 503
Lines of status 1, and what to do:
  refused N NAME     the rules forbid it, for example `refused 9 NoResolution`: see docs/rules.md
  refused 23 BadRoll K
                     the desk refuses record K of the roll file: mend it; nothing was done
  too large          the roll file has more than 1,048,576 bytes: import it in parts
  bad roll K         record K of the roll file is not of its form: mend it; nothing was done
Lines of status 3, and what to do:
  no file            there is no FILE: make one with `gr_desk init FILE`
  cannot read        the roll file cannot be read: see that it is there, and that you may read it
  cannot listen      the port is taken, or a connection could not be accepted: take another port
  lost               standard output or the request was cut off: see by `status` what stands
  fault F1 Memory    out of memory: free some, and try again
  fault F2 Store     the folder of FILE is not there, another process has FILE open, FILE or its
                     folder may not be read or written, the disk is full, FILE is no database, or
                     it has a second hard link: mend that, and try again. Or a page of FILE has a
                     wrong sum, for example after a bit flipped: go back to a copy
  fault F3 Closed    an earlier fault closed the desk: look at the disk, and start again
  fault F4 Damaged   the rows of the file are those of no valid desk: go back to a copy
  fault F5 TooNew    a later program wrote the file: use that one
  fault F6 NotADesk  it is empty, or another program's database: `gr_desk init FILE` makes a desk
  fault F7 TooOld    an earlier program wrote the file: `gr_desk migrate FILE` upgrades it
  fault F8 Occupied  a desk is there already, or a table with such a name: take another FILE

Example:
  gr_desk init --sums desk.db
  gr_desk import desk.db roll.csv
  gr_desk serve desk.db --port 8123 --count 100";

pub(crate) const INIT: &str = "Make a desk in FILE";

pub(crate) const AFTER_INIT: &str = "\
Makes FILE, with the log FILE-wal beside it, in a folder that is there, and prints `ok`. A new FILE
has the mode 0600, so that its owner alone may read it; the log has the mode of FILE. A database of
another program gets the tables of a desk besides its own.

With --sums each page of a new FILE ends in the sum of its bytes, so that each bit that flips in it
is reported as `fault F2 Store`, and never makes another desk of it. Every subcommand opens a FILE
with sums like one without, and keeps its kind. Stock SQLite may read a FILE with sums, and must not
write it, since it knows no such sums.

Exit statuses: 0 made; 2 wrong words; 3 a fault: `fault F2 Store` where the folder of FILE is not
there or may not be written, `fault F8 Occupied` where a desk is there, `no file` for `:memory:`,
`lost` where `ok` could not be written, or another one of FILE.

Example:
  gr_desk init --sums desk.db";

pub(crate) const ONCE: &str = "Answer one HTTP request from standard input";

pub(crate) const AFTER_ONCE: &str = "\
Reads one request from standard input, does what it asks with the desk of FILE, and writes the
response to standard output.

Exit statuses: 0 where the response has status 200; 1 for 400 to 413; 2 wrong words; 3 for 503, and
where the request or its response was cut off (`lost`), or FILE could not be opened.

Example:
  printf 'GET /roll HTTP/1.1\\r\\n\\r\\n' | gr_desk once desk.db";

pub(crate) const SERVE: &str = "Serve HTTP requests on 127.0.0.1";

pub(crate) const AFTER_SERVE: &str = "\
Prints `listening 127.0.0.1:P`, serves one connection after the other, with one request each, and
ends after the Nth. While it runs, no other process can open FILE. A request must be there within 5
seconds, and its response must be taken within 5 more. Otherwise the connection is lost, and the
next one is served. `serve` may be ended earlier, for example by Ctrl-C: what was answered stands,
and is in FILE with its log.

Exit statuses: 0 where N connections were taken, lost ones among them; 2 wrong words; 3 a fault:
`no file`, `cannot listen`, `lost` where the first line could not be written, `fault F3 Closed`
after the response of a fault that closed the desk, or one of FILE or of memory.

Example:
  gr_desk serve desk.db --port 8123 --count 100
  curl http://127.0.0.1:8123/roll";

pub(crate) const IMPORT: &str = "Import the roll file CSV";

pub(crate) const AFTER_IMPORT: &str = "\
CSV has a first line `login,name,status` and a line for each developer, whose status is `current` or
`retired`; it has at most 1,048,576 bytes. Prints what was done, for example
`ok 1 added 2 changed 0 same 0`.

Records are counted from the first line on, and empty lines are none. `bad roll K` says that record
K is not of its form: it has not three fields in UTF-8, or it is the first and not the line above.
`refused 23 BadRoll K` says that the desk refuses record K: its login or name is not well formed,
its status is another word, or an earlier record has its login.

Exit statuses: 0 imported; 1 refused, `too large` or `bad roll K`, and nothing was done; 2 wrong
words; 3 a fault: `no file`, `cannot read`, `lost` where it was done and could not be said, or one
of FILE.

Example:
  gr_desk import desk.db roll.csv";

pub(crate) const ROLL: &str = "Print the roll of the developers";

pub(crate) const AFTER_ROLL: &str = "\
Exit statuses: 0 printed; 2 wrong words; 3 `no file`, `lost`, or a fault of FILE.

Example:
  gr_desk roll desk.db";

pub(crate) const STATUS: &str = "Print the status of resolution R";

pub(crate) const AFTER_STATUS: &str = "\
Exit statuses: 0 printed; 1 refused; 2 wrong words; 3 `no file`, `lost`, or a fault of FILE.

Example:
  gr_desk status desk.db 1";

pub(crate) const TALLY: &str = "Print the tally of resolution R, once its vote is closed";

pub(crate) const AFTER_TALLY: &str = "\
Exit statuses: 0 printed; 1 refused, for example `refused 24 NotRevealed` before the close; 2 wrong
words; 3 `no file`, `lost`, or a fault of FILE.

Example:
  gr_desk tally desk.db 1";

pub(crate) const RESULT: &str = "Print the result of resolution R, once its vote is closed";

pub(crate) const AFTER_RESULT: &str = "\
Exit statuses: 0 printed; 1 refused, for example `refused 24 NotRevealed` before the close; 2 wrong
words; 3 `no file`, `lost`, or a fault of FILE.

Example:
  gr_desk result desk.db 1";

pub(crate) const MIGRATE: &str = "Upgrade FILE to version 2, that of this program";

pub(crate) const AFTER_MIGRATE: &str = "\
A desk of version 1 is upgraded to version 2, and one of version 2 stays as it is: `ok schema 2` is
printed for both. It is done wholly or not at all: after a fault or a crash, run it again. For each
ballot that is there one vote is counted, since version 1 did not count those that were replaced.
Programs of version 1 no longer take the file, so make a copy first, by `gr-desk backup`.

Exit statuses: 0 done; 2 wrong words; 3 `no file`, also for `:memory:`, `lost`, `fault F8 Occupied`
where something else has the name `ballot2`, or another fault of FILE.

Example:
  gr_desk migrate desk.db";

pub(crate) const FILE: &str = "The file that the desk is kept in, with its log FILE-wal beside it";

pub(crate) const SUMS: &str =
    "End each page of a new FILE in its sum, so that a flipped bit is reported";

pub(crate) const CSV: &str = "The roll file";

// The texts of numbers: limits.rt has what the words are held to.

pub(crate) const NUMBER: &str = "The number of the resolution, 1 to 999999999";

pub(crate) const PORT: &str = "The port on 127.0.0.1, 1 to 65535";

pub(crate) const COUNT: &str = "How many connections to serve, 1 to 1000000";

pub(crate) const AT: &str =
    "The moment of what is done, 0 to 9999999999, in seconds since 1970 UTC [default: the clock's]";
