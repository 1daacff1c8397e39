//! The machine's clock.
use super::{NEW_YEAR, same};
use gr_desk::clock::seconds_since_1970;
use std::io::{self, ErrorKind};
use std::process::Abort;
use std::rt::Clock;
use std::test::Fail;
use std::time::{Duration, SystemTime};

#[test]
fn the_moment_is_that_of_the_clock(rt: HostRuntime) -> Result<(), Fail> {
    let before = system_seconds(&rt)?;
    let at = seconds_since_1970(&rt);
    let after = system_seconds(&rt)?;
    are_in_order(&rt, before, at);
    are_in_order(&rt, at, after);
    are_in_order(&rt, NEW_YEAR + 1, at);
    Ok(())
}

/// The seconds since 1970 that the system tells.
fn system_seconds(rt: &HostRuntime) -> Result<u64, Fail> {
    let span = SystemTime::now(rt)?.duration_since(SystemTime::UNIX_EPOCH)?;
    Ok(span.as_secs())
}

/// Wants a moment not to be before another one.
fn are_in_order(rt: &impl Abort, first: u64, second: u64) {
    assert!(rt; first <= second, "{second} is before {first}");
}

/// What a clock tells, in milliseconds, where it does not fail, and the moment that is made of it.
const MOMENTS: [(Option<u64>, u64); 4] = [
    (Some(NEW_YEAR * 1_000), NEW_YEAR),
    (Some(NEW_YEAR * 1_000 + 999), NEW_YEAR),
    (Some(0), 0),
    (None, 0),
];

/// A moment is the second that the clock is in, to the end of that second.
#[test]
fn a_moment_is_a_whole_second(rt: HostRuntime) {
    for (given, moment) in MOMENTS {
        same(&rt, seconds_since_1970(&Since(given)), moment, given);
    }
}

/// A clock that tells this time since 1970, or fails.
#[derive(Drop)]
struct Since(Option<u64>);

impl Clock for Since {
    fn monotonic(&self) -> io::Result<Duration> {
        Ok(Duration::ZERO)
    }

    fn since_1970(&self) -> io::Result<Duration> {
        match self.0 {
            Some(milliseconds) => Ok(Duration::from_millis(milliseconds)),
            None => Err(io::Error::from(ErrorKind::Other)),
        }
    }
}
