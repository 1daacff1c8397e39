//! Clocks that give what a test lays down.
ghost use Rattle.std.specs.Prelude.{Some};

use super::NEW_YEAR;
use gr_desk::watch::Watch;
use std::alloc::Global;
use std::cell::Cell;
use std::io;
use std::process::Abort;
use std::rt::Clock;
use std::time::Duration;

/// In the place of a moment: the clock fails.
pub(super) const FAILS: u64 = u64::MAX;

/// A clock that gives these moments, in seconds, one for each time that it is asked, and the last
/// of them from then on.
#[derive(Drop)]
pub(super) struct Listed<'a> {
    moments: &'a [u64],
    asked: Cell<u64>,
}

impl<'a> Listed<'a> {
    pub(super) fn new(moments: &'a [u64]) -> Self {
        Listed {
            moments,
            asked: Cell::new(0),
        }
    }

    /// How often it was asked.
    pub(super) fn asked(&self) -> u64 {
        self.asked.get()
    }

    fn next(&self) -> u64 {
        let asked = self.asked.get();
        self.asked.set(asked.saturating_add(1));
        match self.moments.get(asked as usize) {
            Some(moment) => *moment,
            None => self.moments.last().copied().unwrap_or(FAILS),
        }
    }
}

/// A moment as a clock gives it.
fn given_as(moment: u64) -> io::Result<Duration> {
    match moment {
        FAILS => Err(io::Error::from(io::ErrorKind::Other)),
        seconds => Ok(Duration::from_secs(seconds)),
    }
}

impl Clock for Listed<'_> {
    fn monotonic(&self) -> io::Result<Duration> {
        given_as(self.next())
    }

    fn since_1970(&self) -> io::Result<Duration> {
        Ok(Duration::from_secs(NEW_YEAR))
    }
}

/// The same, of which it is known what it gave.
#[derive(Drop)]
pub(super) struct Known<'a, A> {
    rt: &'a A,
    clock: Listed<'a>,
    gave: Vec<Option<Duration>>,
}

impl<'a, A: Abort> Known<'a, A> {
    pub(super) fn new(rt: &'a A, alloc: Global, moments: &'a [u64]) -> Self {
        Known {
            rt,
            clock: Listed::new(moments),
            gave: Vec::new(alloc),
        }
    }
}

impl<A: Abort> Watch for Known<'_, A> {
    ghost gave = { λ clock. Some clock.gave.items };

    fn ask(&mut self) -> io::Result<Duration> {
        let given = self.clock.monotonic();
        let moment = match &given {
            Ok(moment) => Some(*moment),
            Err(_) => None,
        };
        self.gave.push(moment).expect(self.rt, "room");
        given
    }
}

/// A clock that stands still until it is moved.
#[derive(Drop)]
pub(super) struct InHand {
    seconds: Cell<u64>,
}

impl InHand {
    pub(super) fn new() -> Self {
        InHand {
            seconds: Cell::new(0),
        }
    }

    pub(super) fn go_on(&self, seconds: u64) {
        self.seconds.set(self.seconds.get().saturating_add(seconds));
    }
}

impl Clock for InHand {
    fn monotonic(&self) -> io::Result<Duration> {
        Ok(Duration::from_secs(self.seconds.get()))
    }

    fn since_1970(&self) -> io::Result<Duration> {
        Ok(Duration::from_secs(NEW_YEAR))
    }
}
