//! The machine's clock.
use std::rt::Clock;
use std::time::SystemTime;

/// The moment by the machine's clock, in seconds since 1970-01-01T00:00:00Z; 0 where it fails or
/// stands before that. No command may be dated at 0: each is refused as `BadMoment`, and a request
/// for a sheet looks at no moment. So without a clock nothing is done, and what is shown is shown.
pub fn seconds_since_1970(rt: &impl Clock) -> u64 {
    let Ok(now) = SystemTime::now(rt) else {
        return 0;
    };
    match now.duration_since(SystemTime::UNIX_EPOCH) {
        Ok(since) => since.as_secs(),
        Err(_) => 0,
    }
}
