// The machine's clock.
#![tactic(auto)]

use std::rt::Clock;

// A moment of the machine's clock: seconds, and the nanoseconds behind them, as the public `instant_of` takes them.
#[derive(Clone, Copy, Debug, PartialEq, Eq)]
pub struct Timespec {
    pub tv_sec: i64,
    pub tv_nsec: i64,
}

// What the machine's monotonic clock shows, if it can be read. Seconds that an i64 has no room for are the largest that it has.
pub fn machine_time(machine: &impl Clock) -> Option<Timespec> {
    let time = machine.monotonic().ok()?;
    Some(Timespec {
        tv_sec: i64::try_from(time.as_secs()).unwrap_or(i64::MAX),
        tv_nsec: i64::from(time.subsec_nanos()),
    })
}
