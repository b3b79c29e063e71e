// A short wait, for a call of the operating system that would block.
use std::thread::sleep;
use std::time::Duration;

// How long the wait is, in nanoseconds: a millisecond.
const PAUSE: u64 = 1000000;

// Waits so long.
pub fn pause(rt: &HostRuntime) {
    sleep(rt, Duration::from_nanos(PAUSE))
}
