//! The system's clock.
use irc_moments::ClockTime;
use libc::CLOCK_MONOTONIC;
use libc::types::timespec;

/// What the clock tells that is never set, if it can be read.
pub(crate) fn clock_time() -> Option<ClockTime> {
    let mut time = timespec {
        tv_sec: 0,
        tv_nsec: 0,
    };
    if libc::clock_gettime(CLOCK_MONOTONIC, &mut time) != 0 {
        return None;
    }
    Some(ClockTime {
        seconds: time.tv_sec,
        nanoseconds: time.tv_nsec,
    })
}
