use std::thread::sleep;
use std::time::{Clock, Duration};

/// Leaves a standard stream alone for a millisecond that gave or took nothing at once.
pub(crate) fn pause(clock: &impl Clock) {
    sleep(clock, Duration::from_millis(1))
}
