// A wait for a descriptor that is not ready.
use std::thread;
use std::time::Duration;

// Waits for a millisecond.
pub(crate) fn pause(rt: &HostRuntime) {
    thread::sleep(rt, Duration::from_millis(1));
}
