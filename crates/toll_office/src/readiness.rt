//! Looking whether connections wait.
use libc::net::{POLLIN, poll};
use libc::types::pollfd;
use std::os::fd::RawFd;

/// No descriptor. The system ignores it.
const NO_DESCRIPTOR: RawFd = -1;

/// Whether connections wait at the listeners of these two descriptors, without accepting one. They count as waiting
/// if the system can't say it.
pub fn are_waiting(first: Option<RawFd>, second: Option<RawFd>) -> (bool, bool) {
    let mut listeners = [query_of(first), query_of(second)];
    if poll(&mut listeners, 0) < 0 {
        return (true, true);
    }
    (listeners[0].revents != 0, listeners[1].revents != 0)
}

fn query_of(descriptor: Option<RawFd>) -> pollfd {
    pollfd {
        fd: descriptor.unwrap_or(NO_DESCRIPTOR),
        events: POLLIN,
        revents: 0,
    }
}
