//! How many connections a server may have open.
ghost use Rattle.std.specs.Prelude.{◌≤◌};

use std::fs;
use toll_server::MOST_OPEN_CONNECTIONS;

/// How many descriptors the program has open beside its connections, at most: the standard streams, the poll,
/// the two listeners, the office's lock, file and folder, its log twice, a connection that is about to be closed,
/// and a dozen that it may have inherited.
const OWN_DESCRIPTORS: usize = 24;

/// How many connections may be open at once, so that the process has descriptors for everything else that it
/// opens. That is [`MOST_OPEN_CONNECTIONS`] if the limit of its descriptors can't be read.
pub fn most_connections(rt: &HostRuntime) -> usize
    ensures least { 1 ≤ result }
    ensures most { result ≤ MOST_OPEN_CONNECTIONS }
{
    match fs::read_to_string(rt, "/proc/self/limits") {
        Ok(limits) => connections_within(limits.as_str()),
        Err(_) => MOST_OPEN_CONNECTIONS,
    }
}

/// How many connections may be open within these limits of a process, as `/proc/self/limits` has them: 24 fewer
/// than its soft limit of descriptors, but at least 1 and at most [`MOST_OPEN_CONNECTIONS`]. The latter also if no
/// such limit is there.
pub fn connections_within(limits: &str) -> usize
    ensures least { 1 ≤ result }
    ensures most { result ≤ MOST_OPEN_CONNECTIONS }
{
    match open_files(limits) {
        Some(most) => most
            .saturating_sub(OWN_DESCRIPTORS)
            .clamp(1, MOST_OPEN_CONNECTIONS),
        None => MOST_OPEN_CONNECTIONS,
    }
}

// The soft limit of open files, if there is one.
fn open_files(limits: &str) -> Option<usize> {
    let mut lines = limits.lines();
    let line = lines.find_map(|line| line.strip_prefix("Max open files"))?;
    line.split_whitespace().next()?.parse().ok()
}
