//! Stops at each call of each file, and what they leave.
use crate::stop::disks::{
    Disks, Stopping, connect, cut_power, disconnect, fused_files, has_stopped, left_files,
};
use crate::stop::runs::{Run, RunResult};
use sqlite::Files;
use sqlite_disk::Disk;
use std::alloc::Global;
use std::test::Fail;

// More calls of a file than a run makes.
const MANY_CALLS: u64 = 10_000;

/// Lets each of the two files of the office in turn stop at its first call, its second, and so on, until the
/// run meets no stop. Fails if a stop leaves neither the office from before the run nor the one from after
/// it, or leaves the one from before although the run was reported as done.
pub fn check_stops<R: Run>(alloc: Global, run: &R, files: &Disks) -> Result<(), Fail> {
    check_stops_of(alloc, run, files, Stopping::Log)?;
    check_stops_of(alloc, run, files, Stopping::Database)
}

fn check_stops_of<R: Run>(
    alloc: Global,
    run: &R,
    files: &Disks,
    stopping: Stopping,
) -> Result<(), Fail> {
    for calls in 0..MANY_CALLS {
        let fused = fused_files(alloc, files, stopping, calls)?;
        if !stops(alloc, run, fused)? {
            return Ok(());
        }
    }
    Err("each run meets a stop".into())
}

// Whether the run over these files meets a stop.
fn stops<R: Run>(alloc: Global, run: &R, files: Disks) -> Result<bool, Fail> {
    let (mut left, reported) = go_over(alloc, run, files);
    let stopped = has_stopped(&mut left.log) || has_stopped(&mut left.db);
    if reported == RunResult::Other || (reported == RunResult::Fault && !stopped) {
        return Err("neither done nor stopped".into());
    }
    check_left(alloc, run, &left, reported)?;
    cut_power(&mut left);
    check_left(alloc, run, &left, reported)?;
    Ok(stopped)
}

// The run over these files, and the files that it leaves.
fn go_over<R: Run, D: Disk + Drop>(
    alloc: Global,
    run: &R,
    files: Files<D>,
) -> (Files<D>, RunResult) {
    match connect(alloc, files) {
        Ok(conn) => {
            let (conn, reported) = run.go(alloc, conn);
            (disconnect(conn), reported)
        }
        Err(files) => (files, RunResult::Fault),
    }
}

// Fails if the office in these files is not one that may be left.
fn check_left<R: Run>(
    alloc: Global,
    run: &R,
    left: &Disks,
    reported: RunResult,
) -> Result<(), Fail> {
    let is_after = match connect(alloc, left_files(alloc, left)?) {
        Ok(conn) => run.is_after(alloc, conn)?,
        Err(_) => return Err("the files can't be opened again".into()),
    };
    if reported == RunResult::Done && !is_after {
        return Err("what was told as done is lost".into());
    }
    Ok(())
}
