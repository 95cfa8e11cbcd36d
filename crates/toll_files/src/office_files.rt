//! The files of an office, as they are looked at.
ghost use Rattle.std.proofs.Props.{props};
ghost use Rattle.std.specs.Prelude.{◌≡◌, ℕ, List, [], length, Option, None, Some, IfOk, IfSome, IsOk, IsOkAnd, MatchOption};
ghost use Rattle.toll_files.specs.LogEnds.{IsFilled};
ghost use Rattle.toll_files.specs.declared.file_stamps.FileStamps.{FileStamps};
ghost use Rattle.toll_files.specs.declared.file_stamps.Stamp.{Stamp};

use crate::file_stamps::{FileStamps, Stamp};
use crate::lock::Lease;
use crate::log_end::ReadAt;
use std::fs::File;
use std::io;
use std::io::ErrorKind;
use std::os::unix::fs::FileExt;

/// A log that stays open to be read.
pub trait OpenedLog {
    // Its stamp now, and its bytes, if they are known.
    ghost stamped: { Self → Option Stamp } = { λ _. None };

    ghost content: { Self → Option (List ℕ) } = { λ _. None };

    // Its metadata and its bytes can be read.
    ghost is_readable: { Self → Type 0 } = { λ _. ⊥ };

    /// Its stamp now, whose length is that of its bytes. An `Err` if its metadata can't be read.
    fn stamp(&self) -> io::Result<Stamp>
        ensures known { IfOk result (λ stamp. IfSome (stamped self.now) (λ now. stamp ≡ now)) }
        ensures whole { IfOk result (λ stamp. IfSome (content self.now) (λ bytes. stamp.bytes ≡ length bytes)) }
        ensures readable { is_readable self.now → IsOk result };

    /// Fills the buffer with the bytes from this place on. Returns false if the file ends before. An `Err` if the
    /// bytes can't be read.
    fn fill_at(&self, at: u64, buffer: &mut [u8]) -> io::Result<bool>
        ensures filled { IfOk result (λ filled. IfSome (content self.now) (λ bytes. IsFilled bytes at filled buffer.new)) }
        ensures readable { is_readable self.now → IsOk result };
}

/// The files of an office: FILE and its log.
pub trait OfficeFiles {
    type Log: OpenedLog + Drop;

    // The stamps of the files and the bytes of the log, none if it isn't there, if they are known.
    ghost known: { Self → Option (FileStamps × List ℕ) } = { λ _. None };

    // Their metadata and the log can be read.
    ghost are_readable: { Self → Type 0 } = { λ _. ⊥ };

    /// The stamps of the files. An `Err` if they can't be read.
    fn stamps(&self, lease: &Lease) -> io::Result<FileStamps>
        ensures known { IfOk result (λ stamps. IfSome (known self.now) (λ files. stamps ≡ files.0)) }
        ensures readable { are_readable self.now → IsOk result };

    /// Opens the log. `None` if it isn't there, an `Err` if it can't be opened.
    fn log(&self) -> io::Result<Option<Self::Log>>
        ensures readable { are_readable self.now → IsOkAnd result (λ log. IfSome log Self.Log.is_readable) }
        ensures known { IfOk result (λ log. IfSome (known self.now) (λ files. MatchOption log (files.1 ≡ []) (λ log. Self.Log.content log ≡ Some files.1))) };
}

/// An open log, of which only the bytes are read that it had when it was stamped.
pub(crate) struct StampedLog<'a, L: OpenedLog> {
    log: &'a L,
    pub(crate) stamp: Stamp,
    ghost whole: { IfSome (L.content log.now) (λ bytes. stamp.bytes ≡ length bytes) } by { Prim.hlevel props },
}

impl<L: OpenedLog> Drop for StampedLog<'_, L> {
    fn drop(self) {
        let StampedLog { log: _, stamp: _ } = self;
    }
}

impl<'a, L: OpenedLog> StampedLog<'a, L> {
    /// The log, with its stamp of now. An `Err` if its metadata can't be read.
    pub(crate) fn of(log: &'a L) -> io::Result<Self>
        ensures log { IfOk result (λ stamped. stamped.log.now ≡ log.now) }
        ensures known { IfOk result (λ stamped. IfSome (L.stamped log.now) (λ now. stamped.stamp ≡ now)) }
        ensures readable { L.is_readable log.now → IsOk result }
    {
        let stamp = log.stamp()?;
        Ok(StampedLog { log, stamp })
    }
}

impl<L: OpenedLog> ReadAt for StampedLog<'_, L> {
    ghost content = { λ log. L.content log.log.now };

    ghost is_readable = { λ log. L.is_readable log.log.now };

    fn len(&self) -> u64 {
        self.stamp.bytes
    }

    fn fill_at(&self, at: u64, buffer: &mut [u8]) -> io::Result<bool> {
        self.log.fill_at(at, buffer)
    }
}

/// The log of an office at a path, which stays open.
#[derive(Drop)]
pub struct OpenLog {
    file: File,
}

impl OpenLog {
    /// Opens the log at this path. An `Err` if it isn't there or can't be opened.
    pub fn open(rt: &HostRuntime, log: &str) -> io::Result<Self> {
        let file = File::open(rt, log)?;
        Ok(OpenLog { file })
    }
}

impl OpenedLog for OpenLog {
    fn stamp(&self) -> io::Result<Stamp> {
        Ok(Stamp::from(&self.file.metadata()?))
    }

    fn fill_at(&self, at: u64, buffer: &mut [u8]) -> io::Result<bool> {
        match self.file.read_exact_at(buffer, at) {
            Ok(()) => Ok(true),
            Err(fault) if fault.kind() == ErrorKind::UnexpectedEof => Ok(false),
            Err(fault) => Err(fault),
        }
    }
}

/// The files of the office at a path.
#[derive(Clone, Copy)]
pub struct PathFiles<'a> {
    pub rt: &'a HostRuntime,
    pub path: &'a str,
}

impl OfficeFiles for PathFiles<'_> {
    type Log = OpenLog;

    fn stamps(&self, _lease: &Lease) -> io::Result<FileStamps> {
        let log = log_path(self.rt, self.path)?;
        Ok(FileStamps {
            database: Stamp::of(self.rt, self.path)?,
            log: Stamp::of(self.rt, log.as_str())?,
        })
    }

    fn log(&self) -> io::Result<Option<OpenLog>> {
        let log = log_path(self.rt, self.path)?;
        match OpenLog::open(self.rt, log.as_str()) {
            Ok(log) => Ok(Some(log)),
            Err(fault) if fault.kind() == ErrorKind::NotFound => Ok(None),
            Err(fault) => Err(fault),
        }
    }
}

// The path of the log of the office at this path. An `Err` if there is no memory for it.
fn log_path(rt: &HostRuntime, path: &str) -> io::Result<String> {
    Ok(format!(in rt.alloc(); "{path}-wal")?)
}
