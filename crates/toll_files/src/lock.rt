//! The lock of an office's file.
ghost use Rattle.std.specs.Prelude.{◌≡◌, ⊤, IfErr, IfOk, MatchBool, MatchOption, OnErr};
ghost use Rattle.toll_files.specs.Locks.{IsLockRefused};

use crate::file_id::FileId;
use crate::file_stamps::LeftFiles;
use crate::log_mark::{LogMark, MARK_BYTES};
use crate::office_fault::OfficeFault;
use std::fs::{File, OpenOptions};
use std::os::unix::fs::{FileExt, OpenOptionsExt};
use std::{fs, io};

/// The mode of each file that is made for an office: only its user may read and write it.
pub const FILE_MODE: u32 = 0o600;

/// The lock of an office's file, while it is held. Only [`take_lock`] and [`LockFile::lock`] make one. What may be
/// done only under the lock takes it. Released or dropped, it leaves the lock to other programs.
#[derive(Drop)]
pub struct Lease {
    lock: OpenLock,
}

impl Lease {
    /// Releases the lock to other programs, and closes its file.
    pub fn release(self) {
        let _ = self.unlock();
    }

    /// Releases the lock to other programs. The file stays open, unless the lock can't be released without closing it.
    pub fn unlock(self) -> Option<OpenLock> {
        let Lease { lock } = self;
        match lock.file.unlock() {
            Ok(()) => Some(lock),
            Err(_) => None,
        }
    }

    /// The mark in the lock's file. `None` if it has none, or can't be read.
    pub fn mark(&self) -> Option<LogMark> {
        let mut bytes = [0; MARK_BYTES];
        match self.lock.file.read_exact_at(&mut bytes, 0) {
            Ok(()) => LogMark::from_bytes(&bytes),
            Err(_) => None,
        }
    }

    /// Marks the last commit of files that are left so, if it isn't the one that was marked when they were left as
    /// `marked` says. The mark is written without a sync. If it can't be written, the file has the mark before it, or
    /// none. A file that is no lock's, because it is longer than a mark, is left as it is.
    pub fn mark_end(&self, marked: &Option<LeftFiles>, left: &Option<LeftFiles>) {
        if !self.lock.takes_marks {
            return;
        }
        if let Some(mark) = LogMark::unwritten(marked, left) {
            let _ = self.lock.file.write_all_at(&mark.to_bytes(), 0);
        }
    }

    /// Takes the mark out of the lock's file. If that fails, the mark stays.
    pub fn clear_mark(&self) {
        if self.lock.takes_marks {
            let _ = self.lock.file.set_len(0);
        }
    }
}

/// Takes the lock of the file, `FILE.lock`, without waiting. Fails as [`LockFile::lock`] does, or with Memory if there is
/// none for the path.
pub fn take_lock(rt: &HostRuntime, path: &str) -> Result<Lease, OfficeFault> {
    LockFile::new().lock(&LockPath::of(rt, path)?)
}

/// The path of a lock's file. Other programs may take its lock, or put another file there.
pub trait LockPlace {
    /// A lock file that is open, and its lock while that is held.
    type Open: Drop;

    type Held: Drop;

    // The file at the path couldn't be opened.
    ghost is_shut: { Self → Type 0 };

    // This file was opened at the path. Another program has its lock.
    ghost is_opened: { Self → Self.Open → Type 0 };

    ghost is_taken: { Self → Self.Open → Type 0 };

    // This is the lock of the file.
    ghost is_lock_of: { Self.Open → Self.Held → Type 0 };

    // While this lock was held, its file was found at the path, or another one or none.
    ghost is_at: { Self → Self.Held → Type 0 };

    ghost is_replaced: { Self → Self.Held → Type 0 };

    /// Opens the file at the path. If there is none, one is made.
    fn open(&self) -> io::Result<Self::Open>
        ensures opened { IfOk result (is_opened self.now) }
        ensures shut { OnErr result (is_shut self.now) };

    /// Takes the lock of an open file without waiting. The file is closed if another program has the lock.
    fn try_lock(&self, file: Self::Open) -> Option<Self::Held>
        ensures { MatchOption result (is_taken self.now file) (is_lock_of file) };

    /// Whether the file of this lock is at the path now. Whoever finds another file there takes the lock of that one.
    fn has(&self, lock: &Self::Held) -> bool
        ensures { MatchBool result (is_at self.now lock.now) (is_replaced self.now lock.now) };
}

/// The file `FILE.lock`, which stays open between leases, so that the next lease needn't open it.
#[derive(Drop)]
pub struct LockFile<F = OpenLock> {
    open: Option<F>,
}

impl<F: Drop> LockFile<F> {
    /// A lock file that isn't open yet.
    pub fn new() -> Self {
        LockFile { open: None }
    }

    /// Keeps a file, whose lock was released, open for the next lease.
    pub fn keep(&mut self, file: Option<F>) {
        self.open = file;
    }

    /// Takes the lock without waiting. If another file is at the path by now, or none, the lock is that of the file
    /// that is opened or made there. Locked if another program has the lock, or if the file can't be opened or was
    /// replaced meanwhile.
    pub fn lock<P: LockPlace<Open = F>>(&mut self, place: &P) -> Result<P::Held, OfficeFault>
        ensures at { IfOk result (P.is_at place.now) }
        ensures refused { IfErr result (λ fault. (fault ≡ OfficeFault.Locked)
            × IsLockRefused (P.is_shut place.now) (P.is_opened place.now) (P.is_taken place.now) P.is_lock_of (P.is_replaced place.now)) }
    {
        if let Some(file) = self.open.take() {
            if let Some(lock) = place.try_lock(file) {
                if place.has(&lock) {
                    return Ok(lock);
                }
            }
        }
        let Ok(file) = place.open() else {
            return Err(OfficeFault::Locked);
        };
        match place.try_lock(file) {
            Some(lock) if place.has(&lock) => Ok(lock),
            _ => Err(OfficeFault::Locked),
        }
    }
}

/// The path of `FILE.lock`.
pub struct LockPath<'a> {
    rt: &'a HostRuntime,
    name: String,
}

impl Drop for LockPath<'_> {
    fn drop(self) {
        let LockPath { rt: _, name: _ } = self;
    }
}

impl<'a> LockPath<'a> {
    /// The path of the lock of the file at this path. Memory if there is none for it.
    pub fn of(rt: &'a HostRuntime, path: &str) -> Result<Self, OfficeFault> {
        match format!(in rt.alloc(); "{path}.lock") {
            Ok(name) => Ok(LockPath { rt, name }),
            Err(_) => Err(OfficeFault::Memory),
        }
    }
}

impl LockPlace for LockPath<'_> {
    type Open = OpenLock;

    type Held = Lease;

    ghost is_shut = { λ place. ⊤ };

    ghost is_opened = { λ place file. ⊤ };

    ghost is_taken = { λ place file. ⊤ };

    ghost is_lock_of = { λ file lock. ⊤ };

    ghost is_at = { λ place lock. ⊤ };

    ghost is_replaced = { λ place lock. ⊤ };

    fn open(&self) -> io::Result<OpenLock> {
        let file = OpenOptions::new()
            .read(true)
            .write(true)
            .create(true)
            .mode(FILE_MODE)
            .open(self.rt, self.name.as_str())?;
        let metadata = file.metadata()?;
        Ok(OpenLock {
            file,
            id: FileId::from(&metadata),
            takes_marks: metadata.is_file() && metadata.len() <= MARK_BYTES as u64,
        })
    }

    fn try_lock(&self, file: OpenLock) -> Option<Lease> {
        match file.file.try_lock() {
            Ok(()) => Some(Lease { lock: file }),
            Err(_) => None,
        }
    }

    fn has(&self, lock: &Lease) -> bool {
        matches!(fs::metadata(self.rt, self.name.as_str()), Ok(found) if FileId::from(&found) == lock.lock.id)
    }
}

/// A lock file that is open.
#[derive(Drop)]
pub struct OpenLock {
    file: File,
    id: FileId,
    takes_marks: bool,
}
