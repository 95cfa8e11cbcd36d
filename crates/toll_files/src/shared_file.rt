//! A file of `sqlite` that other programs may use while it stays open.
use crate::file_id::FileId;
use os::RangeLock;
use std::io::ErrorKind;
use std::{fs, io};

/// The first byte that `sqlite` locks in each of its files, and the number of bytes.
const LOCKED_FROM: u64 = 1 << 30;

const LOCKED_BYTES: u64 = 512;

/// How many descriptors are searched for that of a file. Each connection of a server takes one descriptor.
const MOST_DESCRIPTORS: i32 = 1024;

/// A file that `sqlite` has open and locked.
#[derive(Drop)]
pub struct SharedFile {
    descriptor: i32,
}

impl SharedFile {
    /// The file at the path, which this process has open and locked. An `Err` if no descriptor of the process is
    /// found that can lock it, or if there is no memory to search for it.
    pub fn of(rt: &HostRuntime, path: &str) -> io::Result<Self> {
        let descriptor = descriptor_of(rt, path)?;
        Ok(SharedFile { descriptor })
    }

    /// Unlocks the file for other programs. An `Err` if the system refuses.
    pub fn unlock(self) -> io::Result<UnlockedFile> {
        let SharedFile { descriptor } = self;
        set_lock(descriptor, RangeLock::Unlock)?;
        Ok(UnlockedFile { descriptor })
    }
}

/// A file that `sqlite` has open, and that is unlocked for other programs. Only [`UnlockedFile::lock`] makes it one
/// that may be used.
#[derive(Drop)]
pub struct UnlockedFile {
    descriptor: i32,
}

impl UnlockedFile {
    /// Locks the file again without waiting. An `Err` if another program has it, or if the system refuses.
    pub fn lock(self) -> io::Result<SharedFile> {
        let UnlockedFile { descriptor } = self;
        set_lock(descriptor, RangeLock::Exclusive)?;
        Ok(SharedFile { descriptor })
    }
}

fn set_lock(descriptor: i32, kind: RangeLock) -> io::Result<()> {
    if os::try_lock_range(descriptor, kind, LOCKED_FROM, LOCKED_BYTES) == 0 {
        Ok(())
    } else {
        Err(ErrorKind::WouldBlock.into())
    }
}

// The descriptor by which `sqlite` has the file open. Another descriptor of the file, such as one that the
// program was started with, can't lock what that one has locked.
fn descriptor_of(rt: &HostRuntime, path: &str) -> io::Result<i32> {
    let file = FileId::from(&fs::metadata(rt, path)?);
    for descriptor in 0..MOST_DESCRIPTORS {
        let link = format!(in rt.alloc(); "/proc/self/fd/{descriptor}")?;
        if let Ok(metadata) = fs::metadata(rt, link.as_str()) {
            if FileId::from(&metadata) == file
                && set_lock(descriptor, RangeLock::Exclusive).is_ok()
            {
                return Ok(descriptor);
            }
        }
    }
    Err(ErrorKind::NotFound.into())
}
