//! The identity of a file, whatever its path.
use std::fs::Metadata;
use std::os::unix::fs::MetadataExt;

/// The disk on which a file lies, and its place there.
#[derive(Clone, Copy, PartialEq, Eq)]
pub struct FileId {
    /// The number of the disk.
    pub device: u64,
    /// The number of the file on it.
    pub inode: u64,
}

impl From<&Metadata> for FileId {
    fn from(metadata: &Metadata) -> Self {
        FileId {
            device: metadata.dev(),
            inode: metadata.ino(),
        }
    }
}
