//! The files of an office: their lock, what other programs did to them, and the faults that an operator reads.
#![tactic(auto)]

mod fault_log;
mod file_id;
mod file_stamps;
mod lock;
mod log_end;
mod log_mark;
mod notes;
mod office_fault;
mod office_files;
mod shared_file;

pub use fault_log::{FaultLog, FaultNote, OperatorLines, ServingFault};
pub use file_id::FileId;
pub use file_stamps::{
    FileChange, FileStamps, FoundFiles, LeftFiles, Stamp, check_commit, check_mark,
};
pub use lock::{FILE_MODE, Lease, LockFile, LockPath, LockPlace, OpenLock, take_lock};
pub use log_end::{FoundEnd, LogEnd, ReadAt, end_of};
pub use log_mark::{LogMark, a_mark_is_read_back};
pub use notes::Notes;
pub use office_fault::OfficeFault;
pub use office_files::{OfficeFiles, OpenLog, OpenedLog, PathFiles};
pub use shared_file::{SharedFile, UnlockedFile};
