//! The path of an office's file, behind a symbolic link.
use std::fs;
use toll_files::OfficeFault;

/// The path of the office's file without a symbolic link at its end. The names of all files beside the
/// office's are made from this path. Disk for a link that can't be followed to a file, Memory if there is none for the
/// path.
pub fn resolved(rt: &HostRuntime, file: &str) -> Result<String, OfficeFault> {
    match fs::symlink_metadata(rt, file) {
        Ok(found) if found.file_type().is_symlink() => match fs::canonicalize(rt, file) {
            Ok(path) => Ok(path.into_string()),
            Err(_) => Err(OfficeFault::Disk),
        },
        _ => String::from_str(rt.alloc(), file).map_err(|_| OfficeFault::Memory),
    }
}
