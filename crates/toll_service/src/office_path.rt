//! The place of an office in a file.
ghost use Rattle.std.specs.Prelude.{◌≡◌, ⊤, Bool, Option, None, Result, option_map, IfOk, IfSome};
ghost use Rattle.toll_base.specs.Bytes.{Bytes};
ghost use Rattle.toll_files.specs.declared.file_stamps.LeftFiles.{LeftFiles};
ghost use Rattle.toll_files.specs.declared.office_fault.OfficeFault.{OfficeFault};
ghost use Rattle.toll_service.specs.Openings.{Openings, after_lock, after_opening};

use toll_base::Name;
use toll_files::{Lease, LeftFiles, OfficeFault};
use toll_keep::Keep;

/// Opens the keep in a file, looks at the file and closes it, each under the lease of the file's lock.
pub trait KeepOpener<K: Keep>: Drop {
    // The keep was opened, and has been asked nothing.
    ghost is_opened: { K → Type 0 };

    // How many keeps it has opened, and for which faults opening or locking was refused, if that is known.
    ghost openings: { Self → Option Openings } = { λ _. None };

    // Files that had been left so were looked at, and this was found, if that is known.
    ghost is_found: { LeftFiles → Result Bool OfficeFault → Type 0 } = { λ left found. ⊤ };

    // The keep met damage in this owner's rows.
    ghost has_damaged: { K → Bytes → Type 0 } = { λ keep owner. ⊥ };

    /// Takes the lock of the file, or fails, as [`take_lock`](toll_files::take_lock) does.
    fn lock(&mut self, rt: &HostRuntime, path: &str) -> Result<Lease, OfficeFault>
        ensures { openings self.new ≡ option_map (after_lock result) (openings self.old) };

    /// Releases the lock, and may keep its file open for the next lease.
    fn unlock(&mut self, lease: Lease)
        ensures { openings self.new ≡ openings self.old }
    {
        lease.release();
    }

    /// Looks whether no other program has changed the files since they were left so, as
    /// [`LeftFiles::is_unchanged`] says. NotOurs if committed changes are gone.
    fn is_unchanged(
        &mut self,
        rt: &HostRuntime,
        path: &str,
        lease: &Lease,
        left: &LeftFiles,
    ) -> Result<bool, OfficeFault>
        ensures openings { openings self.new ≡ openings self.old }
        ensures found { is_found left.now result };

    /// Opens the keep in the file. An `Err` if it can't be opened.
    fn open(&mut self, rt: &HostRuntime, path: &str, lease: &Lease) -> Result<K, OfficeFault>
        ensures opened { IfOk result is_opened }
        ensures counted { openings self.new ≡ option_map (after_opening result) (openings self.old) };

    /// The owner in whose rows this keep met damage. `None` if it met none, or doesn't know the owner.
    fn damaged_owner(&self, keep: &K) -> Option<Name>
        ensures { IfSome result (has_damaged keep.now) }
    {
        let _ = keep;
        None
    }

    /// Closes the file. All answered changes are in it even if the closing meets a fault.
    fn close(&mut self, keep: K, lease: &Lease)
        ensures { openings self.new ≡ openings self.old };
}

/// The file of an office, and its opener.
#[derive(Drop)]
pub struct OfficePath<'a, O> {
    pub rt: &'a HostRuntime,
    pub path: &'a str,
    pub opener: O,
}
