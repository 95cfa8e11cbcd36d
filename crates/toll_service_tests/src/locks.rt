//! A path whose file and lock are known. It shows that a path can meet the clauses of `LockPlace`, and which lock is
//! taken there.
ghost use Rattle.std.specs.Prelude.{◌≡◌, ◌≢◌, ◌⊎◌, None, Some, IfErr, IfOk};
ghost use Rattle.toll_files.specs.declared.office_fault.OfficeFault.{OfficeFault};

use std::io;
use std::io::ErrorKind;
use std::test::Fail;
use toll_files::{LockFile, LockPlace, OfficeFault};

/// The number of the file at a path, if one can be opened, and of that whose lock another program has.
#[derive(Clone, Copy)]
struct KnownPlace {
    file: Option<u64>,
    taken: Option<u64>,
}

/// A lock file that is open.
#[derive(Clone, Copy)]
struct NumberedFile {
    number: u64,
}

/// The lock of such a file.
#[derive(Clone, Copy)]
struct NumberedLock {
    number: u64,
}

impl LockPlace for KnownPlace {
    type Open = NumberedFile;

    type Held = NumberedLock;

    ghost is_shut = { λ place. place.file ≡ None };

    ghost is_opened = { λ place file. place.file ≡ Some file.number };

    ghost is_taken = { λ place file. place.taken ≡ Some file.number };

    ghost is_lock_of = { λ file lock. lock.number ≡ file.number };

    ghost is_at = { λ place lock. place.file ≡ Some lock.number };

    ghost is_replaced = { λ place lock. place.file ≢ Some lock.number };

    fn open(&self) -> io::Result<NumberedFile> {
        match self.file {
            Some(number) => Ok(NumberedFile { number }),
            None => Err(ErrorKind::PermissionDenied.into()),
        }
    }

    fn try_lock(&self, file: NumberedFile) -> Option<NumberedLock> {
        if self.taken == Some(file.number) {
            return None;
        }
        Some(NumberedLock {
            number: file.number,
        })
    }

    fn has(&self, lock: &NumberedLock) -> bool {
        self.file == Some(lock.number)
    }
}

// The number of the file whose lock is taken at the place, by a lock file that kept one open. The clauses follow from
// those of the lock file.
fn locked_at(kept: u64, place: &KnownPlace) -> Result<u64, OfficeFault>
    ensures at { IfOk result (λ number. place.now.file ≡ Some number) }
    ensures refused { IfErr result (λ fault. (fault ≡ OfficeFault.Locked) × ((place.now.file ≡ None) ⊎ (place.now.taken ≡ place.now.file))) }
{
    let mut lock = LockFile::new();
    lock.keep(Some(NumberedFile { number: kept }));
    Ok(lock.lock(place)?.number)
}

#[test]
fn the_lock_is_taken_of_the_file_at_the_path(rt: HostRuntime) -> Result<(), Fail> {
    let file = Some(1);
    for kept in 1..3 {
        let taken = Some(2);
        assert!(rt; locked_at(kept, &KnownPlace { file, taken }) == Ok(1));
        let taken = Some(1);
        assert!(rt; locked_at(kept, &KnownPlace { file, taken }) == Err(OfficeFault::Locked));
        let place = KnownPlace { file: None, taken };
        assert!(rt; locked_at(kept, &place) == Err(OfficeFault::Locked));
    }
    Ok(())
}
