//! Doing one thing over an office that is opened for it alone.
ghost use Rattle.std.specs.Prelude.{IfErr, IfOk, OnOk};
ghost use Rattle.std.specs.Fn.{FnOnceReturnsAtMut};
ghost use Rattle.toll_service.specs.Doing.{IsDoneOver, IsRequestOver};
ghost use Rattle.toll_wire.specs.Steps.{IsAnswered};
ghost use Rattle.toll_service.specs.Openings.{IsOneOpened, IsOneRefused};

use crate::office_path::{KeepOpener, OfficePath};
use toll_files::OfficeFault;
use toll_keep::Keep;
use toll_wire::{Out, answer};

/// Takes the lock of the file, `FILE.lock`, without waiting, opens the office in it, does this over its keep,
/// closes the file, and then releases the lock. So no other program uses the file meanwhile. An `Err` if the lock
/// isn't taken or the office isn't opened: nothing was done then.
pub fn with_keep<K: Keep, O: KeepOpener<K>, T, F: FnOnce(&mut K) -> T + Drop>(
    office_path: &mut OfficePath<'_, O>,
    act: F,
) -> Result<T, OfficeFault>
    requires { F.IsAlwaysCallable act }
    ensures done { IfOk result (λ done. IsDoneOver O.is_opened (λ first last. FnOnceReturnsAtMut F.FnOnce act first done last)) }
    ensures once { OnOk result (IsOneOpened (O.openings office_path.old.opener) (O.openings office_path.new.opener)) }
    ensures refused { IfErr result (λ fault. IsOneRefused fault
        (O.openings office_path.old.opener) (O.openings office_path.new.opener)) }
{
    let opener = &mut office_path.opener;
    let lease = opener.lock(office_path.rt, office_path.path)?;
    let mut keep = opener.open(office_path.rt, office_path.path, &lease)?;
    let done = act(&mut keep);
    opener.close(keep, &lease);
    lease.release();
    Ok(done)
}

/// The answer to a request over the office at this path, as [`answer`] gives it. The answer is 503 if no
/// office is opened.
pub fn answer_once<K: Keep, O: KeepOpener<K>>(
    office_path: &mut OfficePath<'_, O>,
    request: &[u8],
) -> Out
    ensures { IsRequestOver K.meaning O.is_opened (O.openings office_path.old.opener) (O.openings office_path.new.opener) request.now result }
{
    let alloc = office_path.rt.alloc();
    let act = |keep: &mut K|
        ensures { IsAnswered K.meaning keep.old keep.new request.entry.now result }
    { answer(alloc, keep, request) };
    match with_keep(office_path, act) {
        Ok(reported) => reported,
        Err(_) => Out::Unavailable,
    }
}
