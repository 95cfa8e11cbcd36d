//! How a session has its office and its files between two turns.
ghost use Rattle.std.specs.Prelude.{◌≡◌, ◌⊎◌, ◌+◌, true, None, Some, option_map, Ok, IfErr, IfOk, IfSome, IsSome, OnErr, OnOk};
ghost use Rattle.toll_files.specs.FileChanges.{AreFound};
ghost use Rattle.toll_files.specs.OfficeFiles.{AreNoted};
ghost use Rattle.toll_service.specs.Damages.{KnowsNoMore, StaysWhere};
ghost use Rattle.toll_service.specs.Openings.{IsOneOpened, IsOneRefused, IsRefusedAfter, IsNoneOpened};
ghost use Rattle.toll_service.specs.Sessions.{AreAsLeft, AreCounted, IsAtHand, IsSessionIdle, IsLeftOpen, IsLockKept, IsFoundLost, IsWithheld, state_of_session};

use super::OfficeSession;
use crate::office_path::{KeepOpener, OfficePath};
use crate::open_office::{LeftOffice, OpenOffice};
use std::io;
use std::time::Instant;
use toll_files::{Lease, LeftFiles, Notes, OfficeFault, OfficeFiles, PathFiles};
use toll_keep::{Keep, KeepFault};

impl<K: Keep + Drop> OfficeSession<K> {
    // The office as it was left, or opened anew, and the lease under which it may be used. Fails if the lock isn't
    // taken, if committed changes are gone, or if the office isn't opened.
    pub(super) fn check_out<O: KeepOpener<K>>(
        &mut self,
        office_path: &mut OfficePath<'_, O>,
    ) -> Result<(OpenOffice<K>, Lease), OfficeFault>
        ensures ok { IfOk result (λ o. IsAtHand O.is_opened (AreAsLeft O.is_found self.old) (state_of_session self.old) (state_of_session self.new) o.0.keep) }
        ensures counted { OnOk result (AreCounted (state_of_session self.old) (state_of_session self.new)
            (O.openings office_path.old.opener) (O.openings office_path.new.opener)) }
        ensures err { OnErr result (IsSessionIdle (state_of_session self.old) (state_of_session self.new)) }
        ensures refused { IfErr result (λ fault. IsWithheld O.is_found fault self.old
            (O.openings office_path.old.opener) (O.openings office_path.new.opener)) }
        ensures imports { self.new.imports ≡ self.old.imports }
        ensures damage { OnOk result (StaysWhere (AreAsLeft O.is_found self.old) self.old.damage self.new.damage) }
        ensures stays { OnErr result (KnowsNoMore self.old.damage self.new.damage) }
        ensures files { self.new.left ≡ self.old.left }
        ensures lock { OnErr result (IsLockKept self.old → IsLockKept self.new) }
    {
        let (left, lease) = self.check_out_left(office_path)?;
        if let Some(opened) = left {
            return Ok((opened, lease));
        }
        match self.open(office_path, &lease) {
            Ok(opened) => Ok((opened, lease)),
            Err(fault) => {
                self.give_back(office_path, lease);
                Err(fault)
            }
        }
    }

    // The lease, and the office as it was left, if one was left open and no other program has changed it. If
    // another program has changed it, the known damage is forgotten. Fails if the lock isn't taken, or if committed
    // changes are gone.
    pub(super) fn check_out_left<O: KeepOpener<K>>(
        &mut self,
        office_path: &mut OfficePath<'_, O>,
    ) -> Result<(Option<OpenOffice<K>>, Lease), OfficeFault>
        ensures left { IfOk result (λ left. IfSome left.0 (λ o. ((state_of_session self.old).keep ≡ Some o.keep) × AreAsLeft O.is_found self.old)) }
        ensures ok { OnOk result (self.new.opened ≡ None) }
        ensures err { OnErr result (IsSessionIdle (state_of_session self.old) (state_of_session self.new)) }
        ensures lock { OnErr result (self.new.lock ≡ self.old.lock) }
        ensures refused { IfErr result (λ fault. IsOneRefused fault (O.openings office_path.old.opener) (O.openings office_path.new.opener)
            ⊎ IsFoundLost O.is_found fault self.old (O.openings office_path.old.opener) (O.openings office_path.new.opener)) }
        ensures unasked { OnOk result (IsNoneOpened (O.openings office_path.old.opener) (O.openings office_path.new.opener)) }
        ensures openings { self.new.openings ≡ self.old.openings }
        ensures imports { self.new.imports ≡ self.old.imports }
        ensures damage { OnOk result (StaysWhere (AreAsLeft O.is_found self.old) self.old.damage self.new.damage) }
        ensures stays { OnErr result (self.new.damage ≡ self.old.damage) }
        ensures files { self.new.left ≡ self.old.left }
    {
        if let Some(lease) = self.lock.take() {
            let opened = reacquired(self.opened.take(), &lease);
            return Ok((opened, lease));
        }
        let lease = office_path.opener.lock(office_path.rt, office_path.path)?;
        let opened = reacquired(self.opened.take(), &lease);
        if self.is_as_left(office_path, &lease)? {
            return Ok((opened, lease));
        }
        self.damage.forget();
        Ok((None, lease))
    }

    // Whether no other program has changed the files since they were left. Fails if committed changes are gone.
    fn is_as_left<O: KeepOpener<K>>(
        &self,
        office_path: &mut OfficePath<'_, O>,
        lease: &Lease,
    ) -> Result<bool, OfficeFault>
        ensures unasked { IsNoneOpened (O.openings office_path.old.opener) (O.openings office_path.new.opener) }
        ensures found { result ≡ Ok true → AreFound O.is_found self.now.left (Ok true) }
        ensures lost { IfErr result (λ fault. AreFound O.is_found self.now.left (Err fault)) }
    {
        match &self.left {
            Some(left) => {
                office_path
                    .opener
                    .is_unchanged(office_path.rt, office_path.path, lease, left)
            }
            None => Ok(false),
        }
    }

    // Whether no other program has changed the files since they were left. If committed changes are gone, they count
    // as changed.
    pub(super) fn are_files_as_left<O: KeepOpener<K>>(
        &self,
        office_path: &mut OfficePath<'_, O>,
        lease: &Lease,
    ) -> bool
        ensures found { result ≡ true → AreFound O.is_found self.now.left (Ok true) }
        ensures unasked { IsNoneOpened (O.openings office_path.old.opener) (O.openings office_path.new.opener) }
    {
        matches!(self.is_as_left(office_path, lease), Ok(true))
    }

    // Opens the office, and counts the opening. Fails if the office isn't opened, or the openings can't be counted any
    // further.
    fn open<O: KeepOpener<K>>(
        &mut self,
        office_path: &mut OfficePath<'_, O>,
        lease: &Lease,
    ) -> Result<OpenOffice<K>, OfficeFault>
        ensures opened { IfOk result (λ o. O.is_opened o.keep × (self.new.openings ≡ self.old.openings + 1)) }
        ensures once { OnOk result (IsOneOpened (O.openings office_path.old.opener) (O.openings office_path.new.opener)) }
        ensures err { OnErr result (self.new.openings ≡ self.old.openings) }
        ensures refused { IfErr result (λ fault. IsRefusedAfter fault self.old.openings
            (O.openings office_path.old.opener) (O.openings office_path.new.opener)) }
        ensures beside { self.new ≡ record self.old { openings = self.new.openings; notes = self.new.notes } }
    {
        let Some(openings) = self.openings.checked_add(1) else {
            return Err(OfficeFault::Memory);
        };
        let began = Instant::now(office_path.rt);
        match OpenOffice::at(office_path, lease) {
            Ok(opened) => {
                self.openings = openings;
                if openings > 1 {
                    note_opening(&mut self.notes, office_path.rt, began);
                }
                Ok(opened)
            }
            Err(fault) => Err(fault),
        }
    }

    // Keeps the office open if no fault was met, and releases it and the lock to other programs if no import is
    // under way.
    pub(super) fn check_in<O: KeepOpener<K>>(
        &mut self,
        office_path: &mut OfficePath<'_, O>,
        opened: OpenOffice<K>,
        lease: Lease,
        fault: Option<KeepFault>,
    )
        ensures left { IsLeftOpen opened.keep (state_of_session self.new) }
        ensures closed { IsSome fault → self.new.opened ≡ None }
        ensures unasked { IsNoneOpened (O.openings office_path.old.opener) (O.openings office_path.new.opener) }
        ensures openings { self.new.openings ≡ self.old.openings }
        ensures imports { self.new.imports ≡ self.old.imports }
        ensures damage { self.new.damage ≡ self.old.damage }
        ensures lock { IsLockKept self.new }
    {
        let log = opened.log_after(fault);
        let marked = if log.is_some() { self.left } else { None };
        let OfficePath { rt, path, .. } = *office_path;
        let left = left_now(&self.left, &PathFiles { rt, path }, &lease, log);
        if fault.is_none() {
            lease.mark_end(&marked, &left);
        }
        self.left = left;
        self.opened = match (fault, self.imports) {
            (Some(_), _) => None,
            (None, 0) => opened.release(office_path, &lease),
            (None, _) => Some(opened.stay()),
        };
        self.give_back(office_path, lease);
    }

    // Keeps the lease while an import is under way, and releases it otherwise.
    pub(super) fn give_back<O: KeepOpener<K>>(
        &mut self,
        office_path: &mut OfficePath<'_, O>,
        lease: Lease,
    )
        ensures same { self.new ≡ record self.old { lock = self.new.lock } }
        ensures lock { IsLockKept self.new }
        ensures unasked { IsNoneOpened (O.openings office_path.old.opener) (O.openings office_path.new.opener) }
    {
        self.lock = if self.imports > 0 {
            Some(lease)
        } else {
            office_path.opener.unlock(lease);
            None
        };
    }
}

// The office that was left, with its files locked again, if one was left and they can be locked.
fn reacquired<K: Keep + Drop>(left: Option<LeftOffice<K>>, lease: &Lease) -> Option<OpenOffice<K>>
    ensures { IfSome result (λ opened. option_map (λ left. left.keep) left ≡ Some opened.keep) }
{
    match left {
        Some(left) => left.reacquire(lease),
        None => None,
    }
}

// The state in which the files are left now: by an office whose log is open, if that was open before the turn and
// met no fault. None if it can't be read.
fn left_now<F: OfficeFiles>(
    before: &Option<LeftFiles>,
    files: &F,
    lease: &Lease,
    log: Option<&F::Log>,
) -> Option<LeftFiles>
    ensures { log.entry ≡ None → IfSome result (λ left. IfSome (F.known files.now) (λ known. AreNoted before.now known.0 known.1 left)) }
{
    let left = match (before, log) {
        (Some(left), Some(log)) => left.after_turn(files, lease, log),
        (left, _) => LeftFiles::of(files, lease, left),
    };
    left.ok()
}

// Writes on standard error that the file was opened anew, and how long that took.
fn note_opening(notes: &mut Notes, rt: &HostRuntime, began: io::Result<Instant>) {
    let Ok(began) = began else {
        return;
    };
    if let Ok(gone) = began.elapsed(rt) {
        let taken = gone.as_millis();
        notes.write(rt, format_args!("opened anew in {taken} ms"));
    }
}
