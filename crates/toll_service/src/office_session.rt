//! An office that stays open between requests, while other programs may use its file.
ghost use Rattle.std.specs.Prelude.{◌≡◌, ◌⊎◌, ◌-◌, None, Some, IfErr, IfOk, IfSome, IsSome, OnErr, OnOk};
ghost use Rattle.toll_server.specs.RequestBuffers.{bytes_received, listener_of};
ghost use Rattle.toll_server.specs.Runs.{Request, Task};
ghost use Rattle.toll_service.specs.Damages.{HasFoundDamage, IsNoted, KnowsNoMore, StaysWhere};
ghost use Rattle.toll_service.specs.Listeners.{IsServedIfRoom, IsTurnFault, ReportsFault};
ghost use Rattle.toll_service.specs.Openings.{IsSomeRefused, IsNoneOpened};
ghost use Rattle.toll_service.specs.Sessions.{AreAsLeft, IsSessionIdle, IsLockKept, IsNewSession, IsOpenedAhead, IsUsedBy, IsWithheld, TakesInput, imports_if_begun, imports_if_ended, state_of_session};

mod damages;
mod leases;

use crate::answering::answer_at;
use crate::damage::Damage;
use crate::office_path::{KeepOpener, OfficePath};
use crate::open_office::LeftOffice;
use crate::pending_import::PendingImport;
use crate::reading_ahead::read_ahead;
use crate::stopped_import::StoppedImport;
use crate::turn_result::TurnResult;
use std::alloc::{AllocError, Global};
use toll_files::{Lease, LeftFiles, Notes, OfficeFault};
use toll_keep::{Keep, KeepFault};
use toll_server::{Listener, Poll, RequestBuffer};
use toll_wire::OfficeRouter;

/// Serves requests over a file. It is opened for the first one, and stays open as long as no other program
/// changes it. If another program writes it between two requests, the file is opened anew, so the change is
/// seen. While an import is under way, no other program may use the file: its lock is kept.
pub struct OfficeSession<K> {
    opened: Option<LeftOffice<K>>,
    openings: u64,
    imports: u64,
    lock: Option<Lease>,
    router: OfficeRouter,
    left: Option<LeftFiles>,
    damage: Damage,
    notes: Notes,
}

/// By hand, since derived code is written out at every exit of every function that owns a session.
impl<K: Drop> Drop for OfficeSession<K> {
    fn drop(self) {
        let OfficeSession {
            opened: _,
            openings: _,
            imports: _,
            lock: _,
            router: _,
            left: _,
            damage: _,
            notes: _,
        } = self;
    }
}

impl<K: Keep + Drop> OfficeSession<K> {
    /// A session that has opened no file yet.
    pub fn new(alloc: Global) -> Self
        ensures { IsNewSession result }
    {
        OfficeSession {
            opened: None,
            openings: 0,
            imports: 0,
            lock: None,
            router: OfficeRouter::new(),
            left: None,
            damage: Damage::new(alloc),
            notes: Notes::new(),
        }
    }

    /// Opens the office before the first request, reads its rows and makes the owners' genealogies, so that the first
    /// requests find them in memory. An `Err` if the lock isn't taken or the file isn't opened.
    pub fn open_ahead<O: KeepOpener<K>>(
        &mut self,
        office_path: &mut OfficePath<'_, O>,
    ) -> Result<(), OfficeFault>
        ensures ahead { IsNewSession self.old → IsOpenedAhead K.meaning O.is_opened (O.openings office_path.old.opener) (O.openings office_path.new.opener) (state_of_session self.new) }
        ensures imports { self.new.imports ≡ self.old.imports }
        ensures damage { KnowsNoMore self.old.damage self.new.damage }
        ensures lock { IsLockKept self.old → IsLockKept self.new }
    {
        let (mut opened, lease) = self.check_out(office_path)?;
        let read = read_ahead(office_path.rt.alloc(), &mut opened.keep);
        self.check_in(office_path, opened, lease, read.err());
        Ok(())
    }

    /// The answer to a request, over the office in the file, or the import that it begins. The answer has no bytes if
    /// there is no memory. An `Err` if the lock isn't taken or the file isn't opened. After an answer that reports a
    /// fault, the file is opened anew. Damage that the request met is remembered.
    pub fn answer<O: KeepOpener<K>>(
        &mut self,
        office_path: &mut OfficePath<'_, O>,
        request: &RequestBuffer,
    ) -> Result<TurnResult, OfficeFault>
        ensures ok { IfOk result (λ reply. TakesInput K.meaning O.is_opened O.is_found self.old
            (Request (listener_of request.now) (bytes_received request.now)) reply.poll self.new) }
        ensures closed { IfOk result (λ reply. IsSome reply.fault → self.new.opened ≡ None) }
        ensures reports { IfOk result (λ reply. listener_of request.now ≡ Listener.Plant → reply.fault ≡ Some KeepFault.Damaged
            → ReportsFault KeepFault.Damaged reply.poll) }
        ensures imports { IfOk result (λ reply. self.new.imports ≡ imports_if_begun reply.poll self.old.imports) }
        ensures err { OnErr result (IsSessionIdle (state_of_session self.old) (state_of_session self.new) × (self.new.imports ≡ self.old.imports)) }
        ensures refused { IfErr result (λ fault. IsWithheld O.is_found fault self.old
            (O.openings office_path.old.opener) (O.openings office_path.new.opener)) }
        ensures damage { IfOk result (λ reply. IsNoted (HasFoundDamage K.meaning O.has_damaged (IsUsedBy O.is_opened O.is_found self.old self.new))
            (AreAsLeft O.is_found self.old) (ReportsFault KeepFault.Damaged reply.poll)
            self.old.damage self.new.damage (listener_of request.now) (bytes_received request.now)) }
        ensures stays { OnErr result ((self.new.left ≡ self.old.left) × KnowsNoMore self.old.damage self.new.damage) }
        ensures lock { IsLockKept self.old → IsLockKept self.new }
    {
        let (mut opened, lease) = self.check_out(office_path)?;
        let reply = reply_over(
            office_path.rt.alloc(),
            &mut self.router,
            &mut opened.keep,
            request,
        );
        if let Poll::Pending(_) = &reply.poll {
            self.imports = self.imports.saturating_add(1);
        }
        self.note_damage(office_path, &opened.keep, request, reply.fault);
        self.check_in(office_path, opened, lease, reply.fault);
        Ok(reply)
    }

    /// Resumes an import that an answer or an earlier turn left, over the office in the file. An `Err` if the
    /// office isn't opened: the import is then no longer under way. After a turn that reports a fault, the
    /// file is opened anew.
    pub fn resume<O: KeepOpener<K>>(
        &mut self,
        office_path: &mut OfficePath<'_, O>,
        import: PendingImport,
    ) -> Result<TurnResult, StoppedImport>
        ensures ok { IfOk result (λ reply. TakesInput K.meaning O.is_opened O.is_found self.old (Task import) reply.poll self.new) }
        ensures closed { IfOk result (λ reply. IsSome reply.fault → self.new.opened ≡ None) }
        ensures imports { IfOk result (λ reply. self.new.imports ≡ imports_if_ended reply.poll self.old.imports) }
        ensures err { OnErr result (IsSessionIdle (state_of_session self.old) (state_of_session self.new)) }
        ensures refused { IfErr result (λ stopped. IsWithheld O.is_found stopped.fault self.old
            (O.openings office_path.old.opener) (O.openings office_path.new.opener)) }
        ensures damage { OnOk result (StaysWhere (AreAsLeft O.is_found self.old) self.old.damage self.new.damage) }
        ensures stays { OnErr result ((self.new.left ≡ self.old.left) × KnowsNoMore self.old.damage self.new.damage) }
        ensures stopped { IfErr result (λ stopped. (stopped.import ≡ import) × (self.new.imports ≡ self.old.imports - 1)) }
        ensures lock { IsLockKept self.old → IsLockKept self.new }
    {
        match self.check_out(office_path) {
            Ok((mut opened, lease)) => {
                let reply = import.resume(office_path.rt.alloc(), &mut opened.keep);
                if let Poll::Ready(_) = &reply.poll {
                    self.imports = self.imports.saturating_sub(1);
                }
                self.check_in(office_path, opened, lease, reply.fault);
                Ok(reply)
            }
            Err(fault) => {
                self.imports = self.imports.saturating_sub(1);
                if let Some(lease) = self.lock.take() {
                    self.give_back(office_path, lease);
                }
                Err(StoppedImport { fault, import })
            }
        }
    }

    /// Closes the file, if it is open and the lock is taken. All answered changes are in the file whether or
    /// not it is closed.
    pub fn close<O: KeepOpener<K>>(mut self, office_path: &mut OfficePath<'_, O>)
        ensures { IsNoneOpened (O.openings office_path.old.opener) (O.openings office_path.new.opener)
            ⊎ IsSomeRefused (O.openings office_path.old.opener) (O.openings office_path.new.opener) }
    {
        if let Ok((left, lease)) = self.check_out_left(office_path) {
            if let Some(opened) = left {
                opened.close(&mut office_path.opener, &lease);
            }
            office_path.opener.unlock(lease);
        }
    }
}

// The answer over a keep; no bytes if there is no memory. The keep is then to be dropped.
fn reply_over<K: Keep>(
    alloc: Global,
    router: &mut OfficeRouter,
    keep: &mut K,
    request: &RequestBuffer,
) -> TurnResult
    ensures served { IsServedIfRoom K.meaning keep.old keep.new (listener_of request.now) (bytes_received request.now) result.poll }
    ensures met { IfSome result.fault (IsTurnFault K.meaning keep.old keep.new (listener_of request.now) result.poll) }
{
    match answer_at(alloc, router, keep, request) {
        Ok(reply) => reply,
        Err(AllocError) => TurnResult {
            poll: Poll::Ready(Vec::new(alloc)),
            fault: Some(KeepFault::Memory),
        },
    }
}
