//! What a session does with damage that a turn met.
ghost use Rattle.std.specs.Prelude.{◌≡◌, ◌≢◌, ◌⊎◌, Contains, Some, true, Ok, ⊤, IfErr, OnOk};
ghost use Rattle.toll_base.specs.Bytes.{Bytes};
ghost use Rattle.toll_server.specs.RequestBuffers.{bytes_received, listener_of};
ghost use Rattle.toll_service.specs.Damages.{IsKnown, IsNoted};
ghost use Rattle.toll_service.specs.Openings.{IsOneRefused, IsNoneOpened};
ghost use Rattle.toll_service.specs.Parties.{IsBy};
ghost use Rattle.toll_service.specs.Sessions.{AreAsLeft};

use super::OfficeSession;
use crate::office_path::{KeepOpener, OfficePath};
use crate::party::Party;
use std::str;
use toll_base::Name;
use toll_files::{Notes, OfficeFault};
use toll_keep::{Keep, KeepFault};
use toll_server::RequestBuffer;

impl<K: Keep + Drop> OfficeSession<K> {
    /// Whether a request or call is known to meet damage, and no other program has written the
    /// files since that was found out. An `Err` if the files are to be compared and the lock isn't taken.
    pub fn is_damaged<O: KeepOpener<K>>(
        &self,
        office_path: &mut OfficePath<'_, O>,
        request: &RequestBuffer,
    ) -> Result<bool, OfficeFault>
        ensures known { result ≡ Ok true → IsKnown self.now.damage (listener_of request.now) (bytes_received request.now) × AreAsLeft O.is_found self.now }
        ensures unasked { OnOk result (IsNoneOpened (O.openings office_path.old.opener) (O.openings office_path.new.opener)) }
        ensures refused { IfErr result (λ fault. IsOneRefused fault
            (O.openings office_path.old.opener) (O.openings office_path.new.opener)) }
    {
        if !self.damage.is_known(request) {
            return Ok(false);
        }
        if self.lock.is_some() {
            return Ok(true);
        }
        let lease = office_path.opener.lock(office_path.rt, office_path.path)?;
        let are_as_left = self.are_files_as_left(office_path, &lease);
        office_path.opener.unlock(lease);
        Ok(are_as_left)
    }

    /// After a turn over this keep, remembers a call of the plant that met damage, or the owner that a request
    /// claims if the request met damage in the rows of this very owner.
    pub(super) fn note_damage<O: KeepOpener<K>>(
        &mut self,
        office_path: &OfficePath<'_, O>,
        keep: &K,
        request: &RequestBuffer,
        fault: Option<KeepFault>,
    )
        ensures beside { self.new ≡ record self.old { damage = self.new.damage; notes = self.new.notes } }
        ensures spared { fault ≢ Some KeepFault.Damaged → self.new ≡ self.old }
        ensures noted { IsNoted (λ owner. (fault ≡ Some KeepFault.Damaged) × O.has_damaged keep.now owner) ⊤ (fault ≡ Some KeepFault.Damaged)
            self.old.damage self.new.damage (listener_of request.now) (bytes_received request.now) }
    {
        let Some(KeepFault::Damaged) = fault else {
            return;
        };
        match request {
            RequestBuffer::Owner(_) => {
                if let Some(owner) = office_path.opener.damaged_owner(keep) {
                    self.note_claimed(office_path.rt, request, owner);
                }
            }
            RequestBuffer::Plant(frame) => {
                self.damage.note_call(office_path.rt.alloc(), &frame.bytes);
            }
        }
    }

    // Remembers an owner whose rows are damaged, if the request claims it.
    fn note_claimed(&mut self, rt: &HostRuntime, request: &RequestBuffer, owner: Name)
        ensures beside { self.new ≡ record self.old { damage = self.new.damage; notes = self.new.notes } }
        ensures owners { (o : Bytes) → Contains self.new.damage.owners.items o → Contains self.old.damage.owners.items o
            ⊎ ((o ≡ owner) × IsBy (listener_of request.now) (bytes_received request.now) (Party.Owner o)) }
        ensures calls { self.new.damage.calls ≡ self.old.damage.calls }
    {
        let Party::Owner(claimed) = Party::of(request) else {
            return;
        };
        if claimed == owner {
            self.damage.note_owner(owner);
            note_rows(&mut self.notes, rt, &owner);
        }
    }
}

// Writes on standard error that an owner's rows are damaged.
fn note_rows(notes: &mut Notes, rt: &HostRuntime, owner: &Name) {
    if let Ok(name) = str::from_utf8(owner.as_bytes()) {
        notes.write(rt, format_args!("damaged rows of {name}"));
    }
}
